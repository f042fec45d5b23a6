//! The pair of words that X and Z at one qubit become under the inverse circuit, and the words of other letters there.
ghost use Rattle.std.specs.Prelude.{◌≡◌, ◌<◌, ℕ, length, false, IfOk};
ghost use Rattle.pauli_word.specs.declared.letter.Letter.TheVariants.{Y};
ghost use Rattle.pauli_word.specs.Words.{anticommute, product, with_sign_changed};
ghost use Rattle.pauli_word.specs.Groups.{identity_word};
ghost use Rattle.tableau.specs.private.Encoding.{HasLength, pair_at, word_of};
ghost use Rattle.tableau.specs.private.EncodingSteps.{arranged, pair_after, start_pair, start_rows};

use pauli_word::{Letter, Word};
use std::alloc::{AllocError, Allocator};

/// The words of X and of Z.
pub(crate) type Pair<A> = (Word<A>, Word<A>);

pub(crate) fn identity_pair<A: Allocator + Copy>(alloc: A, n: usize) -> Result<Pair<A>, AllocError>
    ensures { IfOk result (λ r. r ≡ (identity_word n, identity_word n)) }
{
    Ok((Word::identity(alloc, n)?, Word::identity(alloc, n)?))
}

// X and Z at a qubit, as they are.
fn start_pair<A: Allocator + Copy>(alloc: A, n: usize, qubit: usize) -> Result<Pair<A>, AllocError>
    requires { qubit < n }
    ensures { IfOk result (λ r. r ≡ start_pair n qubit) }
{
    let mut x = Word::identity(alloc, n)?;
    x.set_letter(qubit, Letter::X);
    let mut z = Word::identity(alloc, n)?;
    z.set_letter(qubit, Letter::Z);
    Ok((x, z))
}

/// X and Z at each qubit, as they are.
pub(crate) fn start_pairs<A: Allocator + Copy>(
    alloc: A,
    n: usize,
) -> Result<Vec<Pair<A>, A>, AllocError>
    ensures { IfOk result (λ rows. rows.items ≡ start_rows n) }
{
    let mut rows = Vec::with_capacity(alloc, n)?;
    for qubit in 0..n {
        rows.push_reserved(start_pair(alloc, n, qubit)?);
    }
    Ok(rows)
}

/// Makes the pair of each qubit X and Z there again, as they are.
pub(crate) fn restart_pairs<A: Allocator + Copy>(rows: &mut Vec<Pair<A>, A>)
    requires { let n = length rows.old.items in
        (q : ℕ) → q < n → HasLength n (pair_at n rows.old.items q) }
    ensures { rows.new.items ≡ start_rows (length rows.old.items) }
{
    for qubit in 0..rows.len() {
        restart_pair(&mut rows[qubit], qubit);
    }
}

fn restart_pair<A: Allocator + Copy>(pair: &mut Pair<A>, qubit: usize)
    requires inside { qubit < length pair.old.0.letters }
    requires size { HasLength (length pair.old.0.letters) pair.old }
    ensures { pair.new ≡ start_pair (length pair.old.0.letters) qubit }
{
    pair.0.clear();
    pair.0.set_letter(qubit, Letter::X);
    pair.1.clear();
    pair.1.set_letter(qubit, Letter::Z);
}

/// Multiplies by a word from the right. It is not inlined, since its callers would hold it once for each letter. A word
/// of few qubits is multiplied before any register is put aside.
#[inline(never)]
pub(crate) fn times<A: Allocator + Copy>(word: &mut Word<A>, other: &Word<A>)
    requires { length word.old.letters ≡ length other.now.letters }
    ensures { word.new ≡ product word.old other.now }
{
    if other.is_short() {
        word.times(other);
    } else {
        times_long(word, other);
    }
}

#[inline(never)]
fn times_long<A: Allocator + Copy>(word: &mut Word<A>, other: &Word<A>)
    requires { length word.old.letters ≡ length other.now.letters }
    ensures { word.new ≡ product word.old other.now }
{
    word.times(other);
}

/// Multiplies by the word of a letter. For Y, `word` must commute with the word of Z.
pub(crate) fn multiply<A: Allocator + Copy>(word: &mut Word<A>, pair: &Pair<A>, letter: Letter)
    requires size { HasLength (length word.old.letters) pair.now }
    requires commuting { letter ≡ Y → anticommute word.old.letters pair.now.1.letters ≡ false }
    ensures { word.new ≡ product word.old (word_of (length word.old.letters) pair.now letter) }
{
    match letter {
        Letter::I => {}
        Letter::X => {
            times(word, &pair.0);
        }
        Letter::Y => {
            times(word, &pair.0);
            times(word, &pair.1);
            change_sign(word, true);
        }
        Letter::Z => {
            times(word, &pair.1);
        }
    }
}

/// Sets a word to that of a letter, with its sign changed where `minus`.
pub(crate) fn set_word<A: Allocator + Copy>(
    word: &mut Word<A>,
    pair: &Pair<A>,
    letter: Letter,
    minus: bool,
)
    requires { HasLength (length word.old.letters) pair.now }
    ensures { word.new
        ≡ with_sign_changed minus (word_of (length word.old.letters) pair.now letter) }
{
    match letter {
        Letter::I => word.clear(),
        Letter::X => word.copy_from(&pair.0),
        Letter::Y => {
            word.copy_from(&pair.0);
            times(word, &pair.1);
            change_sign(word, true);
        }
        Letter::Z => word.copy_from(&pair.1),
    }
    change_sign(word, minus);
}

/// Changes the sign where `minus`.
#[inline(always)]
pub(crate) fn change_sign<A: Allocator + Copy>(word: &mut Word<A>, minus: bool)
    ensures { word.new ≡ with_sign_changed minus word.old }
{
    word.set_sign(minus ^ word.sign());
}

/// Makes a pair equal to another, in its own memory. So pairs keep their order in memory, and a pass over all of them
/// reads it in order.
#[inline(never)]
pub(crate) fn replace<A: Allocator + Copy>(pair: &mut Pair<A>, new: &Pair<A>)
    requires x { length pair.old.0.letters ≡ length new.now.0.letters }
    requires z { length pair.old.1.letters ≡ length new.now.1.letters }
    ensures { pair.new ≡ new.now }
{
    pair.0.copy_from(&new.0);
    pair.1.copy_from(&new.1);
}

/// Makes the words of X and Z those of two letters that clash, up to signs, in place.
#[inline(always)]
pub(crate) fn arrange<A: Allocator + Copy>(pair: &mut Pair<A>, x: Letter, z: Letter)
    requires { length pair.old.0.letters ≡ length pair.old.1.letters }
    ensures { pair.new ≡ arranged x z pair.old }
{
    match (x, z) {
        (Letter::X, Letter::Y) => times(&mut pair.1, &pair.0),
        (Letter::Y, Letter::Z) => {
            times(&mut pair.0, &pair.1);
            change_sign(&mut pair.0, true);
        }
        (Letter::Y, Letter::X) => {
            exchange(pair);
            times(&mut pair.0, &pair.1);
        }
        (Letter::Z, Letter::X) => exchange(pair),
        (Letter::Z, Letter::Y) => {
            exchange(pair);
            times(&mut pair.1, &pair.0);
            change_sign(&mut pair.1, true);
        }
        _ => {}
    }
}

// Exchanges the words of a pair.
#[inline(always)]
fn exchange<A: Allocator + Copy>(pair: &mut Pair<A>)
    ensures { pair.new ≡ (pair.old.1, pair.old.0) }
{
    std::mem::swap(&mut pair.0, &mut pair.1);
}

/// Applies a letter to the qubit: the words of X and Z change their signs where X and Z anticommute with it.
#[inline(always)]
pub(crate) fn apply_letter<A: Allocator + Copy>(pair: &mut Pair<A>, letter: Letter)
    ensures { pair.new ≡ pair_after letter pair.old }
{
    change_sign(&mut pair.0, Letter::X.clashes(letter));
    change_sign(&mut pair.1, Letter::Z.clashes(letter));
}
