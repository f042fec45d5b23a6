//! Gates and Pauli words: they change only the pairs of their qubits.
ghost use Rattle.std.specs.Prelude.{◌≡◌, ◌≢◌, ◌<◌, length, true, false};
ghost use Rattle.gate_table.specs.Images.{arity_of};
ghost use Rattle.pauli_word.specs.declared.letter.Letter.{Letter};
ghost use Rattle.pauli_word.specs.declared.letter.Letter.TheVariants.{X, Z};
ghost use Rattle.pauli_word.specs.Words.{anticommute, product, with_sign_changed};
ghost use Rattle.tableau.specs.private.Encoding.{HasLength, IsTableau, word_of};
ghost use Rattle.tableau.specs.private.EncodingSteps.{preimage_word, preimage_product, after_one, after_two, after_word};

use crate::controlled::{apply_controlled, controlled_letters};
use crate::pairs::{Pair, apply_letter, arrange, change_sign, multiply, replace, set_word};
use gate_table::Gate;
use pauli_word::{Letter, Word};
use std::alloc::Allocator;

/// Applies a one-qubit gate.
#[inline(never)]
pub(crate) fn apply_one<A: Allocator + Copy>(rows: &mut Vec<Pair<A>, A>, gate: Gate, qubit: usize)
    requires arity { arity_of gate ≡ 1 }
    requires inside { qubit < length rows.old.items }
    requires tableau { IsTableau (length rows.old.items) rows.old.items }
    ensures { rows.new.items ≡ after_one (length rows.old.items) gate qubit rows.old.items }
{
    set_preimages(&mut rows[qubit], gate);
}

// Makes the words of X and Z those of their preimages.
#[inline(always)]
fn set_preimages<A: Allocator + Copy>(pair: &mut Pair<A>, gate: Gate)
    requires arity { arity_of gate ≡ 1 }
    requires size { HasLength (length pair.old.0.letters) pair.old }
    requires apart { anticommute pair.old.0.letters pair.old.1.letters ≡ true }
    ensures { pair.new
        ≡ (
          preimage_word (length pair.old.0.letters) gate pair.old X,
          preimage_word (length pair.old.0.letters) gate pair.old Z,
        ) }
{
    let inverse = gate.inverse();
    let (x, x_minus) = inverse.image1(Letter::X);
    let (z, z_minus) = inverse.image1(Letter::Z);
    arrange(pair, x, z);
    change_sign(&mut pair.0, x_minus);
    change_sign(&mut pair.1, z_minus);
}

/// Applies a two-qubit gate. SWAP exchanges two pairs, and a gate that isn't controlled makes all four words anew. What it
/// leaves in `first` and `second` is of no use.
#[inline(never)]
pub(crate) fn apply_two<A: Allocator + Copy>(
    rows: &mut Vec<Pair<A>, A>,
    first: &mut Pair<A>,
    second: &mut Pair<A>,
    gate: Gate,
    a: usize,
    b: usize,
)
    requires arity { arity_of gate ≡ 2 }
    requires first_inside { a < length rows.old.items }
    requires second_inside { b < length rows.old.items }
    requires differ { a ≢ b }
    requires tableau { IsTableau (length rows.old.items) rows.old.items }
    requires first { HasLength (length rows.old.items) first.old }
    requires second { HasLength (length rows.old.items) second.old }
    ensures rows { rows.new.items ≡ after_two (length rows.old.items) gate a b rows.old.items }
    ensures first { HasLength (length rows.old.items) first.new }
    ensures second { HasLength (length rows.old.items) second.new }
{
    if let Gate::Swap = gate {
        rows.as_mut_slice().swap(a, b);
        return;
    }
    if let Some(letters) = controlled_letters(gate) {
        apply_controlled(rows.as_mut_slice(), letters.0, letters.1, a, b);
        return;
    }
    make_anew(rows, first, second, gate, a, b);
}

// The four words made anew, in `first` and `second`.
#[inline(never)]
fn make_anew<A: Allocator + Copy>(
    rows: &mut Vec<Pair<A>, A>,
    first: &mut Pair<A>,
    second: &mut Pair<A>,
    gate: Gate,
    a: usize,
    b: usize,
)
    requires arity { arity_of gate ≡ 2 }
    requires first_inside { a < length rows.old.items }
    requires second_inside { b < length rows.old.items }
    requires differ { a ≢ b }
    requires tableau { IsTableau (length rows.old.items) rows.old.items }
    requires first { HasLength (length rows.old.items) first.old }
    requires second { HasLength (length rows.old.items) second.old }
    ensures rows { rows.new.items ≡ after_two (length rows.old.items) gate a b rows.old.items }
    ensures first { HasLength (length rows.old.items) first.new }
    ensures second { HasLength (length rows.old.items) second.new }
{
    set_products(
        first,
        &rows[a],
        &rows[b],
        gate,
        (Letter::X, Letter::I),
        (Letter::Z, Letter::I),
    );
    set_products(
        second,
        &rows[a],
        &rows[b],
        gate,
        (Letter::I, Letter::X),
        (Letter::I, Letter::Z),
    );
    replace(&mut rows[a], first);
    replace(&mut rows[b], second);
}

// The words of the preimages of two pairs of letters.
fn set_products<A: Allocator + Copy>(
    new: &mut Pair<A>,
    first: &Pair<A>,
    second: &Pair<A>,
    gate: Gate,
    x: (Letter, Letter),
    z: (Letter, Letter),
)
    requires arity { arity_of gate ≡ 2 }
    requires new { HasLength (length new.old.0.letters) new.old }
    requires first { HasLength (length new.old.0.letters) first.now }
    requires second { HasLength (length new.old.0.letters) second.now }
    requires commuting { (a : Letter)
        → anticommute (word_of (length new.old.0.letters) first.now a).letters second.now.1.letters
        ≡ false }
    ensures { new.new
        ≡ (
          preimage_product (length new.old.0.letters) gate first.now second.now x,
          preimage_product
              (length new.old.0.letters) gate first.now second.now z,
        ) }
{
    let inverse = gate.inverse();
    set_product(&mut new.0, first, second, inverse.image2(x.0, x.1));
    set_product(&mut new.1, first, second, inverse.image2(z.0, z.1));
}

// The word of two letters at two qubits, with a sign.
fn set_product<A: Allocator + Copy>(
    word: &mut Word<A>,
    first: &Pair<A>,
    second: &Pair<A>,
    letters: (Letter, Letter, bool),
)
    requires first { HasLength (length word.old.letters) first.now }
    requires second { HasLength (length word.old.letters) second.now }
    requires commuting { (a : Letter)
        → anticommute (word_of (length word.old.letters) first.now a).letters second.now.1.letters
        ≡ false }
    ensures { word.new
        ≡ with_sign_changed letters.2
        (product (word_of (length word.old.letters) first.now letters.0)
        (word_of (length word.old.letters) second.now letters.1)) }
{
    match letters.0 {
        Letter::I => set_word(word, second, letters.1, letters.2),
        _ => {
            set_word(word, first, letters.0, false);
            multiply(word, second, letters.1);
            change_sign(word, letters.2);
        }
    }
}

/// Applies the letters of a Pauli word.
pub(crate) fn apply_letters<A: Allocator + Copy>(rows: &mut Vec<Pair<A>, A>, word: &Word<A>)
    requires { length word.now.letters ≡ length rows.old.items }
    ensures { rows.new.items ≡ after_word word.now.letters rows.old.items }
{
    for qubit in 0..rows.len() {
        apply_letter(&mut rows[qubit], word.letter(qubit));
    }
}
