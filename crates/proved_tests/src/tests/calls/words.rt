//! Each public call once, with ample memory; products and commuting pairs by hand.
ghost use Rattle.std.specs.Prelude.{◌≡◌, length, IfOk};

use pauli_word::Letter::{self, I, X, Y, Z};
use pauli_word::{Word, laws};
use std::alloc::{AllocError, Global};
use std::process::Abort;

const PLUS: bool = false;

const MINUS: bool = true;

/// Whether the sign is minus, and two letters.
type Signed = (bool, Letter, Letter);

/// The word of these letters, of sign plus.
fn word_of(alloc: Global, letters: &[Letter]) -> Result<Word<Global>, AllocError>
    ensures { IfOk result (λ w. length w.letters ≡ length letters.now) }
{
    let mut word = Word::identity(alloc, letters.len())?;
    for qubit in 0..letters.len() {
        word.set_letter(qubit, letters[qubit]);
    }
    Ok(word)
}

/// The word of these letters and this sign.
fn signed_word(
    alloc: Global,
    negative: bool,
    letters: &[Letter],
) -> Result<Word<Global>, AllocError>
    ensures { IfOk result (λ w. length w.letters ≡ length letters.now) }
{
    let mut word = word_of(alloc, letters)?;
    word.set_sign(negative);
    Ok(word)
}

/// Multiplies, and says that the word keeps its length.
#[tactic(auto, using(pauli_word::proofs::WordLaws::product_lengths))]
fn times(first: &mut Word<Global>, second: &Word<Global>) -> bool
    requires { length first.old.letters ≡ length second.now.letters }
    ensures { length first.new.letters ≡ length first.old.letters }
{
    first.times(second)
}

/// Multiplies two words that have to commute: whether `times` answers so, and the product has this sign and these letters.
fn multiply_to(
    rt: &impl Abort,
    word: &mut Word<Global>,
    other: &Word<Global>,
    product: Signed,
    brings_minus: bool,
) -> bool
    requires word { length word.old.letters ≡ 2 }
    requires other { length other.now.letters ≡ 2 }
{
    assert!(rt; word.commutes(other));
    let brought_minus = times(word, other);
    let (negative, first, second) = product;
    (brought_minus == brings_minus)
        & (word.sign() == negative)
        & (word.letter(0) == first)
        & (word.letter(1) == second)
}

/// Two words, their product, and whether the letters brought a factor -1.
type Product = (Signed, Signed, Signed, bool);

const PRODUCTS: &[Product] = &[
    // X Z = -i Y at each qubit, and (-i)(-i) = -1
    ((PLUS, X, X), (PLUS, Z, Z), (MINUS, Y, Y), true),
    // Z X = i Y at each qubit, and i i = -1
    ((PLUS, Z, Z), (PLUS, X, X), (MINUS, Y, Y), true),
    // X Y = i Z, Y X = -i Z, and i (-i) = 1
    ((PLUS, X, Y), (PLUS, Y, X), (PLUS, Z, Z), false),
    // the signs of the words are no factor that the letters bring
    ((MINUS, X, I), (PLUS, X, I), (MINUS, I, I), false),
    ((PLUS, X, I), (MINUS, X, I), (MINUS, I, I), false),
    ((MINUS, X, X), (PLUS, Z, Z), (PLUS, Y, Y), true),
    // letters at different qubits
    ((PLUS, Y, I), (PLUS, I, Z), (PLUS, Y, Z), false),
];

fn has_product_with(
    rt: &impl Abort,
    alloc: Global,
    word: &mut Word<Global>,
    row: &Product,
) -> Result<bool, AllocError>
    requires { length word.old.letters ≡ 2 }
{
    let (_, second, product, brings_minus) = *row;
    let other = signed_word(alloc, second.0, &[second.1, second.2])?;
    Ok(multiply_to(rt, word, &other, product, brings_minus))
}

fn has_product(rt: &impl Abort, alloc: Global, row: &Product) -> Result<bool, AllocError> {
    let (negative, first, second) = row.0;
    let mut word = signed_word(alloc, negative, &[first, second])?;
    has_product_with(rt, alloc, &mut word, row)
}

#[test]
fn products(rt: HostRuntime) {
    for row in PRODUCTS {
        assert!(rt;
            matches!(has_product(&rt, rt.alloc(), row), Ok(true)),
            "{row:?}"
        );
    }
}

fn call_laws() {
    laws::powers_form_a_group();
    laws::products_keep_length();
    laws::products_associate();
    laws::identity_is_neutral();
    laws::words_are_their_own_inverses();
    laws::order_changes_the_sign();
    laws::commuting_products_are_signed();
    laws::anticommuting_adds_up();
    laws::commuting_words_form_a_group();
    laws::start_is_group();
    laws::applied_words_keep_group();
    laws::collapses_keep_group();
}

/// The letters of two words, and whether these commute.
type Pair = ((Letter, Letter), (Letter, Letter), bool);

const COMMUTING: &[Pair] = &[
    ((X, X), (Z, Z), true),
    ((X, I), (Z, I), false),
    ((X, I), (I, Z), true),
    ((X, Y), (Z, I), false),
    ((X, Y), (X, Y), true),
    ((I, I), (Y, Z), true),
    ((X, Y), (Y, Y), false),
];

/// Whether it commutes with the second word or not as it should, either way round.
fn is_in_pair(alloc: Global, first: &Word<Global>, row: &Pair) -> Result<bool, AllocError>
    requires { length first.now.letters ≡ 2 }
{
    let (_, (one, other), wanted) = *row;
    let second = signed_word(alloc, MINUS, &[one, other])?;
    Ok((first.commutes(&second) == wanted) & (second.commutes(first) == wanted))
}

fn is_pair(alloc: Global, row: &Pair) -> Result<bool, AllocError> {
    let (one, other) = row.0;
    let first = signed_word(alloc, PLUS, &[one, other])?;
    is_in_pair(alloc, &first, row)
}

#[test]
fn commuting(rt: HostRuntime) {
    call_laws();
    for row in COMMUTING {
        assert!(rt; matches!(is_pair(rt.alloc(), row), Ok(true)), "{row:?}");
    }
}

/// Sets the same letter at the first and at the last of 4,096 qubits.
fn set_ends(word: &mut Word<Global>, letter: Letter)
    requires { length word.old.letters ≡ 4096 }
    ensures { length word.new.letters ≡ 4096 }
{
    word.set_letter(0, letter);
    word.set_letter(4_095, letter);
}

/// Whether X at both ends times Z at both is minus Y at both: (-i)(-i) = -1.
fn multiplies_ends(rt: &impl Abort, alloc: Global) -> Result<bool, AllocError> {
    let mut word = Word::identity(alloc, 4_096)?;
    let mut other = Word::identity(alloc, 4_096)?;
    set_ends(&mut word, X);
    set_ends(&mut other, Z);
    assert!(rt; word.commutes(&other));
    let brought_minus = times(&mut word, &other);
    Ok(brought_minus && word.sign() && word.letter(0) == Y && word.letter(4_095) == Y)
}

#[test]
fn letters_far_apart(rt: HostRuntime) {
    assert!(rt; matches!(multiplies_ends(&rt, rt.alloc()), Ok(true)));
}

// No machine has this much memory.
#[test]
fn too_long_a_word(rt: HostRuntime) {
    assert!(rt; Word::identity(rt.alloc(), usize::MAX).is_err());
}
