//! The codes of letters and words: what they are under the map of the inverse circuit. A word whose code has only I and Z is
//! decided.
ghost use Rattle.std.specs.Prelude.{◌≡◌, ◌<◌, ℕ, length, IfSome};
ghost use Rattle.pauli_word.specs.Words.{lone_letter};
ghost use Rattle.tableau.specs.private.Encoding.{HasLength, IsTableau, word_of};
ghost use Rattle.tableau.specs.private.EncodingSteps.{lone, code_of, first_letters, IsDiagonal};

use crate::pairs::{Pair, multiply, set_word};
use pauli_word::{Letter, Word};
use std::alloc::Allocator;

/// Makes `code.0` the code of a word's letters.
pub(crate) fn encode<A: Allocator + Copy>(
    rows: &Vec<Pair<A>, A>,
    word: &Word<A>,
    code: &mut Pair<A>,
)
    requires tableau { IsTableau (length rows.now.items) rows.now.items }
    requires word { length word.now.letters ≡ length rows.now.items }
    requires code { HasLength (length rows.now.items) code.old }
    ensures code { HasLength (length rows.now.items) code.new }
    ensures of_word { code.new.0
        ≡ code_of (length rows.now.items) rows.now.items word.now.letters }
{
    let mut start = encode_first(rows, word, code);
    while let Some(qubit) = word.next_letter(start) {
        multiply(&mut code.0, &rows[qubit], word.letter(qubit));
        start = qubit + 1;
    }
}

// Makes `code.0` the code of a word's first letter alone, and answers the qubit behind it. It is copied, which takes less than a
// product with the identity.
fn encode_first<A: Allocator + Copy>(
    rows: &Vec<Pair<A>, A>,
    word: &Word<A>,
    code: &mut Pair<A>,
) -> usize
    requires tableau { IsTableau (length rows.now.items) rows.now.items }
    requires word { length word.now.letters ≡ length rows.now.items }
    requires code { HasLength (length rows.now.items) code.old }
    ensures first { code.new.0
        ≡ code_of (length rows.now.items) rows.now.items (first_letters result word.now.letters) }
    ensures second { code.new.1 ≡ code.old.1 }
{
    match word.next_letter(0) {
        None => {
            code.0.clear();
            0
        }
        Some(qubit) => {
            set_word(&mut code.0, &rows[qubit], word.letter(qubit), false);
            qubit + 1
        }
    }
}

/// Makes `code.0` the code of a letter at a qubit.
pub(crate) fn set_code<A: Allocator + Copy>(
    rows: &Vec<Pair<A>, A>,
    code: &mut Pair<A>,
    letter: Letter,
    qubit: usize,
)
    requires tableau { IsTableau (length rows.now.items) rows.now.items }
    requires inside { qubit < length rows.now.items }
    requires code { HasLength (length rows.now.items) code.old }
    ensures code { HasLength (length rows.now.items) code.new }
    ensures of_letter { let n = length rows.now.items in
        code.new.0 ≡ code_of n rows.now.items (lone_letter n qubit letter) }
{
    set_word(&mut code.0, &rows[qubit], letter, false);
}

/// The same, and makes `word.0` the letter at the qubit.
pub(crate) fn encode_letter<A: Allocator + Copy>(
    rows: &Vec<Pair<A>, A>,
    word: &mut Pair<A>,
    code: &mut Pair<A>,
    letter: Letter,
    qubit: usize,
)
    requires tableau { IsTableau (length rows.now.items) rows.now.items }
    requires inside { qubit < length rows.now.items }
    requires word { HasLength (length rows.now.items) word.old }
    requires code { HasLength (length rows.now.items) code.old }
    ensures word { HasLength (length rows.now.items) word.new }
    ensures code { HasLength (length rows.now.items) code.new }
    ensures letter { word.new.0 ≡ lone (length rows.now.items) qubit letter }
    ensures of_word { code.new.0
        ≡ code_of (length rows.now.items) rows.now.items word.new.0.letters }
{
    word.0.clear();
    word.0.set_letter(qubit, letter);
    set_code(rows, code, letter, qubit);
}

/// The sign of the word of X or of Z, where it has only I and Z. None doesn't mean that the outcome is random.
#[inline(always)]
pub(crate) fn sign_seen<A: Allocator + Copy>(pair: &Pair<A>, letter: Letter) -> Option<bool>
    ensures { IfSome result (λ minus. (n : ℕ) → IsDiagonal (word_of n pair.now letter) minus) }
{
    match letter {
        Letter::X => diagonal_sign(&pair.0),
        Letter::Z => diagonal_sign(&pair.1),
        Letter::I | Letter::Y => None,
    }
}

pub(crate) fn diagonal_sign<A: Allocator + Copy>(word: &Word<A>) -> Option<bool>
    ensures { IfSome result (IsDiagonal word.now) }
{
    match word.lowest_x_or_y() {
        None => Some(word.sign()),
        Some(_) => None,
    }
}
