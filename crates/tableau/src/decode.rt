//! The rows of the circuit's map, read from those of its inverse.
ghost use Rattle.std.specs.Prelude.{◌≡◌, ◌<◌, length, false};
ghost use Rattle.pauli_word.specs.Bits.{letter_of};
ghost use Rattle.pauli_word.specs.declared.letter.Letter.TheVariants.{X, Z};
ghost use Rattle.pauli_word.specs.Letters.{letters_clash};
ghost use Rattle.pauli_word.specs.Words.{lone_letter, letter_at, signed};
ghost use Rattle.tableau.specs.private.Decoding.{decoded_letters};
ghost use Rattle.tableau.specs.private.Encoding.{IsTableau};

use crate::pairs::Pair;
use pauli_word::{Letter, Word};
use std::alloc::Allocator;

/// Sets a word to the one whose code is X at `row`, with sign plus.
pub(crate) fn decode<A: Allocator + Copy>(rows: &Vec<Pair<A>, A>, row: usize, word: &mut Word<A>)
    requires tableau { IsTableau (length rows.now.items) rows.now.items }
    requires inside { row < length rows.now.items }
    requires lengths { length word.old.letters ≡ length rows.now.items }
    ensures { word.new
        ≡ signed (decoded_letters rows.now.items (lone_letter (length rows.now.items) row X))
        false }
{
    for qubit in 0..rows.len() {
        word.set_letter(qubit, decoded_letter(&rows[qubit], row));
    }
    word.set_sign(false);
}

/// Whether the letter, at the qubit of this pair, of the word whose code is Z at `row` clashes with Z, and whether with X.
#[inline(always)]
pub(crate) fn stabilizer_clashes<A: Allocator + Copy>(pair: &Pair<A>, row: usize) -> (bool, bool)
    requires x { row < length pair.now.0.letters }
    requires z { row < length pair.now.1.letters }
    ensures { letter_of result.0 result.1
        ≡ letter_of (letters_clash (letter_at pair.now.1.letters row) Z)
        (letters_clash (letter_at pair.now.0.letters row) Z) }
{
    (pair.1.has_x_or_y(row), pair.0.has_x_or_y(row))
}

// The letter, at the qubit of this pair, of the word whose code is X at `row`.
#[inline(always)]
fn decoded_letter<A: Allocator + Copy>(pair: &Pair<A>, row: usize) -> Letter
    requires x { row < length pair.now.0.letters }
    requires z { row < length pair.now.1.letters }
    ensures { result
        ≡ letter_of (letters_clash X (letter_at pair.now.1.letters row))
        (letters_clash X (letter_at pair.now.0.letters row)) }
{
    Letter::of_bits(
        Letter::X.clashes(pair.1.letter(row)),
        Letter::X.clashes(pair.0.letter(row)),
    )
}
