//! The letters that terms make at successive qubits.
ghost use Rattle.std.specs.Prelude.{◌≡◌, ◌<◌, ◌+◌, ◌∷◌, ℕ, [], length, not, slice_index_or};
ghost use Rattle.circuit_walk.specs.Letters.{AreSmall, letters_in};
ghost use Rattle.pauli_word.specs.declared.letter.Letter.TheVariants.{I};
ghost use Rattle.pauli_word.specs.Letters.{letter_product};
ghost use Rattle.step_model.specs.Listing.{is_I};
ghost use Rattle.fault_list.specs.FaultLines.{letter_text};
ghost use Rattle.fault_list.specs.private.TermLetters.{letter_here, letter_in};

use circuit_walk::Letters;
use pauli_word::Letter;
use step_model::Term;

/// Makes each letter the product of those that terms have at its qubit; the first is that of this qubit.
pub(crate) fn gather(letters: &mut [Letter], terms: Letters<'_>, from: u32)
    requires { AreSmall terms }
    ensures { (k : ℕ)
        → k < length letters.old
        → slice_index_or letters.new k I ≡ letter_in (letters_in terms.entry) (from + k) }
{
    letters.fill(Letter::I);
    let mut left = terms;
    while let Some((term, rest)) = left.split_first() {
        multiply(letters, from, term);
        left = rest;
    }
}

// Multiplies a term into the letter of its qubit, where that is among them.
#[inline(always)]
fn multiply(letters: &mut [Letter], from: u32, term: Term)
    ensures { (k : ℕ)
        → k < length letters.old
        → slice_index_or letters.new k I
        ≡ letter_product (slice_index_or letters.old k I) (letter_here term (from + k)) }
{
    if term.qubit < from {
        return;
    }
    let at = (term.qubit - from) as usize;
    if at < letters.len() {
        letters[at] = letters[at].times(term.letter);
    }
}

/// Whether a letter isn't I.
pub(crate) fn acts(letter: Letter) -> bool
    ensures { result ≡ not (is_I letter) }
{
    match letter {
        Letter::I => false,
        Letter::X | Letter::Y | Letter::Z => true,
    }
}

/// The bytes of the letters in their order.
const LETTER_BYTES: [u8; 4] = *b"IXYZ";

/// The byte of a letter.
#[inline(always)]
pub(crate) fn letter_byte(letter: Letter) -> u8
    ensures { result ∷ [] ≡ letter_text letter }
{
    LETTER_BYTES[letter as usize]
}
