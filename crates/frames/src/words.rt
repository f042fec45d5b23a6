//! Unsigned words and products of letters at qubits.
ghost use Rattle.std.specs.Prelude.{◌≡◌, ◌<◌, length, IfOk};
ghost use Rattle.circuit_walk.specs.Letters.{AreSmall, letters_in};
ghost use Rattle.pauli_word.specs.Words.{anticommute, letters_product, lone_letter, signed};
ghost use Rattle.step_model.specs.Listing.{word_of_terms};
ghost use Rattle.step_model.specs.WellFormed.{TermsFit};

use circuit_walk::Letters;
use pauli_word::{Letter, Word};
use std::alloc::{AllocError, Allocator};

// Whether a word anticommutes with a product of letters at qubits.
pub(crate) fn anticommutes<A: Allocator + Copy>(word: &Word<A>, letters: Letters<'_>) -> bool
    requires small { AreSmall letters }
    requires inside { TermsFit (length word.now.letters) (letters_in letters) }
    ensures { result
        ≡ anticommute word.now.letters
        (word_of_terms (length word.now.letters) (letters_in letters.entry)) }
{
    let mut odd = false;
    let mut left = letters;
    while let Some((term, rest)) = left.split_first() {
        odd ^= word.letter(term.qubit as usize).clashes(term.letter);
        left = rest;
    }
    odd
}

// Multiplies a word by a letter at a qubit, and leaves its sign.
pub(crate) fn multiply_at<A: Allocator + Copy>(word: &mut Word<A>, qubit: usize, letter: Letter)
    requires { qubit < length word.old.letters }
    ensures { word.new
        ≡ signed
        (letters_product (lone_letter (length word.old.letters) qubit letter) word.old.letters)
        word.old.negative }
{
    word.set_letter(qubit, letter.times(word.letter(qubit)));
}

// A letter at a qubit, and I at the others.
pub(crate) fn lone_word<A: Allocator + Copy>(
    alloc: A,
    qubits: usize,
    qubit: usize,
    letter: Letter,
) -> Result<Word<A>, AllocError>
    requires { qubit < qubits }
    ensures word { IfOk result (λ word. word.letters ≡ lone_letter qubits qubit letter) }
    ensures size { IfOk result (λ word. length word.letters ≡ qubits) }
{
    let mut word = Word::identity(alloc, qubits)?;
    word.set_letter(qubit, letter);
    Ok(word)
}

// The product of letters at qubits, its sign left out.
pub(crate) fn product_of<A: Allocator + Copy>(
    alloc: A,
    qubits: usize,
    letters: Letters<'_>,
) -> Result<Word<A>, AllocError>
    requires small { AreSmall letters }
    requires inside { TermsFit qubits (letters_in letters) }
    ensures product { IfOk result (λ word. word.letters
        ≡ word_of_terms qubits (letters_in letters.entry)) }
    ensures size { IfOk result (λ word. length word.letters ≡ qubits) }
{
    let mut word = Word::identity(alloc, qubits)?;
    let mut left = letters;
    while let Some((term, rest)) = left.split_first() {
        multiply_at(&mut word, term.qubit as usize, term.letter);
        left = rest;
    }
    Ok(word)
}
