//! The text of a word of many letters, kept for the faults that follow: in a block the same instruction makes it at each turn.
ghost use Rattle.std.specs.Prelude.{◌≡◌, ◌≤◌, ◌+◌, ℕ, IfSome, length};
ghost use Rattle.circuit_walk.specs.Letters.{AreSmall, letters_in};
ghost use Rattle.step_model.specs.Listing.{word_of_terms};
ghost use Rattle.step_model.specs.WellFormed.{TermsFit};
ghost use Rattle.fault_list.specs.FaultLines.{word_text};
ghost use Rattle.fault_list.specs.private.KeptTexts.{HasWord};
ghost use Rattle.fault_list.specs.private.PutTexts.{Puts};

use crate::factors::{put_factor, put_starred};
use crate::letters::acts;
use crate::put::put_text;
use crate::qubit_names::QubitNames;
use circuit_walk::{KeptLetters, Letters};

/// How long the text of a word is at most: one with a letter at each of 4,096 qubits has room.
pub(crate) const WORD: usize = 24704;

/// How long a text is at most that isn't kept, since it is put as quickly again.
const SHORT: usize = 64;

/// How much room a factor is put in.
const FACTOR: usize = 18;

/// The text of the last long word that was put, and the letters that make it; none where there was no such word yet.
#[derive(Drop)]
pub(crate) struct KeptWord {
    letters: KeptLetters,
    text: [u8; WORD],
    len: usize,
    ghost text_of: { HasWord letters len text },
}

impl KeptWord {
    /// None is kept yet.
    pub(crate) fn none() -> Self {
        KeptWord {
            letters: KeptLetters::none(),
            text: [0; WORD],
            len: 0,
        }
    }

    /// The text of the word of some terms, where it is the one that is kept.
    #[inline(always)]
    pub(crate) fn kept(&self, terms: Letters<'_>) -> Option<&[u8]>
        ensures within { IfSome result (λ text. length text.now ≤ WORD) }
        ensures text { IfSome result (λ text. (qubits : ℕ)
            → TermsFit qubits (letters_in terms.entry)
            → text.now ≡ word_text (word_of_terms qubits (letters_in terms.entry))) }
    {
        if !self.letters.are(terms) {
            return None;
        }
        Some(&self.text[..self.len])
    }

    /// Puts the word of some terms at `at`, keeps it where it is long, and answers where it ends.
    /// It answers none where `put_letters` does.
    #[inline(always)]
    pub(crate) fn put(
        &mut self,
        buffer: &mut [u8],
        at: usize,
        names: &QubitNames,
        terms: Letters<'_>,
    ) -> Option<usize>
        requires room { at + WORD ≤ length buffer.old }
        requires small { AreSmall terms }
        ensures { (qubits : ℕ) → TermsFit qubits (letters_in terms.entry)
            → Puts WORD at (word_text (word_of_terms qubits (letters_in terms.entry))) buffer.old buffer.new result }
    {
        let end = put_letters(buffer, at, names, terms)?;
        if end - at > SHORT {
            self.keep(&buffer[at..end], terms);
        }
        Some(end)
    }

    // Keeps the text of the word of some terms.
    #[inline(never)]
    fn keep(&mut self, text: &[u8], terms: Letters<'_>)
        requires room { length text.now ≤ WORD }
        requires text { (qubits : ℕ) → TermsFit qubits (letters_in terms)
            → text.now ≡ word_text (word_of_terms qubits (letters_in terms)) }
    {
        if !self.letters.keep(terms) {
            return;
        }
        self.len = put_text(&mut self.text, 0, text);
    }
}

// Puts the word of some terms at `at`, letter by letter, and answers where it ends. It answers none where there is no term, where their
// qubits don't ascend, where one of them is I, or where the text is too long.
fn put_letters(
    buffer: &mut [u8],
    at: usize,
    names: &QubitNames,
    terms: Letters<'_>,
) -> Option<usize>
    requires room { at + WORD ≤ length buffer.old }
    requires small { AreSmall terms }
    ensures from { IfSome result (λ end. at ≤ end) }
    ensures within { IfSome result (λ end. end ≤ at + WORD) }
    ensures put { (qubits : ℕ) → TermsFit qubits (letters_in terms.entry)
        → Puts WORD at (word_text (word_of_terms qubits (letters_in terms.entry))) buffer.old buffer.new result }
{
    let (first, more) = terms.split_first()?;
    if !acts(first.letter) {
        return None;
    }
    let most = at + WORD - FACTOR;
    let mut end = put_factor(buffer, at, names, first);
    let mut last = first.qubit;
    let mut left = more;
    while let Some((term, rest)) = left.split_first() {
        if term.qubit <= last || !acts(term.letter) || end > most {
            return None;
        }
        end = put_starred(buffer, end, names, term);
        last = term.qubit;
        left = rest;
    }
    Some(end)
}
