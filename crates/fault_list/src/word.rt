//! The text of a Pauli word that is lent as terms, letters at qubits, in any order and a qubit more than once.
ghost use Rattle.std.specs.Prelude.{◌≡◌, ◌<◌, ◌≤◌, ◌+◌, ◌⊎◌, ◌&&◌, All, length, min};
ghost use Rattle.circuit_walk.specs.Letters.{AreSmall, letters_in};
ghost use Rattle.step_model.specs.Pushed.{Pushes};
ghost use Rattle.step_model.specs.Listing.{word_of_terms};
ghost use Rattle.step_model.specs.WellFormed.{TermsFit};
ghost use Rattle.fault_list.specs.FaultLines.{word_text};
ghost use Rattle.fault_list.specs.private.FactorTexts.{is_none, joined_on, term_factors};

use crate::blocks::{ROOM, write_letters};
use crate::letters::gather;
use crate::qubit_names::QubitNames;
use circuit_walk::Letters;
use pauli_word::Letter;
use step_model::{Pieces, Sink};

/// How many qubits are put in order at once at most. A circuit that is read from a text has no more.
pub(crate) const SPAN: usize = 4096;

/// Writes the word that terms make. Its qubits are met in ascending order, a span of them at once: each span begins at
/// the lowest qubit that is left and is about as long as there are terms, so neither few terms at distant qubits take
/// long nor many.
pub(crate) fn write_word<W: Sink>(
    out: &mut Pieces,
    sink: &mut W,
    buffer: &mut [u8],
    names: &QubitNames,
    letters: &mut [Letter; SPAN],
    qubits: u32,
    terms: Letters<'_>,
)
    requires room { ROOM ≤ length buffer.old }
    requires small { AreSmall terms }
    requires terms { TermsFit qubits (letters_in terms) }
    ensures { Pushes W.taken W.failures sink.old sink.new out.old out.new
        (word_text (word_of_terms qubits (letters_in terms.entry))) }
{
    let count = count_terms(terms);
    let mut first = true;
    let mut from = lowest_from(terms, 0, qubits);
    while from < qubits {
        let span = span_of(count, qubits - from);
        let letters = &mut letters[..span];
        first = write_span(out, sink, buffer, names, letters, terms, from, first);
        from = lowest_from(terms, from + span as u32, qubits);
    }
    if first {
        out.push(sink, b"I");
    }
}

// How many terms there are, counted as far as a span is long.
fn count_terms(terms: Letters<'_>) -> usize
    requires { AreSmall terms }
    ensures { result ≡ min (length (letters_in terms.entry)) SPAN }
{
    let mut count = 0;
    let mut left = terms;
    while count < SPAN {
        let Some((_, rest)) = left.split_first() else {
            return count;
        };
        count += 1;
        left = rest;
    }
    count
}

// The lowest qubit from this one on at which there is a term; the number of qubits where there is none.
fn lowest_from(terms: Letters<'_>, from: u32, qubits: u32) -> u32
    requires small { AreSmall terms }
    requires from { from ≤ qubits }
    ensures from { from ≤ result }
    ensures within { result ≤ qubits }
    ensures lowest { All (λ term. (term.qubit < from) ⊎ (result ≤ term.qubit))
        (letters_in terms.entry) }
{
    let mut lowest = qubits;
    let mut left = terms;
    while let Some((term, rest)) = left.split_first() {
        if from <= term.qubit && term.qubit < lowest {
            lowest = term.qubit;
        }
        left = rest;
    }
    lowest
}

// How many of the qubits that are left are put in order at once, for so many terms.
fn span_of(terms: usize, left: u32) -> usize
    requires { 0 < left }
    ensures some { 0 < result }
    ensures within { result ≤ left }
    ensures room { result ≤ SPAN }
{
    terms.clamp(1, SPAN).min(left as usize)
}

// Writes the factors that terms make at as many qubits as there is room for letters, from one qubit on, after others
// where they aren't the first. It answers whether there is still none.
fn write_span<W: Sink>(
    out: &mut Pieces,
    sink: &mut W,
    buffer: &mut [u8],
    names: &QubitNames,
    letters: &mut [Letter],
    terms: Letters<'_>,
    from: u32,
    first: bool,
) -> bool
    requires room { ROOM ≤ length buffer.old }
    requires small { AreSmall terms }
    requires fits { from + length letters.old ≤ u32.MAX }
    ensures first { result
        ≡ (first && is_none (term_factors (letters_in terms.entry) from (length letters.old))) }
    ensures pushed { Pushes W.taken W.failures sink.old sink.new out.old out.new
        (joined_on first (term_factors (letters_in terms.entry) from (length letters.old))) }
{
    gather(letters, terms, from);
    write_letters(out, sink, buffer, names, letters, from, first)
}
