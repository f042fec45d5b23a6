//! Short lines, put into a buffer one after another.
ghost use Rattle.std.specs.Prelude.{◌≡◌, ℕ, ◌≤◌, ◌+◌, ◌-◌, ◌*◌, ◌∷◌, ◌++◌, [], None, codes, decimal, length, take, IfSome};
ghost use Rattle.circuit_walk.specs.Found.{IsFaultOf};
ghost use Rattle.circuit_walk.specs.Letters.{AreSmall, letters_in};
ghost use Rattle.step_model.specs.Listing.{effect_at, word_of_terms};
ghost use Rattle.step_model.specs.WellFormed.{TermsFit};
ghost use Rattle.fault_list.specs.FaultLines.{effect_text, factor_text, fault_line, record_text, word_text};
ghost use Rattle.fault_list.specs.private.HeldLines.{PushesSome, PutsHeld};
ghost use Rattle.fault_list.specs.private.PutTexts.{Puts};
ghost use Rattle.fault_list.specs.private.TermLetters.{is_ordered, starred_factors};

use crate::counter::Counter;
use crate::factors::{put_factor, put_starred};
use crate::kept_word::{KeptWord, WORD};
use crate::letters::acts;
use crate::probability::Probability;
use crate::put::{put_byte, put_text};
use crate::qubit_names::QubitNames;
use circuit_walk::{FoundFault, Letters, Program};
use pauli_word::Letter;
use std::alloc::Allocator;
use step_model::{Pieces, Sink, Term};

/// How long a line is at most, with what is copied behind it: it has the word, a number and the text of a probability.
pub(crate) const LINE: usize = WORD + 128;

/// How long a kept word is at most that is copied behind the lines held: `Pieces` copies none that
/// is longer.
const COPIED: usize = 16384;

/// Texts of the lines before that those after them have again.
#[derive(Drop)]
pub(crate) struct KeptTexts<'t, 'a> {
    number: Counter,
    probability: Probability<'t, 'a>,
    record: Counter,
    word: KeptWord,
    pub(crate) names: QubitNames,
}

impl<'t, 'a> KeptTexts<'t, 'a> {
    /// Before the first line of a program.
    pub(crate) fn new<A: Allocator + Copy>(program: &'t Program<'a, A>) -> Self
        ensures { result.probability.chances ≡ program.now.chances }
    {
        KeptTexts {
            number: Counter::new(),
            probability: Probability::none(program.chances()),
            record: Counter::new(),
            word: KeptWord::none(),
            names: QubitNames::new(program.qubits()),
        }
    }
}

/// Puts the line of a fault at `at`, behind lines that are held before that, and answers where it
/// ends; none where the line is too long for that, as few are. Before a word that is long and kept
/// these lines go out, then the word, and what is held begins behind it.
#[inline(always)]
pub(crate) fn put_line<'t, 'a, A: Allocator + Copy, W: Sink>(
    out: &mut Pieces,
    sink: &mut W,
    buffer: &mut [u8],
    at: usize,
    texts: &mut KeptTexts<'t, 'a>,
    program: &Program<'_, A>,
    fault: FoundFault<'_>,
) -> Option<usize>
    requires room { at + LINE ≤ length buffer.old }
    requires fault { IsFaultOf program.now fault }
    requires texts { texts.old.probability.chances ≡ program.now.chances }
    ensures same { texts.new.probability.chances ≡ texts.old.probability.chances }
    ensures within { IfSome result (λ end. end ≤ length buffer.new) }
    ensures pushed { IfSome result (λ end. PushesSome W.taken W.failures
        sink.old sink.new out.old out.new
        (take at buffer.old) (take end buffer.new)
        (fault_line program.now.listing fault.entry.number)) }
    ensures kept { result ≡ None → take at buffer.new ≡ take at buffer.old }
    ensures rests { result ≡ None → (sink.new ≡ sink.old) × (out.new ≡ out.old) }
{
    let end = texts.number.put(buffer, at, fault.number);
    let end = texts.probability.put(buffer, end, fault.chance)?;
    let end = put_effect(out, sink, buffer, end, texts, program, fault)?;
    Some(put_byte(buffer, end, b'\n'))
}

// Puts what a fault does.
#[inline(always)]
fn put_effect<'t, 'a, A: Allocator + Copy, W: Sink>(
    out: &mut Pieces,
    sink: &mut W,
    buffer: &mut [u8],
    at: usize,
    texts: &mut KeptTexts<'t, 'a>,
    program: &Program<'_, A>,
    fault: FoundFault<'_>,
) -> Option<usize>
    requires room { at + WORD ≤ length buffer.old }
    requires fault { IsFaultOf program.now fault }
    ensures same { texts.new.probability.chances ≡ texts.old.probability.chances }
    ensures put { PutsHeld W.taken W.failures sink.old sink.new out.old out.new WORD at
        (effect_text program.now.listing.qubits
        (effect_at program.now.listing fault.entry.number))
        buffer.old buffer.new result }
{
    program.well_formed();
    match fault.flips {
        Some(r) => Some(put_record(buffer, at, &mut texts.record, r)),
        None => put_word(
            out,
            sink,
            buffer,
            at,
            &texts.names,
            &mut texts.word,
            fault.letters,
        ),
    }
}

#[inline(always)]
fn put_record(buffer: &mut [u8], at: usize, record: &mut Counter, r: u32) -> usize
    requires room { at + 20 ≤ length buffer.old }
    ensures within { result ≤ at + 15 }
    ensures written { take result buffer.new ≡ take at buffer.old ++ record_text r }
{
    let end = put_text(buffer, at, b"rec[");
    let end = record.put(buffer, end, r);
    put_byte(buffer, end, b']')
}

// Puts the word of some terms. That of one or two, as nearly all words are, is written here with no
// loop.
#[inline(always)]
fn put_word<W: Sink>(
    out: &mut Pieces,
    sink: &mut W,
    buffer: &mut [u8],
    at: usize,
    names: &QubitNames,
    word: &mut KeptWord,
    terms: Letters<'_>,
) -> Option<usize>
    requires room { at + WORD ≤ length buffer.old }
    requires small { AreSmall terms }
    ensures { (qubits : ℕ) → TermsFit qubits (letters_in terms.entry)
        → PutsHeld W.taken W.failures sink.old sink.new out.old out.new WORD at
        (word_text (word_of_terms qubits (letters_in terms.entry)))
        buffer.old buffer.new result }
{
    if let Some((first, second)) = terms.both() {
        return put_two(buffer, at, names, first, second);
    }
    let (first, more) = terms.split_first()?;
    match more.split_first() {
        None => put_lone(buffer, at, names, first),
        Some(_) => put_some(out, sink, buffer, at, names, word, terms),
    }
}

// The same of one term. It answers none where that is I.
#[inline(always)]
fn put_lone(buffer: &mut [u8], at: usize, names: &QubitNames, term: Term) -> Option<usize>
    requires { at + WORD ≤ length buffer.old }
    ensures { (qubits : ℕ) → TermsFit qubits (term ∷ [])
        → Puts WORD at (word_text (word_of_terms qubits (term ∷ []))) buffer.old buffer.new result }
{
    if !acts(term.letter) {
        return None;
    }
    Some(put_factor(buffer, at, names, term))
}

// The same of any terms; a long word is kept. It stands apart, so that the loop over errors of one
// or two letters holds only what these need.
#[inline(never)]
fn put_some<W: Sink>(
    out: &mut Pieces,
    sink: &mut W,
    buffer: &mut [u8],
    at: usize,
    names: &QubitNames,
    word: &mut KeptWord,
    terms: Letters<'_>,
) -> Option<usize>
    requires room { at + WORD ≤ length buffer.old }
    requires small { AreSmall terms }
    ensures { (qubits : ℕ) → TermsFit qubits (letters_in terms.entry)
        → PutsHeld W.taken W.failures sink.old sink.new out.old out.new WORD at
        (word_text (word_of_terms qubits (letters_in terms.entry)))
        buffer.old buffer.new result }
{
    if let Some(text) = word.kept(terms) {
        return Some(put_kept(out, sink, buffer, at, text));
    }
    word.put(buffer, at, names, terms)
}

// The same of two terms. Those at descending qubits are exchanged first.
#[inline(always)]
fn put_two(
    buffer: &mut [u8],
    at: usize,
    names: &QubitNames,
    first: Term,
    second: Term,
) -> Option<usize>
    requires room { at + WORD ≤ length buffer.old }
    ensures { (qubits : ℕ) → TermsFit qubits (first ∷ second ∷ [])
        → Puts WORD at (word_text (word_of_terms qubits (first ∷ second ∷ [])))
        buffer.old buffer.new result }
{
    if second.qubit < first.qubit {
        put_ordered(buffer, at, names, second, first)
    } else {
        put_ordered(buffer, at, names, first, second)
    }
}

// The same of two terms that are to stand at ascending qubits. It answers none where they don't, or where one of them is I.
#[inline(always)]
fn put_ordered(
    buffer: &mut [u8],
    at: usize,
    names: &QubitNames,
    first: Term,
    second: Term,
) -> Option<usize>
    requires room { at + WORD ≤ length buffer.old }
    ensures { (qubits : ℕ) → TermsFit qubits (first ∷ second ∷ [])
        → Puts WORD at (word_text (word_of_terms qubits (first ∷ second ∷ [])))
        buffer.old buffer.new result }
{
    if second.qubit <= first.qubit || !acts(first.letter) || !acts(second.letter) {
        return None;
    }
    let end = put_factor(buffer, at, names, first);
    Some(put_starred(buffer, end, names, second))
}

// Puts the text of a word at `at`. A long one goes out from where it is kept, behind what stands
// before `at`.
fn put_kept<W: Sink>(
    out: &mut Pieces,
    sink: &mut W,
    buffer: &mut [u8],
    at: usize,
    text: &[u8],
) -> usize
    requires { at + length text.now ≤ length buffer.old }
    ensures within { result ≤ at + length text.now }
    ensures pushed { PushesSome W.taken W.failures sink.old sink.new out.old out.new
        (take at buffer.old) (take result buffer.new) text.now }
{
    if text.len() <= COPIED {
        return put_text(buffer, at, text);
    }
    out.push(sink, &buffer[..at]);
    out.push(sink, text);
    0
}
