//! The steps of small circuits as words that are written out by hand, and which step a word names.
//!
//! `X` and `C` are the gates X and CX, and `R` is a reset. `M`, `P` and `N` are measurements of Z, of a product and of one that
//! is inverted, each with its record and, where it may be flipped, the fault and the number of its probability. `F` is a fault
//! with the number of its probability, and `B` is feedback of a record. Behind a fault and a product stand its letters, each with
//! its qubit. `-` stands for no step.
ghost use Rattle.circuit_walk.specs.Letters.{AreSmall};
ghost use Rattle.circuit_walk.specs.Named.{IsStepOf};
ghost use Rattle.circuit_walk.specs.Programs.{KeptProgram};

use circuit_walk::{FaultName, FoundFault, Letters, Step};
use gate_table::Gate;
use pauli_word::Letter;
use step_model::Term;

pub(super) fn digit(word: &[u8], at: usize) -> Option<u32> {
    match word.get(at).copied() {
        Some(byte) if byte.is_ascii_digit() => Some(byte as u32 - 48),
        _ => None,
    }
}

fn letter(word: &[u8], at: usize) -> Option<Letter> {
    match word.get(at).copied()? {
        b'X' => Some(Letter::X),
        b'Y' => Some(Letter::Y),
        b'Z' => Some(Letter::Z),
        _ => None,
    }
}

pub(super) fn is_kind(word: &[u8], kind: u8) -> bool {
    word.first().copied() == Some(kind)
}

/// Whether a fault has the number and the probability that stand from this place of a word on.
fn is_name(name: FaultName, word: &[u8], at: usize) -> bool {
    (digit(word, at) == Some(name.number))
        & (digit(word, at.saturating_add(1)) == Some(name.chance))
}

/// Whether the flip of a record, where there is one, is that of a word.
fn is_flip(flip: Option<FaultName>, word: &[u8]) -> bool {
    match flip {
        Some(name) => is_name(name, word, 2),
        None => digit(word, 2).is_none(),
    }
}

fn is_term(term: Term, word: &[u8], at: usize) -> bool {
    (letter(word, at) == Some(term.letter))
        & (digit(word, at.saturating_add(1)) == Some(term.qubit))
}

/// Whether these are the letters that stand from a place of a word on.
fn are_letters(letters: Letters<'_>, word: &[u8], from: usize) -> bool
    requires { AreSmall letters }
{
    let mut at = from;
    let mut left = letters;
    while let Some((term, rest)) = left.split_first() {
        if !is_term(term, word, at) {
            return false;
        }
        at = at.saturating_add(2);
        left = rest;
    }
    at == word.len()
}

pub(super) fn is_fault(name: FaultName, letters: Letters<'_>, word: &[u8]) -> bool
    requires { AreSmall letters }
{
    is_kind(word, b'F') & is_name(name, word, 1) & are_letters(letters, word, 3)
}

/// Where the letters of a product stand in its word: behind its record, and the two numbers of its flip.
fn letters_from(flip: Option<FaultName>) -> usize {
    if flip.is_some() { 4 } else { 2 }
}

fn is_product(
    letters: Letters<'_>,
    recorded: (Option<u32>, bool, Option<FaultName>),
    word: &[u8],
) -> bool
    requires { AreSmall letters }
{
    let (rec, inverted, flip) = recorded;
    is_kind(word, if inverted { b'N' } else { b'P' })
        & (rec == digit(word, 1))
        & is_flip(flip, word)
        & are_letters(letters, word, letters_from(flip))
}

/// Whether a collapse of this letter at this qubit is the one of a word.
fn is_collapse(
    (letter, qubit): (Letter, u32),
    (rec, reset, flip): (Option<u32>, bool, Option<FaultName>),
    word: &[u8],
) -> bool {
    is_kind(word, if reset { b'R' } else { b'M' })
        & (letter == Letter::Z)
        & (qubit == 0)
        & (rec == digit(word, 1))
        & (reset == rec.is_none())
        & is_flip(flip, word)
}

/// Whether a step that lends no letters is the one that a word names.
fn is_plain(step: Step<'_>, word: &[u8]) -> bool {
    match step {
        Step::One { gate, q } => is_kind(word, b'X') && gate == Gate::X && q == 0,
        Step::Two { gate, a, b } => is_kind(word, b'C') && gate == Gate::CX && a == 0 && b == 1,
        Step::Collapse {
            letter,
            qubit,
            rec,
            reset,
            inverted,
            flip,
        } => !inverted && is_collapse((letter, qubit), (rec, reset, flip), word),
        Step::Feedback { letter, q, rec } => {
            is_kind(word, b'B') && letter == Letter::X && q == 0 && digit(word, 1) == Some(rec)
        }
        _ => false,
    }
}

/// Whether a step is the one that a word names.
pub(super) fn is_step(step: Step<'_>, word: &[u8]) -> bool
    requires { (program : KeptProgram) × IsStepOf program step }
{
    match step {
        Step::Fault { name, letters } => is_fault(name, letters, word),
        Step::CollapseWord {
            letters,
            rec,
            inverted,
            flip,
        } => is_product(letters, (rec, inverted, flip), word),
        step => is_plain(step, word),
    }
}

/// Whether a word names a fault: its third byte is the number of a flip, or of the probability of a fault.
pub(super) fn names_fault(word: &[u8]) -> bool {
    digit(word, 2).is_some()
}

/// Whether a fault is that of a word: with its letters, or the flip of its record, with none.
pub(super) fn is_found(fault: FoundFault<'_>, word: &[u8]) -> bool
    requires { AreSmall fault.letters }
{
    let name = FaultName {
        number: fault.number,
        chance: fault.chance,
    };
    match fault.flips {
        Some(_) => {
            (fault.flips == digit(word, 1))
                & is_name(name, word, 2)
                & are_letters(fault.letters, word, word.len())
        }
        None => is_fault(name, fault.letters, word),
    }
}
