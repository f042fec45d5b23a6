ghost use Rattle.std.specs.Prelude.{◌≡◌, ◌<◌, ◌^◌, None, Some, option_map, IfOk, IfSome, MatchBool};
ghost use Rattle.stim_parser.specs.private.Brackets.{at_least_one, before_bracket};
ghost use Rattle.stim_parser.specs.Numbers.{number_of};
ghost use Rattle.stim_parser.specs.Targets.{inverted_of, letter_of, marked_of, pauli_of, record_of, target_of, targets_in};

use crate::digits::number_of;
use crate::front_number::front_number;
use crate::piece_values::{PieceValue, push_pieces};
use crate::target_word::TargetWord;
use pauli_word::Letter;
use std::alloc::AllocError;
use stim_lexer::{LineTargets, after_blanks};

/// A target as it is written. All numbers from 10^18 on are taken as one, which is beyond every limit.
#[derive(Clone, Copy)]
pub enum Target {
    /// A number alone: a qubit, or how often a block is repeated.
    Plain(u64),
    /// A qubit with `!` before it.
    Inverted(u64),
    /// A record, by how far back it lies, from 1.
    Back(u64),
    /// A letter at a qubit, and whether `!` stands before it.
    Pauli(bool, Letter, u64),
    /// A `*`, which joins the Pauli targets beside it.
    Star,
}

/// What stands before a closing bracket at the end.
fn before_bracket(text: &[u8]) -> Option<&[u8]>
    ensures { option_map (λ inner. inner.now) result ≡ before_bracket text.now }
{
    match text {
        [inner @ .., b']'] => Some(inner),
        _ => None,
    }
}

/// The number that digits write. It has room in sixty bits.
#[inline(always)]
fn near_number_of(digits: &[u8]) -> Option<u64>
    ensures value { result ≡ number_of digits.now }
    ensures near { IfSome result (λ number. number < 2 ^ 60) }
{
    number_of(digits)
}

/// A number that isn't 0.
fn at_least_one(digits: &[u8]) -> Option<u64>
    ensures value { result ≡ at_least_one digits.now }
    ensures near { IfSome result (λ number. number < 2 ^ 60) }
{
    match near_number_of(digits)? {
        0 => None,
        number => Some(number),
    }
}

/// How far back the record of a piece `rec[-k]` lies.
#[tactic(auto, using(crate::proofs::BracketLemmas::record_parts))]
fn record_of(piece: &[u8]) -> Option<u64>
    ensures value { result ≡ record_of piece.now }
    ensures near { IfSome result (λ back. back < 2 ^ 60) }
{
    let rest = piece.strip_prefix(b"rec[-")?;
    let digits = before_bracket(rest)?;
    at_least_one(digits)
}

/// The letter that a byte writes, in either case.
fn letter_of(byte: u8) -> Option<Letter>
    ensures { result ≡ letter_of byte }
{
    match byte {
        b'X' | b'x' => Some(Letter::X),
        b'Y' | b'y' => Some(Letter::Y),
        b'Z' | b'z' => Some(Letter::Z),
        _ => None,
    }
}

/// A letter and its qubit, after a `!` or not.
fn pauli_of(inverted: bool, text: &[u8]) -> Option<TargetWord>
    ensures { result ≡ pauli_of inverted text.now }
{
    match text {
        [first, digits @ ..] => {
            let letter = letter_of(*first)?;
            let qubit = near_number_of(digits)?;
            Some(TargetWord::new(Target::Pauli(inverted, letter, qubit)))
        }
        [] => None,
    }
}

/// The target whose text follows a `!`.
fn inverted_of(text: &[u8]) -> Option<TargetWord>
    ensures { result ≡ inverted_of text.now }
{
    match near_number_of(text) {
        Some(qubit) => Some(TargetWord::new(Target::Inverted(qubit))),
        None => pauli_of(true, text),
    }
}

/// A target that is known by its first byte.
fn marked_of(piece: &[u8]) -> Option<TargetWord>
    ensures { result ≡ marked_of piece.now }
{
    match piece {
        [] => None,
        [b'!', rest @ ..] => inverted_of(rest),
        [b'*'] => Some(TargetWord::new(Target::Star)),
        _ => pauli_of(false, piece),
    }
}

/// The target that a piece writes.
#[inline(always)]
#[tactic(auto, unfolding(crate::specs::Targets::target_of))]
fn target_of(piece: &[u8]) -> Option<TargetWord>
    ensures { result ≡ target_of piece.now }
{
    match piece {
        [b'X' | b'Y' | b'Z', ..] => pauli_of(false, piece),
        _ => other_target_of(piece),
    }
}

/// The same for any piece; those of a letter at a qubit are found sooner above.
#[tactic(auto, unfolding(crate::specs::Targets::target_of))]
fn other_target_of(piece: &[u8]) -> Option<TargetWord>
    ensures { result ≡ target_of piece.now }
{
    if let Some(number) = near_number_of(piece) {
        return Some(TargetWord::new(Target::Plain(number)));
    }
    if let Some(back) = record_of(piece) {
        return Some(TargetWord::new(Target::Back(back)));
    }
    marked_of(piece)
}

impl PieceValue for TargetWord {
    ghost written = { target_of };

    fn of_piece(piece: &[u8]) -> Option<TargetWord> {
        target_of(piece)
    }
}

/// Puts the targets of a text in place of those that were there. Answers whether each of its pieces is
/// a target. As long as they are numbers, each is read in one step.
#[tactic(auto, unfolding(crate::specs::Targets::targets_in))]
pub(crate) fn read_targets<L: LineTargets<TargetWord>>(
    targets: &mut L,
    text: &[u8],
) -> Result<bool, AllocError>
    ensures read { IfOk result (λ all. MatchBool all
        (targets_in text.now ≡ Some (L.targets targets.new))
        (targets_in text.now ≡ None)) }
    ensures others { IfOk result (λ all. L.others targets.new ≡ L.others targets.old) }
{
    targets.clear();
    let mut rest = after_blanks(text);
    while let Some((qubit, after)) = front_number(rest) {
        targets.push(TargetWord::new(Target::Plain(qubit)))?;
        rest = after_blanks(after);
    }
    if rest.is_empty() {
        return Ok(true);
    }
    push_pieces(targets, rest)
}
