//! The targets of lines: how they are written, which of them a line takes, and their limits.
ghost use Rattle.std.specs.Prelude.{◌≡◌, None, Some, IfOk, MatchBool};
ghost use Rattle.std.specs.List.{list_all};
ghost use Rattle.stim_parser.specs.Numbers.{is_number_beyond};
ghost use Rattle.dem_text.specs.Limits.{are_of_form, is_detector, is_effect, is_observable, is_one_number, is_target_beyond};
ghost use Rattle.dem_text.specs.Targets.{marked_of, target_of, targets_in};

use std::alloc::{AllocError, Allocator};
use stim_parser::{PieceValue, number_of, read_pieces};

/// A target as it is written. All numbers from 10^18 on are taken as one, which is beyond every limit.
#[derive(Clone, Copy)]
pub enum Target {
    /// A number alone: by how much detectors shift, or how often a block is repeated.
    Plain(u64),
    /// `D` and the number of a detector.
    Detector(u64),
    /// `L` and the number of an observable.
    Observable(u64),
    /// A `^` between parts of an error, which doesn't change what the error flips.
    Separator,
}

/// A target that is known by its first byte.
fn marked_of(piece: &[u8]) -> Option<Target>
    ensures { result ≡ marked_of piece.now }
{
    match piece {
        [b'D', digits @ ..] => Some(Target::Detector(number_of(digits)?)),
        [b'L', digits @ ..] => Some(Target::Observable(number_of(digits)?)),
        [b'^'] => Some(Target::Separator),
        _ => None,
    }
}

/// The target that a piece writes.
#[tactic(auto, unfolding(crate::specs::Targets::target_of))]
fn target_of(piece: &[u8]) -> Option<Target>
    ensures { result ≡ target_of piece.now }
{
    match number_of(piece) {
        Some(number) => Some(Target::Plain(number)),
        None => marked_of(piece),
    }
}

impl PieceValue for Target {
    ghost written = { target_of };

    fn of_piece(piece: &[u8]) -> Option<Target> {
        target_of(piece)
    }
}

/// Puts the targets of a text in place of those that were there. Answers whether each of its pieces is a target.
#[tactic(auto, unfolding(crate::specs::Targets::targets_in))]
pub fn read_targets<A: Allocator + Copy>(
    targets: &mut Vec<Target, A>,
    text: &[u8],
) -> Result<bool, AllocError>
    ensures { IfOk result (λ all. MatchBool all
        (targets_in text.now ≡ Some targets.new.items)
        (targets_in text.now ≡ None)) }
{
    read_pieces(targets, text)
}

/// Which targets a line takes.
#[derive(Clone, Copy)]
pub enum TargetForm {
    /// Detectors, observables and separators.
    Effects,
    Detectors,
    Observables,
    /// One number in digits.
    OneNumber,
}

/// The greatest number of a detector.
pub const GREATEST_DETECTOR: u64 = 999_999;

/// The greatest number of an observable.
const GREATEST_OBSERVABLE: u64 = 1_023;

/// The greatest of all other numbers, and the greatest magnitude of a coordinate.
pub const GREATEST_NUMBER: u64 = 999_999_999_999_999_999;

/// Whether a number that is neither a detector's nor an observable's is beyond its limit.
fn is_number_beyond(number: u64) -> bool
    ensures { result ≡ is_number_beyond number }
{
    number > GREATEST_NUMBER
}

fn is_detector(target: Target) -> bool
    ensures { result ≡ is_detector target }
{
    matches!(target, Target::Detector(_))
}

fn is_observable(target: Target) -> bool
    ensures { result ≡ is_observable target }
{
    matches!(target, Target::Observable(_))
}

/// Whether a target may stand in an error.
fn is_effect(target: Target) -> bool
    ensures { result ≡ is_effect target }
{
    !matches!(target, Target::Plain(_))
}

fn are_effects(targets: &[Target]) -> bool
    ensures { result ≡ list_all is_effect targets.now }
{
    targets.iter().all(|target| is_effect(*target))
}

fn are_detectors(targets: &[Target]) -> bool
    ensures { result ≡ list_all is_detector targets.now }
{
    targets.iter().all(|target| is_detector(*target))
}

fn are_observables(targets: &[Target]) -> bool
    ensures { result ≡ list_all is_observable targets.now }
{
    targets.iter().all(|target| is_observable(*target))
}

fn is_one_number(targets: &[Target]) -> bool
    ensures { result ≡ is_one_number targets.now }
{
    matches!(targets, [Target::Plain(_)])
}

/// Whether targets are of this form, and as many as it takes.
#[tactic(auto, unfolding(crate::specs::Limits::are_of_form))]
pub(crate) fn are_of_form(form: TargetForm, targets: &[Target]) -> bool
    ensures { result ≡ are_of_form form targets.now }
{
    match form {
        TargetForm::Effects => are_effects(targets),
        TargetForm::Detectors => are_detectors(targets),
        TargetForm::Observables => are_observables(targets),
        TargetForm::OneNumber => is_one_number(targets),
    }
}

/// Whether a target's number is beyond its limit.
pub fn is_target_beyond(target: Target) -> bool
    ensures { result ≡ is_target_beyond target }
{
    match target {
        Target::Plain(number) => is_number_beyond(number),
        Target::Detector(detector) => detector > GREATEST_DETECTOR,
        Target::Observable(observable) => observable > GREATEST_OBSERVABLE,
        Target::Separator => false,
    }
}
