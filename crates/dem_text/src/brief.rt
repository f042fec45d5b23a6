//! What is known of a line, however often it is reached.
ghost use Rattle.std.specs.Prelude.{◌≡◌, false, max, nat_abs};
ghost use Rattle.stim_parser.specs.Arguments.{arguments_in};
ghost use Rattle.stim_parser.specs.declared.table.Keyword.TheVariants.{Does};
ghost use Rattle.stim_parser.specs.Limits.{has_wrong_arguments};
ghost use Rattle.dem_text.specs.Verdicts.{model_table, number_in};
ghost use Rattle.dem_text.specs.private.Tables.{numbers_stated};
ghost use Rattle.dem_text.specs.Limits.{has_target_beyond, is_target_beyond};
ghost use Rattle.dem_text.specs.Meanings.{detectors_to, is_error, observables_to};
ghost use Rattle.stim_lexer.specs.Reached.{greatest_by};

use crate::judge::number_in;
use crate::operation::Operation;
use crate::target::Target;
use arrayvec::ArrayVec;
use stim_parser::{MOST_ARGUMENTS, put_whole_numbers};

/// One more than the greatest detector and the greatest observable that targets name, or 0.
#[derive(Clone, Copy)]
pub(crate) struct Extent {
    pub detectors: u32,
    pub observables: u16,
}

/// Of no targets.
pub(crate) const NONE: Extent = Extent {
    detectors: 0,
    observables: 0,
};

/// A line's number and operation, the extent of its targets, by how much it shifts detectors, where it does, and the greatest
/// magnitude of the numbers that it states.
#[derive(Clone, Copy)]
pub(crate) struct Brief {
    pub line: u64,
    pub operation: Operation,
    pub extent: Extent,
    pub amount: u64,
    pub reach: u64,
}

/// Of no line.
pub(crate) const NO_LINE: Brief = Brief {
    line: 0,
    operation: Operation::ObservableInclude,
    extent: NONE,
    amount: 0,
    reach: 0,
};

/// One more than the detector that a target names, or 0.
fn detectors_to(target: Target) -> u32
    requires { is_target_beyond target ≡ false }
    ensures { result ≡ detectors_to target }
{
    match target {
        Target::Detector(detector) => detector as u32 + 1,
        _ => 0,
    }
}

/// One more than the observable that a target names, or 0.
fn observables_to(target: Target) -> u16
    requires { is_target_beyond target ≡ false }
    ensures { result ≡ observables_to target }
{
    match target {
        Target::Observable(observable) => observable as u16 + 1,
        _ => 0,
    }
}

/// An extent raised to what a target names.
#[inline(always)]
pub(crate) fn raised_to(extent: Extent, target: Target) -> Extent
    requires { is_target_beyond target ≡ false }
    ensures detectors { result.detectors ≡ max extent.detectors (detectors_to target) }
    ensures observables { result.observables ≡ max extent.observables (observables_to target) }
{
    Extent {
        detectors: extent.detectors.max(detectors_to(target)),
        observables: extent.observables.max(observables_to(target)),
    }
}

/// The extent of targets.
pub(crate) fn extent_of(targets: &[Target]) -> Extent
    requires { has_target_beyond targets.now ≡ false }
    ensures detectors { result.detectors ≡ greatest_by detectors_to targets.now }
    ensures observables { result.observables ≡ greatest_by observables_to targets.now }
{
    let mut found = NONE;
    for target in targets {
        found = raised_to(found, *target);
    }
    found
}

/// The greatest magnitude of some numbers, or 0.
fn reach_of(numbers: &[i64]) -> u64
    ensures { result ≡ greatest_by nat_abs numbers.now }
{
    let mut found: u64 = 0;
    for number in numbers {
        found = found.max(number.unsigned_abs());
    }
    found
}

/// What is known of the line of this number with these targets, which states these numbers.
pub(crate) fn brief_of(line: u64, operation: Operation, targets: &[Target], stated: &[i64]) -> Brief
    requires { has_target_beyond targets.now ≡ false }
    ensures { result
        ≡ record {
          line = line;
          operation = operation;
          extent = record {
            detectors = greatest_by detectors_to targets.now;
            observables = greatest_by observables_to targets.now;
          };
          amount = number_in targets.now;
          reach = greatest_by nat_abs stated.now;
        } }
{
    Brief {
        line,
        operation,
        extent: extent_of(targets),
        amount: number_in(targets),
        reach: reach_of(stated),
    }
}

/// Puts the numbers that an accepted line of this kind states into `found`, in place of what it held.
pub(crate) fn put_stated(
    found: &mut ArrayVec<i64, MOST_ARGUMENTS>,
    operation: Operation,
    arguments: &[u8],
)
    requires { has_wrong_arguments (model_table.argument_form (Does operation)) (arguments_in arguments.now)
        ≡ false }
    ensures { found.new.items ≡ numbers_stated operation (arguments_in arguments.now) }
{
    match operation {
        Operation::DetectorDeclaration | Operation::Shifts => {
            put_whole_numbers(found, arguments);
        }
        _ => found.clear(),
    }
}

/// Whether a line is an error line.
#[inline(always)]
pub(crate) fn is_error(operation: Operation) -> bool
    ensures { result ≡ is_error operation }
{
    matches!(operation, Operation::PauliError)
}
