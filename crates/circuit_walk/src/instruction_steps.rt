//! The steps that one instruction makes, one after another: of each target, of each pair, of each product, or one of all.

ghost use Rattle.std.specs.Prelude.{◌≡◌, ◌+◌, ◌<◌, ◌^◌, IfSome, Some, if◌then◌else◌, None, length, option_map, slice_get};
ghost use Rattle.circuit_walk.specs.Steps.{number_of};
ghost use Rattle.circuit_walk.specs.private.InstructionSteps.{AreStepsOf, counts_behind, end_of};
ghost use Rattle.circuit_walk.specs.private.Names.{IsNext};
ghost use Rattle.stim_parser.specs.Circuits.{Fits};
ghost use Rattle.stim_parser.specs.Kept.{instruction_in};
ghost use Rattle.stim_parser.specs.declared.operation.Operation.TheVariants.{ProductMeasurement};

use crate::may_flip::MayFlip;
use crate::step::{Counts, FaultName};
use stim_parser::{Operation, TargetWord};

/// An instruction whose steps are gone through, and how many of its targets are behind.
#[derive(Drop)]
pub(crate) struct InstructionSteps<'c> {
    pub operation: Operation,
    pub targets: &'c [TargetWord],
    /// The number of its probability, where it has one.
    pub chance: u32,
    /// Whether its records may be flipped.
    pub flips: MayFlip<'c>,
    /// A place among its targets, from 0 to `end`.
    pub at: usize,
    pub end: usize,
}

/// The last place of an operation with so many targets.
#[inline(always)]
fn end_of(operation: Operation, targets: &[TargetWord]) -> usize
    ensures { result ≡ end_of operation targets.now }
{
    match operation {
        Operation::Applies(_)
        | Operation::Measurement(_)
        | Operation::QubitReset(_)
        | Operation::MeasurementReset(_)
        | Operation::ProductMeasurement
        | Operation::PauliError(_) => targets.len(),
        Operation::CorrelatedError => 1,
        Operation::DetectorDeclaration
        | Operation::ObservableInclude
        | Operation::Tick
        | Operation::QubitCoordinates
        | Operation::CoordinateShift => 0,
    }
}

impl<'c> InstructionSteps<'c> {
    /// No steps, of no instruction.
    #[inline(always)]
    pub(crate) fn none() -> Self
        ensures at { result.at ≡ 0 }
        ensures end { result.end ≡ 0 }
    {
        InstructionSteps {
            operation: Operation::Tick,
            targets: &[],
            chance: 0,
            flips: MayFlip::new(&[]),
            at: 0,
            end: 0,
        }
    }

    /// The steps of an instruction, before the first.
    #[inline(always)]
    pub(crate) fn new<'a: 'c>(instruction: stim_parser::Instruction<'c, 'a>) -> Self
        requires { Fits (instruction_in instruction) }
        ensures steps { AreStepsOf (instruction_in instruction.entry) result }
        ensures at { result.at ≡ 0 }
        ensures chance { result.chance ≡ instruction.entry.mark }
    {
        InstructionSteps {
            operation: instruction.operation,
            targets: instruction.targets,
            chance: instruction.mark,
            flips: MayFlip::new(instruction.arguments),
            at: 0,
            end: end_of(instruction.operation, instruction.targets),
        }
    }

    /// The same.
    #[inline(always)]
    pub(crate) fn copy(&self) -> Self
        ensures { result ≡ self.now }
    {
        InstructionSteps {
            operation: self.operation,
            targets: self.targets,
            chance: self.chance,
            flips: self.flips.copy(),
            at: self.at,
            end: self.end,
        }
    }

    /// The fault with the next number.
    #[inline(always)]
    pub(crate) fn fault_name(&self, counts: Counts) -> FaultName
        ensures { result ≡ record { number = counts.faults; chance = self.now.chance } }
    {
        FaultName {
            number: counts.faults,
            chance: self.chance,
        }
    }

    /// The fault that flips the next record, where one does.
    #[inline(always)]
    pub(crate) fn flip(&self, counts: Counts) -> Option<FaultName>
        ensures number { option_map number_of result
            ≡ (if self.now.flips then Some counts.faults else None) }
        ensures next { IfSome result (IsNext self.now counts) }
    {
        if self.flips.get() {
            Some(self.fault_name(counts))
        } else {
            None
        }
    }

    /// The target at a place.
    #[inline(always)]
    pub(crate) fn target(&self, at: usize) -> TargetWord
        requires { at < length self.now.targets.now }
        ensures { slice_get self.now.targets.now at ≡ Some result }
    {
        self.targets[at]
    }

    /// The counts behind a step that is a fault.
    #[inline(always)]
    pub(crate) fn behind_fault(counts: Counts) -> Counts
        requires { counts.faults + 1 < 2 ^ 32 }
        ensures { result ≡ record counts { faults = counts.faults + 1 } }
    {
        Counts {
            records: counts.records,
            collapses: counts.collapses,
            faults: counts.faults + 1,
        }
    }

    /// The counts behind a step that is a collapse without a record.
    #[inline(always)]
    pub(crate) fn behind_reset(counts: Counts) -> Counts
        requires { counts.collapses + 1 < 2 ^ 32 }
        ensures { result ≡ record counts { collapses = counts.collapses + 1 } }
    {
        Counts {
            records: counts.records,
            collapses: counts.collapses + 1,
            faults: counts.faults,
        }
    }

    /// The counts behind a step that is a collapse with a record.
    #[inline(always)]
    pub(crate) fn behind_record(&self, counts: Counts) -> Counts
        requires records { counts.records + 1 < 2 ^ 32 }
        requires collapses { counts.collapses + 1 < 2 ^ 32 }
        requires faults { counts.faults + 1 < 2 ^ 32 }
        ensures { result ≡ counts_behind ProductMeasurement self.now.flips counts }
    {
        Counts {
            records: counts.records + 1,
            collapses: counts.collapses + 1,
            faults: counts.faults + self.flips.get() as u32,
        }
    }
}
