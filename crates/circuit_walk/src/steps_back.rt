//! Back over the steps of one instruction: where the step before stands, and what comes before it.

ghost use Rattle.std.specs.Prelude.{◌≡◌, ◌+◌, ◌<◌, ℕ};
ghost use Rattle.circuit_walk.specs.Makes.{makes_collapses, makes_faults, makes_records};
ghost use Rattle.circuit_walk.specs.private.InstructionSteps.{AreStepsOf, IsAt, counts_behind};
ghost use Rattle.stim_parser.specs.Verdicts.{Instruction};

use crate::instruction_steps::InstructionSteps;
use crate::may_flip::MayFlip;
use crate::products::product_before;
use crate::step::Counts;
use stim_parser::Operation;

#[inline(always)]
fn makes_records(operation: Operation) -> bool
    ensures { result ≡ makes_records operation }
{
    matches!(
        operation,
        Operation::Measurement(_) | Operation::MeasurementReset(_) | Operation::ProductMeasurement
    )
}

#[inline(always)]
fn makes_collapses(operation: Operation) -> bool
    ensures { result ≡ makes_collapses operation }
{
    matches!(operation, Operation::QubitReset(_)) || makes_records(operation)
}

#[inline(always)]
fn makes_faults(operation: Operation, flips: &MayFlip<'_>) -> bool
    ensures { result ≡ makes_faults operation flips.now }
{
    match operation {
        Operation::PauliError(_) | Operation::CorrelatedError => true,
        _ => makes_records(operation) && flips.get(),
    }
}

impl<'c> InstructionSteps<'c> {
    /// The place before the step that stands before the place, of an instruction of this operation.
    #[inline(always)]
    pub(crate) fn place_before(&self, operation: Operation) -> usize
        requires operation { self.now.operation ≡ operation }
        requires stands { (i : Instruction) × (k : ℕ) × AreStepsOf i self.now
            × IsAt i.operation i.targets self.now.at k }
        requires there { 0 < self.now.at }
        ensures place { (k : ℕ) (i : Instruction) → AreStepsOf i self.now → IsAt i.operation i.targets self.now.at (k + 1)
            → IsAt i.operation i.targets result k }
    {
        match operation {
            Operation::Applies(gate) => self.at - gate.arity() as usize,
            Operation::ProductMeasurement => product_before(self.targets, self.at),
            _ => self.at - 1,
        }
    }

    /// The counts before a step of this operation, from those behind it.
    #[inline(always)]
    pub(crate) fn counts_before(&self, operation: Operation, counts: Counts) -> Counts
        requires operation { self.now.operation ≡ operation }
        requires behind { (before : Counts) × (counts ≡ counts_behind self.now.operation self.now.flips before) }
        ensures { (before : Counts) → counts ≡ counts_behind self.now.operation self.now.flips before → result ≡ before }
    {
        Counts {
            records: counts.records - makes_records(operation) as u32,
            collapses: counts.collapses - makes_collapses(operation) as u32,
            faults: counts.faults - makes_faults(operation, &self.flips) as u32,
        }
    }
}
