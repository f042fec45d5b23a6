//! The instructions that a walk over steps goes over.

ghost use Rattle.circuit_walk.specs.private.Walks.{makes_steps};

use cursor::Choice;
use stim_parser::Operation;

/// Those whose targets make steps.
pub(crate) struct StepMakers;

impl Choice<Operation> for StepMakers {
    ghost chosen = { makes_steps };

    #[inline(always)]
    fn is_chosen(operation: Operation) -> bool {
        match operation {
            Operation::Applies(_)
            | Operation::Measurement(_)
            | Operation::QubitReset(_)
            | Operation::MeasurementReset(_)
            | Operation::ProductMeasurement
            | Operation::PauliError(_)
            | Operation::CorrelatedError => true,
            Operation::DetectorDeclaration
            | Operation::ObservableInclude
            | Operation::Tick
            | Operation::QubitCoordinates
            | Operation::CoordinateShift => false,
        }
    }
}
