//! The instructions that a pass over declarations goes over.

ghost use Rattle.circuit_walk.specs.private.Declaring.{is_declaring};

use cursor::Choice;
use stim_parser::Operation;

/// Those that make records, by whose number declarations name them, and those that declare something.
pub(crate) struct Declaring;

impl Choice<Operation> for Declaring {
    ghost chosen = { is_declaring };

    #[inline(always)]
    fn is_chosen(operation: Operation) -> bool {
        match operation {
            Operation::Measurement(_)
            | Operation::MeasurementReset(_)
            | Operation::ProductMeasurement
            | Operation::DetectorDeclaration
            | Operation::ObservableInclude => true,
            Operation::Applies(_)
            | Operation::QubitReset(_)
            | Operation::PauliError(_)
            | Operation::CorrelatedError
            | Operation::Tick
            | Operation::QubitCoordinates
            | Operation::CoordinateShift => false,
        }
    }
}
