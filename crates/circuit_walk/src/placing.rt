//! The instructions that a pass over coordinates goes over.

ghost use Rattle.circuit_walk.specs.private.Placing.{places};

use cursor::Choice;
use stim_parser::Operation;

/// Those that give coordinates or shift them.
pub(crate) struct Placing;

impl Choice<Operation> for Placing {
    ghost chosen = { places };

    #[inline(always)]
    fn is_chosen(operation: Operation) -> bool {
        match operation {
            Operation::DetectorDeclaration | Operation::CoordinateShift => true,
            _ => false,
        }
    }
}
