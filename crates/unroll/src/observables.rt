//! The observables that instructions name.

ghost use Rattle.std.specs.Prelude.{◌≡◌, nat_lt};
ghost use Rattle.stim_parser.specs.Kept.{instruction_in};
ghost use Rattle.circuit_walk.specs.Refusals.{most_observables};
ghost use Rattle.unroll.specs.private.Observables.{named_to};

use stim_parser::{Instruction, Operation, first_number};

const MOST_OBSERVABLES: u64 = 1024;

/// Whether this many observables are more than a circuit may have.
#[inline(always)]
pub(crate) fn are_beyond_limit(observables: u64) -> bool
    ensures { result ≡ nat_lt most_observables observables }
{
    observables > MOST_OBSERVABLES
}

/// One more than the observable that an instruction names, and 0 where it names none.
pub(crate) fn named_to(instruction: Instruction<'_, '_>) -> u64
    ensures { result
        ≡ named_to (instruction_in instruction.entry).operation
        (instruction_in instruction.entry).arguments }
{
    match instruction.operation {
        Operation::ObservableInclude => first_number(instruction.arguments)
            .unwrap_or(0)
            .saturating_add(1),
        _ => 0,
    }
}
