ghost use Rattle.std.specs.Prelude.{◌≡◌};
ghost use Rattle.unroll.specs.private.Counted.{refusal_counted};
ghost use Rattle.circuit_walk.specs.Refusals.{of_circuit};
ghost use Rattle.unroll.specs.private.Summed.{AreTotals};

use crate::totals::Totals;
use std::alloc::Allocator;
use step_model::{Cause, Fault};
use stim_parser::Circuit;

const MOST_RECORDS: u64 = 8_000_000;

const MOST_COLLAPSES: u64 = 8_000_000;

const MOST_DETECTORS: u64 = 1_000_000;

const MOST_STEPS: u64 = 64_000_000;

/// A refusal of the whole circuit, where something holds of it.
fn of_circuit(holds: bool, cause: Cause) -> Option<Fault>
    ensures { result ≡ of_circuit holds cause }
{
    if holds {
        Some(Fault { cause, line: 0 })
    } else {
        None
    }
}

/// The refusal of a circuit of these totals, where it has one.
pub(crate) fn refusal_of<A: Allocator + Copy>(
    circuit: &Circuit<'_, A>,
    totals: &Totals,
) -> Option<Fault>
    requires { AreTotals circuit.now totals.now }
    ensures { result ≡ refusal_counted circuit.now }
{
    if let Some(line) = totals.far_line {
        return Some(Fault {
            cause: Cause::RecordBeforeStart,
            line,
        });
    }
    if totals.records > MOST_RECORDS || totals.collapses > MOST_COLLAPSES {
        return of_circuit(true, Cause::Records);
    }
    if let Some(line) = totals.beyond_line {
        return Some(Fault {
            cause: Cause::Detectors,
            line,
        });
    }
    if totals.detectors > MOST_DETECTORS {
        return of_circuit(true, Cause::Detectors);
    }
    of_circuit(totals.steps > MOST_STEPS, Cause::Steps)
}
