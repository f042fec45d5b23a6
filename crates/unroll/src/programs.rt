//! The program of a circuit, and that of a text.

ghost use Rattle.std.specs.Prelude.{◌≡◌, ◌⊎◌, Ok, Err, Some, IfOk, IfErr};
ghost use Rattle.circuit_walk.specs.Refusals.{circuit_refusal};
ghost use Rattle.step_model.specs.Faults.{memory_fault};
ghost use Rattle.unroll.specs.Programs.{program_in, program_of};
ghost use Rattle.unroll.specs.private.Accepted.{HasTotals, IsAccepted};

use crate::refusals::refusal_of;
use crate::totals::{Totals, totals_of};
use circuit_walk::{Counts, Parts, Program};
use std::alloc::Allocator;
use step_model::Fault;
use stim_parser::{Circuit, parse};

/// The totals of a circuit, or why it has no program.
fn accepted_totals<A: Allocator + Copy>(circuit: &Circuit<'_, A>) -> Result<Totals, Fault>
    ensures ok { IfOk result (IsAccepted circuit.now) }
    ensures err { IfErr result (λ fault. circuit_refusal circuit.now ≡ Some fault) }
{
    circuit.fits();
    let totals = totals_of(circuit);
    match refusal_of(circuit, &totals) {
        Some(fault) => Err(fault),
        None => Ok(totals),
    }
}

/// The totals of a circuit that isn't refused, each in 32 bits.
fn narrowed(totals: Totals) -> circuit_walk::Totals
    requires { HasTotals totals }
    ensures qubits { result.qubits ≡ totals.qubits }
    ensures records { result.counts.records ≡ totals.records }
    ensures collapses { result.counts.collapses ≡ totals.collapses }
    ensures faults { result.counts.faults ≡ totals.faults }
    ensures steps { result.steps ≡ totals.made }
    ensures detectors { result.detectors ≡ totals.detectors }
    ensures observables { result.observables ≡ totals.observables }
{
    circuit_walk::Totals {
        qubits: totals.qubits,
        counts: Counts {
            records: totals.records as u32,
            collapses: totals.collapses as u32,
            faults: totals.faults as u32,
        },
        steps: totals.made as u32,
        detectors: totals.detectors as u32,
        observables: totals.observables as u32,
    }
}

/// The program of a circuit, or why it has none. It takes no memory: the program is the circuit's items and its totals. Time
/// grows with the text alone.
pub fn unroll<'a, A: Allocator + Copy>(circuit: Circuit<'a, A>) -> Result<Program<'a, A>, Fault>
    ensures ok { IfOk result (λ program. program_of circuit.entry ≡ Ok program.listing) }
    ensures err { IfErr result (λ fault. program_of circuit.entry ≡ Err fault) }
{
    let totals = accepted_totals(&circuit)?;
    Ok(Program::new(Parts {
        read: circuit.numbered(),
        totals: narrowed(totals),
    }))
}

/// The program for which a text stands, or why the text is refused and at which line. No copy of the text is made: the
/// program keeps arguments and probabilities where they stand in it.
pub fn read_program<'a, A: Allocator + Copy>(
    alloc: A,
    text: &'a [u8],
) -> Result<Program<'a, A>, Fault>
    ensures ok { IfOk result (λ program. program_in text.now ≡ Ok program.listing) }
    ensures err { IfErr result (λ fault. (fault ≡ memory_fault)
        ⊎ (program_in text.now ≡ Err fault)) }
{
    let circuit = parse(alloc, text)?;
    unroll(circuit)
}
