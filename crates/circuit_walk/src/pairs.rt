//! The step of a pair of targets: a gate of two qubits, or feedback where one of the two is a record.

ghost use Rattle.std.specs.Prelude.{◌≡◌, ◌≤◌, ℕ};
ghost use Rattle.circuit_walk.specs.Small.{HasSmallQubit, back_of};
ghost use Rattle.circuit_walk.specs.Steps.{listed};
ghost use Rattle.circuit_walk.specs.StepsMade.{fed_letter, pair_made};
ghost use Rattle.circuit_walk.specs.private.Taken.{pair_in};

use crate::letters::qubit_of;
use crate::step::Step;
use gate_table::Gate;
use pauli_word::Letter;
use stim_parser::{Target, TargetWord};

/// The step of a pair: its gate at two qubits, or a letter at a qubit where an earlier record is 1.
#[derive(Clone, Copy)]
pub(crate) enum PairStep {
    Qubits { a: u32, b: u32 },
    Fed { letter: Letter, q: u32, rec: u32 },
}

impl PairStep {
    /// The step, of a pair of this gate.
    #[inline(always)]
    pub(crate) fn of<'c>(self, gate: Gate) -> Step<'c>
        ensures { result ≡ pair_in gate self }
    {
        match self {
            PairStep::Qubits { a, b } => Step::Two { gate, a, b },
            PairStep::Fed { letter, q, rec } => Step::Feedback { letter, q, rec },
        }
    }
}

/// The letter that a record in a pair of this gate applies to the other qubit.
#[inline(always)]
fn fed_letter(gate: Gate) -> Letter
    ensures { result ≡ fed_letter gate }
{
    match gate {
        Gate::CX => Letter::X,
        Gate::CY => Letter::Y,
        _ => Letter::Z,
    }
}

/// The step of a pair after so many records.
#[inline(always)]
pub(crate) fn pair_step(gate: Gate, first: TargetWord, second: TargetWord, records: u32) -> PairStep
    requires first { HasSmallQubit first }
    requires second { HasSmallQubit second }
    requires near_first { back_of first ≤ records }
    requires near_second { back_of second ≤ records }
    ensures { (n : ℕ) → listed n (pair_in gate result) ≡ pair_made n records gate first second }
{
    // Mostly both are qubits, and what else a target may be isn't asked.
    if let (Some(a), Some(b)) = (first.plain(), second.plain()) {
        return PairStep::Qubits {
            a: a as u32,
            b: b as u32,
        };
    }
    match (first.get(), second.get()) {
        (Target::Back(back), _) => PairStep::Fed {
            letter: fed_letter(gate),
            q: qubit_of(second),
            rec: records - back as u32,
        },
        (_, Target::Back(back)) => PairStep::Fed {
            letter: fed_letter(gate),
            q: qubit_of(first),
            rec: records - back as u32,
        },
        _ => PairStep::Qubits {
            a: qubit_of(first),
            b: qubit_of(second),
        },
    }
}
