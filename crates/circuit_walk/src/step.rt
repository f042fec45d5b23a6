//! The steps of a program, as a walk hands them out.

ghost use Rattle.std.specs.Prelude.{◌≡◌, ℕ};
ghost use Rattle.circuit_walk.specs.Steps.{listed};
ghost use Rattle.step_model.specs.Listing.{is_collapse};

use crate::letters::Letters;
use gate_table::Gate;
use pauli_word::Letter;

/// A fault's number, from 0 in the order of the steps, and the number of its probability among the circuit's.
#[derive(Clone, Copy, PartialEq, Eq)]
pub struct FaultName {
    pub number: u32,
    pub chance: u32,
}

/// One step of a program. Qubits, records and faults are numbered from 0. A collapse is the projective measurement inside a
/// measurement or a reset.
#[derive(Clone, Copy)]
pub enum Step<'c> {
    One {
        gate: Gate,
        q: u32,
    },
    Two {
        gate: Gate,
        a: u32,
        b: u32,
    },
    /// Measures a letter at a qubit, and then resets the qubit where `reset`; `rec` is none where nothing is recorded.
    Collapse {
        letter: Letter,
        qubit: u32,
        rec: Option<u32>,
        reset: bool,
        inverted: bool,
        flip: Option<FaultName>,
    },
    /// Measures a Pauli product.
    CollapseWord {
        letters: Letters<'c>,
        rec: Option<u32>,
        inverted: bool,
        flip: Option<FaultName>,
    },
    /// A fault that applies letters at qubits where it happens.
    Fault {
        name: FaultName,
        letters: Letters<'c>,
    },
    /// Applies a letter where an earlier record is 1.
    Feedback {
        letter: Letter,
        q: u32,
        rec: u32,
    },
}

impl<'c> Step<'c> {
    /// Whether it measures a letter or a product: then it takes a coin, which is the outcome where that is random.
    #[inline(always)]
    pub fn is_collapse(self) -> bool
        ensures { (n : ℕ) → result ≡ is_collapse (listed n self.entry) }
    {
        matches!(self, Step::Collapse { .. } | Step::CollapseWord { .. })
    }
}

/// How many records, collapses and faults come before a place.
#[derive(Clone, Copy)]
pub struct Counts {
    pub records: u32,
    pub collapses: u32,
    pub faults: u32,
}
