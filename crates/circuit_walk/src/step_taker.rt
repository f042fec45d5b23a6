//! What takes the steps of a program, one after another.

ghost use Rattle.std.specs.Prelude.{◌+◌, ◌≤◌, ℕ};
ghost use Rattle.circuit_walk.specs.Programs.{KeptProgram};
ghost use Rattle.circuit_walk.specs.Takers.{HasTaken, IsFaced};
ghost use Rattle.circuit_walk.specs.Walks.{AreFaultsFrom};
ghost use Rattle.circuit_walk.specs.declared.step.Step.TheVariants.{Collapse, CollapseWord, Fault, Feedback, One, Two};

use crate::letters::Letters;
use crate::program::Program;
use crate::step::FaultName;
use gate_table::Gate;
use pauli_word::Letter;
use std::alloc::Allocator;

/// What takes all steps of a program, in the order in which they are reached. Each kind of step has a call of its own, so that a
/// loop over the targets of an instruction holds only what these need.
pub trait StepTaker<A: Allocator + Copy> {
    // What holds of it behind so many steps of a program, where it began as it was before.
    ghost stands: { KeptProgram → Self → ℕ → Self → Type 0 };

    /// Takes the next step: a gate of one qubit.
    fn apply_one(&mut self, program: &Program<'_, A>, gate: Gate, q: u32)
        requires { IsFaced stands program.now self.old (One gate q) }
        ensures { HasTaken stands program.now self.old self.new (One gate q) };

    /// Takes the next step: a gate of two qubits.
    fn apply_two(&mut self, program: &Program<'_, A>, gate: Gate, a: u32, b: u32)
        requires { IsFaced stands program.now self.old (Two gate a b) }
        ensures { HasTaken stands program.now self.old self.new (Two gate a b) };

    /// Takes the next step: a letter where an earlier record is 1.
    fn feed_back(&mut self, program: &Program<'_, A>, letter: Letter, q: u32, rec: u32)
        requires { IsFaced stands program.now self.old (Feedback letter q rec) }
        ensures { HasTaken stands program.now self.old self.new (Feedback letter q rec) };

    /// Takes the next step: a letter is measured at a qubit, which is then reset where `reset`.
    fn collapse(
        &mut self,
        program: &Program<'_, A>,
        letter: Letter,
        qubit: u32,
        rec: Option<u32>,
        reset: bool,
        inverted: bool,
        flip: Option<FaultName>,
    )
        requires { IsFaced stands program.now self.old (Collapse letter qubit rec reset inverted flip) }
        ensures { HasTaken stands program.now self.old self.new (Collapse letter qubit rec reset inverted flip) };

    /// Takes the next step: a Pauli product is measured.
    fn collapse_word(
        &mut self,
        program: &Program<'_, A>,
        letters: Letters<'_>,
        rec: Option<u32>,
        inverted: bool,
        flip: Option<FaultName>,
    )
        requires { IsFaced stands program.now self.old (CollapseWord letters rec inverted flip) }
        ensures { HasTaken stands program.now self.old self.new (CollapseWord letters.entry rec inverted flip) };

    /// Takes the next step: a fault that applies letters.
    fn fault(&mut self, program: &Program<'_, A>, name: FaultName, letters: Letters<'_>)
        requires { IsFaced stands program.now self.old (Fault name letters) }
        ensures { HasTaken stands program.now self.old self.new (Fault name letters.entry) };

    /// The next steps are so many faults, of which the first has this number. Goes over those that change nothing, and stops
    /// before the first that may. Answers how many it went over.
    fn pass_faults(&mut self, program: &Program<'_, A>, first: u32, count: usize) -> usize
        requires next { (begun : Self) × (k : ℕ) × stands program.now begun k self.old
            × AreFaultsFrom program.now.listing.steps k first count }
        ensures few { result ≤ count }
        ensures passed { (begun : Self) (k : ℕ) → stands program.now begun k self.old
            → AreFaultsFrom program.now.listing.steps k first count
            → stands program.now begun (k + result) self.new };
}
