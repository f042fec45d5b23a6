//! What undoes the steps of a program, from the last to the first.

ghost use Rattle.std.specs.Prelude.{ℕ};
ghost use Rattle.circuit_walk.specs.Programs.{KeptProgram};
ghost use Rattle.circuit_walk.specs.Undoers.{HasUndone, IsLast};
ghost use Rattle.circuit_walk.specs.declared.step.Step.TheVariants.{Collapse, CollapseWord, Fault, Feedback, One, Two};

use crate::letters::Letters;
use crate::program::Program;
use crate::step::FaultName;
use gate_table::Gate;
use pauli_word::Letter;
use std::alloc::{AllocError, Allocator};

/// What undoes steps of a program, from the last to the first. Each kind of step has a call of its own, which fails only where
/// memory runs out.
pub trait StepUndoer<A: Allocator + Copy> {
    // What holds of it behind so many steps of a program, where it began as it was before.
    ghost stands: { KeptProgram → Self → ℕ → Self → Type 0 };

    // What holds of it also where memory ran out.
    ghost lasts: { KeptProgram → Self → Self → Type 0 };

    /// Undoes the step before the place: a gate of one qubit.
    fn undo_one(&mut self, program: &Program<'_, A>, gate: Gate, q: u32) -> Result<(), AllocError>
        requires { IsLast stands program.now self.old (One gate q) }
        ensures { HasUndone stands lasts program.now self.old self.new (One gate q) result };

    /// Undoes the step before the place: a gate of two qubits.
    fn undo_two(
        &mut self,
        program: &Program<'_, A>,
        gate: Gate,
        a: u32,
        b: u32,
    ) -> Result<(), AllocError>
        requires { IsLast stands program.now self.old (Two gate a b) }
        ensures { HasUndone stands lasts program.now self.old self.new (Two gate a b) result };

    /// Undoes the step before the place: a letter where an earlier record is 1.
    fn undo_feedback(
        &mut self,
        program: &Program<'_, A>,
        letter: Letter,
        q: u32,
        rec: u32,
    ) -> Result<(), AllocError>
        requires { IsLast stands program.now self.old (Feedback letter q rec) }
        ensures { HasUndone stands lasts program.now self.old self.new (Feedback letter q rec)
            result };

    /// Undoes the step before the place: a letter is measured at a qubit, which is then reset where `reset`.
    fn undo_collapse(
        &mut self,
        program: &Program<'_, A>,
        letter: Letter,
        qubit: u32,
        rec: Option<u32>,
        reset: bool,
        inverted: bool,
        flip: Option<FaultName>,
    ) -> Result<(), AllocError>
        requires { IsLast stands program.now self.old (Collapse letter qubit rec reset inverted flip) }
        ensures { HasUndone stands lasts program.now self.old self.new
            (Collapse letter qubit rec reset inverted flip) result };

    /// Undoes the step before the place: a Pauli product is measured.
    fn undo_collapse_word(
        &mut self,
        program: &Program<'_, A>,
        letters: Letters<'_>,
        rec: Option<u32>,
        inverted: bool,
        flip: Option<FaultName>,
    ) -> Result<(), AllocError>
        requires { IsLast stands program.now self.old (CollapseWord letters rec inverted flip) }
        ensures { HasUndone stands lasts program.now self.old self.new
            (CollapseWord letters.entry rec inverted flip) result };

    /// Undoes the step before the place: a fault that applies letters.
    fn undo_fault(
        &mut self,
        program: &Program<'_, A>,
        name: FaultName,
        letters: Letters<'_>,
    ) -> Result<(), AllocError>
        requires { IsLast stands program.now self.old (Fault name letters) }
        ensures { HasUndone stands lasts program.now self.old self.new (Fault name letters.entry)
            result };
}
