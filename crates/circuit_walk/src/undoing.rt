//! Back over the steps of one instruction, which an undoer undoes from the last to the first. What the instruction does is asked
//! before each, which costs little, as the answer stays; no step is put together for it.

ghost use Rattle.std.specs.Prelude.{◌≡◌, ◌<◌, ◌≤◌};
ghost use Rattle.circuit_walk.specs.private.Taken.{measuring};
ghost use Rattle.circuit_walk.specs.private.Takings.{IsTakingAt};
ghost use Rattle.circuit_walk.specs.private.Undoings.{HasGoneBack, HasUndoneOne};
ghost use Rattle.gate_table.specs.Images.{arity_of};
ghost use Rattle.stim_parser.specs.declared.operation.Operation.TheVariants.{Applies, CorrelatedError, PauliError, ProductMeasurement, QubitReset};

use crate::course::Course;
use crate::pairs::PairStep;
use crate::program::Program;
use crate::step_undoer::StepUndoer;
use gate_table::Gate;
use pauli_word::Letter;
use std::alloc::{AllocError, Allocator};
use stim_parser::Operation;

impl<'a, 'p, A: Allocator + Copy> Course<'a, 'p, A> {
    /// Has an undoer undo steps of the instruction before the place: one at least, and none before the first `to`.
    #[inline(always)]
    pub(crate) fn undo_some<U: StepUndoer<A>>(
        &mut self,
        program: &Program<'_, A>,
        to: usize,
        undoer: &mut U,
    ) -> Result<(), AllocError>
        requires place { IsTakingAt U.stands program.now undoer.old self.old }
        requires to { to < self.old.steps }
        ensures gone { HasGoneBack U.stands U.lasts program.now undoer.old undoer.new self.old
            self.new result }
        ensures above { to ≤ self.new.steps }
    {
        if !self.face_step_before() {
            return Ok(());
        }
        let operation = self.here.operation;
        loop {
            self.undo_step(program, operation, undoer)?;
            if self.here.at == 0 || self.steps <= to {
                return Ok(());
            }
        }
    }

    /// Has it undo the step before the place, of an instruction of this operation.
    #[inline(always)]
    fn undo_step<U: StepUndoer<A>>(
        &mut self,
        program: &Program<'_, A>,
        operation: Operation,
        undoer: &mut U,
    ) -> Result<(), AllocError>
        requires place { IsTakingAt U.stands program.now undoer.old self.old }
        requires facing { 0 < self.old.here.at }
        requires operation { self.old.here.operation ≡ operation }
        ensures { HasUndoneOne U.stands U.lasts program.now undoer.old undoer.new self.old self.new
            result }
    {
        match operation {
            Operation::Applies(gate) => {
                if gate.arity() == 1 {
                    self.undo_single(program, operation, gate, undoer)
                } else {
                    self.undo_pair(program, operation, gate, undoer)
                }
            }
            Operation::PauliError(letter) => {
                self.undo_letter_error(program, operation, letter, undoer)
            }
            Operation::CorrelatedError => self.undo_product_error(program, operation, undoer),
            Operation::Measurement(letter) => {
                self.undo_measured(program, operation, letter, false, undoer)
            }
            Operation::MeasurementReset(letter) => {
                self.undo_measured(program, operation, letter, true, undoer)
            }
            Operation::QubitReset(letter) => self.undo_reset(program, operation, letter, undoer),
            Operation::ProductMeasurement => self.undo_product(program, operation, undoer),
            Operation::DetectorDeclaration
            | Operation::ObservableInclude
            | Operation::Tick
            | Operation::QubitCoordinates
            | Operation::CoordinateShift => {
                self.step_back(operation);
                unreachable!()
            }
        }
    }

    /// The step of a gate of one qubit.
    #[inline(always)]
    fn undo_single<U: StepUndoer<A>>(
        &mut self,
        program: &Program<'_, A>,
        operation: Operation,
        gate: Gate,
        undoer: &mut U,
    ) -> Result<(), AllocError>
        requires place { IsTakingAt U.stands program.now undoer.old self.old }
        requires facing { 0 < self.old.here.at }
        requires operation { self.old.here.operation ≡ operation }
        requires kind { operation ≡ Applies gate }
        requires arity { arity_of gate ≡ 1 }
        ensures { HasUndoneOne U.stands U.lasts program.now undoer.old undoer.new self.old self.new
            result }
    {
        self.step_back(operation);
        let q = self.here.single(gate, self.counts);
        undoer.undo_one(program, gate, q)
    }

    /// The step of a gate of two qubits, or feedback where one of the two targets is a record.
    #[inline(always)]
    fn undo_pair<U: StepUndoer<A>>(
        &mut self,
        program: &Program<'_, A>,
        operation: Operation,
        gate: Gate,
        undoer: &mut U,
    ) -> Result<(), AllocError>
        requires place { IsTakingAt U.stands program.now undoer.old self.old }
        requires facing { 0 < self.old.here.at }
        requires operation { self.old.here.operation ≡ operation }
        requires kind { operation ≡ Applies gate }
        requires arity { arity_of gate ≡ 2 }
        ensures { HasUndoneOne U.stands U.lasts program.now undoer.old undoer.new self.old self.new
            result }
    {
        self.step_back(operation);
        match self.here.pair(gate, self.counts) {
            PairStep::Qubits { a, b } => undoer.undo_two(program, gate, a, b),
            PairStep::Fed { letter, q, rec } => undoer.undo_feedback(program, letter, q, rec),
        }
    }

    /// An error of one letter.
    #[inline(always)]
    fn undo_letter_error<U: StepUndoer<A>>(
        &mut self,
        program: &Program<'_, A>,
        operation: Operation,
        letter: Letter,
        undoer: &mut U,
    ) -> Result<(), AllocError>
        requires place { IsTakingAt U.stands program.now undoer.old self.old }
        requires facing { 0 < self.old.here.at }
        requires operation { self.old.here.operation ≡ operation }
        requires kind { operation ≡ PauliError letter }
        ensures { HasUndoneOne U.stands U.lasts program.now undoer.old undoer.new self.old self.new
            result }
    {
        self.step_back(operation);
        let letters = self.here.letter_error(letter, self.counts);
        let name = self.here.fault_name(self.counts);
        undoer.undo_fault(program, name, letters)
    }

    /// The one error of all targets.
    #[inline(always)]
    fn undo_product_error<U: StepUndoer<A>>(
        &mut self,
        program: &Program<'_, A>,
        operation: Operation,
        undoer: &mut U,
    ) -> Result<(), AllocError>
        requires place { IsTakingAt U.stands program.now undoer.old self.old }
        requires facing { 0 < self.old.here.at }
        requires operation { self.old.here.operation ≡ operation }
        requires kind { operation ≡ CorrelatedError }
        ensures { HasUndoneOne U.stands U.lasts program.now undoer.old undoer.new self.old self.new
            result }
    {
        self.step_back(operation);
        let letters = self.here.product_error(self.counts);
        let name = self.here.fault_name(self.counts);
        undoer.undo_fault(program, name, letters)
    }

    /// The measurement of a letter, which resets the qubit where `reset`.
    #[inline(always)]
    fn undo_measured<U: StepUndoer<A>>(
        &mut self,
        program: &Program<'_, A>,
        operation: Operation,
        letter: Letter,
        reset: bool,
        undoer: &mut U,
    ) -> Result<(), AllocError>
        requires place { IsTakingAt U.stands program.now undoer.old self.old }
        requires facing { 0 < self.old.here.at }
        requires operation { self.old.here.operation ≡ operation }
        requires kind { operation ≡ measuring reset letter }
        ensures { HasUndoneOne U.stands U.lasts program.now undoer.old undoer.new self.old self.new
            result }
    {
        self.step_back(operation);
        let rec = Some(self.counts.records);
        let seen = self.here.measured(letter, reset, self.counts);
        let qubit = seen.qubit;
        undoer.undo_collapse(program, letter, qubit, rec, reset, seen.inverted, seen.flip)
    }

    /// A reset.
    #[inline(always)]
    fn undo_reset<U: StepUndoer<A>>(
        &mut self,
        program: &Program<'_, A>,
        operation: Operation,
        letter: Letter,
        undoer: &mut U,
    ) -> Result<(), AllocError>
        requires place { IsTakingAt U.stands program.now undoer.old self.old }
        requires facing { 0 < self.old.here.at }
        requires operation { self.old.here.operation ≡ operation }
        requires kind { operation ≡ QubitReset letter }
        ensures { HasUndoneOne U.stands U.lasts program.now undoer.old undoer.new self.old self.new
            result }
    {
        self.step_back(operation);
        let qubit = self.here.reset(letter, self.counts);
        undoer.undo_collapse(program, letter, qubit, None, true, false, None)
    }

    /// The measurement of a product.
    #[inline(always)]
    fn undo_product<U: StepUndoer<A>>(
        &mut self,
        program: &Program<'_, A>,
        operation: Operation,
        undoer: &mut U,
    ) -> Result<(), AllocError>
        requires place { IsTakingAt U.stands program.now undoer.old self.old }
        requires facing { 0 < self.old.here.at }
        requires operation { self.old.here.operation ≡ operation }
        requires kind { operation ≡ ProductMeasurement }
        ensures { HasUndoneOne U.stands U.lasts program.now undoer.old undoer.new self.old self.new
            result }
    {
        self.step_back(operation);
        let rec = Some(self.counts.records);
        let seen = self.here.product(self.counts);
        undoer.undo_collapse_word(program, seen.letters, rec, seen.inverted, seen.flip)
    }
}
