//! A walk over the steps of a program, forward and back. It takes no memory.

ghost use Rattle.std.specs.Prelude.{◌≡◌, ◌+◌, ◌-◌, ◌<◌, ◌≤◌, ◌==◌, ℕ, false, true, if◌then◌else◌, IfSome, None, length, nat_lt, option_map, slice_get, take};
ghost use Rattle.circuit_walk.specs.Named.{IsStepOf};
ghost use Rattle.circuit_walk.specs.Steps.{listed};
ghost use Rattle.circuit_walk.specs.Undoers.{IsBackAt};
ghost use Rattle.circuit_walk.specs.Walks.{PassesBack, is_fault};
ghost use Rattle.step_model.specs.WellFormed.{collapse_count, faults_named, records_made};

use crate::course::Course;
use crate::program::Program;
use crate::step::Step;
use crate::step_undoer::StepUndoer;
use std::alloc::{AllocError, Allocator};
use std::marker::Model;

/// A walk over the steps of a program, in the order in which they are reached.
#[derive(Drop)]
pub struct Walk<'a, 'p, A: Allocator + Copy> {
    program: &'a Program<'p, A>,
    pub(crate) course: Course<'a, 'p, A>,
}

impl<'a, 'p, A: Allocator + Copy> Model for Walk<'a, 'p, A> {
    ghost use Rattle.circuit_walk.specs.Programs.{Walked};
    ghost use Rattle.circuit_walk.specs.private.Courses.{IsCourse};
    ghost use Rattle.std.specs.Coded.{codes};
    ghost use Rattle.circuit_walk.specs.Programs.{coded_circuit};

    ghost Value = { Walked };

    ghost coded = { Prim.hlevel (codes, coded_circuit) };

    ghost view = { λ w. record { program = w.program.now; place = w.course.steps } };

    ghost invariant = { λ w. IsCourse w.program.now w.course };
}

impl<'a, 'p, A: Allocator + Copy> Walk<'a, 'p, A> {
    /// Before the first step.
    pub fn start(program: &'a Program<'p, A>) -> Self
        ensures program { result.program ≡ program.now }
        ensures place { result.place ≡ 0 }
    {
        Walk {
            program,
            course: Course::start(program.text()),
        }
    }

    /// After the last step.
    pub fn end(program: &'a Program<'p, A>) -> Self
        ensures program { result.program ≡ program.now }
        ensures place { result.place ≡ length program.now.listing.steps }
    {
        Walk {
            program,
            course: Course::end(program.text()),
        }
    }

    /// A walk at the same place.
    pub fn copy(&self) -> Self
        ensures { result ≡ self.now }
    {
        Walk {
            program: self.program,
            course: self.course.copy(),
        }
    }

    /// How many steps are before the place.
    #[inline(always)]
    pub fn place(&self) -> usize
        ensures { result ≡ self.now.place }
    {
        self.course.steps
    }

    /// How many records the steps before the place make.
    #[inline(always)]
    pub fn records(&self) -> usize
        ensures { result ≡ length (records_made (take self.now.place self.now.program.listing.steps)) }
    {
        self.course.counts.records as usize
    }

    /// How many collapses are before the place.
    #[inline(always)]
    pub fn collapses(&self) -> u32
        ensures { result ≡ collapse_count (take self.now.place self.now.program.listing.steps) }
    {
        self.course.counts.collapses
    }

    /// How many faults are before the place: the number of the next one.
    #[inline(always)]
    pub fn faults(&self) -> usize
        ensures { result ≡ length (faults_named (take self.now.place self.now.program.listing.steps)) }
    {
        self.course.counts.faults as usize
    }

    /// Answers the step after the place and goes over it. None at the end, where nothing changes.
    #[inline(always)]
    pub fn next_step(&mut self) -> Option<Step<'a>>
        ensures step { option_map (listed self.old.program.listing.qubits) result
            ≡ slice_get self.old.program.listing.steps self.old.place }
        ensures named { IfSome result (IsStepOf self.old.program) }
        ensures program { self.new.program ≡ self.old.program }
        ensures place { self.new.place
            ≡ (if nat_lt self.old.place (length self.old.program.listing.steps) then self.old.place
            + 1 else self.old.place) }
    {
        self.course.next()
    }

    /// Answers the step before the place and goes back over it. None at the start, where nothing changes.
    #[inline(always)]
    pub fn previous_step(&mut self) -> Option<Step<'a>>
        ensures step { option_map (listed self.old.program.listing.qubits) result
            ≡ (if self.old.place == 0 then None else slice_get self.old.program.listing.steps
            (self.old.place - 1)) }
        ensures named { IfSome result (IsStepOf self.old.program) }
        ensures program { self.new.program ≡ self.old.program }
        ensures place { self.new.place ≡ self.old.place - 1 }
    {
        self.course.previous()
    }

    /// Goes back over steps of one instruction, which an undoer undoes: over one at least, and to the place `to` at most. Each
    /// operation has a way of its own. It fails only where the undoer does.
    #[inline(always)]
    pub fn undo_some<U: StepUndoer<A>>(
        &mut self,
        to: usize,
        undoer: &mut U,
    ) -> Result<(), AllocError>
        requires to { to < self.old.place }
        requires stands { U.stands self.old.program undoer.old self.old.place undoer.old }
        ensures program { self.new.program ≡ self.old.program }
        ensures above { to ≤ self.new.place }
        ensures below { self.new.place < self.old.place }
        ensures undone { IsBackAt U.stands U.lasts self.old.program undoer.old self.new.place
            undoer.new result }
    {
        self.course.undo_some(self.program, to, undoer)
    }

    /// Goes back over the faults that stand right before the place, to `from` at most.
    pub fn pass_faults_back(&mut self, from: usize)
        requires { from ≤ self.old.place }
        ensures program { self.new.program ≡ self.old.program }
        ensures passed { PassesBack
            (λ k. is_fault (slice_get self.old.program.listing.steps k))
            from self.old.place self.new.place }
    {
        while from < self.place() && self.pass_run(from) {}
    }

    /// Goes back over those of one instruction, and answers whether there are any.
    fn pass_run(&mut self, from: usize) -> bool
        requires { from < self.old.place }
        ensures program { self.new.program ≡ self.old.program }
        ensures above { from ≤ self.new.place }
        ensures below { self.new.place ≤ self.old.place }
        ensures each { (k : ℕ)
            → self.new.place ≤ k
            → k < self.old.place
            → is_fault (slice_get self.old.program.listing.steps k) ≡ true }
        ensures some { result ≡ true → self.new.place < self.old.place }
        ensures none { result ≡ false
            → is_fault (slice_get self.old.program.listing.steps (self.new.place - 1)) ≡ false }
    {
        let most = self.course.steps - from;
        0 < self.course.pass_faults_back(most)
    }
}
