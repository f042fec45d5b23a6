//! The course of a walk: over the instructions that make steps, and over the steps of each.

ghost use Rattle.std.specs.Prelude.{◌≡◌, ◌≢◌, ◌+◌, ◌-◌, ◌<◌, ◌≤◌, ◌==◌, None, Some, false, true, if◌then◌else◌, length, nat_lt, option_map, slice_get, IfSome};
ghost use Rattle.circuit_walk.specs.Named.{IsStepOf};
ghost use Rattle.circuit_walk.specs.Programs.{KeptProgram};
ghost use Rattle.circuit_walk.specs.Steps.{listed};
ghost use Rattle.circuit_walk.specs.private.Courses.{IsCourse, moves_ahead, moves_behind};
ghost use Rattle.circuit_walk.specs.private.Held.{Holds};
ghost use Rattle.circuit_walk.specs.private.Taken.{IsFacing};

use crate::choice::StepMakers;
use crate::instruction_steps::InstructionSteps;
use crate::program::Text;
use crate::step::{Counts, Step};
use cursor::Cursor;
use std::alloc::Allocator;
use stim_parser::{Operation, TargetWord};

/// A place among the steps of a text: before an instruction, if `inside` is so, and behind some of its steps, or else between
/// instructions.
#[derive(Drop)]
pub(crate) struct Course<'a, 'p, A: Allocator + Copy> {
    pub text: Text<'a, 'p, A>,
    pub cursor: Cursor,
    pub inside: bool,
    pub here: InstructionSteps<'a>,
    pub counts: Counts,
    pub steps: usize,
}

impl<'a, 'p, A: Allocator + Copy> Course<'a, 'p, A> {
    /// Before the first step.
    pub(crate) fn start(text: Text<'a, 'p, A>) -> Self
        requires { (program : KeptProgram) × Holds program text }
        ensures course { (program : KeptProgram) → Holds program text.entry → IsCourse program result }
        ensures place { result.steps ≡ 0 }
    {
        Course {
            text,
            cursor: Cursor::start::<StepMakers, Operation, TargetWord, A>(text.items),
            inside: false,
            here: InstructionSteps::none(),
            counts: Counts {
                records: 0,
                collapses: 0,
                faults: 0,
            },
            steps: 0,
        }
    }

    /// After the last step.
    pub(crate) fn end(text: Text<'a, 'p, A>) -> Self
        requires { (program : KeptProgram) × Holds program text }
        ensures course { (program : KeptProgram) → Holds program text.entry → IsCourse program result }
        ensures place { (program : KeptProgram) → Holds program text.entry
            → result.steps ≡ length program.listing.steps }
    {
        Course {
            text,
            cursor: Cursor::end::<StepMakers, Operation, TargetWord, A>(text.items),
            inside: false,
            here: InstructionSteps::none(),
            counts: text.totals.counts,
            steps: text.totals.steps as usize,
        }
    }

    /// The same place.
    pub(crate) fn copy(&self) -> Self
        ensures { result ≡ self.now }
    {
        Course {
            text: self.text,
            cursor: self.cursor.copy(),
            inside: self.inside,
            here: self.here.copy(),
            counts: self.counts,
            steps: self.steps,
        }
    }

    /// Goes behind the instruction that the place is inside, if it is inside one.
    #[inline(always)]
    fn leave(&mut self)
        requires course { (program : KeptProgram) × IsCourse program self.old }
        requires done { self.old.here.at ≡ self.old.here.end }
        ensures course { (program : KeptProgram) → IsCourse program self.old → IsCourse program self.new }
        ensures outside { self.new.inside ≡ false }
        ensures place { self.new.steps ≡ self.old.steps }
        ensures nearer { moves_ahead self.new ≤ moves_ahead self.old }
    {
        if self.inside {
            self.cursor
                .pass::<StepMakers, Operation, TargetWord, A>(self.text.items);
            self.here = InstructionSteps::none();
            self.inside = false;
        }
    }

    /// Goes to before the first step of the next instruction; where there is none, behind all. Answers whether there is one.
    #[inline(never)]
    fn enter_next(&mut self) -> bool
        requires course { (program : KeptProgram) × IsCourse program self.old }
        requires done { self.old.here.at ≡ self.old.here.end }
        ensures course { (program : KeptProgram) → IsCourse program self.old → IsCourse program self.new }
        ensures place { self.new.steps ≡ self.old.steps }
        ensures nearer { result ≡ true → moves_ahead self.new < moves_ahead self.old }
        ensures none { (program : KeptProgram) → IsCourse program self.old → result ≡ false
            → self.old.steps ≡ length program.listing.steps }
    {
        self.leave();
        match self
            .cursor
            .face::<StepMakers, Operation, TargetWord, A>(self.text.items)
        {
            Some(i) => {
                self.here = self.text.steps_at(i);
                self.inside = true;
                true
            }
            None => false,
        }
    }

    /// Goes to behind the last step of the instruction before, if there is one, and answers whether there is one.
    #[inline(never)]
    fn enter_previous(&mut self) -> bool
        requires course { (program : KeptProgram) × IsCourse program self.old }
        requires done { self.old.here.at ≡ 0 }
        ensures course { (program : KeptProgram) → IsCourse program self.old → IsCourse program self.new }
        ensures place { self.new.steps ≡ self.old.steps }
        ensures nearer { result ≡ true → moves_behind self.new < moves_behind self.old }
        ensures none { result ≡ false → self.old.steps ≡ 0 }
    {
        match self
            .cursor
            .previous::<StepMakers, Operation, TargetWord, A>(self.text.items)
        {
            Some(i) => {
                let mut here = self.text.steps_at(i);
                here.at = here.end;
                self.here = here;
                self.inside = true;
                true
            }
            None => {
                self.here = InstructionSteps::none();
                self.inside = false;
                false
            }
        }
    }

    /// Goes over instructions without further steps. Answers whether a step is left, which is then one of the instruction that
    /// the place is inside.
    #[inline(always)]
    pub(crate) fn face_step(&mut self) -> bool
        requires course { (program : KeptProgram) × IsCourse program self.old }
        ensures course { (program : KeptProgram) → IsCourse program self.old → IsCourse program self.new }
        ensures place { self.new.steps ≡ self.old.steps }
        ensures facing { result ≡ true → self.new.here.at ≢ self.new.here.end }
        ensures none { (program : KeptProgram) → IsCourse program self.old → result ≡ false
            → self.old.steps ≡ length program.listing.steps }
    {
        while self.here.at == self.here.end {
            if !self.enter_next() {
                return false;
            }
        }
        true
    }

    /// Goes back over instructions without earlier steps. Answers whether a step is before the place, which is then one of the
    /// instruction that the place is inside.
    #[inline(always)]
    pub(crate) fn face_step_before(&mut self) -> bool
        requires course { (program : KeptProgram) × IsCourse program self.old }
        ensures course { (program : KeptProgram) → IsCourse program self.old → IsCourse program self.new }
        ensures place { self.new.steps ≡ self.old.steps }
        ensures facing { result ≡ true → 0 < self.new.here.at }
        ensures none { result ≡ false → self.old.steps ≡ 0 }
    {
        while self.here.at == 0 {
            if !self.enter_previous() {
                return false;
            }
        }
        true
    }

    /// Answers the step that is faced, and goes over it.
    #[inline(always)]
    fn take(&mut self) -> Step<'a>
        requires course { (program : KeptProgram) × IsCourse program self.old }
        requires facing { self.old.here.at ≢ self.old.here.end }
        ensures course { (program : KeptProgram) → IsCourse program self.old → IsCourse program self.new }
        ensures step { (program : KeptProgram) → IsCourse program self.old
            → slice_get program.listing.steps self.old.steps ≡ Some (listed program.listing.qubits result) }
        ensures named { (program : KeptProgram) → IsCourse program self.old → IsStepOf program result }
        ensures place { self.new.steps ≡ self.old.steps + 1 }
    {
        self.text.fits();
        let taken = self.here.next(self.counts);
        self.here.at = taken.at;
        self.counts = taken.counts;
        self.steps += 1;
        taken.step
    }

    /// Answers the step that stands right before the place, and goes back over it.
    #[inline(always)]
    pub(crate) fn take_back(&mut self) -> Step<'a>
        requires course { (program : KeptProgram) × IsCourse program self.old }
        requires facing { 0 < self.old.here.at }
        ensures course { (program : KeptProgram) → IsCourse program self.old → IsCourse program self.new }
        ensures step { (program : KeptProgram) → IsCourse program self.old
            → slice_get program.listing.steps self.new.steps ≡ Some (listed program.listing.qubits result) }
        ensures named { (program : KeptProgram) → IsCourse program self.old → IsStepOf program result }
        ensures place { self.old.steps ≡ self.new.steps + 1 }
    {
        self.step_back(self.here.operation);
        self.here.next(self.counts).step
    }

    /// Goes back over the step that stands right before the place, of an instruction of this operation.
    #[inline(always)]
    pub(crate) fn step_back(&mut self, operation: Operation)
        requires course { (program : KeptProgram) × IsCourse program self.old }
        requires facing { 0 < self.old.here.at }
        requires operation { self.old.here.operation ≡ operation }
        ensures course { (program : KeptProgram) → IsCourse program self.old → IsCourse program self.new }
        ensures facing { self.new.here.at ≢ self.new.here.end }
        ensures next { IsFacing self.new.here self.new.counts }
        ensures place { self.old.steps ≡ self.new.steps + 1 }
        ensures same { self.new.here.operation ≡ self.old.here.operation }
    {
        self.here.at = self.here.place_before(operation);
        self.counts = self.here.counts_before(operation, self.counts);
        self.steps -= 1;
        self.text.fits();
    }

    /// Answers the step after the place and goes over it; none at the end, where the place stays.
    #[inline(always)]
    pub(crate) fn next(&mut self) -> Option<Step<'a>>
        requires course { (program : KeptProgram) × IsCourse program self.old }
        ensures course { (program : KeptProgram) → IsCourse program self.old → IsCourse program self.new }
        ensures step { (program : KeptProgram) → IsCourse program self.old
            → option_map (listed program.listing.qubits) result ≡ slice_get program.listing.steps self.old.steps }
        ensures named { (program : KeptProgram) → IsCourse program self.old → IfSome result (IsStepOf program) }
        ensures place { (program : KeptProgram) → IsCourse program self.old → self.new.steps
            ≡ (if nat_lt self.old.steps (length program.listing.steps) then self.old.steps + 1 else self.old.steps) }
    {
        if self.face_step() {
            Some(self.take())
        } else {
            None
        }
    }

    /// Answers the step before the place and goes back over it; none at the start, where the place stays.
    #[inline(always)]
    pub(crate) fn previous(&mut self) -> Option<Step<'a>>
        requires course { (program : KeptProgram) × IsCourse program self.old }
        ensures course { (program : KeptProgram) → IsCourse program self.old → IsCourse program self.new }
        ensures step { (program : KeptProgram) → IsCourse program self.old
            → option_map (listed program.listing.qubits) result
            ≡ (if self.old.steps == 0 then None else slice_get program.listing.steps (self.old.steps - 1)) }
        ensures named { (program : KeptProgram) → IsCourse program self.old → IfSome result (IsStepOf program) }
        ensures place { self.new.steps ≡ self.old.steps - 1 }
    {
        if self.face_step_before() {
            Some(self.take_back())
        } else {
            None
        }
    }
}
