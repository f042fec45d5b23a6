//! A course back over faults in a row: each step of an error is a fault, so those of one instruction are passed at once.

ghost use Rattle.std.specs.Prelude.{◌≡◌, ◌+◌, ◌-◌, ◌<◌, ◌≤◌, false, true, slice_get};
ghost use Rattle.circuit_walk.specs.Programs.{KeptProgram};
ghost use Rattle.circuit_walk.specs.Walks.{ArePassed, is_fault};
ghost use Rattle.circuit_walk.specs.private.Courses.{IsCourse};
ghost use Rattle.circuit_walk.specs.Makes.{makes_errors};

use crate::course::Course;
use std::alloc::Allocator;
use stim_parser::Operation;

/// Whether each step of an operation is a fault that applies letters.
#[inline(always)]
fn makes_errors(operation: Operation) -> bool
    ensures { result ≡ makes_errors operation }
{
    matches!(
        operation,
        Operation::PauliError(_) | Operation::CorrelatedError
    )
}

impl<'a, 'p, A: Allocator + Copy> Course<'a, 'p, A> {
    /// Goes back over so many faults of the instruction that the place is inside.
    #[inline(always)]
    fn skip_back(&mut self, count: usize)
        requires course { (program : KeptProgram) × IsCourse program self.old }
        requires facing { 0 < self.old.here.at }
        requires errors { makes_errors self.old.here.operation ≡ true }
        requires within { count ≤ self.old.here.at }
        ensures course { (program : KeptProgram) → IsCourse program self.old → IsCourse program self.new }
        ensures place { self.old.steps ≡ self.new.steps + count }
        ensures passed { (program : KeptProgram) → IsCourse program self.old
            → ArePassed program.listing.steps self.new.steps count }
    {
        self.text.fits();
        self.here.at -= count;
        self.counts.faults -= count as u32;
        self.steps -= count;
    }

    /// Goes back over the faults that stand right before the place in one instruction, over `most` at most, and answers how
    /// many these are.
    #[inline(always)]
    pub(crate) fn pass_faults_back(&mut self, most: usize) -> usize
        requires course { (program : KeptProgram) × IsCourse program self.old }
        ensures course { (program : KeptProgram) → IsCourse program self.old → IsCourse program self.new }
        ensures few { result ≤ most }
        ensures place { self.old.steps ≡ self.new.steps + result }
        ensures passed { (program : KeptProgram) → IsCourse program self.old
            → ArePassed program.listing.steps self.new.steps result }
        ensures none { (program : KeptProgram) → IsCourse program self.old → 0 < most → result ≡ 0
            → 0 < self.old.steps → is_fault (slice_get program.listing.steps (self.old.steps - 1)) ≡ false }
    {
        if self.face_step_before() && makes_errors(self.here.operation) {
            let count = most.min(self.here.at);
            self.skip_back(count);
            count
        } else {
            0
        }
    }
}
