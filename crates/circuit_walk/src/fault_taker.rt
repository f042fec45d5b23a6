//! What takes the faults of a program, one after another.

ghost use Rattle.std.specs.Prelude.{◌+◌, ℕ};
ghost use Rattle.circuit_walk.specs.Found.{IsFaultOf};
ghost use Rattle.circuit_walk.specs.Programs.{KeptProgram};

use crate::found_fault::FoundFault;
use crate::program::Program;
use std::alloc::Allocator;

/// What takes all faults of a program, in their order.
pub trait FaultTaker<A: Allocator + Copy> {
    // What holds of it behind so many faults of a program, where it began as it was before.
    ghost stands: { KeptProgram → Self → ℕ → Self → Type 0 };

    /// Takes the next fault.
    fn take(&mut self, program: &Program<'_, A>, fault: FoundFault<'_>)
        requires fault { IsFaultOf program.now fault }
        requires next { (begun : Self) × stands program.now begun fault.number self.old }
        ensures { (begun : Self) → stands program.now begun fault.entry.number self.old
            → stands program.now begun (fault.entry.number + 1) self.new };
}
