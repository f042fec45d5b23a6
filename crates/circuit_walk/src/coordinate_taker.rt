//! What takes the coordinates of a program's detectors, one after another.

ghost use Rattle.std.specs.Prelude.{◌≡◌, ◌+◌, ◌≤◌, ℕ, Some, length, slice_get};
ghost use Rattle.circuit_walk.specs.Programs.{KeptProgram};

use crate::program::Program;
use std::alloc::Allocator;

/// What takes the coordinates of a program's detectors, in the order in which these are reached.
pub trait CoordinateTaker<A: Allocator + Copy> {
    // What holds of it behind so many detectors of a program, where it began as it was before.
    ghost stands: { KeptProgram → Self → ℕ → Self → Type 0 };

    /// Takes the coordinates of the next detector.
    fn take(&mut self, program: &Program<'_, A>, coordinates: &[i64])
        requires few { length coordinates.now ≤ 16 }
        requires next { (begun : Self) × (d : ℕ) × stands program.now begun d self.old
            × (slice_get program.now.listing.coordinates d ≡ Some coordinates.now) }
        ensures { (begun : Self) (d : ℕ) → stands program.now begun d self.old
            → slice_get program.now.listing.coordinates d ≡ Some coordinates.now
            → stands program.now begun (d + 1) self.new };
}
