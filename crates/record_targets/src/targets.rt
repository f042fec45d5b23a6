//! How many targets a program has.
ghost use Rattle.std.specs.Prelude.{◌≡◌, ◌≤◌, length};
ghost use Rattle.step_model.specs.Targets.{targets_of};

use circuit_walk::Program;
use std::alloc::Allocator;

/// How many detectors and observables there are.
pub fn target_count<'a, A: Allocator + Copy>(program: &Program<'a, A>) -> usize
    ensures count { result ≡ length (targets_of program.now.listing) }
    ensures few { result ≤ 1001024 }
{
    program.well_formed();
    program.target_count()
}
