//! Whether some target of a program is random.
ghost use Rattle.std.specs.Prelude.{◌≡◌, false, length, IfOk, IfErr, IfNone, IfSome};
ghost use Rattle.step_model.specs.Faults.{memory_fault};
ghost use Rattle.step_model.specs.Targets.{targets_of};
ghost use Rattle.backward.specs.Places.{IsLowestRandom, NoneIsRandom};
ghost use Rattle.trackers.specs.Tracked.{fresh};
ghost use Rattle.backward.specs.private.Passes.{IsPassed};

use crate::found::Found;
use crate::places::random_target;
use crate::point::Point;
use crate::segments::leave_segments;
use circuit_walk::{Program, Walk};
use std::alloc::{AllocError, Allocator};
use step_model::{Fault, Place};
use trackers::Tracker;

/// Turns that repeat are gone back over at once where they have so great a part of all steps, at least.
const SHARE: usize = 16;

/// The lowest target that is random, observable k being the number of detectors and k more, and its place; none where no target is.
/// It finds no error lines, and goes back over turns of a block that repeat at once. It fails only where memory runs out.
pub fn first_random<'a, A: Allocator + Copy, T: Tracker + Drop>(
    alloc: A,
    program: &Program<'a, A>,
    tracker: T,
) -> Result<Option<(u32, Place)>, Fault>
    requires { T.tracked tracker
        ≡ fresh program.now.listing.qubits (length (targets_of program.now.listing)) }
    ensures none { IfOk result (λ random. IfNone random (NoneIsRandom program.now.listing)) }
    ensures lowest { IfOk result (λ random. IfSome random (λ random. IsLowestRandom
        program.now.listing random.0 random.1)) }
    ensures err { IfErr result (λ e. e ≡ memory_fault) }
{
    let mut found = Found::new(&alloc, program)?;
    let mut at = Point {
        walk: Walk::end(program),
        tracker,
    };
    Ok(random_from_end(program, &mut at, &mut found)?)
}

// The same, from behind the last step.
fn random_from_end<'s, 'p, 'a, A: Allocator + Copy, T: Tracker>(
    program: &'p Program<'a, A>,
    at: &mut Point<'p, 'a, A, T>,
    found: &mut Found<'s, A>,
) -> Result<Option<(u32, Place)>, AllocError>
    requires program { at.old.walk.program ≡ program.now }
    requires first { found.old.settled ≡ false }
    requires passed { IsPassed program.now.listing at.old.walk.place (T.tracked at.old.tracker)
        found.old }
    ensures none { IfOk result (λ random. IfNone random (NoneIsRandom program.now.listing)) }
    ensures lowest { IfOk result (λ random. IfSome random (λ random. IsLowestRandom
        program.now.listing random.0 random.1)) }
{
    let distance = (at.walk.place() / SHARE).max(1);
    let parts = leave_segments(program, distance, at, found)?;
    drop(parts);
    random_target(program, &mut at.tracker, found)
}
