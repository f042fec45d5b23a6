//! Drawn shots of a program, a line each.
ghost use Rattle.std.specs.Prelude.{◌≡◌, ◌⊎◌, ◌+◌, ◌*◌, length, IfOk, IfErr, OnOk, OnErr};
ghost use Rattle.step_model.specs.Ends.{Takes, TakesSome, write_failures};
ghost use Rattle.step_model.specs.Faults.{memory_fault, write_fault};
ghost use Rattle.forward_sim.specs.Drawn.{bounds_of};
ghost use Rattle.frames.specs.Carried.{NoneRandom};
ghost use Rattle.frames.specs.Sampled.{detection_line, shots_text};
ghost use Rattle.frames.specs.Shown.{shown_line};
ghost use Rattle.frames.specs.private.Followers.{Follows, kind_of};
ghost use Rattle.frames.specs.private.ShownRuns.{DontShow};
ghost use Rattle.frames.specs.private.WritesShots.{WritesShots};

use crate::batches::write_batches;
use crate::follower::Follower;
use crate::side_runs::{Shown, SideRuns, count};
use circuit_walk::Program;
use forward_sim::Shots;
use std::alloc::{AllocError, Allocator};
use step_model::{Fault, Sink};

/// Writes a line for each of the first `shots` shots of a seed: a digit for each truth value that is shown of it. All memory is
/// taken before the first line goes out, and it doesn't grow with the number of shots. It fails where memory runs out or the
/// sink fails.
pub fn write_shots<W: Sink, A: Allocator + Copy>(
    alloc: A,
    program: &Program<'_, A>,
    shown: Shown,
    shots: u64,
    seed: u64,
    sink: &mut W,
) -> Result<(), Fault>
    ensures written { OnOk result
        (Takes (W.taken sink.old) (W.taken sink.new)
        (shots_text (shown_line shown) shots seed program.now.listing)) }
    ensures fault { IfErr result (λ e. (e ≡ memory_fault) ⊎ (e ≡ write_fault)) }
    ensures writes { W.failures sink.new ≡ write_failures result (W.failures sink.old) }
    ensures beginning { OnErr result
        (TakesSome (W.taken sink.old) (W.taken sink.new)
        (shots_text (shown_line shown) shots seed program.now.listing)) }
{
    let mut follower = Follower::beside(alloc, program, shown)?;
    write_followed(alloc, program, &mut follower, shown, shots, seed, sink)
}

/// The same of detections, where no target is random. Then a shot's faults alone say which targets differ: no reference run is made,
/// and no coin is tossed.
pub fn write_detections<W: Sink, A: Allocator + Copy>(
    alloc: A,
    program: &Program<'_, A>,
    shots: u64,
    seed: u64,
    sink: &mut W,
) -> Result<(), Fault>
    requires { NoneRandom program.now.listing }
    ensures written { OnOk result
        (Takes (W.taken sink.old) (W.taken sink.new)
        (shots_text detection_line shots seed program.now.listing)) }
    ensures fault { IfErr result (λ e. (e ≡ memory_fault) ⊎ (e ≡ write_fault)) }
    ensures writes { W.failures sink.new ≡ write_failures result (W.failures sink.old) }
    ensures beginning { OnErr result
        (TakesSome (W.taken sink.old) (W.taken sink.new)
        (shots_text detection_line shots seed program.now.listing)) }
{
    let mut follower = Follower::alone(alloc, program)?;
    write_followed(
        alloc,
        program,
        &mut follower,
        Shown::Detections,
        shots,
        seed,
        sink,
    )
}

// The same, with what follows the runs.
fn write_followed<W: Sink, A: Allocator + Copy>(
    alloc: A,
    program: &Program<'_, A>,
    follower: &mut Follower<A>,
    shown: Shown,
    shots: u64,
    seed: u64,
    sink: &mut W,
) -> Result<(), Fault>
    requires follows { Follows program.now.listing follower.old }
    requires kind { kind_of follower.old ≡ shown }
    ensures { WritesShots W.taken W.failures sink.old sink.new
        (shots_text (shown_line shown) shots seed program.now.listing) result }
{
    let passed = follower.coins_that_dont_count(program);
    let mut drawn = Shots::new(alloc, program, passed)?;
    write_drawn(
        alloc, program, follower, &mut drawn, shown, shots, seed, sink,
    )
}

// The same, with shots to be drawn.
fn write_drawn<W: Sink, A: Allocator + Copy>(
    alloc: A,
    program: &Program<'_, A>,
    follower: &mut Follower<A>,
    drawn: &mut Shots<A>,
    shown: Shown,
    shots: u64,
    seed: u64,
    sink: &mut W,
) -> Result<(), Fault>
    requires follows { Follows program.now.listing follower.old }
    requires kind { kind_of follower.old ≡ shown }
    requires bounds { drawn.old.bounds ≡ bounds_of program.now.listing }
    requires coins { length drawn.old.coins ≡ program.now.listing.collapses }
    requires passed { DontShow shown program.now.listing drawn.old.passed }
    ensures { WritesShots W.taken W.failures sink.old sink.new
        (shots_text (shown_line shown) shots seed program.now.listing) result }
{
    let mut words = vec![in alloc; 0u64; count(program, shown)]?;
    let mut room = room_for(alloc, &words)?;
    let mut runs = SideRuns::new(program, follower, &mut words);
    write_batches(drawn, &mut runs, &mut room, shots, seed, sink)
}

// Room for a byte of each of these words, and for a line with a digit for each.
fn room_for<A: Allocator + Copy>(alloc: A, words: &[u64]) -> Result<Vec<u8, A>, AllocError>
    ensures { IfOk result (λ room. length room.items ≡ 2 * length words.now + 1) }
{
    vec![in alloc; b'0'; 2 * words.len() + 1]
}
