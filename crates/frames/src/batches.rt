//! Shots drawn, run and written, 64 at a time.
ghost use Rattle.std.specs.Prelude.{◌≡◌, ◌<◌, ◌≤◌, IfErr, OnOk, OnErr};
ghost use Rattle.step_model.specs.Pushed.{Pushes};
ghost use Rattle.step_model.specs.Ends.{Takes, TakesBeginning, write_failures};
ghost use Rattle.step_model.specs.Faults.{write_fault};
ghost use Rattle.frames.specs.Sampled.{lines_from, shot_generator, shots_text};
ghost use Rattle.frames.specs.Shown.{shown_line};
ghost use Rattle.frames.specs.private.ShownRuns.{FitTogether};

use crate::lines::push_lines;
use crate::side_runs::SideRuns;
use forward_sim::Shots;
use rand_core::SeedableRng;
use rand_pcg::Pcg64;
use std::alloc::Allocator;
use step_model::{Fault, Pieces, Sink};

/// Writes the lines of the first `shots` shots of a seed. `room` is for a byte of each truth value, and then for a line. It
/// takes no memory, and fails only where the sink fails; a beginning of the text has then gone out, and the sink is not called
/// again.
pub(crate) fn write_batches<W: Sink, A: Allocator + Copy>(
    drawn: &mut Shots<A>,
    runs: &mut SideRuns<'_, '_, A>,
    room: &mut [u8],
    shots: u64,
    seed: u64,
    sink: &mut W,
) -> Result<(), Fault>
    requires { FitTogether drawn.old runs.old room.old }
    ensures all { OnOk result
        (Takes (W.taken sink.old) (W.taken sink.new)
        (shots_text (shown_line runs.old.shown) shots seed runs.old.program)) }
    ensures fault { IfErr result (λ e. e ≡ write_fault) }
    ensures beginning { OnErr result
        (TakesBeginning (W.taken sink.old) (W.taken sink.new)
        (shots_text (shown_line runs.old.shown) shots seed runs.old.program)) }
    ensures count { W.failures sink.new ≡ write_failures result (W.failures sink.old) }
{
    let mut rng = Pcg64::seed_from_u64(seed);
    let mut out = Pieces::new();
    push_shots(&mut out, sink, drawn, runs, room, shots, &mut rng);
    out.finish(sink)
}

fn push_shots<W: Sink, A: Allocator + Copy>(
    out: &mut Pieces,
    sink: &mut W,
    drawn: &mut Shots<A>,
    runs: &mut SideRuns<'_, '_, A>,
    room: &mut [u8],
    shots: u64,
    rng: &mut Pcg64,
)
    requires { FitTogether drawn.old runs.old room.old }
    ensures { Pushes W.taken W.failures sink.old sink.new out.old out.new
        (lines_from (shown_line runs.old.shown) runs.old.program shots rng.old) }
{
    let mut left = shots;
    while left > 0 {
        // Nothing more goes out.
        if out.has_failed() {
            return;
        }
        let count = next_count(left);
        push_batch(out, sink, drawn, runs, room, count, rng);
        left -= u64::from(count);
    }
}

// How many shots go into the next batch: the last one may be shorter.
fn next_count(left: u64) -> u32
    requires { 0 < left }
    ensures some { 0 < result }
    ensures few { result ≤ 64 }
    ensures within { result ≤ left }
{
    if left < 64 { left as u32 } else { 64 }
}

// The lines of one batch.
fn push_batch<W: Sink, A: Allocator + Copy>(
    out: &mut Pieces,
    sink: &mut W,
    drawn: &mut Shots<A>,
    runs: &mut SideRuns<'_, '_, A>,
    room: &mut [u8],
    count: u32,
    rng: &mut Pcg64,
)
    requires fit { FitTogether drawn.old runs.old room.old }
    requires count { count ≤ 64 }
    ensures lines { Pushes W.taken W.failures sink.old sink.new out.old out.new
        (lines_from (shown_line runs.old.shown) runs.old.program count rng.old) }
    ensures taken { rng.new ≡ shot_generator runs.old.program rng.old count }
    ensures program { runs.new.program ≡ runs.old.program }
    ensures shown { runs.new.shown ≡ runs.old.shown }
    ensures passed { drawn.new.passed ≡ drawn.old.passed }
    ensures fit { FitTogether drawn.new runs.new room.new }
{
    drawn.draw(count, rng);
    runs.run(drawn.faults(), drawn.coins());
    push_lines(out, sink, room, runs.words(), count);
}
