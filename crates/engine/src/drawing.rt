//! Shots of a circuit.
ghost use Rattle.std.specs.Prelude.{◌≡◌, IfOk, IfErr, IsTrue};
ghost use Rattle.backward.specs.Places.{NoneIsRandom};
ghost use Rattle.engine.specs.Output.{program_shots, refused_or, shots_output};
ghost use Rattle.engine.specs.private.Answered.{Answers};
ghost use Rattle.frames.specs.Shown.{shown_line};
ghost use Rattle.frames.specs.declared.side_runs.Shown.TheVariants.{Detections};
ghost use Rattle.step_model.specs.Faults.{memory_fault};

use crate::asking::{Randomness, randomness_of};
use crate::order::Status;
use crate::refusing::refuse;
use circuit_walk::Program;
use frames::Shown;
use std::alloc::Allocator;
use step_model::{Cause, Fault, Sink};
use unroll::read_program;

/// How many shots an order may ask for.
const MOST_SHOTS: u64 = 1_000_000;

const TOO_MANY: Fault = Fault {
    cause: Cause::Shots,
    line: 0,
};

/// Writes what is shown of this many shots of a text's circuit, or why they are refused.
pub(crate) fn answer_shots<W: Sink, A: Allocator + Copy>(
    alloc: A,
    shown: Shown,
    shots: u64,
    seed: u64,
    text: &[u8],
    sink: &mut W,
) -> Result<Status, Fault>
    ensures { Answers W.taken W.failures sink.old sink.new
        (refused_or (shots_output (shown_line shown) shots seed text.now)) result }
{
    match read_program(alloc, text) {
        Ok(program) => write_shots(alloc, &program, shown, shots, seed, sink),
        Err(fault) => refuse(alloc, fault, sink),
    }
}

/// The same for a program: what is refused is too many shots.
fn write_shots<W: Sink, A: Allocator + Copy>(
    alloc: A,
    program: &Program<'_, A>,
    shown: Shown,
    shots: u64,
    seed: u64,
    sink: &mut W,
) -> Result<Status, Fault>
    ensures { Answers W.taken W.failures sink.old sink.new
        (refused_or (program_shots (shown_line shown) shots seed program.now.listing)) result }
{
    if shots > MOST_SHOTS {
        return refuse(alloc, TOO_MANY, sink);
    }
    if goes_alone(alloc, program, shown)? {
        frames::write_detections(alloc, program, shots, seed, sink)?;
    } else {
        frames::write_shots(alloc, program, shown, shots, seed, sink)?;
    }
    Ok(Status::Done)
}

/// Whether frames alone show this of a program: detections, where it is soon known that no target is random.
fn goes_alone<A: Allocator + Copy>(
    alloc: A,
    program: &Program<'_, A>,
    shown: Shown,
) -> Result<bool, Fault>
    ensures ok { IfOk result (λ alone. IsTrue alone → (shown ≡ Detections)
        × NoneIsRandom program.now.listing) }
    ensures err { IfErr result (λ e. e ≡ memory_fault) }
{
    match shown {
        Shown::Records => Ok(false),
        Shown::Detections => {
            let known = randomness_of(alloc, program)?;
            Ok(matches!(known, Randomness::Absent))
        }
    }
}
