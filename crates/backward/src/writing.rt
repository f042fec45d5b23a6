//! The text of a program's error model, written to a sink.
ghost use Rattle.std.specs.Prelude.{◌≡◌, ◌⊎◌, [], false, true, length, IfOk, IfErr, IfNone, IfSome, OnErr};
ghost use Rattle.error_models.specs.ModelText.{model_text};
ghost use Rattle.step_model.specs.Ends.{Takes, TakesSome, write_failures};
ghost use Rattle.step_model.specs.Faults.{memory_fault, write_fault};
ghost use Rattle.step_model.specs.HitModels.{model_of};
ghost use Rattle.step_model.specs.Targets.{targets_of};
ghost use Rattle.backward.specs.Places.{IsLowestRandom, NoneIsRandom};
ghost use Rattle.trackers.specs.Tracked.{fresh};
ghost use Rattle.backward.specs.private.Answered.{Answers, PushesAnswer};
ghost use Rattle.backward.specs.private.Passes.{IsPassed};
ghost use Rattle.backward.specs.private.Segments.{AreWhole};

use crate::declarations::push_declarations;
use crate::found::Found;
use crate::places::random_target;
use crate::point::Point;
use crate::segments::{push_kept, write_segments};
use crate::text_store::TextStore;
use crate::whole::{Whole, cut_whole};
use circuit_walk::{Program, Walk};
use std::alloc::{AllocError, Allocator};
use step_model::{Fault, Pieces, Place, Sink};
use trackers::Tracker;

/// The room for the text of error lines. Up to five times as many bytes are held where that is all of it, else a quarter as
/// many of its end, and of another part up to twice as many, or eight times as many as the words before it take.
const ROOM: usize = 2 << 20;

/// Writes the text of the error model of a program; or answers the lowest target that is random, observable k being the
/// number of detectors and k more, and its place. Then nothing is written.
///
/// It fails where memory runs out or the sink fails: nothing was written then, or a beginning of the model's text. Its
/// memory grows with the program and with the words that the tracker keeps, and not with the text.
pub fn write_analysis<'a, A: Allocator + Copy, T: Tracker + Drop, W: Sink>(
    alloc: A,
    program: &Program<'a, A>,
    tracker: T,
    sink: &mut W,
) -> Result<Option<(u32, Place)>, Fault>
    requires { T.tracked tracker
        ≡ fresh program.now.listing.qubits (length (targets_of program.now.listing)) }
    ensures none { IfOk result (λ random. IfNone random (NoneIsRandom program.now.listing)) }
    ensures written { IfOk result (λ random. IfNone random
        (Takes (W.taken sink.old) (W.taken sink.new) (model_text (model_of program.now.listing)))) }
    ensures lowest { IfOk result (λ random. IfSome random (λ random. IsLowestRandom
        program.now.listing random.0 random.1)) }
    ensures nothing { IfOk result (λ random. IfSome random (λ _. sink.new ≡ sink.old)) }
    ensures fault { IfErr result (λ e. (e ≡ memory_fault) ⊎ (e ≡ write_fault)) }
    ensures beginning { OnErr result
        ((sink.new ≡ sink.old)
        ⊎ (NoneIsRandom program.now.listing
        × TakesSome (W.taken sink.old) (W.taken sink.new)
        (model_text (model_of program.now.listing)))) }
    ensures writes { W.failures sink.new ≡ write_failures result (W.failures sink.old) }
{
    write_in_parts(alloc, program, tracker, ROOM, sink)
}

/// The same, with a room of this many bytes for the text of error lines. Parts of the text are found in a second pass. The
/// lines of 64 steps come beside what is held, at most.
pub fn write_in_parts<'a, A: Allocator + Copy, T: Tracker + Drop, W: Sink>(
    alloc: A,
    program: &Program<'a, A>,
    tracker: T,
    room: usize,
    sink: &mut W,
) -> Result<Option<(u32, Place)>, Fault>
    requires { T.tracked tracker
        ≡ fresh program.now.listing.qubits (length (targets_of program.now.listing)) }
    ensures { Answers W.taken W.failures sink.old sink.new program.now.listing result }
{
    let mut out = Pieces::new();
    match push_analysis(alloc, program, tracker, room, &mut out, sink) {
        Ok(None) => {
            out.finish(sink)?;
            Ok(None)
        }
        Ok(Some(random)) => Ok(Some(random)),
        Err(_) if out.has_failed() => Err(Fault::WRITE),
        Err(_) => Err(Fault::MEMORY),
    }
}

fn push_analysis<'a, A: Allocator + Copy, T: Tracker + Drop, W: Sink>(
    alloc: A,
    program: &Program<'a, A>,
    tracker: T,
    room: usize,
    out: &mut Pieces,
    sink: &mut W,
) -> Result<Option<(u32, Place)>, AllocError>
    requires { T.tracked tracker
        ≡ fresh program.now.listing.qubits (length (targets_of program.now.listing)) }
    ensures { PushesAnswer W.taken W.failures sink.old sink.new out.old out.new program.now.listing
        result }
{
    let mut found = Found::new(&alloc, program)?;
    let mut lines = TextStore::new(alloc, program, room)?;
    let mut at = Point {
        walk: Walk::end(program),
        tracker,
    };
    let parts = cut_whole(program, &mut at, &mut found, &mut lines)?;
    push_parts(program, parts, &mut at, &mut found, &mut lines, out, sink)
}

// The same, from the start, with what a first pass left: points, and the text of the end.
fn push_parts<'s, 'p, 'a, A: Allocator + Copy, T: Tracker, W: Sink>(
    program: &'p Program<'a, A>,
    parts: Whole<'p, 'a, A>,
    at: &mut Point<'p, 'a, A, T>,
    found: &mut Found<'s, A>,
    lines: &mut TextStore<'_, 'a, A>,
    out: &mut Pieces,
    sink: &mut W,
) -> Result<Option<(u32, Place)>, AllocError>
    requires parts { AreWhole program.now (length program.now.listing.steps) found.old.known parts }
    requires passed { IsPassed program.now.listing 0 (T.tracked at.old.tracker) found.old }
    requires first { found.old.settled ≡ false }
    requires keeps { found.old.keeps ≡ true }
    requires store { lines.old.program.now ≡ program.now }
    requires empty { lines.old.text.text ≡ [] }
    ensures { PushesAnswer W.taken W.failures sink.old sink.new out.old out.new program.now.listing
        result }
{
    program.well_formed();
    match random_target(program, &mut at.tracker, found)? {
        Some(random) => Ok(Some(random)),
        None => {
            found.settled = true;
            let Whole {
                mut segments,
                cut,
                turns,
                end,
            } = parts;
            write_segments(program, cut, &mut segments, at, found, lines, out, sink)?;
            push_kept(program, cut, &turns, lines, out, sink)?;
            end.push_to(out, sink);
            push_declarations(program, out, sink);
            Ok(None)
        }
    }
}
