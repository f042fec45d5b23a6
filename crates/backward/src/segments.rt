//! The text of a program's error lines, from parts that a first pass leaves: turns that repeat are written from the
//! lines of the turn behind them, and what lies between is gone back over again.
ghost use Rattle.std.specs.Prelude.{◌≡◌, [], IfOk, OnErr, OnOk};
ghost use Rattle.step_model.specs.Pushed.{Pushes};
ghost use Rattle.backward.specs.private.Passes.{IsPassed, Stays};
ghost use Rattle.backward.specs.private.Points.{IsFor, IsReady, PushesSome};
ghost use Rattle.backward.specs.private.Segments.{AreSegments, AreTurnsAt, turns_end};
ghost use Rattle.backward.specs.private.Stretches.{text_between};

use crate::found::Found;
use crate::point::Point;
use crate::points::{Segment, leave_points};
use crate::stretch::write_parts;
use crate::text_store::TextStore;
use crate::turn_lines::push_turns;
use crate::turns::KeptTurns;
use circuit_walk::Program;
use std::alloc::{AllocError, Allocator};
use step_model::{Pieces, Sink};
use trackers::Tracker;

/// How many parts end with turns that repeat, at most: the lines of a turn are kept for each.
const MOST_KEPT: usize = 8;

/// Goes back to the start, finds no lines, and leaves parts of the way: one where some target is known to be random,
/// since no text is written then.
pub(crate) fn leave_segments<'s, 'p, 'a, A: Allocator + Copy, T: Tracker>(
    program: &'p Program<'a, A>,
    distance: usize,
    at: &mut Point<'p, 'a, A, T>,
    found: &mut Found<'s, A>,
) -> Result<Vec<Segment<'p, 'a, A>, A>, AllocError>
    requires program { at.old.walk.program ≡ program.now }
    requires passed { IsPassed program.now.listing at.old.walk.place (T.tracked at.old.tracker)
        found.old }
    ensures passed { OnOk result
        (IsPassed program.now.listing 0 (T.tracked at.new.tracker) found.new) }
    ensures stays { Stays found.old found.new }
    ensures segments { IfOk result (λ segments. AreSegments program.now 0 at.old.walk.place
        segments.items) }
{
    let mut segments = Vec::new(*found.alloc);
    while at.walk.place() > 0 {
        let looking = segments.len() < MOST_KEPT && !found.is_random();
        let segment = leave_points(program, looking, 0, distance, at, found)?;
        segments.push(segment)?;
    }
    Ok(segments)
}

/// Pushes the text of turns that begin at a place, where there are any, and answers the place behind them.
pub(crate) fn push_kept<'p, 'a, A: Allocator + Copy, W: Sink>(
    program: &'p Program<'a, A>,
    start: usize,
    turns: &Option<KeptTurns<'p, 'a, A>>,
    lines: &mut TextStore<'_, 'a, A>,
    out: &mut Pieces,
    sink: &mut W,
) -> Result<usize, AllocError>
    requires turns { AreTurnsAt program.now start turns.now }
    requires store { lines.old.program.now ≡ program.now }
    requires none { lines.old.text.text ≡ [] }
    ensures end { IfOk result (λ end. end ≡ turns_end start turns.now) }
    ensures none { OnOk result (lines.new.text.text ≡ []) }
    ensures store { lines.new.program.now ≡ lines.old.program.now }
    ensures text { OnOk result
        (Pushes W.taken W.failures sink.old sink.new out.old out.new
        (text_between program.now.listing start (turns_end start turns.now))) }
    ensures some { OnErr result
        (PushesSome W.taken W.failures sink.old sink.new out.old out.new
        (text_between program.now.listing start (turns_end start turns.now))) }
{
    match turns {
        Some(kept) => {
            push_turns(&kept.lines, kept.turns, &kept.shift, lines, out, sink)?;
            Ok(kept.end)
        }
        None => Ok(start),
    }
}

/// Writes the text of the parts that a first pass left, from the last one on. What the tracker has is lost.
pub(crate) fn write_segments<'s, 'p, 'a, A: Allocator + Copy, T: Tracker, W: Sink>(
    program: &'p Program<'a, A>,
    cut: usize,
    segments: &mut Vec<Segment<'p, 'a, A>, A>,
    at: &mut Point<'p, 'a, A, T>,
    found: &mut Found<'s, A>,
    lines: &mut TextStore<'_, 'a, A>,
    out: &mut Pieces,
    sink: &mut W,
) -> Result<(), AllocError>
    requires segments { AreSegments program.now 0 cut segments.old.items }
    requires tracker { IsFor program.now.listing (T.tracked at.old.tracker) }
    requires ready { IsReady program.now.listing cut found.old }
    requires store { lines.old.program.now ≡ program.now }
    requires none { lines.old.text.text ≡ [] }
    ensures none { OnOk result (lines.new.text.text ≡ []) }
    ensures store { lines.new.program.now ≡ lines.old.program.now }
    ensures text { OnOk result
        (Pushes W.taken W.failures sink.old sink.new out.old out.new
        (text_between program.now.listing 0 cut)) }
    ensures some { OnErr result
        (PushesSome W.taken W.failures sink.old sink.new out.old out.new
        (text_between program.now.listing 0 cut)) }
{
    while let Some(mut segment) = segments.pop() {
        if out.has_failed() {
            return Ok(());
        }
        let from = push_kept(program, segment.start, &segment.turns, lines, out, sink)?;
        write_parts(
            program,
            from,
            &mut segment.points,
            at,
            found,
            lines,
            out,
            sink,
        )?;
    }
    Ok(())
}
