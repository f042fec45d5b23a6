//! The text of a stretch of a program's steps, whose memory doesn't grow with the text.
ghost use Rattle.std.specs.Prelude.{◌≡◌, ◌<◌, ◌≤◌, ◌⊎◌, ◌++◌, [], List, reverse, true, false, IfOk, OnOk, OnErr};
ghost use Rattle.step_model.specs.ErrorModels.{ErrorLine};
ghost use Rattle.error_models.specs.HeldText.{HoldsLines};
ghost use Rattle.step_model.specs.Pushed.{Pushes};
ghost use Rattle.backward.specs.private.Passes.{IsPassed, Stays};
ghost use Rattle.backward.specs.private.Stretches.{lines_between, text_between};
ghost use Rattle.backward.specs.private.Points.{AreParts, ArePoints, IsFor, IsPointOf, IsReady, PushesSome, first_place};

use crate::found::Found;
use crate::pass::steps_back;
use crate::point::{KeptPoint, Point};
use crate::points::{POINTS, leave_points};
use crate::text_store::TextStore;
use circuit_walk::Program;
use error_models::HeldText;
use std::alloc::{AllocError, Allocator};
use step_model::{Pieces, Sink};
use trackers::Tracker;

/// A point takes little where there are no more qubits than these.
const FEW_QUBITS: u32 = 256;

/// A stretch of steps whose lines are found from its end.
#[derive(Clone, Copy)]
pub(crate) struct Stretch {
    pub(crate) from: usize,
    pub(crate) to: usize,
}

// Whether to go on back from a place: not at `from`, nor where the text is full or some target is known to be random, which
// is asked once a step is gone over. Says at which place to ask again.
#[inline(never)]
fn goes_on<'s, 'a, A: Allocator + Copy>(
    lines: &TextStore<'_, 'a, A>,
    found: &Found<'s, A>,
    all: Stretch,
    from: usize,
    to: usize,
    place: usize,
    ask: &mut usize,
    next: &mut usize,
) -> bool
    ensures on { result ≡ true → (ask.new < place) × (from ≤ ask.new) }
    ensures off { result ≡ false → (place ≤ from) ⊎ (place < to) }
{
    if place <= from {
        return false;
    }
    let steps = all.to.saturating_sub(place);
    let most = all.to.saturating_sub(all.from);
    if place < to && (lines.is_full(next, steps, most) || found.is_random()) {
        return false;
    }
    *ask = place.saturating_sub(lines.stride()).max(from);
    true
}

/// Goes back to `from`, over one step at least where there is one, until the text of the lines found is full, or some
/// target is known to be random: then no text is written. A text that seems to be whole soon is full later: that of `all`, whose
/// lines are found up to here.
pub(crate) fn find_back<'s, 'p, 'a, A: Allocator + Copy, T: Tracker>(
    program: &Program<'a, A>,
    from: usize,
    all: Stretch,
    at: &mut Point<'p, 'a, A, T>,
    found: &mut Found<'s, A>,
    lines: &mut TextStore<'_, 'a, A>,
) -> Result<(), AllocError>
    requires program { at.old.walk.program ≡ program.now }
    requires from { from ≤ at.old.walk.place }
    requires store { lines.old.program.now ≡ program.now }
    requires passed { IsPassed program.now.listing at.old.walk.place (T.tracked at.old.tracker)
        found.old }
    ensures program { at.new.walk.program ≡ at.old.walk.program }
    ensures from { OnOk result (from ≤ at.new.walk.place) }
    ensures back { at.new.walk.place ≤ at.old.walk.place }
    ensures some { OnOk result (from < at.old.walk.place → at.new.walk.place < at.old.walk.place) }
    ensures passed { OnOk result
        (IsPassed program.now.listing at.new.walk.place (T.tracked at.new.tracker) found.new) }
    ensures stays { Stays found.old found.new }
    ensures lines { OnOk result
        ((given : List ErrorLine)
        → HoldsLines lines.old.text given
        → HoldsLines lines.new.text
        (given
        ++ reverse
        (lines_between program.now.listing at.new.walk.place at.old.walk.place))) }
    ensures store { lines.new.program.now ≡ lines.old.program.now }
{
    let to = at.walk.place();
    let mut ask = to;
    let mut next = 0;
    while at.walk.place() > ask
        || goes_on(
            lines,
            found,
            all,
            from,
            to,
            at.walk.place(),
            &mut ask,
            &mut next,
        )
    {
        steps_back(program, ask, at, found, lines)?;
    }
    Ok(())
}

/// What is left of a stretch when its start is reached: the text of its end, and points before that, the first of them
/// where that text begins.
#[derive(Drop)]
pub(crate) struct Parts<'p, 'a, A: Allocator + Copy> {
    pub(crate) points: Vec<KeptPoint<'p, 'a, A>, A>,
    pub(crate) end: HeldText<A>,
}

/// Goes back over a stretch: finds lines until their text is full, and leaves points on the rest of the way.
pub(crate) fn cut<'s, 'p, 'a, A: Allocator + Copy, T: Tracker>(
    program: &'p Program<'a, A>,
    from: usize,
    at: &mut Point<'p, 'a, A, T>,
    found: &mut Found<'s, A>,
    lines: &mut TextStore<'_, 'a, A>,
) -> Result<Parts<'p, 'a, A>, AllocError>
    requires program { at.old.walk.program ≡ program.now }
    requires from { from ≤ at.old.walk.place }
    requires store { lines.old.program.now ≡ program.now }
    requires none { lines.old.text.text ≡ [] }
    requires passed { IsPassed program.now.listing at.old.walk.place (T.tracked at.old.tracker)
        found.old }
    ensures program { at.new.walk.program ≡ at.old.walk.program }
    ensures place { OnOk result (at.new.walk.place ≡ from) }
    ensures passed { OnOk result
        (IsPassed program.now.listing from (T.tracked at.new.tracker) found.new) }
    ensures settled { found.new.settled ≡ found.old.settled }
    ensures keeps { OnOk result (found.new.keeps ≡ true) }
    ensures known { found.old.keeps ≡ true → found.new.known ≡ found.old.known }
    ensures parts { IfOk result (AreParts program.now from at.old.walk.place found.new.known) }
    ensures none { OnOk result (lines.new.text.text ≡ []) }
    ensures store { lines.new.program.now ≡ lines.old.program.now }
{
    let to = at.walk.place();
    find_back(program, from, Stretch { from, to }, at, found, lines)?;
    let place = at.walk.place();
    let distance = if found.is_random() {
        usize::MAX
    } else {
        distance_for(place - from, lines.full_steps(to - place), program.qubits())
    };
    found.keeps = true;
    let segment = leave_points(program, false, from, distance, at, found)?;
    let points = segment.into_points();
    let end = lines.take_text();
    Ok(Parts { points, end })
}

/// How far apart points are left on a way of this many steps, where the text of so many is full. The text between two points is
/// held beside that of the steps behind them, so it is shorter where more points take little.
pub(crate) fn distance_for(way: usize, full: usize, qubits: u32) -> usize {
    let near = if qubits <= FEW_QUBITS { full / 4 } else { full };
    near.max(way / POINTS + 1)
}

// Goes to a point that was left, and back over the stretch before it.
fn cut_from<'s, 'p, 'a, A: Allocator + Copy, T: Tracker>(
    program: &'p Program<'a, A>,
    from: usize,
    point: KeptPoint<'p, 'a, A>,
    at: &mut Point<'p, 'a, A, T>,
    found: &mut Found<'s, A>,
    lines: &mut TextStore<'_, 'a, A>,
) -> Result<Parts<'p, 'a, A>, AllocError>
    requires point { IsPointOf program.now point }
    requires from { from < point.walk.place }
    requires tracker { IsFor program.now.listing (T.tracked at.old.tracker) }
    requires ready { IsReady program.now.listing point.walk.place found.old }
    requires store { lines.old.program.now ≡ program.now }
    requires none { lines.old.text.text ≡ [] }
    ensures tracker { OnOk result (IsFor program.now.listing (T.tracked at.new.tracker)) }
    ensures ready { IfOk result (λ parts. IsReady program.now.listing
        (first_place from parts.points.items) found.new) }
    ensures known { found.new.known ≡ found.old.known }
    ensures parts { IfOk result (AreParts program.now from point.entry.walk.place found.new.known) }
    ensures none { OnOk result (lines.new.text.text ≡ []) }
    ensures store { lines.new.program.now ≡ lines.old.program.now }
{
    lines.hold_part(point.bytes());
    at.tracker.restore(&point.lists)?;
    at.walk = point.walk.copy();
    cut(program, from, at, found, lines)
}

/// Writes the text of what is before a cut, from the first of its points' parts to the last: from the last point on.
/// What the tracker has is lost.
pub(crate) fn write_parts<'s, 'p, 'a, A: Allocator + Copy, T: Tracker, W: Sink>(
    program: &'p Program<'a, A>,
    from: usize,
    points: &mut Vec<KeptPoint<'p, 'a, A>, A>,
    at: &mut Point<'p, 'a, A, T>,
    found: &mut Found<'s, A>,
    lines: &mut TextStore<'_, 'a, A>,
    out: &mut Pieces,
    sink: &mut W,
) -> Result<(), AllocError>
    requires points { ArePoints program.now from (first_place from points.old.items)
        points.old.items }
    requires tracker { IsFor program.now.listing (T.tracked at.old.tracker) }
    requires ready { IsReady program.now.listing (first_place from points.old.items) found.old }
    requires store { lines.old.program.now ≡ program.now }
    requires none { lines.old.text.text ≡ [] }
    ensures tracker { OnOk result (IsFor program.now.listing (T.tracked at.new.tracker)) }
    ensures ready { OnOk result
        (IsReady program.now.listing (first_place from points.old.items) found.new) }
    ensures known { found.new.known ≡ found.old.known }
    ensures none { OnOk result (lines.new.text.text ≡ []) }
    ensures store { lines.new.program.now ≡ lines.old.program.now }
    ensures text { OnOk result
        (Pushes W.taken W.failures sink.old sink.new out.old out.new
        (text_between program.now.listing from (first_place from points.old.items))) }
    ensures some { OnErr result
        (PushesSome W.taken W.failures sink.old sink.new out.old out.new
        (text_between program.now.listing from (first_place from points.old.items))) }
{
    let mut start = from;
    while let Some(point) = points.pop() {
        if out.has_failed() {
            return Ok(());
        }
        let end = point.walk.place();
        let mut parts = cut_from(program, start, point, at, found, lines)?;
        write_parts(
            program,
            start,
            &mut parts.points,
            at,
            found,
            lines,
            out,
            sink,
        )?;
        parts.end.push_to(out, sink);
        lines.reuse(parts.end);
        start = end;
    }
    Ok(())
}
