//! Points left on the way back over a stretch of steps, from where further passes start.
ghost use Rattle.std.specs.Prelude.{◌≡◌, ◌<◌, ◌≤◌, false, None, IfOk, IfSome, OnOk};
ghost use Rattle.backward.specs.private.Passes.{IsPassed, Stays};
ghost use Rattle.backward.specs.private.Points.{IsKept, IsLeft};
ghost use Rattle.backward.specs.private.Segments.{IsSegment};
ghost use Rattle.backward.specs.private.Turns.{AreKept, ArePassed};

use crate::found::Found;
use crate::line_store::NoLines;
use crate::pass::steps_back;
use crate::point::{KeptPoint, Point};
use crate::turns::{KeptTurns, Looks, pass_turns};
use circuit_walk::Program;
use std::alloc::{AllocError, Allocator};
use trackers::Tracker;

/// How many times as long as the way between two points a turn may be for it to be looked at: its lines are held.
const LONGEST: usize = 8;

/// Turns that repeat are gone back over at once where they have so great a part of the way, or are further than two points are apart.
const SHARE: usize = 16;

/// How many points are left on a way, at most; fewer where their words would take more bytes than these, but not fewer than four.
pub(crate) const POINTS: usize = 60;

const POINT_BYTES: usize = 64 << 20;

const FEWEST_POINTS: usize = 4;

/// The part of a way back that ends with turns that repeat, or with the way.
pub(crate) struct Segment<'p, 'a, A: Allocator + Copy> {
    /// Points, the first of them where the part begins.
    pub(crate) points: Vec<KeptPoint<'p, 'a, A>, A>,
    /// The turns before all of them that repeat, if there are any.
    pub(crate) turns: Option<KeptTurns<'p, 'a, A>>,
    /// The place where it ends, which is before all others.
    pub(crate) start: usize,
}

// Written out, so that it is a call in the proof of each function that owns one.
impl<A: Allocator + Copy> Drop for Segment<'_, '_, A> {
    fn drop(self) {
        let Segment {
            points,
            turns,
            start: _,
        } = self;
        drop(points);
        drop(turns);
    }
}

impl<'p, 'a, A: Allocator + Copy> Segment<'p, 'a, A> {
    /// Its points alone.
    pub(crate) fn into_points(self) -> Vec<KeptPoint<'p, 'a, A>, A>
        ensures { result ≡ self.entry.points }
    {
        let Segment {
            points,
            turns: _,
            start: _,
        } = self;
        points
    }
}

/// Goes back to `from`, or where it is `looking` over the first turns that repeat, finds no lines, and leaves points on
/// the way: one where it begins, and further ones `distance` steps apart, or further where their words are long.
#[inline(never)]
pub(crate) fn leave_points<'s, 'p, 'a, A: Allocator + Copy, T: Tracker>(
    program: &'p Program<'a, A>,
    looking: bool,
    from: usize,
    distance: usize,
    at: &mut Point<'p, 'a, A, T>,
    found: &mut Found<'s, A>,
) -> Result<Segment<'p, 'a, A>, AllocError>
    requires program { at.old.walk.program ≡ program.now }
    requires from { from ≤ at.old.walk.place }
    requires passed { IsPassed program.now.listing at.old.walk.place (T.tracked at.old.tracker)
        found.old }
    ensures program { at.new.walk.program ≡ at.old.walk.program }
    ensures place { IfOk result (λ segment. segment.start ≡ at.new.walk.place) }
    ensures passed { OnOk result
        (IsPassed program.now.listing at.new.walk.place (T.tracked at.new.tracker) found.new) }
    ensures stays { Stays found.old found.new }
    ensures segment { IfOk result (IsSegment program.now from at.old.walk.place) }
    ensures plain { looking ≡ false → IfOk result (λ segment. segment.turns ≡ None) }
{
    let end = at.walk.place();
    let mut points = Vec::new(*found.alloc);
    let mut next = end;
    let mut looks = Looks::at(end, distance.min(end / SHARE));
    let mut turns = None;
    let longest = distance.saturating_mul(LONGEST);
    let mut apart = distance;
    while turns.is_none() && at.walk.place() > from {
        if at.walk.place() <= next {
            let bytes = leave(&mut points, at)?;
            apart = apart.max(distance_beside(bytes, at.walk.place() - from));
            next = next.saturating_sub(apart);
        }
        turns = back_over(program, looking, from, next, longest, at, found, &mut looks)?;
    }
    Ok(Segment {
        points,
        turns,
        start: at.walk.place(),
    })
}

// Goes back over some steps before a point, which there is: where it is `looking` over turns that repeat, which it
// answers; else over a step, or over faults.
#[inline(always)]
fn back_over<'s, 'p, 'a, A: Allocator + Copy, T: Tracker>(
    program: &'p Program<'a, A>,
    looking: bool,
    from: usize,
    next: usize,
    longest: usize,
    at: &mut Point<'p, 'a, A, T>,
    found: &mut Found<'s, A>,
    looks: &mut Looks,
) -> Result<Option<KeptTurns<'p, 'a, A>>, AllocError>
    requires program { at.old.walk.program ≡ program.now }
    requires from { from < at.old.walk.place }
    requires passed { IsPassed program.now.listing at.old.walk.place (T.tracked at.old.tracker)
        found.old }
    ensures passed { ArePassed T.tracked program.now from at.old at.new found.old found.new result }
    ensures back { OnOk result (at.new.walk.place < at.old.walk.place) }
    ensures turns { IfOk result (λ kept. IfSome kept (AreKept program.now at.new.walk.place
        at.old.walk.place)) }
    ensures plain { looking ≡ false → IfOk result (λ kept. kept ≡ None) }
{
    let place = at.walk.place();
    let ask = if looking { looks.ask } else { 0 };
    if place <= ask {
        let mut lines = NoLines { program };
        let turns = pass_turns(program, from, longest, at, found, &mut lines, looks)?;
        if at.walk.place() < place {
            return Ok(turns);
        }
    }
    let to = next.max(from).max(ask).min(place - 1);
    match back_without_lines(program, to, at, found) {
        Ok(()) => Ok(None),
        Err(error) => Err(error),
    }
}

// Goes back over the faults before a point and over steps of the instruction before them: over one step at least, and to a place
// at most. Faults change nothing where no lines are found.
#[inline(always)]
fn back_without_lines<'s, 'p, 'a, A: Allocator + Copy, T: Tracker>(
    program: &Program<'a, A>,
    to: usize,
    at: &mut Point<'p, 'a, A, T>,
    found: &mut Found<'s, A>,
) -> Result<(), AllocError>
    requires program { at.old.walk.program ≡ program.now }
    requires to { to < at.old.walk.place }
    requires passed { IsPassed program.now.listing at.old.walk.place (T.tracked at.old.tracker)
        found.old }
    ensures program { at.new.walk.program ≡ at.old.walk.program }
    ensures to { to ≤ at.new.walk.place }
    ensures back { OnOk result (at.new.walk.place < at.old.walk.place) }
    ensures passed { OnOk result
        (IsPassed program.now.listing at.new.walk.place (T.tracked at.new.tracker) found.new) }
    ensures stays { Stays found.old found.new }
{
    at.walk.pass_faults_back(to);
    if at.walk.place() == to {
        return Ok(());
    }
    steps_back(program, to, at, found, &mut NoLines { program })
}

// How far apart points are left on a way of this many steps, at least, where the words of one take so many bytes.
fn distance_beside(bytes: usize, way: usize) -> usize {
    let points = POINT_BYTES / bytes.max(1);
    way / points.min(POINTS).max(FEWEST_POINTS) + 1
}

// Leaves a point, and answers about how many bytes its words take.
fn leave<'p, 'a, A: Allocator + Copy, T: Tracker>(
    points: &mut Vec<KeptPoint<'p, 'a, A>, A>,
    at: &Point<'p, 'a, A, T>,
) -> Result<usize, AllocError>
    ensures { OnOk result (IsLeft T.tracked at.now points.old.items points.new.items) }
{
    let point = kept_point(*points.allocator(), at)?;
    let bytes = point.bytes();
    points.push(point)?;
    Ok(bytes)
}

/// The same point, with its words as lists.
pub(crate) fn kept_point<'p, 'a, A: Allocator + Copy, T: Tracker>(
    alloc: A,
    at: &Point<'p, 'a, A, T>,
) -> Result<KeptPoint<'p, 'a, A>, AllocError>
    ensures { IfOk result (IsKept T.tracked at.now) }
{
    let lists = at.tracker.keep(alloc)?;
    Ok(KeptPoint {
        walk: at.walk.copy(),
        lists,
    })
}
