//! Turns of a block that repeat, on the way back over a stretch of steps. Where the words at a place are those of the
//! same place one turn later, but for the numbers of detectors, the turns before it do the same again: they are gone
//! back over at once, and their lines are those of the turn behind them.
ghost use Rattle.std.specs.Prelude.{◌≡◌, [], ◌≤◌, ◌<◌, false, reverse, IfOk, IfSome, OnOk};
ghost use Rattle.backward.specs.private.Passes.{IsPassed, Stays, records_before};
ghost use Rattle.backward.specs.private.Points.{IsPointOf};
ghost use Rattle.backward.specs.private.Repeats.{AreListed, IsTurn};
ghost use Rattle.backward.specs.private.Segments.{turns_end};
ghost use Rattle.backward.specs.private.Stretches.{Gives, lines_between};
ghost use Rattle.backward.specs.private.Turns.{AreGonePast, AreKept, ArePassed, IsKnown, IsPeriod};

use crate::found::Found;
use crate::line_store::LineStore;
use crate::moved::{Shift, are_earlier, grown_lists, growth, size_of_lists};
use crate::pass::steps_back;
use crate::point::{KeptPoint, Point};
use crate::points::kept_point;
use crate::repeated::{guessed_shift, kept_lists, repeated_from};
use crate::turn_lines::{TurnLines, give_turn};
use circuit_walk::{Program, Walk};
use flat_lists::FlatLists;
use record_targets::target_count;
use std::alloc::{AllocError, Allocator};
use trackers::Tracker;

/// After how many steps it is asked whether there is room for more lines, at most.
const STRIDE: usize = 16;

/// How many targets the words of an earlier turn may have more than those of a later one, at most, for the turns between to be gone
/// back over at once: each is kept in memory.
const MOST_GROWN: usize = 1 << 20;

/// After how many steps it is looked again for a turn, where there is none: later after twice as many, and so on up to the most. To
/// find that there is none may take as long as a turn, where there is feedback.
const FAR: usize = 512;

const FARTHEST: usize = 16384;

/// About how many items of lists are copied and compared in the time of a step.
const STEP_ITEMS: usize = 16;

/// The words at a place of a turn that repeats the one after it.
pub(crate) struct Period<'p, 'a, A: Allocator + Copy> {
    pub(crate) point: KeptPoint<'p, 'a, A>,
    /// The same place one turn later.
    pub(crate) later: KeptPoint<'p, 'a, A>,
    pub(crate) shift: Shift,
    /// The first record from which on the lists of those before the place are as a turn later.
    pub(crate) low: usize,
    /// The first place to which turns may be gone back over.
    pub(crate) end: usize,
}

// Written out, so that it is a call in the proof of each function that owns one.
impl<A: Allocator + Copy> Drop for Period<'_, '_, A> {
    fn drop(self) {
        let Period {
            point,
            later,
            shift: _,
            low: _,
            end: _,
        } = self;
        drop(point);
        drop(later);
    }
}

/// The steps of turns that repeat the one behind them.
pub(crate) struct KeptTurns<'p, 'a, A: Allocator + Copy> {
    /// The lines of that turn.
    pub(crate) lines: TurnLines<'p, 'a, A>,
    /// The places before and behind the turns.
    pub(crate) start: usize,
    pub(crate) end: usize,
    pub(crate) turns: usize,
    pub(crate) shift: Shift,
}

// Written out, so that it is a call in the proof of each function that owns one.
impl<A: Allocator + Copy> Drop for KeptTurns<'_, '_, A> {
    fn drop(self) {
        let KeptTurns {
            lines,
            start: _,
            end: _,
            turns: _,
            shift: _,
        } = self;
        drop(lines);
    }
}

/// The place behind the turns that begin at one, where there are any.
pub(crate) fn end_of<A: Allocator + Copy>(
    start: usize,
    turns: &Option<KeptTurns<'_, '_, A>>,
) -> usize
    ensures { result ≡ turns_end start turns.now }
{
    match turns {
        Some(kept) => kept.end,
        None => start,
    }
}

/// Where a pass looks for turns that repeat.
#[derive(Clone, Copy)]
pub(crate) struct Looks {
    /// The place at which to look next.
    pub(crate) ask: usize,
    /// After how many turns to look again, where one didn't repeat, or too few did.
    wait: usize,
    /// After how many steps to look again, where there was none.
    far: usize,
    /// How many steps turns have that are gone back over at once, at least.
    least: usize,
}

impl Looks {
    /// It is looked at a place first.
    pub(crate) fn at(place: usize, least: usize) -> Self {
        Looks {
            ask: place,
            wait: 1,
            far: FAR,
            least,
        }
    }

    // It is looked again so many turns before a place, and later after twice as many: but no sooner than after as many steps as a
    // look at lists of so many items takes time, so that all looks take no more than the steps.
    fn look_again(&mut self, place: usize, steps: usize, items: usize) {
        let far = steps.saturating_mul(self.wait).max(items / STEP_ITEMS);
        self.ask = place.saturating_sub(far);
        self.wait = self.wait.saturating_mul(2);
    }

    // There was no turn before a place.
    fn none_before(&mut self, place: usize) {
        self.ask = place.saturating_sub(self.far);
        self.far = self.far.saturating_mul(2).min(FARTHEST);
    }
}

/// The place one turn before another, and how many records are made before it.
#[derive(Clone, Copy)]
struct TurnStart {
    place: usize,
    records: usize,
    /// The same place in the first turn of the block, or in the first that isn't before where a pass ends.
    first: usize,
}

// The place one turn before that of a walk, where there is one that isn't before `from`. Feedback between the two depends on
// records that are made there, and there is none where lists are kept.
fn turn_to<A: Allocator + Copy>(
    walk: &Walk<'_, '_, A>,
    from: usize,
    keeps: bool,
) -> Option<TurnStart>
    ensures place { IfSome result (λ to. (from ≤ to.place) × (to.place < walk.now.place)) }
    ensures first { IfSome result (λ to. (from ≤ to.first) × (to.first ≤ to.place)) }
    ensures records { IfSome result (λ to. to.records
        ≡ records_before walk.now.program.listing to.place) }
    ensures turn { IfSome result (λ to. IsTurn walk.now.program.listing to.place walk.now.place
        keeps) }
{
    let earlier = walk.turn_before(!keeps)?;
    let place = earlier.place();
    if place < from {
        return None;
    }
    let mut first = earlier.copy();
    let _turns = first.pass_turns_back(walk, from);
    Some(TurnStart {
        place,
        records: earlier.records(),
        first: first.place(),
    })
}

// What is known of a place whose turn may repeat the one after it, where it does: the words there are kept in lists, and so are the
// lists of the turn's records one turn later, and its lines.
fn period_at<'s, 'p, 'a, A: Allocator + Copy>(
    program: &Program<'a, A>,
    from: usize,
    later: KeptPoint<'p, 'a, A>,
    listed: &FlatLists<u32, A>,
    lines: &TurnLines<'p, 'a, A>,
    point: KeptPoint<'p, 'a, A>,
    found: &Found<'s, A>,
) -> Option<Period<'p, 'a, A>>
    requires later { IsPointOf program.now later }
    requires point { IsPointOf program.now point }
    requires earlier { point.walk.place < later.walk.place }
    requires turn { IsTurn program.now.listing point.walk.place later.walk.place found.now.keeps }
    requires listed { found.now.settled ≡ false
        → AreListed program.now.listing point.walk.place later.walk.place listed.now }
    requires lines { lines.now.lines
        ≡ reverse (lines_between program.now.listing point.walk.place later.walk.place) }
    requires from { from ≤ point.walk.place }
    requires known { IsKnown program.now.listing point.walk.place found.now }
    ensures period { IfSome result (IsPeriod program.now found.now) }
    ensures point { IfSome result (λ period. period.point.walk ≡ point.entry.walk) }
    ensures later { IfSome result (λ period. period.later.walk ≡ later.entry.walk) }
    ensures end { IfSome result (λ period. (from ≤ period.end)
        × (period.end ≤ point.entry.walk.place)) }
{
    program.well_formed();
    let targets = target_count(program);
    let end = point.walk.records();
    if found.settled || found.is_random() {
        return None;
    }
    let words = (&point.lists, &later.lists);
    let detectors = program.detector_count();
    let shift = guessed_shift(&found.lists, listed, end, words, detectors, targets);
    if !are_earlier(&point.lists, &later.lists, &shift) || !lines.are_clear(&shift) {
        return None;
    }
    let place = point.walk.place();
    let steps = later.walk.place() - place;
    let most = (place - from) / steps;
    let records = listed.len();
    let least = end.saturating_sub(most.saturating_mul(records));
    let low = repeated_from(&found.lists, listed, least, end, &shift);
    let turns = if records == 0 {
        most
    } else {
        (end - low) / records
    };
    if growth(&point.lists, turns, &shift) > MOST_GROWN {
        return None;
    }
    Some(Period {
        point,
        later,
        shift,
        low,
        end: place.saturating_sub(turns.saturating_mul(steps)).max(from),
    })
}

// Goes back over turns that repeat, to a place at most, and answers over how many.
fn repeat_turns<'s, 'p, 'a, A: Allocator + Copy, T: Tracker>(
    program: &Program<'a, A>,
    to: usize,
    period: &Period<'p, 'a, A>,
    at: &mut Point<'p, 'a, A, T>,
    found: &mut Found<'s, A>,
) -> Result<usize, AllocError>
    requires program { at.old.walk.program ≡ program.now }
    requires to { to ≤ at.old.walk.place }
    requires here { period.now.point.walk.place ≡ at.old.walk.place }
    requires passed { IsPassed program.now.listing at.old.walk.place (T.tracked at.old.tracker)
        found.old }
    requires period { IsPeriod program.now found.old period.now }
    ensures passed { ArePassed T.tracked program.now to at.old at.new found.old found.new result }
    ensures turns { IfOk result (λ turns. 0 < turns → AreGonePast program.now period.now turns
        at.new.walk.place) }
    ensures none { IfOk result (λ turns. turns ≡ 0 → at.new.walk.place ≡ at.old.walk.place) }
{
    program.well_formed();
    if to > period.point.walk.place() {
        return Ok(0);
    }
    let mut walk = period.point.walk.copy();
    let turns = walk.pass_turns_back(&period.later.walk, to);
    if turns == 0 || walk.records() < period.low || at.walk.place() <= walk.place() {
        return Ok(0);
    }
    let Some(_far) = turns.checked_mul(period.shift.by) else {
        return Ok(0);
    };
    let lists = grown_lists(*found.alloc, &period.point.lists, turns, &period.shift)?;
    at.tracker.restore(&lists)?;
    found.left = walk.collapses();
    found.known = found.known_at(walk.records());
    at.walk = walk;
    Ok(turns)
}

// How many items are copied and compared by a look at a turn: of the words before and behind it, of its lists of records, and of
// its lines.
fn items_looked_at<'p, 'a, A: Allocator + Copy>(
    point: &KeptPoint<'p, 'a, A>,
    later: &KeptPoint<'p, 'a, A>,
    listed: &FlatLists<u32, A>,
    lines: &TurnLines<'p, 'a, A>,
) -> usize {
    let words = point.size().saturating_add(later.size());
    words
        .saturating_add(size_of_lists(listed))
        .saturating_add(lines.size())
}

// Goes back over the turns before a place that repeat the turn behind it, whose words and lines these are, and keeps
// them. Where none does, it is looked again later, each time after twice as many turns.
fn repeats<'s, 'p, 'a, A: Allocator + Copy, T: Tracker>(
    program: &Program<'a, A>,
    from: usize,
    later: KeptPoint<'p, 'a, A>,
    listed: &FlatLists<u32, A>,
    lines: TurnLines<'p, 'a, A>,
    at: &mut Point<'p, 'a, A, T>,
    found: &mut Found<'s, A>,
    looks: &mut Looks,
) -> Result<Option<KeptTurns<'p, 'a, A>>, AllocError>
    requires program { at.old.walk.program ≡ program.now }
    requires from { from ≤ at.old.walk.place }
    requires passed { IsPassed program.now.listing at.old.walk.place (T.tracked at.old.tracker)
        found.old }
    requires later { IsPointOf program.now later }
    requires earlier { at.old.walk.place < later.walk.place }
    requires turn { IsTurn program.now.listing at.old.walk.place later.walk.place found.old.keeps }
    requires listed { found.old.settled ≡ false
        → AreListed program.now.listing at.old.walk.place later.walk.place listed.now }
    requires store { lines.program ≡ program.now }
    requires lines { lines.lines
        ≡ reverse (lines_between program.now.listing at.old.walk.place later.walk.place) }
    ensures passed { ArePassed T.tracked program.now from at.old at.new found.old found.new result }
    ensures below { OnOk result (at.new.walk.place ≤ at.old.walk.place) }
    ensures turns { IfOk result (λ kept. IfSome kept (AreKept program.now at.new.walk.place
        later.entry.walk.place)) }
    ensures end { IfOk result (λ kept. turns_end at.new.walk.place kept ≡ at.old.walk.place) }
{
    let place = at.walk.place();
    let steps = later.walk.place() - place;
    let point = kept_point(*found.alloc, at)?;
    let items = items_looked_at(&point, &later, listed, &lines);
    let Some(period) = period_at(program, from, later, listed, &lines, point, found) else {
        looks.look_again(place, steps, items);
        return Ok(None);
    };
    if place.saturating_sub(period.end) < looks.least {
        looks.look_again(period.end, steps, items);
        return Ok(None);
    }
    let turns = repeat_turns(program, period.end, &period, at, found)?;
    if turns == 0 {
        looks.look_again(place, steps, items);
        return Ok(None);
    }
    looks.wait = 1;
    looks.ask = at.walk.place();
    Ok(Some(KeptTurns {
        lines,
        start: at.walk.place(),
        end: place,
        turns,
        shift: period.shift,
    }))
}

// Goes back to a place, and keeps the lines of the steps gone over; not so far where these have no room.
fn find_turn<'s, 'p, 'a, A: Allocator + Copy, T: Tracker>(
    program: &Program<'a, A>,
    to: usize,
    at: &mut Point<'p, 'a, A, T>,
    found: &mut Found<'s, A>,
    lines: &mut TurnLines<'_, 'a, A>,
) -> Result<(), AllocError>
    requires program { at.old.walk.program ≡ program.now }
    requires to { to ≤ at.old.walk.place }
    requires passed { IsPassed program.now.listing at.old.walk.place (T.tracked at.old.tracker)
        found.old }
    requires store { lines.old.program ≡ program.now }
    requires none { lines.old.lines ≡ [] }
    ensures program { at.new.walk.program ≡ at.old.walk.program }
    ensures above { to ≤ at.new.walk.place }
    ensures below { at.new.walk.place ≤ at.old.walk.place }
    ensures passed { OnOk result
        (IsPassed program.now.listing at.new.walk.place (T.tracked at.new.tracker) found.new) }
    ensures stays { Stays found.old found.new }
    ensures lines { OnOk result
        (lines.new.lines
        ≡ reverse (lines_between program.now.listing at.new.walk.place at.old.walk.place)) }
    ensures store { lines.new.program ≡ lines.old.program }
{
    while at.walk.place() > to && lines.has_room() {
        let next = at.walk.place().saturating_sub(STRIDE).max(to);
        steps_back(program, next, at, found, lines)?;
    }
    Ok(())
}

// The same, and gives these lines to a store too.
fn given_turn<'s, 'p, 'a, A: Allocator + Copy, T: Tracker, L: LineStore>(
    program: &'p Program<'a, A>,
    to: usize,
    at: &mut Point<'p, 'a, A, T>,
    found: &mut Found<'s, A>,
    lines: &mut L,
) -> Result<TurnLines<'p, 'a, A>, AllocError>
    requires program { at.old.walk.program ≡ program.now }
    requires to { to ≤ at.old.walk.place }
    requires passed { IsPassed program.now.listing at.old.walk.place (T.tracked at.old.tracker)
        found.old }
    requires store { L.program lines.old ≡ program.now }
    ensures program { at.new.walk.program ≡ at.old.walk.program }
    ensures above { to ≤ at.new.walk.place }
    ensures below { at.new.walk.place ≤ at.old.walk.place }
    ensures passed { OnOk result
        (IsPassed program.now.listing at.new.walk.place (T.tracked at.new.tracker) found.new) }
    ensures stays { Stays found.old found.new }
    ensures turn { IfOk result (λ turn. turn ≡ record {
      program = program.now;
      lines = reverse
          (lines_between program.now.listing at.new.walk.place at.old.walk.place);
    }) }
    ensures lines { OnOk result (Gives (L.holds lines.old) (L.holds lines.new)
        (reverse
        (lines_between program.now.listing at.new.walk.place at.old.walk.place))) }
    ensures store { L.program lines.new ≡ L.program lines.old }
{
    let mut turn = TurnLines::new(*found.alloc, program);
    find_turn(program, to, at, found, &mut turn)?;
    give_turn(&turn, 0, 0, &mut Vec::new(*found.alloc), lines)?;
    Ok(turn)
}

/// Looks for a turn before a place, to `from` at most, that isn't longer than so many steps: goes back over it, gives
/// its lines, and then goes back over the turns before it that repeat it, which are kept. Where too few are before it in its block,
/// none is looked at.
#[inline(never)]
pub(crate) fn pass_turns<'s, 'p, 'a, A: Allocator + Copy, T: Tracker, L: LineStore>(
    program: &'p Program<'a, A>,
    from: usize,
    longest: usize,
    at: &mut Point<'p, 'a, A, T>,
    found: &mut Found<'s, A>,
    lines: &mut L,
    looks: &mut Looks,
) -> Result<Option<KeptTurns<'p, 'a, A>>, AllocError>
    requires program { at.old.walk.program ≡ program.now }
    requires from { from ≤ at.old.walk.place }
    requires passed { IsPassed program.now.listing at.old.walk.place (T.tracked at.old.tracker)
        found.old }
    requires store { L.program lines.old ≡ program.now }
    ensures passed { ArePassed T.tracked program.now from at.old at.new found.old found.new result }
    ensures below { OnOk result (at.new.walk.place ≤ at.old.walk.place) }
    ensures turns { IfOk result (λ kept. IfSome kept (AreKept program.now at.new.walk.place
        at.old.walk.place)) }
    ensures lines { IfOk result (λ kept. Gives (L.holds lines.old) (L.holds lines.new)
        (reverse
        (lines_between program.now.listing (turns_end at.new.walk.place kept) at.old.walk.place))) }
    ensures store { L.program lines.new ≡ L.program lines.old }
{
    let Some(to) = turn_to(&at.walk, from, found.keeps) else {
        looks.none_before(at.walk.place());
        return Ok(None);
    };
    looks.far = FAR;
    looks.ask = to.place;
    if at.walk.place() - to.place > longest {
        return Ok(None);
    }
    if to.place - to.first < looks.least {
        looks.ask = to.first;
        return Ok(None);
    }
    let records = at.walk.records();
    let Some(listed) = kept_lists(*found.alloc, &found.lists, to.records, records)? else {
        return Ok(None);
    };
    let later = kept_point(*found.alloc, at)?;
    let turn = given_turn(program, to.place, at, found, lines)?;
    if at.walk.place() > to.place {
        let items = later.size().saturating_add(turn.size());
        looks.look_again(at.walk.place(), FAR, items);
        return Ok(None);
    }
    repeats(program, to.first, later, &listed, turn, at, found, looks)
}
