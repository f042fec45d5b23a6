//! A first pass over all steps: the text of their end, and parts before that.
ghost use Rattle.std.specs.Prelude.{◌≡◌, ◌<◌, ◌≤◌, [], true, IfOk, OnOk, reverse};
ghost use Rattle.error_models.specs.HeldText.{HoldsLines};
ghost use Rattle.backward.specs.private.Passes.{IsPassed};
ghost use Rattle.backward.specs.private.Segments.{AreTurnsAt, AreWhole, turns_end};
ghost use Rattle.backward.specs.private.Stretches.{Gives, lines_between};

use crate::found::Found;
use crate::point::Point;
use crate::points::Segment;
use crate::segments::leave_segments;
use crate::stretch::{Stretch, distance_for, find_back};
use crate::text_store::TextStore;
use crate::turns::{KeptTurns, Looks, end_of, pass_turns};
use circuit_walk::Program;
use error_models::HeldText;
use std::alloc::{AllocError, Allocator};
use trackers::Tracker;

/// How many steps a turn may have at most for it to be looked at while lines are found: its lines are held twice.
const LONGEST: usize = 16384;

/// A turn is looked at while lines are found where so many as long are before it, at least: else little would be gained.
const FEWEST: usize = 8;

/// Turns that repeat are gone back over while lines are found where they have so great a part of all steps, at least: lines of what
/// is before them are found in another pass.
const SHARE: usize = 2;

/// What a first pass leaves.
#[derive(Drop)]
pub(crate) struct Whole<'p, 'a, A: Allocator + Copy> {
    pub(crate) segments: Vec<Segment<'p, 'a, A>, A>,
    /// The place behind the parts.
    pub(crate) cut: usize,
    /// The turns there that repeat, if there are any, and the text of the steps behind them.
    pub(crate) turns: Option<KeptTurns<'p, 'a, A>>,
    pub(crate) end: HeldText<A>,
}

/// Goes back over all steps: finds lines until their text is full or turns repeat, and leaves parts of the rest of the way.
pub(crate) fn cut_whole<'s, 'p, 'a, A: Allocator + Copy, T: Tracker>(
    program: &'p Program<'a, A>,
    at: &mut Point<'p, 'a, A, T>,
    found: &mut Found<'s, A>,
    lines: &mut TextStore<'_, 'a, A>,
) -> Result<Whole<'p, 'a, A>, AllocError>
    requires program { at.old.walk.program ≡ program.now }
    requires store { lines.old.program.now ≡ program.now }
    requires none { lines.old.text.text ≡ [] }
    requires passed { IsPassed program.now.listing at.old.walk.place (T.tracked at.old.tracker)
        found.old }
    ensures passed { OnOk result
        (IsPassed program.now.listing 0 (T.tracked at.new.tracker) found.new) }
    ensures settled { found.new.settled ≡ found.old.settled }
    ensures keeps { OnOk result (found.new.keeps ≡ true) }
    ensures whole { IfOk result (AreWhole program.now at.old.walk.place found.new.known) }
    ensures none { OnOk result (lines.new.text.text ≡ []) }
    ensures store { lines.new.program.now ≡ lines.old.program.now }
{
    let to = at.walk.place();
    let turns = find_turns(program, at, found, lines)?;
    let cut = at.walk.place();
    let distance = if found.is_random() {
        usize::MAX
    } else {
        let steps = lines.full_steps(to - end_of(cut, &turns));
        distance_for(cut, steps, program.qubits())
    };
    found.keeps = true;
    let segments = leave_segments(program, distance, at, found)?;
    let end = lines.take_text();
    Ok(Whole {
        segments,
        cut,
        turns,
        end,
    })
}

// Finds lines on the way back until their text is full, some target is known to be random, or turns that repeat are gone back over:
// these it answers.
fn find_turns<'s, 'p, 'a, A: Allocator + Copy, T: Tracker>(
    program: &'p Program<'a, A>,
    at: &mut Point<'p, 'a, A, T>,
    found: &mut Found<'s, A>,
    lines: &mut TextStore<'_, 'a, A>,
) -> Result<Option<KeptTurns<'p, 'a, A>>, AllocError>
    requires program { at.old.walk.program ≡ program.now }
    requires store { lines.old.program.now ≡ program.now }
    requires passed { IsPassed program.now.listing at.old.walk.place (T.tracked at.old.tracker)
        found.old }
    ensures program { at.new.walk.program ≡ at.old.walk.program }
    ensures passed { OnOk result
        (IsPassed program.now.listing at.new.walk.place (T.tracked at.new.tracker) found.new) }
    ensures settled { found.new.settled ≡ found.old.settled }
    ensures turns { IfOk result (AreTurnsAt program.now at.new.walk.place) }
    ensures below { IfOk result (λ turns. turns_end at.new.walk.place turns ≤ at.old.walk.place) }
    ensures lines { IfOk result (λ turns. Gives (HoldsLines lines.old.text) (HoldsLines lines.new.text)
        (reverse
        (lines_between program.now.listing (turns_end at.new.walk.place turns) at.old.walk.place))) }
    ensures store { lines.new.program.now ≡ lines.old.program.now }
{
    let to = at.walk.place();
    let mut looks = Looks::at(to, to / SHARE);
    let mut turns = None;
    while turns.is_none() && at.walk.place() > 0 && at.walk.place() <= looks.ask {
        turns = find_some(program, to, at, found, lines, &mut looks)?;
    }
    Ok(turns)
}

// Finds the lines of some steps of a way back from `to`: of a turn, and goes back over the turns before it that repeat it, which it
// answers; else up to where it is looked for a turn again, or until their text is full.
fn find_some<'s, 'p, 'a, A: Allocator + Copy, T: Tracker>(
    program: &'p Program<'a, A>,
    to: usize,
    at: &mut Point<'p, 'a, A, T>,
    found: &mut Found<'s, A>,
    lines: &mut TextStore<'_, 'a, A>,
    looks: &mut Looks,
) -> Result<Option<KeptTurns<'p, 'a, A>>, AllocError>
    requires program { at.old.walk.program ≡ program.now }
    requires some { 0 < at.old.walk.place }
    requires store { lines.old.program.now ≡ program.now }
    requires passed { IsPassed program.now.listing at.old.walk.place (T.tracked at.old.tracker)
        found.old }
    ensures program { at.new.walk.program ≡ at.old.walk.program }
    ensures passed { OnOk result
        (IsPassed program.now.listing at.new.walk.place (T.tracked at.new.tracker) found.new) }
    ensures settled { found.new.settled ≡ found.old.settled }
    ensures back { OnOk result (at.new.walk.place < at.old.walk.place) }
    ensures turns { IfOk result (AreTurnsAt program.now at.new.walk.place) }
    ensures below { IfOk result (λ turns. turns_end at.new.walk.place turns ≤ at.old.walk.place) }
    ensures lines { IfOk result (λ turns. Gives (HoldsLines lines.old.text) (HoldsLines lines.new.text)
        (reverse
        (lines_between program.now.listing (turns_end at.new.walk.place turns) at.old.walk.place))) }
    ensures store { lines.new.program.now ≡ lines.old.program.now }
{
    let longest = LONGEST.min(at.walk.place() / FEWEST);
    let turns = pass_turns(program, 0, longest, at, found, lines, looks)?;
    if turns.is_some() {
        return Ok(turns);
    }
    let next = looks.ask.min(at.walk.place().saturating_sub(1));
    looks.ask = next;
    find_back(program, next, Stretch { from: 0, to }, at, found, lines)?;
    Ok(None)
}
