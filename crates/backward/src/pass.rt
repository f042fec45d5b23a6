//! Going back over the steps of a program, those of an instruction one after another.
ghost use Rattle.std.specs.Prelude.{◌≡◌, ◌<◌, ◌+◌};
ghost use Rattle.backward.specs.private.Passes.{IsFeedbackAt, IsPassed};
ghost use Rattle.backward.specs.private.Steps.{AreGoneOver, IsUndone, StandsAt};

use crate::collapse::{collapse, collapse_word};
use crate::faults::fault_back;
use crate::found::Found;
use crate::line_store::LineStore;
use crate::point::Point;
use circuit_walk::{FaultName, Letters, Program, StepUndoer};
use gate_table::Gate;
use pauli_word::Letter;
use record_targets::target_count;
use std::alloc::{AllocError, Allocator};
use step_model::Term;
use trackers::Tracker;

/// What undoes steps: the words and what is kept beside them, which are lent, and what takes the lines; and the place where these
/// stand.
#[derive(Drop)]
struct Undoing<'t, 'f, 'l, 's, A: Allocator + Copy, T: Tracker, L: LineStore> {
    tracker: &'t mut T,
    found: &'f mut Found<'s, A>,
    lines: &'l mut L,
    place: usize,
}

impl<'t, 'f, 'l, 's, A: Allocator + Copy, T: Tracker, L: LineStore> StepUndoer<A>
    for Undoing<'t, 'f, 'l, 's, A, T, L> {
    ghost use Rattle.std.specs.Prelude.{◌≡◌};
    ghost use Rattle.backward.specs.private.Passes.{Stays};
    ghost use Rattle.backward.specs.private.Steps.{IsUndoing};

    ghost stands = { λ program begun k u. (u.tracker.ghost_name ≡ begun.tracker.ghost_name)
        × (u.found.ghost_name ≡ begun.found.ghost_name)
        × (u.lines.ghost_name ≡ begun.lines.ghost_name)
        × (u.place ≡ k)
        × IsUndoing T.tracked L.program L.holds program begun.place k
        u.tracker.now begun.found.now u.found.now begun.lines.now u.lines.now };

    ghost lasts = { λ program begun u. (u.tracker.ghost_name ≡ begun.tracker.ghost_name)
        × (u.found.ghost_name ≡ begun.found.ghost_name)
        × (u.lines.ghost_name ≡ begun.lines.ghost_name)
        × Stays begun.found.now u.found.now
        × (L.program u.lines.now ≡ L.program begun.lines.now) };

    #[inline(always)]
    fn undo_one(
        &mut self,
        _program: &Program<'_, A>,
        gate: Gate,
        q: u32,
    ) -> Result<(), AllocError> {
        self.place -= 1;
        self.tracker.undo1(gate, q as usize)
    }

    #[inline(always)]
    fn undo_two(
        &mut self,
        _program: &Program<'_, A>,
        gate: Gate,
        a: u32,
        b: u32,
    ) -> Result<(), AllocError> {
        self.place -= 1;
        self.tracker.undo2(gate, a as usize, b as usize)
    }

    #[inline(always)]
    fn undo_feedback(
        &mut self,
        program: &Program<'_, A>,
        letter: Letter,
        q: u32,
        rec: u32,
    ) -> Result<(), AllocError> {
        self.place -= 1;
        let term = Term { qubit: q, letter };
        feedback(program, term, rec, self.place, self.tracker, self.found)
    }

    #[inline(always)]
    fn undo_collapse(
        &mut self,
        program: &Program<'_, A>,
        letter: Letter,
        qubit: u32,
        rec: Option<u32>,
        reset: bool,
        _inverted: bool,
        flip: Option<FaultName>,
    ) -> Result<(), AllocError> {
        self.place -= 1;
        let terms = [Term { qubit, letter }];
        collapse(
            program,
            &terms,
            reset.then_some(qubit),
            rec,
            flip,
            self.place,
            self.tracker,
            self.found,
            self.lines,
        )
    }

    #[inline(always)]
    fn undo_collapse_word(
        &mut self,
        program: &Program<'_, A>,
        letters: Letters<'_>,
        rec: Option<u32>,
        _inverted: bool,
        flip: Option<FaultName>,
    ) -> Result<(), AllocError> {
        self.place -= 1;
        collapse_word(
            program,
            letters,
            rec,
            flip,
            self.place,
            self.tracker,
            self.found,
            self.lines,
        )
    }

    #[inline(always)]
    fn undo_fault(
        &mut self,
        program: &Program<'_, A>,
        name: FaultName,
        letters: Letters<'_>,
    ) -> Result<(), AllocError> {
        self.place -= 1;
        fault_back(
            program,
            name,
            letters,
            self.place,
            self.tracker,
            self.found,
            self.lines,
        )
    }
}

/// Goes back over steps of the instruction before a point: over one at least, which there is, and to a place at most.
pub(crate) fn steps_back<'s, 'p, 'a, A: Allocator + Copy, T: Tracker, L: LineStore>(
    program: &Program<'a, A>,
    to: usize,
    at: &mut Point<'p, 'a, A, T>,
    found: &mut Found<'s, A>,
    lines: &mut L,
) -> Result<(), AllocError>
    requires stands { StandsAt T.tracked L.program program.now at.old.walk.place at.old found.old
        lines.old }
    requires to { to < at.old.walk.place }
    ensures { AreGoneOver T.tracked L.program L.holds program.now.listing to at.old.walk.place
        at.old at.new found.old found.new lines.old lines.new result }
{
    program.well_formed();
    let mut undoing = Undoing {
        tracker: &mut at.tracker,
        found,
        lines,
        place: at.walk.place(),
    };
    at.walk.undo_some(to, &mut undoing)
}

// Goes back over a letter that is applied where a record is 1: unless the lists are settled, the targets whose words
// anticommute with it take the record in.
#[inline(never)]
fn feedback<'s, 'a, A: Allocator + Copy, T: Tracker>(
    program: &Program<'a, A>,
    term: Term,
    rec: u32,
    place: usize,
    tracker: &mut T,
    found: &mut Found<'s, A>,
) -> Result<(), AllocError>
    requires step { IsFeedbackAt program.now.listing place term rec }
    requires passed { IsPassed program.now.listing (place + 1) (T.tracked tracker.old) found.old }
    ensures { IsUndone T.tracked program.now.listing place tracker.new found.old found.new result }
{
    // The place is only spoken of.
    let _place = place;
    if found.settled {
        return Ok(());
    }
    program.well_formed();
    let _few = target_count(program);
    // Most letters hit no target.
    if let Some(hit) = tracker.kept_hit(&[term])
        && hit.is_empty()
    {
        return Ok(());
    }
    tracker.hit(&[term], &mut found.hit)?;
    found.lists.toggle_each(rec as usize, found.hit.as_slice())
}
