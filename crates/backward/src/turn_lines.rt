//! The error lines of a turn of a REPEAT block, kept, and the text of those of the turns before it, which repeat them: the same
//! lines with targets that are some detectors earlier.
ghost use Rattle.std.specs.Prelude.{◌≡◌, ◌*◌, ◌<◌, ◌≤◌, ◌++◌, ◌∷◌, [], true, OnErr, OnOk};
ghost use Rattle.step_model.specs.Pushed.{Pushes};
ghost use Rattle.backward.specs.private.Points.{PushesSome};
ghost use Rattle.backward.specs.private.Stretches.{Gives};
ghost use Rattle.backward.specs.private.TurnLines.{AreClear, GivesTurns, moved_error_lines, turns_text};

use crate::line_store::LineStore;
use crate::moved::{Shift, are_clear, item_count, move_list};
use crate::text_store::TextStore;
use circuit_walk::Program;
use flat_lists::FlatLists;
use std::alloc::{AllocError, Allocator};
use std::marker::Model;
use step_model::{Pieces, Sink};

/// About how many bytes of text are pushed at once.
const AT_ONCE: usize = 65536;

/// About how many bytes a line has, and how many more for each target.
const LINE: usize = 20;

const TARGET: usize = 6;

/// How many lines and targets of lines are kept, about.
const MOST: usize = 1 << 20;

/// Lines of a program's faults, in the order in which they were given.
pub(crate) struct TurnLines<'p, 'a, A: Allocator + Copy> {
    alloc: A,
    program: &'p Program<'a, A>,
    // The number of the probability of each line's fault, and its targets.
    chances: Vec<u32, A>,
    targets: FlatLists<u32, A>,
    // How many of both there are, as far as they are counted.
    kept: usize,
}

impl<'p, 'a, A: Allocator + Copy> Model for TurnLines<'p, 'a, A> {
    ghost use Rattle.backward.specs.private.TurnLines.{AreKeptLines, KeptLines, kept_lines};
    ghost use Rattle.std.specs.Coded.{codes};
    ghost use Rattle.circuit_walk.specs.Programs.{coded_circuit};

    ghost Value = { KeptLines };

    ghost coded = { Prim.hlevel (codes, coded_circuit) };

    ghost view = { λ t. record {
      program = t.program.now;
      lines = kept_lines t.program.now t.chances.items t.targets;
    } };

    ghost invariant = { λ t. AreKeptLines t.program.now t.chances.items t.targets };
}

// Written out, so that it is a call in the proof of each function that owns one.
impl<A: Allocator + Copy> Drop for TurnLines<'_, '_, A> {
    fn drop(self) {
        let TurnLines {
            alloc: _,
            program: _,
            chances,
            targets,
            kept: _,
        } = self;
        drop(chances);
        drop(targets);
    }
}

impl<'p, 'a, A: Allocator + Copy> TurnLines<'p, 'a, A> {
    /// No lines. Takes no memory.
    pub(crate) fn new(alloc: A, program: &'p Program<'a, A>) -> Self
        ensures { result ≡ record { program = program.now; lines = [] } }
    {
        TurnLines {
            alloc,
            program,
            chances: Vec::new(alloc),
            targets: FlatLists::new(alloc),
            kept: 0,
        }
    }

    /// Whether no line has one of the first detectors that stay.
    pub(crate) fn are_clear(&self, shift: &Shift) -> bool
        ensures { result ≡ true → AreClear shift.now self.now.lines }
    {
        are_clear(&self.targets, shift)
    }

    /// How many lines and targets of lines are kept, about.
    pub(crate) fn size(&self) -> usize {
        self.kept
    }

    /// Whether more lines are to be kept.
    pub(crate) fn has_room(&self) -> bool {
        self.kept < MOST
    }
}

// Puts the number of the probability of a line's fault, and its targets, behind the others. Nothing changes where memory runs out.
fn keep_line<A: Allocator + Copy>(
    chances: &mut Vec<u32, A>,
    lists: &mut FlatLists<u32, A>,
    chance: u32,
    targets: &[u32],
) -> Result<(), AllocError>
    ensures chance { OnOk result (chances.new.items ≡ chances.old.items ++ chance ∷ []) }
    ensures targets { OnOk result (lists.new ≡ lists.old ++ targets.now ∷ []) }
    ensures same_chances { OnErr result (chances.new.items ≡ chances.old.items) }
    ensures same_lists { OnErr result (lists.new ≡ lists.old) }
{
    chances.reserve(1)?;
    lists.push(targets)?;
    chances.push_reserved(chance);
    Ok(())
}

impl<'p, 'a, A: Allocator + Copy> LineStore for TurnLines<'p, 'a, A> {
    ghost program = { λ store. store.program };

    ghost holds = { λ store lines. store.lines ≡ lines };

    fn give(&mut self, chance: u32, targets: &[u32]) -> Result<(), AllocError> {
        self.kept = self.kept.saturating_add(targets.len()).saturating_add(1);
        keep_line(&mut self.chances, &mut self.targets, chance, targets)
    }

    fn give_reversed(&mut self, chance: u32, targets: &[u32]) -> Result<(), AllocError> {
        let mut ordered = Vec::new(self.alloc);
        ordered.extend_from_slice(targets)?;
        ordered.reverse();
        self.give(chance, ordered.as_slice())
    }
}

/// Gives the lines of a turn to a store, in their order, with targets below `staying` moved to be `by` earlier.
pub(crate) fn give_turn<'p, 'a, A: Allocator + Copy, L: LineStore>(
    turn: &TurnLines<'p, 'a, A>,
    by: usize,
    staying: usize,
    room: &mut Vec<u32, A>,
    lines: &mut L,
) -> Result<(), AllocError>
    requires { L.program lines.old ≡ turn.now.program }
    ensures program { L.program lines.new ≡ L.program lines.old }
    ensures holds { OnOk result
        (Gives (L.holds lines.old) (L.holds lines.new)
        (moved_error_lines staying by turn.now.lines)) }
{
    for i in 0..turn.chances.len() {
        move_list(turn.targets.get(i), by, staying, room)?;
        if !room.is_empty() {
            lines.give(turn.chances[i], room.as_slice())?;
        }
    }
    Ok(())
}

// Gives the lines of the turns before one, from that behind which `first` turns are left to that which is `last` turns earlier.
fn give_turns<'p, 'a, A: Allocator + Copy, L: LineStore>(
    turn: &TurnLines<'p, 'a, A>,
    shift: &Shift,
    first: usize,
    last: usize,
    room: &mut Vec<u32, A>,
    lines: &mut L,
) -> Result<(), AllocError>
    requires store { L.program lines.old ≡ turn.now.program }
    requires order { first ≤ last }
    requires far { last * shift.now.by ≤ usize.MAX }
    ensures program { L.program lines.new ≡ L.program lines.old }
    ensures turns { OnOk result
        (GivesTurns (L.holds lines.old) (L.holds lines.new) shift.now.staying shift.now.by first last
        turn.now.lines) }
{
    for turns in first..last {
        give_turn(turn, (turns + 1) * shift.by, shift.staying, room, lines)?;
    }
    Ok(())
}

// How many turns have about as much text as is pushed at once, and 1 at least.
fn turns_at_once<'p, 'a, A: Allocator + Copy>(turn: &TurnLines<'p, 'a, A>) -> usize
    ensures { 0 < result }
{
    let lines = turn.chances.len().saturating_mul(LINE);
    let targets = item_count(&turn.targets).saturating_mul(TARGET);
    (AT_ONCE / lines.saturating_add(targets).max(1)).max(1)
}

/// Pushes the text of the lines of so many turns before one, the earliest first.
pub(crate) fn push_turns<'p, 'a, A: Allocator + Copy, W: Sink>(
    turn: &TurnLines<'p, 'a, A>,
    turns: usize,
    shift: &Shift,
    lines: &mut TextStore<'_, 'a, A>,
    out: &mut Pieces,
    sink: &mut W,
) -> Result<(), AllocError>
    requires none { lines.old.text.text ≡ [] }
    requires store { lines.old.program.now ≡ turn.now.program }
    requires far { turns * shift.now.by ≤ usize.MAX }
    ensures text { OnOk result
        (Pushes W.taken W.failures sink.old sink.new out.old out.new
        (turns_text turn.now shift.now.staying shift.now.by turns)) }
    ensures some { OnErr result
        (PushesSome W.taken W.failures sink.old sink.new out.old out.new
        (turns_text turn.now shift.now.staying shift.now.by turns)) }
    ensures none { OnOk result (lines.new.text.text ≡ []) }
    ensures store { lines.new.program.now ≡ lines.old.program.now }
{
    let at_once = turns_at_once(turn);
    let mut room = Vec::new(turn.alloc);
    let mut left = turns;
    while left > 0 {
        if out.has_failed() {
            return Ok(());
        }
        let next = left.saturating_sub(at_once);
        give_turns(turn, shift, next, left, &mut room, lines)?;
        let text = lines.take_text();
        text.push_to(out, sink);
        lines.reuse(text);
        left = next;
    }
    Ok(())
}
