//! Lines that are kept, with their blocks: those of a block until it is closed, or of a whole text.
ghost use Rattle.std.specs.Prelude.{◌≡◌, ◌⊎◌, ◌+◌, ◌<◌, ◌≤◌, ◌^◌, ℕ, false, true, List, [], Some, length, slice_get, IfOk, IfErr};
ghost use Rattle.cursor.specs.Moves.{GoesOver};
ghost use Rattle.cursor.specs.Places.{AreNested, StandsIn, before_of, left_of};
ghost use Rattle.stim_lexer.specs.Fitting.{IsWritten, ReadingFits};
ghost use Rattle.stim_lexer.specs.Flat.{tree_of};
ghost use Rattle.stim_lexer.specs.Judged.{left_open};
ghost use Rattle.stim_lexer.specs.Reached.{reached};
ghost use Rattle.stim_lexer.specs.Said.{reading_in};
ghost use Rattle.stim_lexer.specs.Texts.{Accepts};
ghost use Rattle.stim_lexer.specs.Trees.{InstructionLine};
ghost use Rattle.stim_lexer.specs.Unfinished.{after_line, cause_in};
ghost use Rattle.step_model.specs.declared.fault.Cause.TheVariants as cause;
ghost use Rattle.dem_text.specs.Verdicts.{Instruction};
ghost use Rattle.dem_text.specs.private.Briefs.{IsBrief, IsKeptLine};
ghost use Rattle.dem_text.specs.Fitting.{Fits};
ghost use Rattle.dem_text.specs.Reached.{block_lines};
ghost use Rattle.dem_text.specs.private.Folds.{Folded, Follows, IsSound, fold_after, fold_over};
ghost use Rattle.dem_text.specs.private.Keeping.{IsKeeping, KeepsFirst};
ghost use Rattle.dem_text.specs.private.Making.{HasKeptLines, IsMaking};
ghost use Rattle.dem_text.specs.private.Unrolled.{few_of};

use crate::brief::{Brief, NO_LINE, brief_of, put_stated};
use crate::counting::Counting;
use crate::error_line::{Recent, said_first};
use crate::fold::Fold;
use crate::operation::Operation;
use crate::target::Target;
use arrayvec::ArrayVec;
use cursor::{AllInstructions, Cursor};
use flat_lists::FlatLists;
use std::alloc::{AllocError, Allocator};
use std::marker::Model;
use step_model::{Cause, Fault};
use stim_lexer::{Builder, Item, Items, Said};
use stim_parser::MOST_ARGUMENTS;

/// Lines that are read one after another.
#[derive(Drop)]
pub(crate) struct Keeping<'a, A: Allocator + Copy> {
    builder: Builder<'a, Operation, Target, A>,
    briefs: Vec<Brief, A>,
    stated: FlatLists<i64, A>,
}

/// Lines whose blocks are closed.
#[derive(Drop)]
pub(crate) struct Kept<'a, A: Allocator + Copy> {
    items: Items<'a, Operation, Target, A>,
    briefs: Vec<Brief, A>,
    stated: FlatLists<i64, A>,
}

impl<'a, A: Allocator + Copy> Model for Kept<'a, A> {
    ghost use Rattle.std.specs.Prelude.{List};
    ghost use Rattle.stim_lexer.specs.Stored.{coded_items};
    ghost use Rattle.dem_text.specs.Texts.{Item};
    ghost use Rattle.dem_text.specs.private.Flat.{coded_instructions};
    ghost use Rattle.dem_text.specs.private.Keeping.{AreKept};

    ghost Value = { List Item };

    ghost coded = { coded_items coded_instructions };

    ghost view = { λ k. k.items.items };

    ghost invariant = { λ k. AreKept k.items.items k.briefs.items k.stated };
}

/// A line that is kept: what is known of it, the numbers that it states, its targets, and the text in its parentheses.
#[derive(Clone, Copy)]
pub(crate) struct KeptLine<'k, 'a> {
    pub brief: Brief,
    pub stated: &'k [i64],
    pub targets: &'k [Target],
    pub arguments: &'a [u8],
}

/// What is known of the line of this number that says this, with these targets; of one that is no instruction nothing. The numbers
/// that it states are put into `stated`, in place of what that held.
fn known_in(
    stated: &mut ArrayVec<i64, MOST_ARGUMENTS>,
    line: u64,
    said: Said<'_, Operation>,
    targets: &[Target],
) -> Brief
    requires { (depth : ℕ) × ReadingFits Fits depth (reading_in line said targets.now) }
    ensures { (i : Instruction) → reading_in line said.entry targets.now ≡ Accepts i
        → IsBrief i result stated.new.items }
{
    match said {
        Said::Accepts {
            operation,
            arguments,
        } => {
            put_stated(stated, operation, arguments);
            brief_of(line, operation, targets, stated.as_slice())
        }
        _ => {
            stated.clear();
            NO_LINE
        }
    }
}

impl<'a, A: Allocator + Copy> Keeping<'a, A> {
    /// No lines. Takes no memory.
    pub(crate) fn new(alloc: A) -> Self
        ensures text { result.builder.text ≡ record { items = []; opened = [] } }
        ensures kept { IsKeeping result }
    {
        Keeping {
            builder: Builder::new(alloc),
            briefs: Vec::new(alloc),
            stated: FlatLists::new(alloc),
        }
    }

    /// How many blocks are open.
    #[inline(always)]
    pub(crate) fn depth(&self) -> usize
        ensures { result ≡ length self.now.builder.text.opened }
    {
        self.builder.depth()
    }

    /// Adds what the line of a number says. Answers the cause where it is refused. It fails only where memory runs out; what was
    /// read before can't be used then.
    pub(crate) fn take(
        &mut self,
        line: u64,
        said: Said<'a, Operation>,
        targets: &[Target],
    ) -> Result<Option<Cause>, AllocError>
        requires kept { IsKeeping self.old }
        requires fits { ReadingFits Fits (length self.old.builder.text.opened)
            (reading_in line said targets.now) }
        ensures refused { IfOk result (λ refused. refused
            ≡ cause_in (reading_in line said.entry targets.now)) }
        ensures after { IfOk result (λ refused. self.new.builder.text
            ≡ after_line line (reading_in line said.entry targets.now) self.old.builder.text) }
        ensures kept { IfOk result (λ refused. IsKeeping self.new) }
    {
        if let Said::Refuses(cause) = said {
            return Ok(Some(cause));
        }
        let mut stated = ArrayVec::new();
        let brief = known_in(&mut stated, line, said, targets);
        self.briefs.push(brief)?;
        self.stated.push(stated.as_slice())?;
        self.builder.take(line, said, 0, targets)
    }

    /// The lines, where no block is left open. Otherwise the refusal, with the line of the innermost.
    pub(crate) fn finish(self) -> Result<Kept<'a, A>, Fault>
        requires { IsKeeping self }
        ensures opened { IfOk result (λ kept. self.entry.builder.text.opened ≡ []) }
        ensures items { IfOk result (λ kept. kept ≡ self.entry.builder.text.items) }
        ensures err { IfErr result (λ fault. left_open cause.DemBlock self.entry.builder.text.opened
            ≡ Some fault) }
    {
        let Keeping {
            builder,
            briefs,
            stated,
        } = self;
        match builder.finish(Cause::DemBlock) {
            Ok(items) => Ok(Kept {
                items,
                briefs,
                stated,
            }),
            Err(fault) => Err(fault),
        }
    }
}

/// What reading lines to be kept came to: they are kept, and this follows, so many lines having been read; a block is left open,
/// with its refusal where nothing follows; or a line is refused.
#[derive(Drop)]
pub(crate) enum Keep<'a, A: Allocator + Copy> {
    Closed(Kept<'a, A>, &'a [u8], u64),
    Open(Fault),
    Refused(Fault),
}

/// Reads the first line of a text, which is of this number. Answers the cause where it is refused, and what follows the line.
fn keep_line<'a, A: Allocator + Copy>(
    keeping: &mut Keeping<'a, A>,
    recent: &mut Recent<'a>,
    targets: &mut Vec<Target, A>,
    number: u64,
    text: &'a [u8],
) -> Result<(Option<Cause>, &'a [u8]), AllocError>
    requires kept { IsKeeping keeping.old }
    requires some { 0 < length text.now }
    ensures kept { IfOk result (λ found. IsKeeping keeping.new) }
    ensures line { IfOk result (λ found. KeepsFirst number text.now found.1.now found.0
        keeping.old.builder.text keeping.new.builder.text) }
{
    let depth = keeping.depth();
    let (said, after) = said_first(recent, targets, depth, number, text)?;
    match said {
        Some(said) => {
            let refused = keeping.take(number, said, targets.as_slice())?;
            Ok((refused, after))
        }
        None => Ok((None, after)),
    }
}

/// Whether a line more is read: there is one, and the text is read whole or a block is open.
#[inline(always)]
fn goes_on(rest: &[u8], whole: bool, depth: usize) -> bool
    ensures some { result ≡ true → 0 < length rest.now }
    ensures ended { result ≡ false → (rest.now ≡ []) ⊎ ((whole ≡ false) × (depth ≡ 0)) }
{
    !rest.is_empty() && (whole || depth > 0)
}

/// Reads lines behind others: to the end of the block that is open, or, where `whole` is so, to the end of the text.
pub(crate) fn keep_lines<'a, A: Allocator + Copy>(
    mut keeping: Keeping<'a, A>,
    recent: &mut Recent<'a>,
    targets: &mut Vec<Target, A>,
    whole: bool,
    read: u64,
    text: &'a [u8],
) -> Result<Keep<'a, A>, AllocError>
    requires kept { IsKeeping keeping }
    requires room { read + length text.now < 2 ^ 64 }
    ensures { IfOk result (λ found. (count : ℕ) (before : List (List ℕ))
        → IsMaking count before keeping.entry.builder.text
        → read ≡ count + length before
        → HasKeptLines count before text.now read whole found) }
{
    let mut rest = text;
    let mut number = read;
    while goes_on(rest, whole, keeping.depth()) {
        number += 1;
        let (refused, after) = keep_line(&mut keeping, recent, targets, number, rest)?;
        if let Some(cause) = refused {
            return Ok(Keep::Refused(Fault {
                cause,
                line: number,
            }));
        }
        rest = after;
    }
    match keeping.finish() {
        Ok(kept) => Ok(Keep::Closed(kept, rest, number)),
        Err(fault) => Ok(Keep::Open(fault)),
    }
}

impl<'a, A: Allocator + Copy> Kept<'a, A> {
    /// The line at a place, where an instruction stands.
    #[inline(always)]
    pub(crate) fn line(&self, place: usize) -> KeptLine<'_, 'a>
        requires { (i : Instruction) × (slice_get self.now place ≡ Some (InstructionLine i)) }
        ensures { (i : Instruction) → slice_get self.now place ≡ Some (InstructionLine i)
            → IsKeptLine i result }
    {
        match self.items.get(place) {
            Item::InstructionLine(instruction) => KeptLine {
                brief: self.briefs[place],
                stated: self.stated.get(place),
                targets: instruction.targets,
                arguments: instruction.arguments,
            },
            _ => unreachable!(),
        }
    }

    /// A cursor before all lines.
    pub(crate) fn start(&self) -> Cursor
        requires { AreNested self.now }
        ensures place { StandsIn (λ i. true) self.now result }
        ensures before { before_of (λ i. true) self.now result ≡ [] }
        ensures left { left_of (λ i. true) self.now result ≡ reached (tree_of self.now) }
    {
        Cursor::start::<AllInstructions, _, _, _>(&self.items)
    }

    /// Goes over the next line, if one is left, and answers its place.
    #[inline(always)]
    pub(crate) fn next(&self, cursor: &mut Cursor) -> Option<usize>
        requires { StandsIn (λ i. true) self.now cursor.old }
        ensures place { StandsIn (λ i. true) self.now cursor.new }
        ensures over { GoesOver (λ i. true) self.now cursor.old cursor.new result }
    {
        cursor.next::<AllInstructions, _, _, _>(&self.items)
    }

    /// Takes a fold past the line at a place, where an instruction stands. Its targets are looked up only where they are turned.
    #[inline(always)]
    fn take_at(&self, fold: &mut Fold<'_, A>, place: usize)
        requires some { (i : Instruction) × (slice_get self.now place ≡ Some (InstructionLine i)) }
        requires sound { IsSound fold.old.standing }
        requires few { fold.old.standing.passed + 1 < 2 ^ 64 }
        ensures follows { (named : List ℕ) (f : Folded) (i : Instruction)
            → Follows named f fold.old
            → slice_get self.now place ≡ Some (InstructionLine i)
            → Follows named (fold_after named f i) fold.new }
        ensures sound { IsSound fold.new.standing }
        ensures passed { fold.new.standing.passed ≤ fold.old.standing.passed + 1 }
    {
        if fold.pass(&self.briefs[place], self.stated.get(place)) {
            fold.turn(self.line(place).targets);
        }
    }

    /// Takes a fold over the lines as they are reached. It stands apart, so that its loop has the registers to itself.
    #[inline(never)]
    pub(crate) fn go_over(&self, fold: &mut Fold<'_, A>)
        requires nested { AreNested self.now }
        requires sound { IsSound fold.old.standing }
        requires few { fold.old.standing.passed + length (reached (tree_of self.now)) < 2 ^ 64 }
        ensures follows { (named : List ℕ) (f : Folded)
            → Follows named f fold.old
            → Follows named (fold_over named f (reached (tree_of self.now))) fold.new }
        ensures sound { IsSound fold.new.standing }
        ensures passed { fold.new.standing.passed
            ≤ fold.old.standing.passed + length (reached (tree_of self.now)) }
    {
        let mut cursor = self.start();
        while let Some(place) = self.next(&mut cursor) {
            self.take_at(fold, place);
        }
    }

    /// How many lines the blocks unroll to, up to one more than they may.
    pub(crate) fn block_lines(&self) -> u64
        requires { IsWritten Fits self.now }
        ensures { result ≡ few_of (block_lines (tree_of self.now)) }
    {
        let mut counting = Counting::new();
        for place in 0..self.items.len() {
            counting.pass(self.items.get(place));
        }
        counting.counts.in_blocks()
    }
}
