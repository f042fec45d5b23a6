//! The front of a model's text, read line by line: a line outside blocks is judged, taken and forgotten, and the lines of an
//! outermost block are kept until it is closed.
ghost use Rattle.std.specs.Prelude.{◌≡◌, ◌==◌, ◌⊎◌, ◌+◌, ◌<◌, ◌≤◌, ◌^◌, ℕ, false, List, [], ◌∷◌, ◌++◌, Some, length, IfOk};
ghost use Rattle.std.specs.List.{before_first};
ghost use Rattle.std.specs.List.Sorted.{IsStrictlyIncreasing};
ghost use Rattle.stim_lexer.specs.Bytes.{from_first};
ghost use Rattle.stim_lexer.specs.Cut.{cut_of};
ghost use Rattle.stim_lexer.specs.FirstLines.{IsFirstLine};
ghost use Rattle.stim_lexer.specs.Fitting.{IsWritten};
ghost use Rattle.stim_lexer.specs.Flat.{tree_of};
ghost use Rattle.stim_lexer.specs.Lines.{says_nothing};
ghost use Rattle.stim_lexer.specs.Reached.{reached};
ghost use Rattle.stim_lexer.specs.Texts.{Accepts, Opens};
ghost use Rattle.stim_lexer.specs.Trees.{Nothing};
ghost use Rattle.dem_text.specs.declared.operation.Operation.TheVariants.{PauliError};
ghost use Rattle.dem_text.specs.Fitting.{Fits};
ghost use Rattle.dem_text.specs.Reached.{block_lines};
ghost use Rattle.dem_text.specs.private.Ended.{IsVerdict};
ghost use Rattle.dem_text.specs.private.Lines.{BeginsWithError, IsReading, instruction_cut, instruction_read};
ghost use Rattle.dem_text.specs.Targets.{targets_in};
ghost use Rattle.dem_text.specs.private.Folds.{HasTurned};
ghost use Rattle.dem_text.specs.private.ErrorTexts.{IsApart};
ghost use Rattle.dem_text.specs.private.Making.{HasFolded, HasKept, HasPassed, HasRead, HasRoomFor, HasTaken, IsReady, PassesFirst};
ghost use Rattle.dem_text.specs.private.Unrolled.{few_of};

use crate::brief::{Brief, Extent, brief_of, put_stated};
use crate::counting::MOST_LINES;
use crate::error_line::{Recent, behind_byte, error_first, up_to};
use crate::fold::Fold;
use crate::judge::{said_in, targets_of};
use crate::kept::{Keep, Keeping, Kept, keep_lines};
use crate::operation::Operation;
use crate::standing::LineCounts;
use crate::target::{Target, read_targets};
use arrayvec::ArrayVec;
use std::alloc::{AllocError, Allocator};
use step_model::{Cause, Fault};
use stim_lexer::{Said, cut_at, first_line};

/// What ended the reading of lines: there are no more; or the end of a block isn't there, which is refused so where nothing
/// follows; or a line is refused.
#[derive(Clone, Copy)]
pub(crate) enum End {
    Text,
    Open(Fault),
    Refused(Fault),
}

/// What follows a line, with the block that it opens, or what ended the reading there.
#[derive(Clone, Copy)]
enum Passed<'w> {
    Behind(&'w [u8]),
    Ended(End),
}

/// How many lines were read, how many lines their blocks unroll to, up to one more than they may, and what they leave.
#[derive(Drop)]
pub(crate) struct Front<'n, A: Allocator + Copy> {
    pub alloc: A,
    pub read: u64,
    pub unrolled: u64,
    pub fold: Fold<'n, A>,
    // Room for the targets of a line.
    pub targets: Vec<Target, A>,
}

/// So many bytes of targets are read again at a time.
const PART: usize = 65536;

/// The parts of a text before its first space, and from there on.
fn cut_at_space(text: &[u8]) -> (&[u8], &[u8])
    ensures before { result.0.now ≡ before_first (λ b. b == 32) text.now }
    ensures after { result.1.now ≡ from_first (λ b. b == 32) text.now }
    ensures len { length result.0.now + length result.1.now ≡ length text.now }
{
    cut_at(text, b' ')
}

/// So many bytes that a text of targets begins with, up to a space, and what follows them.
fn part_of(text: &[u8]) -> (&[u8], &[u8])
    requires { 0 < length text.now }
    ensures text { text.now ≡ result.0.now ++ result.1.now }
    ensures apart { IsApart result.1.now }
    ensures less { length result.1.now < length text.now }
{
    let least = text.len().min(PART);
    let (_, after) = cut_at_space(&text[least..]);
    (up_to(text, after), after)
}

impl<'n, A: Allocator + Copy> Front<'n, A> {
    /// Before the first line, where the error lines of these numbers are named, with so many bits.
    pub(crate) fn new(alloc: A, named: &'n [usize], places: usize) -> Result<Self, AllocError>
        requires { IsStrictlyIncreasing named.now }
        ensures read { IfOk result (λ front. HasRead named.now places [] Nothing front) }
        ensures ready { IfOk result (λ front. IsReady front) }
    {
        Ok(Front {
            alloc,
            read: 0,
            unrolled: 0,
            fold: Fold::new(alloc, named, places)?,
            targets: Vec::new(alloc),
        })
    }

    /// Flips the bits of the targets of a text, whose line was passed. They are read again, some at a time.
    fn turn_text(&mut self, text: &[u8]) -> Result<(), AllocError>
        requires { (targets : List Target) × (targets_in text.now ≡ Some targets) }
        ensures turned { IfOk result (λ _. HasTurned text.now self.old.fold self.new.fold) }
        ensures read { self.new.read ≡ self.old.read }
        ensures unrolled { self.new.unrolled ≡ self.old.unrolled }
    {
        let mut rest = text;
        while !rest.is_empty() {
            let (some, after) = part_of(rest);
            read_targets(&mut self.targets, some)?;
            self.fold.turn(self.targets.as_slice());
            rest = after;
        }
        Ok(())
    }

    /// Takes the fold past the error line that a text begins with, whose targets have this extent.
    #[inline(always)]
    fn fold_error(&mut self, text: &[u8], extent: Extent, after: &[u8]) -> Result<(), AllocError>
        requires begins { BeginsWithError text.now extent after.now }
        requires ready { IsReady self.old }
        requires room { HasRoomFor self.old.read (length text.now) }
        ensures folded { IfOk result (λ _. (line : List ℕ)
            → IsFirstLine text.now line after.now
            → HasFolded (instruction_cut (self.old.read + 1) PauliError (cut_of line) ∷ [])
            self.old self.new) }
        ensures read { IfOk result (λ _. self.new.read ≡ self.old.read) }
        ensures unrolled { IfOk result (λ _. self.new.unrolled ≡ self.old.unrolled) }
    {
        if self.unrolled > MOST_LINES {
            return Ok(());
        }
        let brief = Brief {
            line: self.read + 1,
            operation: Operation::PauliError,
            extent,
            amount: 0,
            reach: 0,
        };
        if !self.fold.pass(&brief, &[]) {
            return Ok(());
        }
        let (line, _) = first_line(text);
        self.turn_text(targets_of(line))?;
        Ok(())
    }

    /// Takes the error line that a text begins with, whose targets have this extent, and behind which this follows.
    #[inline(always)]
    fn take_error(&mut self, text: &[u8], extent: Extent, after: &[u8]) -> Result<(), AllocError>
        requires begins { BeginsWithError text.now extent after.now }
        requires ready { IsReady self.old }
        requires room { HasRoomFor self.old.read (length text.now) }
        ensures { IfOk result (λ _. HasPassed text.now after.now self.old self.new) }
    {
        self.fold_error(text, extent, after)?;
        self.read += 1;
        Ok(())
    }

    /// Takes the fold past a line outside blocks, whose targets were read.
    fn fold_line(&mut self, operation: Operation, arguments: &[u8])
        requires fits { Fits (instruction_read (self.old.read + 1) operation arguments.now
            self.old.targets.items) }
        requires ready { IsReady self.old }
        requires room { HasRoomFor self.old.read 1 }
        ensures folded { HasFolded (instruction_read (self.old.read + 1) operation arguments.now
            self.old.targets.items ∷ []) self.old self.new }
        ensures read { self.new.read ≡ self.old.read }
        ensures unrolled { self.new.unrolled ≡ self.old.unrolled }
    {
        if self.unrolled > MOST_LINES {
            return;
        }
        let mut numbers = ArrayVec::new();
        put_stated(&mut numbers, operation, arguments);
        let stated = numbers.as_slice();
        let targets = self.targets.as_slice();
        let brief = brief_of(self.read + 1, operation, targets, stated);
        self.fold.take(&brief, stated, targets);
    }

    /// Takes the line that a text begins with, which is no block's, and whose targets were read.
    fn take_line(
        &mut self,
        operation: Operation,
        arguments: &[u8],
        text: &[u8],
        line: &[u8],
        after: &[u8],
    )
        requires first { IsFirstLine text.now line.now after.now }
        requires speaks { says_nothing line.now ≡ false }
        requires accepted { IsReading 0 (self.old.read + 1) line.now
            (Accepts (instruction_read (self.old.read + 1) operation arguments.now
            self.old.targets.items)) }
        requires ready { IsReady self.old }
        requires room { HasRoomFor self.old.read (length text.now) }
        ensures { HasPassed text.now after.now self.old self.new }
    {
        self.fold_line(operation, arguments);
        self.read += 1;
    }

    /// Takes the fold past the lines of a block.
    fn fold_kept(&mut self, kept: &Kept<'_, A>)
        requires written { IsWritten Fits kept.now }
        requires ready { IsReady self.old }
        requires room { HasRoomFor self.old.read (length kept.now) }
        ensures folded { HasFolded (reached (tree_of kept.now)) self.old self.new }
        ensures read { self.new.read ≡ self.old.read }
        ensures unrolled { self.new.unrolled
            ≡ few_of (self.old.unrolled + block_lines (tree_of kept.now)) }
    {
        self.unrolled = (self.unrolled + kept.block_lines()).min(MOST_LINES + 1);
        if self.unrolled > MOST_LINES {
            return;
        }
        kept.go_over(&mut self.fold);
    }

    /// Takes the block that a text begins with and that was kept.
    fn take_kept(&mut self, kept: &Kept<'_, A>, read: u64, text: &[u8], rest: &[u8])
        requires kept { HasKept self.old.read [] text.now self.old.read kept.now rest.now read }
        requires ready { IsReady self.old }
        requires room { HasRoomFor self.old.read (length text.now) }
        ensures { HasPassed text.now rest.now self.old self.new }
    {
        self.fold_kept(kept);
        self.read = read;
    }

    /// Goes past the block that a text begins with; this follows its first line.
    fn pass_block<'w>(
        &mut self,
        recent: &mut Recent<'w>,
        iterations: u64,
        text: &'w [u8],
        line: &'w [u8],
        after: &'w [u8],
    ) -> Result<Passed<'w>, AllocError>
        requires first { IsFirstLine text.now line.now after.now }
        requires speaks { says_nothing line.now ≡ false }
        requires opened { IsReading 0 (self.old.read + 1) line.now (Opens iterations) }
        requires ready { IsReady self.old }
        requires room { HasRoomFor self.old.read (length text.now) }
        ensures { IfOk result (λ passed. PassesFirst text.now passed self.old self.new) }
    {
        let number = self.read + 1;
        let mut keeping = Keeping::new(self.alloc);
        keeping.take(number, Said::Opens(iterations), &[])?;
        match keep_lines(keeping, recent, &mut self.targets, false, number, after)? {
            Keep::Closed(kept, rest, read) => {
                self.take_kept(&kept, read, text, rest);
                Ok(Passed::Behind(rest))
            }
            Keep::Open(fault) => Ok(Passed::Ended(End::Open(fault))),
            Keep::Refused(fault) => Ok(Passed::Ended(End::Refused(fault))),
        }
    }

    /// Goes past the first line of a text, however it is written, with the block that it opens.
    #[inline(never)]
    fn pass_any<'w>(
        &mut self,
        recent: &mut Recent<'w>,
        text: &'w [u8],
    ) -> Result<Passed<'w>, AllocError>
        requires some { 0 < length text.now }
        requires ready { IsReady self.old }
        requires room { HasRoomFor self.old.read (length text.now) }
        ensures { IfOk result (λ passed. PassesFirst text.now passed self.old self.new) }
    {
        let (line, after) = first_line(text);
        match said_in(&mut recent.last, &mut self.targets, 0, self.read + 1, line)? {
            None => {
                self.read += 1;
                Ok(Passed::Behind(after))
            }
            Some(
                Said::Accepts {
                    operation,
                    arguments,
                },
            ) => {
                self.take_line(operation, arguments, text, line, after);
                Ok(Passed::Behind(after))
            }
            Some(Said::Opens(iterations)) => self.pass_block(recent, iterations, text, line, after),
            Some(Said::Closes) => unreachable!(),
            Some(Said::Refuses(cause)) => Ok(Passed::Ended(End::Refused(Fault {
                cause,
                line: self.read + 1,
            }))),
        }
    }

    /// Goes past the first line of a text, with the block that it opens.
    #[inline(always)]
    fn pass<'w>(
        &mut self,
        recent: &mut Recent<'w>,
        text: &'w [u8],
    ) -> Result<Passed<'w>, AllocError>
        requires some { 0 < length text.now }
        requires ready { IsReady self.old }
        requires room { HasRoomFor self.old.read (length text.now) }
        ensures { IfOk result (λ passed. PassesFirst text.now passed self.old self.new) }
    {
        match error_first(recent, text) {
            Some((extent, after)) => {
                self.take_error(text, extent, after)?;
                Ok(Passed::Behind(after))
            }
            None => match behind_byte(b'\n', text) {
                Some(after) => {
                    self.read += 1;
                    Ok(Passed::Behind(after))
                }
                None => self.pass_any(recent, text),
            },
        }
    }

    /// Goes past the lines of a text, up to a block that it doesn't close, or a line that is refused. Answers what is left, and
    /// what ended the reading there.
    pub(crate) fn take_lines<'w>(&mut self, text: &'w [u8]) -> Result<(&'w [u8], End), AllocError>
        requires ready { IsReady self.old }
        requires room { HasRoomFor self.old.read (length text.now) }
        ensures { IfOk result (λ found. HasTaken text.now found.0.now found.1 self.old self.new) }
    {
        let mut recent = Recent::new();
        let mut rest = text;
        while !rest.is_empty() {
            match self.pass(&mut recent, rest)? {
                Passed::Behind(after) => rest = after,
                Passed::Ended(ended) => return Ok((rest, ended)),
            }
        }
        Ok((rest, End::Text))
    }

    /// The counts of a model whose text ended so, or its refusal.
    pub(crate) fn verdict(&self, ended: End) -> Result<LineCounts, Fault>
        requires few { self.now.fold.standing.counts.errors < 2 ^ 64 }
        ensures { IsVerdict self.now ended result }
    {
        match ended {
            End::Text => {}
            End::Open(fault) | End::Refused(fault) => return Err(fault),
        }
        if self.unrolled > MOST_LINES {
            return Err(Fault {
                cause: Cause::DemSteps,
                line: 0,
            });
        }
        match self.fold.standing.beyond {
            Some(line) => Err(Fault {
                cause: Cause::DemNumber,
                line,
            }),
            None => Ok(self.fold.standing.counts),
        }
    }
}
