//! The text of error lines that a pass finds, up to a limit.
ghost use Rattle.std.specs.Prelude.{◌≡◌, ◌<◌, [], length, IfOk};
ghost use Rattle.backward.specs.private.Numbered.{AreNumbers, IsTextFor};
ghost use Rattle.error_models.specs.ErrorLines.{text_at};
ghost use Rattle.error_models.specs.HeldText.{HoldsLines};
ghost use Rattle.step_model.specs.Chances.{chance_at};

use crate::line_store::LineStore;
use circuit_walk::Program;
use error_models::{HeldText, LinesText};
use record_targets::target_count;
use std::alloc::{AllocError, Allocator};
use step_model::ChanceText;

/// How many times its room a whole text may take, so that it is found in one pass.
const WHOLE: usize = 5;

/// How many times as much room a whole text has as a part: the less one has, the less memory a long text takes.
const PARTS: usize = 4;

/// How many times its room a part may take, so that it isn't parted again where it is longer than others.
const WHOLE_PART: usize = 8;

/// From how many bytes on words are long: the text of a part then has as much room as they take, so that it pays to restore them.
const LONG_WORDS: usize = 512 << 10;

/// A text that is to be whole grows by its room in this many steps, and whether it still seems to fit is thought about
/// after each.
const STEPS: usize = 32;

/// After how many steps it is asked whether the text is full, at most.
const STRIDE: usize = 64;

/// One of these steps for each so many bytes of the room.
const STEP_ROOM: usize = 4096;

/// The text of a program's lines.
pub(crate) struct TextStore<'p, 'a, A: Allocator + Copy> {
    program: &'p Program<'a, A>,
    // For each of the program's probabilities the number of its text among those that are kept beside the lines.
    numbers: Vec<usize, A>,
    text: LinesText<'a, A>,
    // How much room the text of a part has.
    room: usize,
    // From how many bytes on a text is full, and how many it may have where it seems to be whole then.
    full: usize,
    whole: usize,
    ghost fits: { IsTextFor program.now numbers.items text },
}

// Written out, so that it is a call in the proof of each function that owns one.
impl<A: Allocator + Copy> Drop for TextStore<'_, '_, A> {
    fn drop(self) {
        let TextStore {
            program: _,
            numbers,
            text,
            room: _,
            full: _,
            whole: _,
        } = self;
        drop(numbers);
        drop(text);
    }
}

impl<'p, 'a, A: Allocator + Copy> TextStore<'p, 'a, A> {
    /// No lines, and how much room their text has.
    pub(crate) fn new(
        alloc: A,
        program: &'p Program<'a, A>,
        room: usize,
    ) -> Result<Self, AllocError>
        ensures none { IfOk result (λ store. store.text.text ≡ []) }
        ensures program { IfOk result (λ store. store.program.now ≡ program.now) }
    {
        program.well_formed();
        let mut text = LinesText::new(alloc, program.detector_count(), target_count(program))?;
        let numbers = kept_numbers(alloc, program.chances(), &mut text)?;
        Ok(TextStore {
            program,
            numbers,
            text,
            room: room / PARTS,
            full: room / PARTS,
            whole: room.saturating_mul(WHOLE),
        })
    }

    /// After how many steps it is asked again whether the text is full: fewer where there is little room.
    pub(crate) fn stride(&self) -> usize
        ensures { 0 < result }
    {
        (self.room / STEP_ROOM).min(STRIDE).max(1)
    }

    /// Whether the text, which is that of `steps` of a stretch of `all`, is to be taken before more lines are found. It is
    /// thought about where the text has `next` bytes, which is 0 at the start of a stretch.
    #[inline(always)]
    pub(crate) fn is_full(&self, next: &mut usize, steps: usize, all: usize) -> bool {
        let len = self.text.len();
        len >= *next && self.is_full_at(len, next, steps, all)
    }

    // The same, and from how many bytes on it is thought about again.
    #[inline(never)]
    fn is_full_at(&self, len: usize, next: &mut usize, steps: usize, all: usize) -> bool {
        if len < self.full {
            *next = self.full;
            return false;
        }
        *next = len.saturating_add(self.full / STEPS).min(self.whole);
        !fits(len, steps, all, self.whole)
    }

    /// How many steps a full text has, by how many bytes the text of the latest `steps` has: so many at least.
    pub(crate) fn full_steps(&self, steps: usize) -> usize {
        (steps.saturating_mul(self.full) / self.text.len().max(1)).max(steps)
    }

    /// The next text is that of a part before which words of so many bytes are restored.
    pub(crate) fn hold_part(&mut self, words: usize)
        ensures text { self.new.text ≡ self.old.text }
        ensures program { self.new.program.now ≡ self.old.program.now }
    {
        self.full = if words < LONG_WORDS {
            self.room
        } else {
            self.room.max(words)
        };
        self.whole = self.full.saturating_mul(WHOLE_PART);
    }

    // The number of the text of a probability.
    #[inline(always)]
    fn text_number(&self, chance: u32) -> usize
        requires { chance < length self.now.program.now.chances }
        ensures within { result < length self.now.text.texts }
        ensures named { text_at self.now.text.texts result
            ≡ (chance_at self.now.program.now.chances chance).text }
    {
        self.numbers[chance as usize]
    }

    /// Takes the text out.
    pub(crate) fn take_text(&mut self) -> HeldText<A>
        ensures text { result ≡ self.old.text.text }
        ensures none { self.new.text.text ≡ [] }
        ensures detectors { self.old.text.detectors
            ≡ length self.old.program.now.listing.detectors }
        ensures program { self.new.program.now ≡ self.old.program.now }
    {
        self.text.take_text()
    }

    /// Uses the memory of a text again.
    pub(crate) fn reuse(&mut self, held: HeldText<A>)
        ensures text { self.new.text ≡ self.old.text }
        ensures program { self.new.program.now ≡ self.old.program.now }
    {
        self.text.reuse(held);
    }
}

// Whether a text seems to have no more than `most` bytes when it is whole, by how much `steps` of `all` have.
fn fits(len: usize, steps: usize, all: usize, most: usize) -> bool {
    len <= most && len.saturating_mul(all) <= most.saturating_mul(steps)
}

// Keeps the text of each of these probabilities, and answers its number for each.
fn kept_numbers<'a, A: Allocator + Copy>(
    alloc: A,
    chances: &[ChanceText<'a>],
    text: &mut LinesText<'a, A>,
) -> Result<Vec<usize, A>, AllocError>
    ensures numbers { IfOk result (λ numbers. AreNumbers chances.now text.new.texts numbers.items) }
    ensures counted { IfOk result (λ numbers. length numbers.items ≡ length chances.now) }
    ensures detectors { text.new.detectors ≡ text.old.detectors }
    ensures targets { text.new.targets ≡ text.old.targets }
    ensures text { text.new.text ≡ text.old.text }
{
    let mut numbers = Vec::with_capacity(alloc, chances.len())?;
    for chance in chances {
        let number = text.keep_text(chance.text)?;
        numbers.push(number)?;
    }
    Ok(numbers)
}

impl<'p, 'a, A: Allocator + Copy> LineStore for TextStore<'p, 'a, A> {
    ghost program = { λ store. store.program.now };

    ghost holds = { λ store lines. HoldsLines store.text lines };

    fn give(&mut self, chance: u32, targets: &[u32]) -> Result<(), AllocError> {
        let number = self.text_number(chance);
        self.text.put_line(number, targets)
    }

    #[inline]
    fn give_reversed(&mut self, chance: u32, targets: &[u32]) -> Result<(), AllocError> {
        let number = self.text_number(chance);
        self.text.put_line_reversed(number, targets)
    }
}
