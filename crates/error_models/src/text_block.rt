//! A block of text that is filled from its end.
ghost use Rattle.std.specs.Prelude.{◌≡◌, ◌<◌, ◌≤◌, ◌+◌, ◌*◌, ◌++◌, All, length, IfOk};
ghost use Rattle.error_models.specs.HeldText.{no_text};
ghost use Rattle.error_models.specs.ModelText.{line_text, targets_text};
ghost use Rattle.error_models.specs.private.TargetNames.{reversed_where};

use crate::line_text::LineText;
use crate::names::{NAME, Names};
use crate::short_lines::{SHORT_LINE, SHORT_TARGETS, SHORT_TEXT, text_before};
use std::alloc::{AllocError, Allocator};
use std::marker::Model;

/// How long a block is, in bytes.
const BLOCK: usize = 65536;

/// Bytes that are filled from their end: those from `start` on are text.
#[derive(Drop)]
pub(crate) struct TextBlock<A: Allocator + Copy> {
    bytes: Vec<u8, A>,
    start: usize,
}

impl<A: Allocator + Copy> Model for TextBlock<A> {
    ghost use Rattle.std.specs.Prelude.{◌≤◌, drop, length};
    ghost use Rattle.error_models.specs.HeldText.{Filled};

    ghost Value = { Filled };

    ghost view = { λ b. record { text = drop b.start b.bytes.items; room = b.start } };

    ghost invariant = { λ b. b.start ≤ length b.bytes.items };
}

impl<A: Allocator + Copy> TextBlock<A> {
    /// A block without room. Takes no memory.
    pub(crate) fn none(alloc: A) -> Self
        ensures { result ≡ no_text 0 }
    {
        TextBlock {
            bytes: Vec::new(alloc),
            start: 0,
        }
    }

    /// A block without text.
    pub(crate) fn new(alloc: A) -> Result<Self, AllocError>
        ensures { IfOk result (λ block. block ≡ no_text BLOCK) }
    {
        Ok(TextBlock {
            bytes: vec![in alloc; 0u8; BLOCK]?,
            start: BLOCK,
        })
    }

    /// How many bytes fit before the text.
    #[inline(always)]
    pub(crate) fn room(&self) -> usize
        ensures { result ≡ self.now.room }
    {
        self.start
    }

    /// How long the text is.
    pub(crate) fn len(&self) -> usize
        ensures { result ≡ length self.now.text }
    {
        self.bytes.len() - self.start
    }

    pub(crate) fn text(&self) -> &[u8]
        ensures { result.now ≡ self.now.text }
    {
        &self.bytes[self.start..]
    }

    /// Takes its text away.
    pub(crate) fn clear(&mut self)
        ensures { self.new ≡ no_text (self.old.room + length self.old.text) }
    {
        self.start = self.bytes.len();
    }

    /// Puts bytes before the text.
    pub(crate) fn put(&mut self, bytes: &[u8])
        requires { length bytes.now ≤ self.old.room }
        ensures { self.new.text ≡ bytes.now ++ self.old.text }
    {
        self.start = text_before(&mut self.bytes, self.start, bytes);
    }

    /// Puts the text of targets before the text.
    pub(crate) fn put_targets(&mut self, names: &Names<A>, targets: &[u32])
        requires room { length targets.now * NAME ≤ self.old.room }
        requires targets { All (λ target. target < names.now.targets) targets.now }
        ensures { self.new.text ≡ targets_text names.now.detectors targets.now ++ self.old.text }
    {
        self.start = names.targets_before(&mut self.bytes, self.start, targets);
    }

    /// Puts a short line before the text, with the targets from the last to the first where `reversed`.
    #[inline(always)]
    pub(crate) fn put_line<'a>(
        &mut self,
        names: &Names<A>,
        text: &LineText<'a>,
        targets: &[u32],
        reversed: bool,
    )
        requires room { SHORT_LINE ≤ self.old.room }
        requires short { length text.now ≤ SHORT_TEXT }
        requires few { length targets.now ≤ SHORT_TARGETS }
        requires targets { All (λ target. target < names.now.targets) targets.now }
        ensures { self.new.text
            ≡ line_text names.now.detectors
            (record { text = text.now; targets = reversed_where reversed targets.now })
            ++ self.old.text }
    {
        let bytes = self.bytes.as_mut_slice();
        let at = text_before(bytes, self.start, b"\n");
        let at = names.either_before(bytes, at, targets, reversed);
        self.start = text.head_before(bytes, at);
    }
}
