//! The text of error lines that are found from the last to the first.
ghost use Rattle.std.specs.Prelude.{◌≡◌, ◌<◌, ◌≤◌, ◌+◌, ◌++◌, [], All, length, min, reverse, IfOk, OnOk};
ghost use Rattle.error_models.specs.ErrorLines.{text_at, KeepsTexts};
ghost use Rattle.error_models.specs.HeldText.{EndsIn, most_named};
ghost use Rattle.error_models.specs.ModelText.{line_text, targets_text};
ghost use Rattle.error_models.specs.private.TargetNames.{reversed_where};

use crate::held_text::HeldText;
use crate::line_text::LineText;
use crate::names::Names;
use crate::short_lines::{SHORT_LINE, SHORT_TARGETS, SHORT_TEXT};
use crate::text_block::TextBlock;
use crate::text_blocks::TextBlocks;
use crate::texts::number_of;
use std::alloc::{AllocError, Allocator};
use std::marker::Model;

/// The text of error lines, each put before those that were there. So a pass that finds the last line first can write
/// each when it finds it. The text grows by blocks of 64 KiB, and what was written isn't moved. The texts of targets
/// are made once, and that of a probability when it is kept, so a line is made of copies.
pub struct LinesText<'a, A: Allocator + Copy> {
    names: Names<A>,
    texts: Vec<LineText<'a>, A>,
    // The block that is being filled, where the text begins, and those that are full.
    block: TextBlock<A>,
    full: TextBlocks<A>,
}

impl<'a, A: Allocator + Copy> Model for LinesText<'a, A> {
    ghost use Rattle.std.specs.Prelude.{◌++◌};
    ghost use Rattle.error_models.specs.HeldText.{Held};

    ghost Value = { Held };

    ghost view = { λ t. record {
      detectors = t.names.detectors;
      targets = t.names.targets;
      texts = t.texts.items;
      text = t.block.text ++ t.full;
    } };
}

// Written out, so that it is a call in the proof of each function that owns one.
impl<A: Allocator + Copy> Drop for LinesText<'_, A> {
    fn drop(self) {
        let LinesText {
            names,
            texts,
            block,
            full,
        } = self;
        drop(names);
        drop(texts);
        drop(block);
        drop(full);
    }
}

impl<'a, A: Allocator + Copy> LinesText<'a, A> {
    /// No text yet, of lines whose targets are this many, the first of them detectors. (With these bounds the number of
    /// a detector or an observable has at most six digits.)
    pub fn new(alloc: A, detectors: usize, targets: usize) -> Result<Self, AllocError>
        requires few_detectors { detectors ≤ most_named }
        requires few { targets ≤ detectors + most_named }
        ensures { IfOk result (λ lines. lines
            ≡ record { detectors = detectors; targets = targets; texts = []; text = [] }) }
    {
        Ok(LinesText {
            names: Names::new(alloc, detectors, targets)?,
            texts: Vec::new(alloc),
            block: TextBlock::none(alloc),
            full: TextBlocks::new(alloc),
        })
    }

    /// Keeps a probability's text, and answers its number. It fails only where memory runs out.
    pub fn keep_text(&mut self, text: &'a [u8]) -> Result<usize, AllocError>
        ensures within { IfOk result (λ number. number < length self.new.texts) }
        ensures named { IfOk result (λ number. text_at self.new.texts number ≡ text.now) }

        // After an error too.
        ensures kept { KeepsTexts self.old.texts self.new.texts }
        ensures detectors { self.new.detectors ≡ self.old.detectors }
        ensures targets { self.new.targets ≡ self.old.targets }
        ensures text { self.new.text ≡ self.old.text }
    {
        number_of(&mut self.texts, text)
    }

    /// Puts a line, with the kept probability text of this number, before those that were there. It fails only where
    /// memory runs out. Those lines are then still there, and before them the end of the line, or none of it.
    pub fn put_line(&mut self, number: usize, targets: &[u32]) -> Result<(), AllocError>
        requires number { number < length self.old.texts }
        requires targets { All (λ target. target < self.old.targets) targets.now }
        ensures ok { OnOk result
            (self.new.text
            ≡ line_text self.old.detectors
            (record { text = text_at self.old.texts number; targets = targets.now })
            ++ self.old.text) }
        ensures kept { EndsIn self.old.text self.new.text }
        ensures detectors { self.new.detectors ≡ self.old.detectors }
        ensures targets { self.new.targets ≡ self.old.targets }
        ensures texts { self.new.texts ≡ self.old.texts }
    {
        self.put_either_line(number, targets, false)
    }

    /// Puts a line as `put_line` does, whose targets come from the last to the first.
    pub fn put_line_reversed(&mut self, number: usize, targets: &[u32]) -> Result<(), AllocError>
        requires number { number < length self.old.texts }
        requires targets { All (λ target. target < self.old.targets) targets.now }
        ensures ok { OnOk result
            (self.new.text
            ≡ line_text self.old.detectors
            (record { text = text_at self.old.texts number; targets = reverse targets.now })
            ++ self.old.text) }
        ensures kept { EndsIn self.old.text self.new.text }
        ensures detectors { self.new.detectors ≡ self.old.detectors }
        ensures targets { self.new.targets ≡ self.old.targets }
        ensures texts { self.new.texts ≡ self.old.texts }
    {
        self.put_either_line(number, targets, true)
    }

    // Puts a line, whose targets come from the last to the first where `reversed`.
    #[inline(always)]
    fn put_either_line(
        &mut self,
        number: usize,
        targets: &[u32],
        reversed: bool,
    ) -> Result<(), AllocError>
        requires number { number < length self.old.texts }
        requires targets { All (λ target. target < self.old.targets) targets.now }
        ensures ok { OnOk result
            (self.new.text
            ≡ line_text self.old.detectors
            (record {
              text = text_at self.old.texts number;
              targets = reversed_where reversed targets.now;
            })
            ++ self.old.text) }
        ensures kept { EndsIn self.old.text self.new.text }
        ensures detectors { self.new.detectors ≡ self.old.detectors }
        ensures targets { self.new.targets ≡ self.old.targets }
        ensures texts { self.new.texts ≡ self.old.texts }
    {
        let text = &self.texts[number];
        if text.text().len() > SHORT_TEXT || targets.len() > SHORT_TARGETS {
            let text = text.text();
            return self.put_long_line(text, targets, reversed);
        }
        self.full.make_room(&mut self.block)?;
        self.block.put_line(&self.names, text, targets, reversed);
        Ok(())
    }

    #[inline(never)]
    fn put_long_line(
        &mut self,
        text: &[u8],
        targets: &[u32],
        reversed: bool,
    ) -> Result<(), AllocError>
        requires { All (λ target. target < self.old.targets) targets.now }
        ensures ok { OnOk result
            (self.new.text
            ≡ line_text self.old.detectors
            (record { text = text.now; targets = reversed_where reversed targets.now })
            ++ self.old.text) }
        ensures kept { EndsIn self.old.text self.new.text }
        ensures detectors { self.new.detectors ≡ self.old.detectors }
        ensures targets { self.new.targets ≡ self.old.targets }
        ensures texts { self.new.texts ≡ self.old.texts }
    {
        self.put(b"\n")?;
        self.put_either_targets(targets, reversed)?;
        self.put(b")")?;
        self.put(text)?;
        self.put(b"error(")
    }

    // Puts bytes before the text.
    fn put(&mut self, bytes: &[u8]) -> Result<(), AllocError>
        ensures ok { OnOk result (self.new.text ≡ bytes.now ++ self.old.text) }
        ensures kept { EndsIn self.old.text self.new.text }
        ensures detectors { self.new.detectors ≡ self.old.detectors }
        ensures targets { self.new.targets ≡ self.old.targets }
        ensures texts { self.new.texts ≡ self.old.texts }
    {
        let mut left = bytes.len();
        while left > 0 {
            let from = left.saturating_sub(SHORT_LINE);
            self.full.make_room(&mut self.block)?;
            self.block.put(&bytes[from..left]);
            left = from;
        }
        Ok(())
    }

    // Puts the text of targets before the text.
    fn put_targets(&mut self, targets: &[u32]) -> Result<(), AllocError>
        requires { All (λ target. target < self.old.targets) targets.now }
        ensures ok { OnOk result
            (self.new.text ≡ targets_text self.old.detectors targets.now ++ self.old.text) }
        ensures kept { EndsIn self.old.text self.new.text }
        ensures detectors { self.new.detectors ≡ self.old.detectors }
        ensures targets { self.new.targets ≡ self.old.targets }
        ensures texts { self.new.texts ≡ self.old.texts }
    {
        let mut left = targets.len();
        while left > 0 {
            let from = left.saturating_sub(SHORT_TARGETS);
            self.full.make_room(&mut self.block)?;
            self.block.put_targets(&self.names, &targets[from..left]);
            left = from;
        }
        Ok(())
    }

    // The same of targets that come from the last to the first, one after another: only long lines have them here.
    fn put_reversed(&mut self, targets: &[u32]) -> Result<(), AllocError>
        requires { All (λ target. target < self.old.targets) targets.now }
        ensures ok { OnOk result
            (self.new.text
            ≡ targets_text self.old.detectors (reverse targets.now) ++ self.old.text) }
        ensures kept { EndsIn self.old.text self.new.text }
        ensures detectors { self.new.detectors ≡ self.old.detectors }
        ensures targets { self.new.targets ≡ self.old.targets }
        ensures texts { self.new.texts ≡ self.old.texts }
    {
        for target in targets {
            self.put_targets(&[*target])?;
        }
        Ok(())
    }

    // The same of targets that come from the last to the first where `reversed`.
    fn put_either_targets(&mut self, targets: &[u32], reversed: bool) -> Result<(), AllocError>
        requires { All (λ target. target < self.old.targets) targets.now }
        ensures ok { OnOk result
            (self.new.text
            ≡ targets_text self.old.detectors (reversed_where reversed targets.now)
            ++ self.old.text) }
        ensures kept { EndsIn self.old.text self.new.text }
        ensures detectors { self.new.detectors ≡ self.old.detectors }
        ensures targets { self.new.targets ≡ self.old.targets }
        ensures texts { self.new.texts ≡ self.old.texts }
    {
        if reversed {
            self.put_reversed(targets)
        } else {
            self.put_targets(targets)
        }
    }

    /// How many bytes the text has, at most the greatest number.
    pub fn len(&self) -> usize
        ensures { result ≡ min (length self.now.text) usize.MAX }
    {
        self.full.len(&self.block)
    }

    /// Takes the text out, so that it is written when those before it are. Takes no memory.
    pub fn take_text(&mut self) -> HeldText<A>
        ensures text { result ≡ self.old.text }
        ensures left { self.new ≡ record self.old { text = [] } }
    {
        self.full.take(&mut self.block)
    }

    /// Keeps the blocks of a text that was written, so that they are filled again before new ones are taken. Takes no
    /// memory.
    pub fn reuse(&mut self, held: HeldText<A>)
        ensures { self.new ≡ self.old }
    {
        self.full.reuse(held);
    }
}
