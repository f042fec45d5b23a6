//! Text that grows at its beginning, by blocks that are filled from their ends: those that are full.
ghost use Rattle.std.specs.Prelude.{◌≡◌, ◌<◌, ◌≤◌, ◌++◌, [], length, min, IfOk, OnOk, vec_capacity, vec_len};
ghost use Rattle.error_models.specs.HeldText.{no_text, texts_of};

use crate::held_text::HeldText;
use crate::short_lines::SHORT_LINE;
use crate::text_block::TextBlock;
use std::alloc::{AllocError, Allocator};
use std::marker::Model;
use std::mem;

/// The blocks of 64 KiB that are full, of a text that begins in the block that is being filled. In contracts, their text.
#[derive(Drop)]
pub(crate) struct TextBlocks<A: Allocator + Copy> {
    alloc: A,
    // In the order in which they were filled: the last part of the text first.
    full: Vec<TextBlock<A>, A>,
    full_len: usize,
    // Blocks of texts that were written, to be filled again.
    spare: Vec<TextBlock<A>, A>,
}

impl<A: Allocator + Copy> Model for TextBlocks<A> {
    ghost use Rattle.std.specs.Prelude.{◌≡◌, ◌-◌, ◌^◌, ℕ, List, length, min};
    ghost use Rattle.error_models.specs.HeldText.{texts_of};

    ghost Value = { List ℕ };

    ghost view = { λ t. texts_of t.full.items };

    ghost invariant = { λ t. t.full_len ≡ min (length (texts_of t.full.items)) (2 ^ 64 - 1) };
}

impl<A: Allocator + Copy> TextBlocks<A> {
    /// No blocks. Takes no memory.
    pub(crate) fn new(alloc: A) -> Self
        ensures { result ≡ [] }
    {
        TextBlocks {
            alloc,
            full: Vec::new(alloc),
            full_len: 0,
            spare: Vec::new(alloc),
        }
    }

    /// How many bytes the text has, at most the greatest number.
    pub(crate) fn len(&self, block: &TextBlock<A>) -> usize
        ensures { result ≡ min (length (block.now.text ++ self.now)) usize.MAX }
    {
        self.full_len.saturating_add(block.len())
    }

    /// Makes room for a short line, where there isn't any.
    #[inline(always)]
    pub(crate) fn make_room(&mut self, block: &mut TextBlock<A>) -> Result<(), AllocError>
        ensures room { OnOk result (SHORT_LINE ≤ block.new.room) }
        ensures same { block.new.text ++ self.new ≡ block.old.text ++ self.old }
    {
        if block.room() >= SHORT_LINE {
            return Ok(());
        }
        self.next_block(block)
    }

    #[inline(never)]
    fn next_block(&mut self, block: &mut TextBlock<A>) -> Result<(), AllocError>
        ensures room { OnOk result (SHORT_LINE ≤ block.new.room) }
        ensures same { block.new.text ++ self.new ≡ block.old.text ++ self.old }
    {
        // Room for the next block too, so that the list can hold all blocks of the text.
        self.full.reserve(2)?;
        let next = empty_block(self.alloc, &mut self.spare)?;
        let before = mem::replace(block, next);
        keep_full(&mut self.full, &mut self.full_len, before);
        Ok(())
    }

    /// Takes the text out. Takes no memory.
    pub(crate) fn take(&mut self, block: &mut TextBlock<A>) -> HeldText<A>
        ensures text { result ≡ block.old.text ++ self.old }
        ensures block { block.new ≡ no_text 0 }
        ensures left { self.new ≡ [] }
    {
        let full = mem::replace(&mut self.full, Vec::new(self.alloc));
        let block = mem::replace(block, TextBlock::none(self.alloc));
        self.full_len = 0;
        HeldText::new(full, block)
    }

    /// Keeps the blocks of a text, to be filled again. Takes no memory: blocks that the list of them has no room for are
    /// dropped.
    pub(crate) fn reuse(&mut self, held: HeldText<A>)
        ensures { self.new ≡ self.old }
    {
        keep_blocks(&mut self.spare, held.into_blocks());
    }
}

// Keeps a block behind those that are full, and counts its text, if it has any.
fn keep_full<A: Allocator + Copy>(
    full: &mut Vec<TextBlock<A>, A>,
    full_len: &mut usize,
    block: TextBlock<A>,
)
    requires room { vec_len full.old < vec_capacity full.old }
    requires counted { full_len.old ≡ min (length (texts_of full.old.items)) usize.MAX }
    ensures counted { full_len.new ≡ min (length (texts_of full.new.items)) usize.MAX }
    ensures texts { texts_of full.new.items ≡ block.text ++ texts_of full.old.items }
{
    let len = block.len();
    if len == 0 {
        return;
    }
    *full_len = full_len.saturating_add(len);
    full.push_reserved(block);
}

// A spare block, or a new one.
fn empty_block<A: Allocator + Copy>(
    alloc: A,
    spare: &mut Vec<TextBlock<A>, A>,
) -> Result<TextBlock<A>, AllocError>
    ensures empty { IfOk result (λ block. block.text ≡ []) }
    ensures room { IfOk result (λ block. SHORT_LINE ≤ block.room) }
{
    if let Some(mut block) = spare.pop() {
        block.clear();
        if block.room() >= SHORT_LINE {
            return Ok(block);
        }
    }
    TextBlock::new(alloc)
}

// Keeps as many blocks as the longer of two lists has room for.
fn keep_blocks<A: Allocator + Copy>(kept: &mut Vec<TextBlock<A>, A>, mut more: Vec<TextBlock<A>, A>)
    ensures { vec_len kept.old ≤ vec_len kept.new }
{
    if more.capacity() > kept.capacity() {
        mem::swap(kept, &mut more);
    }
    while kept.len() < kept.capacity() {
        let Some(block) = more.pop() else {
            return;
        };
        kept.push_reserved(block);
    }
}
