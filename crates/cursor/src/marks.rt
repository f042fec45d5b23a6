//! What kind of item stands at a place.

ghost use Rattle.std.specs.Prelude.{◌<◌, length, slice_get};
ghost use Rattle.cursor.specs.private.Marks.{IsMark};

use std::alloc::Allocator;
use stim_lexer::{Item, Items};

/// An instruction, or the start or the end of a block.
#[derive(Clone, Copy)]
pub(crate) enum Mark<O: Copy> {
    /// What the instruction does.
    Does(O),
    Start { iterations: u64 },
    End,
}

/// The kind of the item at a place.
#[inline(always)]
pub(crate) fn mark_at<O: Copy, T: Copy, A: Allocator + Copy>(
    items: &Items<'_, O, T, A>,
    i: usize,
) -> Mark<O>
    requires { i < length items.now.items }
    ensures { IsMark (slice_get items.now.items i) result }
{
    match items.get(i) {
        Item::InstructionLine(instruction) => Mark::Does(instruction.operation),
        Item::BlockStart { turns, .. } => Mark::Start { iterations: turns },
        Item::BlockEnd => Mark::End,
    }
}
