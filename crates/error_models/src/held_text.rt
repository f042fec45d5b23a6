//! The text of error lines, taken out of where they are put.
ghost use Rattle.std.specs.Prelude.{◌≡◌};
ghost use Rattle.error_models.specs.HeldText.{text_in, texts_of};
ghost use Rattle.step_model.specs.Pushed.{Pushes};

use crate::text_block::TextBlock;
use std::alloc::Allocator;
use std::marker::Model;
use step_model::{Pieces, Sink};

/// Text that was taken out of a `LinesText`, in its blocks.
pub struct HeldText<A: Allocator + Copy> {
    // The blocks that are full, in the order in which they were filled: the last part of the text first.
    full: Vec<TextBlock<A>, A>,
    block: TextBlock<A>,
}

impl<A: Allocator + Copy> Model for HeldText<A> {
    ghost use Rattle.std.specs.Prelude.{List, ℕ};
    ghost use Rattle.error_models.specs.HeldText.{text_in};

    ghost Value = { List ℕ };

    ghost view = { λ t. text_in t.block t.full.items };
}

// Written out, so that it is a call in the proof of each function that owns one.
impl<A: Allocator + Copy> Drop for HeldText<A> {
    fn drop(self) {
        let HeldText { full, block } = self;
        drop(full);
        drop(block);
    }
}

impl<A: Allocator + Copy> HeldText<A> {
    pub(crate) fn new(full: Vec<TextBlock<A>, A>, block: TextBlock<A>) -> Self
        ensures { result ≡ text_in block full.items }
    {
        HeldText { full, block }
    }

    /// Pushes the text, block by block.
    pub fn push_to<W: Sink>(&self, out: &mut Pieces, sink: &mut W)
        ensures { Pushes W.taken W.failures sink.old sink.new out.old out.new self.now }
    {
        push_blocks(out, sink, self.full.as_slice(), &self.block);
    }

    /// The blocks, in a list that had room for the last of them too, or without it.
    pub(crate) fn into_blocks(self) -> Vec<TextBlock<A>, A> {
        let HeldText { mut full, block } = self;
        if full.len() < full.capacity() {
            full.push_reserved(block);
        }
        full
    }
}

// Pushes the text of a block, and then those of the blocks that were filled before it, that of the last first.
fn push_blocks<W: Sink, A: Allocator + Copy>(
    out: &mut Pieces,
    sink: &mut W,
    full: &[TextBlock<A>],
    block: &TextBlock<A>,
)
    ensures { Pushes W.taken W.failures sink.old sink.new out.old out.new
        (text_in block.now full.now) }
{
    out.push(sink, block.text());
    push_full(out, sink, full);
}

fn push_full<W: Sink, A: Allocator + Copy>(out: &mut Pieces, sink: &mut W, full: &[TextBlock<A>])
    ensures { Pushes W.taken W.failures sink.old sink.new out.old out.new (texts_of full.now) }
{
    let mut left = full.len();
    while left > 0 {
        left -= 1;
        out.push(sink, full[left].text());
    }
}
