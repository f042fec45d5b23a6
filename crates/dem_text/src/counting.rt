//! How many lines blocks unroll to: each iteration counts 1, and so does each instruction in it.
ghost use Rattle.std.specs.Prelude.{◌≡◌, []};
ghost use Rattle.arrayvec.specs.ArrayVec.{array_vec_len};
ghost use Rattle.stim_lexer.specs.Kept.{item_in};
ghost use Rattle.stim_lexer.specs.Passes.{CanStand, Passes};
ghost use Rattle.dem_text.specs.Fitting.{Fits};
ghost use Rattle.dem_text.specs.private.Unrolled.{counting, counts_repeated, few_counted, nothing_counted, repeated_sum};

use crate::operation::Operation;
use crate::target::Target;
use arrayvec::ArrayVec;
use stim_lexer::{Item, LEVELS, OpenBlock};

/// How many lines blocks may unroll to.
pub(crate) const MOST_LINES: u64 = 4_000_000;

/// How many lines there are up to a place of a model's text, at the first iteration of the blocks that are open there.
#[derive(Clone, Copy, Default)]
pub(crate) struct Unrolled {
    /// All lines, blocks unrolled, as if everything stood in a block.
    pub inside: u128,
    /// The instructions that stand in no block, and so far those of the blocks that are still open.
    pub outside: u128,
}

/// The lines up to a place of a model's text, and the blocks that are open there.
#[derive(Drop)]
pub(crate) struct Counting {
    pub counts: Unrolled,
    pub blocks: ArrayVec<OpenBlock<Unrolled>, LEVELS>,
}

/// The count after all iterations of a block, from the counts before it and after its first iteration.
fn repeated_sum(iterations: u64, before: u128, after: u128) -> u128
    ensures { result ≡ repeated_sum iterations before after }
{
    let more = (iterations.saturating_sub(1) as u128).saturating_mul(after.saturating_sub(before));
    after.saturating_add(more)
}

impl Unrolled {
    /// The counts after all iterations of a block, from those before it and these, which are those after its first iteration.
    fn repeated(self, iterations: u64, before: Unrolled) -> Unrolled
        ensures { result ≡ counts_repeated iterations before self }
    {
        Unrolled {
            inside: repeated_sum(iterations, before.inside, self.inside.saturating_add(1)),
            outside: before.outside,
        }
    }

    /// How many lines the blocks unroll to, up to one more than they may.
    pub(crate) fn in_blocks(self) -> u64
        ensures { result ≡ few_counted self }
    {
        (self.inside.saturating_sub(self.outside)).min(MOST_LINES as u128 + 1) as u64
    }
}

impl Counting {
    /// Before the first place.
    pub(crate) fn new() -> Self
        ensures counts { result.counts ≡ nothing_counted }
        ensures blocks { result.blocks.items ≡ [] }
    {
        Counting {
            counts: Unrolled {
                inside: 0,
                outside: 0,
            },
            blocks: ArrayVec::new(),
        }
    }

    /// Goes past what stands at a place.
    pub(crate) fn pass(&mut self, item: Item<'_, '_, Operation, Target>)
        requires { CanStand Fits (item_in item)
            (array_vec_len self.old.blocks) }
        ensures { Passes counting (item_in item.entry) self.old.counts
            self.old.blocks.items self.new.counts self.new.blocks.items }
    {
        match item {
            Item::InstructionLine(_) => {
                self.counts.inside = self.counts.inside.saturating_add(1);
                self.counts.outside = self.counts.outside.saturating_add(1);
            }
            Item::BlockStart { turns, .. } => self.blocks.push(OpenBlock {
                turns,
                before: self.counts,
            }),
            Item::BlockEnd => {
                let block = self.blocks.pop().unwrap();
                self.counts = self.counts.repeated(block.turns, block.before);
            }
        }
    }
}
