//! Where a block starts, from its end. It isn't kept, so the items between are counted through.

ghost use Rattle.std.specs.Prelude.{◌≡◌, ◌<◌, Some, length, slice_get};
ghost use Rattle.stim_lexer.specs.Trees.{BlockEnd};
ghost use Rattle.cursor.specs.Places.{AreNested, Spans};
ghost use Rattle.cursor.specs.private.Blocks.{IsStarted};

use crate::marks::{Mark, mark_at};
use std::alloc::Allocator;
use stim_lexer::Items;

/// Where the body starts that ends here.
pub(crate) fn body_before<O: Copy, T: Copy, A: Allocator + Copy>(
    items: &Items<'_, O, T, A>,
    end: usize,
) -> usize
    requires nested { AreNested items.now.items }
    requires end { slice_get items.now.items end ≡ Some BlockEnd }
    requires inside { end < length items.now.items }
    ensures spans { Spans items.now.items result end }
    ensures started { IsStarted items.now.items result }
{
    let mut body = end;
    let mut depth: usize = 1;
    while body > 0 {
        match mark_at(items, body - 1) {
            Mark::Does(_) => {}
            Mark::End => depth += 1,
            Mark::Start { .. } => {
                if depth == 1 {
                    return body;
                }
                depth -= 1;
            }
        }
        body -= 1;
    }
    unreachable!()
}
