//! The way back to the chosen instruction before, over the ends and starts of blocks and the other
//! instructions.

ghost use Rattle.std.specs.Prelude.{◌≡◌, ◌<◌, ◌-◌, ◌^◌, ℕ, Some, false, true, length, slice_get};
ghost use Rattle.stim_lexer.specs.Trees.{BlockStart, BlockEnd};
ghost use Rattle.cursor.specs.Places.{AreNested, IsPlace, levels_of};
ghost use Rattle.cursor.specs.private.Backward.{IsReturning, PassesBack};
ghost use Rattle.cursor.specs.private.Forward.{GoesTo};
ghost use Rattle.cursor.specs.private.Marks.{IsChosen};

use crate::blocks::body_before;
use crate::choice::Choice;
use crate::cursor::{Cursor, Level};
use crate::marks::{Mark, mark_at};
use std::alloc::Allocator;
use stim_lexer::Items;

impl Cursor {
    // Goes into the last iteration of the block that ends before here.
    fn enter_behind<C: Choice<O>, O: Copy, T: Copy, A: Allocator + Copy>(
        &mut self,
        items: &Items<'_, O, T, A>,
        fresh: usize,
    ) -> usize
        requires nested { AreNested items.now.items }
        requires returning { IsReturning (λ i. C.chosen i.operation) items.now.items
            self.old.index (levels_of self.old) fresh }
        requires end { slice_get items.now.items (self.old.index - 1) ≡ Some BlockEnd }
        requires inside { 0 < self.old.index }
        ensures { PassesBack (λ i. C.chosen i.operation) items.now.items
            self.old fresh self.new result }
    {
        let end = self.index - 1;
        self.index = end;
        let body = body_before(items, end);
        self.open.push(Level { body, end, left: 0 });
        fresh + 1
    }

    // Goes back over the start of an iteration: into the one before, or out of the block before its
    // first. Where no chosen instruction of it was passed, none of its iterations reaches one.
    fn leave_before<C: Choice<O>, O: Copy, T: Copy, A: Allocator + Copy>(
        &mut self,
        items: &Items<'_, O, T, A>,
        iterations: u64,
        fresh: usize,
    ) -> usize
        requires nested { AreNested items.now.items }
        requires returning { IsReturning (λ i. C.chosen i.operation) items.now.items
            self.old.index (levels_of self.old) fresh }
        requires start { (line : ℕ) × (slice_get items.now.items (self.old.index - 1)
            ≡ Some (BlockStart line iterations)) }
        requires inside { 0 < self.old.index }
        ensures { PassesBack (λ i. C.chosen i.operation) items.now.items
            self.old fresh self.new result }
    {
        let level = self.open.pop().unwrap();
        if fresh > 0 {
            self.index -= 1;
            return fresh - 1;
        }
        let left = level.left + 1;
        if left == iterations {
            self.index -= 1;
            return 0;
        }
        self.index = level.end;
        self.open.push(Level {
            body: level.body,
            end: level.end,
            left,
        });
        1
    }

    /// Goes back to behind the chosen instruction before, or to the start. Answers whether one is
    /// there.
    pub(crate) fn go_back_to_instruction<C: Choice<O>, O: Copy, T: Copy, A: Allocator + Copy>(
        &mut self,
        items: &Items<'_, O, T, A>,
    ) -> bool
        requires nested { AreNested items.now.items }
        requires place { IsPlace items.now.items self.old.index (levels_of self.old) }
        ensures moved { GoesTo (λ i. C.chosen i.operation) items.now.items self.old self.new }
        ensures found { result ≡ true →
            IsChosen (λ i. C.chosen i.operation) (slice_get items.now.items (self.new.index - 1)) }
        ensures inside { result ≡ true → 0 < self.new.index }
        ensures start { result ≡ false → self.new.index ≡ 0 }
    {
        // How many of the innermost blocks were entered since, and none of their chosen instructions
        // was passed.
        let mut fresh = 0;
        while self.index > 0 {
            match mark_at(items, self.index - 1) {
                Mark::Does(operation) => {
                    if C::is_chosen(operation) {
                        return true;
                    }
                    self.index -= 1;
                }
                Mark::End => fresh = self.enter_behind::<C, O, T, A>(items, fresh),
                Mark::Start { iterations } => {
                    fresh = self.leave_before::<C, O, T, A>(items, iterations, fresh);
                }
            }
        }
        false
    }
}
