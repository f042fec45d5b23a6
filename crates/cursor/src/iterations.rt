//! Moves over whole iterations of an outermost block.

ghost use Rattle.std.specs.Prelude.{◌≡◌, ◌+◌, ◌<◌, ◌≤◌, ◌^◌, IfSome, None, Some, [], ◌∷◌, true, slice_get};
ghost use Rattle.cursor.specs.Iterations.{GoesBackBy};
ghost use Rattle.cursor.specs.Places.{IsPlace, StandsIn, levels_of};
ghost use Rattle.cursor.specs.declared.cursor.Level.{Level as LevelOf};
ghost use Rattle.cursor.specs.private.Iterations.{IsIteration, IsIterationBefore, further_back};
ghost use Rattle.cursor.specs.private.Marks.{IsChosen};

use crate::choice::Choice;
use crate::cursor::{Cursor, Level};
use crate::marks::{Mark, mark_at};
use std::alloc::Allocator;
use stim_lexer::Items;

/// Whether a chosen instruction stands at a place.
#[inline(always)]
pub(crate) fn is_chosen_at<C: Choice<O>, O: Copy, T: Copy, A: Allocator + Copy>(
    items: &Items<'_, O, T, A>,
    i: usize,
) -> bool
    ensures { result ≡ true → IsChosen (λ i. C.chosen i.operation) (slice_get items.now.items i) }
{
    if i >= items.len() {
        return false;
    }
    match mark_at(items, i) {
        Mark::Does(operation) => C::is_chosen(operation),
        _ => false,
    }
}

impl Cursor {
    // The block that is open, where one is and no other.
    fn only_level(&self) -> Option<Level>
        ensures { IfSome result (λ level. self.now.open.items ≡ level ∷ []) }
    {
        match self.open.as_slice() {
            [level] => Some(*level),
            _ => None,
        }
    }

    /// How many iterations of an outermost block are before the one that the place is in, where no other block is open.
    pub fn iteration<O: Copy, T: Copy, A: Allocator + Copy>(
        &self,
        items: &Items<'_, O, T, A>,
    ) -> Option<u64>
        requires { IsPlace items.now.items self.now.index (levels_of self.now) }
        ensures { IfSome result (IsIteration items.now.items self.now) }
    {
        let level = self.only_level()?;
        match mark_at(items, level.body - 1) {
            Mark::Start { iterations } => Some(iterations - 1 - level.left),
            _ => unreachable!(),
        }
    }

    /// The same, where `later` is the same place one iteration later, right before a chosen instruction.
    pub fn iterations_before<C: Choice<O>, O: Copy, T: Copy, A: Allocator + Copy>(
        &self,
        items: &Items<'_, O, T, A>,
        later: &Cursor,
    ) -> Option<u64>
        requires { IsPlace items.now.items self.now.index (levels_of self.now) }
        ensures { IfSome result (IsIterationBefore (λ i. C.chosen i.operation) items.now.items
            self.now later.now) }
    {
        if later.index != self.index {
            return None;
        }
        let level = self.only_level()?;
        let next = later.only_level()?;
        if next.body != level.body || next.left >= level.left || level.left - next.left != 1 {
            return None;
        }
        if !is_chosen_at::<C, O, T, A>(items, self.index) {
            return None;
        }
        Some(self.iteration(items)?)
    }

    // Goes so many iterations back in the block that alone is open.
    fn put_back(&mut self, count: u64)
        requires { (level : LevelOf) × (self.old.open.items ≡ level ∷ []) × (level.left + count < 2 ^ 64) }
        ensures index { self.new.index ≡ self.old.index }
        ensures open { (level : LevelOf) → self.old.open.items ≡ level ∷ []
            → self.new.open.items ≡ further_back level count ∷ [] }
    {
        let level = self.open.pop().unwrap();
        self.open.push(Level {
            body: level.body,
            end: level.end,
            left: level.left + count,
        });
    }

    /// Goes back over whole iterations of an outermost block, over `most` at most, where no other block is open and `later` is
    /// the same place one iteration later, right before a chosen instruction; answers over how many. None where it isn't: then
    /// the place stays.
    pub fn go_back_iterations<C: Choice<O>, O: Copy, T: Copy, A: Allocator + Copy>(
        &mut self,
        items: &Items<'_, O, T, A>,
        later: &Cursor,
        most: u64,
    ) -> Option<u64>
        requires here { StandsIn (λ i. C.chosen i.operation) items.now.items self.old }
        requires later { StandsIn (λ i. C.chosen i.operation) items.now.items later.now }
        ensures place { StandsIn (λ i. C.chosen i.operation) items.now.items self.new }
        ensures few { IfSome result (λ count. count ≤ most) }
        ensures back { IfSome result (GoesBackBy (λ i. C.chosen i.operation) items.now.items
            self.old later.now self.new) }
        ensures stays { result ≡ None → self.new ≡ self.old }
    {
        let before = self.iterations_before::<C, O, T, A>(items, later)?;
        let count = before.min(most);
        self.put_back(count);
        Some(count)
    }
}
