//! The way to the next chosen instruction, over the starts and ends of blocks and the other
//! instructions.

ghost use Rattle.std.specs.Prelude.{◌≡◌, ◌<◌, ◌≤◌, ◌+◌, ◌^◌, ◌-◌, ◌∷◌, ◌++◌, [], ℕ, Some, false, true, length, slice_get, take};
ghost use Rattle.stim_lexer.specs.Trees.{BlockStart, BlockEnd};
ghost use Rattle.cursor.specs.Places.{AreNested, IsPlace, levels_of};
ghost use Rattle.cursor.specs.private.Forward.{IsPassing, Passes, GoesTo};
ghost use Rattle.cursor.specs.private.Marks.{IsChosen, IsOther};

use crate::choice::Choice;
use crate::cursor::{Cursor, Level};
use crate::marks::{Mark, mark_at};
use arrayvec::ArrayVec;
use std::alloc::Allocator;
use stim_lexer::{Items, LEVELS};

impl Cursor {
    // Goes into the first iteration of the block that starts here.
    fn enter<C: Choice<O>, O: Copy, T: Copy, A: Allocator + Copy>(
        &mut self,
        items: &Items<'_, O, T, A>,
        iterations: u64,
        fresh: usize,
    ) -> usize
        requires nested { AreNested items.now.items }
        requires passing { IsPassing (λ i. C.chosen i.operation) items.now.items
            self.old.index (levels_of self.old) fresh }
        requires start { (line : ℕ) × (slice_get items.now.items self.old.index
            ≡ Some (BlockStart line iterations)) }
        requires few { length items.now.items < 2 ^ 64 }
        ensures { Passes (λ i. C.chosen i.operation) items.now.items
            self.old fresh self.new result }
    {
        let body = self.index + 1;
        self.index = body;
        // Where the body ends isn't known yet: `leave` keeps it, before an iteration needs it.
        self.open.push(Level {
            body,
            end: body,
            left: iterations - 1,
        });
        fresh + 1
    }

    // Goes over the end of an iteration: into the next one, or out of the block behind its last.
    // Where no chosen instruction of it was passed, none of its iterations reaches one.
    fn leave<C: Choice<O>, O: Copy, T: Copy, A: Allocator + Copy>(
        &mut self,
        items: &Items<'_, O, T, A>,
        fresh: usize,
    ) -> usize
        requires nested { AreNested items.now.items }
        requires passing { IsPassing (λ i. C.chosen i.operation) items.now.items
            self.old.index (levels_of self.old) fresh }
        requires end { slice_get items.now.items self.old.index ≡ Some BlockEnd }
        requires few { length items.now.items < 2 ^ 64 }
        ensures { Passes (λ i. C.chosen i.operation) items.now.items
            self.old fresh self.new result }
    {
        let last = self.open.len() - 1;
        let level = self.open.as_slice()[last];
        if fresh > 0 {
            self.go_out();
            return fresh - 1;
        }
        if level.left == 0 {
            self.go_out();
            return 0;
        }
        let end = self.index;
        self.index = level.body;
        put_last(
            &mut self.open,
            Level {
                body: level.body,
                end,
                left: level.left - 1,
            },
        );
        1
    }

    // Goes behind the end of the innermost block, which is here.
    #[inline(always)]
    fn go_out(&mut self)
        requires { self.old.index + 1 < 2 ^ 64 }
        ensures index { self.new.index ≡ self.old.index + 1 }
        ensures rest { self.new.open.items
            ≡ take (length self.old.open.items - 1) self.old.open.items }
    {
        let _level = self.open.pop();
        self.index += 1;
    }

    // Goes over an instruction that isn't chosen, and over those behind it. The place is kept apart on the way, so that the
    // cursor is written once.
    #[inline(always)]
    fn pass_others<C: Choice<O>, O: Copy, T: Copy, A: Allocator + Copy>(
        &mut self,
        items: &Items<'_, O, T, A>,
        fresh: usize,
    )
        requires passing { IsPassing (λ i. C.chosen i.operation) items.now.items
            self.old.index (levels_of self.old) fresh }
        requires other { IsOther (λ i. C.chosen i.operation)
            (slice_get items.now.items self.old.index) }
        requires few { length items.now.items < 2 ^ 64 }
        ensures { Passes (λ i. C.chosen i.operation) items.now.items
            self.old fresh self.new fresh }
    {
        let count = items.len();
        let mut index = self.index + 1;
        while index < count && is_other::<C, O, T, A>(items, index) {
            index += 1;
        }
        self.index = index;
    }

    /// Goes to the next chosen instruction, or to the end. Answers whether one is there.
    pub(crate) fn go_to_instruction<C: Choice<O>, O: Copy, T: Copy, A: Allocator + Copy>(
        &mut self,
        items: &Items<'_, O, T, A>,
    ) -> bool
        requires nested { AreNested items.now.items }
        requires place { IsPlace items.now.items self.old.index (levels_of self.old) }
        ensures moved { GoesTo (λ i. C.chosen i.operation) items.now.items self.old self.new }
        ensures found { result ≡ true →
            IsChosen (λ i. C.chosen i.operation) (slice_get items.now.items self.new.index) }
        ensures few { result ≡ true → length items.now.items < 2 ^ 64 }
        ensures end { result ≡ false → length items.now.items ≤ self.new.index }
    {
        let count = items.len();
        // How many of the innermost blocks were entered since, and none of their chosen instructions
        // was passed.
        let mut fresh = 0;
        while self.index < count {
            match mark_at(items, self.index) {
                Mark::Does(operation) => {
                    if C::is_chosen(operation) {
                        return true;
                    }
                    self.pass_others::<C, O, T, A>(items, fresh);
                }
                Mark::Start { iterations } => {
                    fresh = self.enter::<C, O, T, A>(items, iterations, fresh);
                }
                Mark::End => fresh = self.leave::<C, O, T, A>(items, fresh),
            }
        }
        false
    }
}

// Puts a level in place of the innermost one.
#[inline(always)]
fn put_last(levels: &mut ArrayVec<Level, LEVELS>, level: Level)
    requires { 0 < length levels.old.items }
    ensures { levels.new.items
        ≡ take (length levels.old.items - 1) levels.old.items ++ level ∷ [] }
{
    let last = levels.len() - 1;
    levels.as_mut_slice()[last] = level;
}

// Whether an instruction stands at a place that isn't chosen.
#[inline(always)]
fn is_other<C: Choice<O>, O: Copy, T: Copy, A: Allocator + Copy>(
    items: &Items<'_, O, T, A>,
    i: usize,
) -> bool
    requires { i < length items.now.items }
    ensures { result ≡ true → IsOther (λ x. C.chosen x.operation) (slice_get items.now.items i) }
{
    match mark_at(items, i) {
        Mark::Does(operation) => !C::is_chosen(operation),
        _ => false,
    }
}
