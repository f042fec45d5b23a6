ghost use Rattle.std.specs.Prelude.{◌≡◌, ◌<◌, ◌==◌, Some, length, option_map, slice_get};
ghost use Rattle.stim_lexer.specs.Fitting.{IsBuilt, IsWritten};
ghost use Rattle.stim_lexer.specs.Kept.{item_in};
ghost use Rattle.stim_lexer.specs.Trees.{items_of};
ghost use Rattle.stim_parser.specs.Probabilities.{Keeps};

use crate::table::Judge;
use std::alloc::Allocator;
use std::marker::{Model, PhantomData};
use step_model::ChanceText;
use stim_lexer::{Item, Items};

/// The items of a text, and the texts of their probabilities. The mark of an instruction that has a probability is the
/// number of that among the texts, unless there are more than 2^32 of them.
#[derive(Drop)]
pub struct Numbered<'a, O: Copy, T: Copy, A: Allocator + Copy> {
    pub items: Items<'a, O, T, A>,
    pub texts: Vec<ChanceText<'a>, A>,
}

/// What a text writes that its judge accepts: its blocks stand among its instructions.
pub struct JudgedText<'a, O: Copy, T: Copy, F: Copy, J: Judge<O, T, F>, A: Allocator + Copy> {
    read: Numbered<'a, O, T, A>,
    judge: PhantomData<(F, J)>,
}

impl<'a, O: Copy, T: Copy, F: Copy, J: Judge<O, T, F>, A: Allocator + Copy> Model
    for JudgedText<'a, O, T, F, J, A> {
    ghost use Rattle.stim_lexer.specs.Flat.{tree_of};
    ghost use Rattle.stim_lexer.specs.Fitting.{IsWritten};
    ghost use Rattle.stim_lexer.specs.Stored.{coded_tree, coded_instruction};
    ghost use Rattle.stim_lexer.specs.Instructions.{Instruction};
    ghost use Rattle.stim_lexer.specs.Trees.{Tree};

    ghost Value = { Tree (Instruction O T) };

    ghost coded = { coded_tree (coded_instruction O.code T.code) };

    ghost use Rattle.stim_parser.specs.Probabilities.{Keeps};

    ghost view = { λ t. tree_of t.read.items.items };

    ghost invariant = { λ t. (IsWritten J.Fits t.read.items.items) × Keeps J.table t.read.texts.items t.read.items };
}

// Written out, so that it is a call in the proof of each function that owns one.
impl<O: Copy, T: Copy, F: Copy, J: Judge<O, T, F>, A: Allocator + Copy> Drop
    for JudgedText<'_, O, T, F, J, A> {
    fn drop(self) {
        let JudgedText { read, judge: _ } = self;
        drop(read);
    }
}

impl<'a, O: Copy, T: Copy, F: Copy, J: Judge<O, T, F>, A: Allocator + Copy> JudgedText<
    'a,
    O,
    T,
    F,
    J,
    A,
> {
    /// The text of these items.
    pub(crate) fn new(read: Numbered<'a, O, T, A>) -> Self
        requires written { IsWritten J.Fits read.items.items }
        requires kept { Keeps J.table read.texts.items read.items }
        ensures { items_of result ≡ read.entry.items.items }
    {
        JudgedText {
            read,
            judge: PhantomData,
        }
    }

    /// How many items there are, the ends of blocks too.
    #[inline(always)]
    pub fn len(&self) -> usize
        ensures { result ≡ length (items_of self.now) }
    {
        self.read.items.len()
    }

    /// Whether there is no item.
    pub fn is_empty(&self) -> bool
        ensures { result ≡ (length (items_of self.now) == 0) }
    {
        self.len() == 0
    }

    /// The item at a place.
    #[inline(always)]
    pub fn item(&self, i: usize) -> Item<'_, 'a, O, T>
        requires { i < length (items_of self.now) }
        ensures { Some (item_in result) ≡ slice_get (items_of self.now) i }
    {
        self.read.items.get(i)
    }

    /// The item at a place, where there is one.
    #[inline(always)]
    pub fn get(&self, place: usize) -> Option<Item<'_, 'a, O, T>>
        ensures { option_map item_in result ≡ slice_get (items_of self.now) place }
    {
        if place < self.len() {
            Some(self.item(place))
        } else {
            None
        }
    }

    /// Does nothing. Its contract says that each instruction has the arguments and targets that its operation takes, that
    /// each block has a turn and not too many, and that blocks are not nested too deep.
    #[inline(always)]
    pub fn fits(&self)
        ensures { IsBuilt J.Fits self.now }
    {
        // The proof looks inside.
        let _read = &self.read;
    }
    /// Its items, and the texts of their probabilities.
    pub fn numbered(self) -> Numbered<'a, O, T, A>
        ensures items { result.items.items ≡ items_of self.entry }
        ensures kept { Keeps J.table result.texts.items result.items }
        ensures fits { IsBuilt J.Fits self.entry }
    {
        let JudgedText { read, judge: _ } = self;
        read
    }
}
