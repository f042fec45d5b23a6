//! Lists that are made item by item, each where it will stand.
ghost use Rattle.std.specs.Prelude.{◌≡◌, [], ◌∷◌, ◌++◌, OnOk, OnErr};

use crate::FlatLists;
use std::alloc::{AllocError, Allocator};
use std::marker::Model;

/// Lists, and behind them the items of the next one, which isn't ended.
pub struct GrowingLists<T: Copy, A: Allocator + Copy> {
    items: Vec<T, A>,
    ends: Vec<usize, A>,
    // Where the last list ends and the next one starts.
    start: usize,
}

impl<T: Copy, A: Allocator + Copy> Model for GrowingLists<T, A> {
    ghost use Rattle.std.specs.Prelude.{◌≤◌, drop, length, take};
    ghost use Rattle.flat_lists.specs.Cuts.{cut, AreEnds};
    ghost use Rattle.flat_lists.specs.Growing.{Growing};

    ghost Value = { Growing T };

    ghost view = { λ g. record { lists = cut 0 g.ends.items (take g.start g.items.items); next = drop g.start g.items.items } };

    ghost invariant = { λ g. (AreEnds 0 g.ends.items g.start) × (g.start ≤ length g.items.items) };
}

// Written out, so that it is a call in the proof of each function that owns lists.
impl<T: Copy, A: Allocator + Copy> Drop for GrowingLists<T, A> {
    fn drop(self) {
        let GrowingLists {
            items,
            ends,
            start: _,
        } = self;
        drop(items);
        drop(ends);
    }
}

impl<T: Copy, A: Allocator + Copy> GrowingLists<T, A> {
    /// No lists, and no items. Allocates nothing.
    pub fn new(alloc: A) -> Self
        ensures { result ≡ record { lists = []; next = [] } }
    {
        GrowingLists {
            items: Vec::new(alloc),
            ends: Vec::new(alloc),
            start: 0,
        }
    }

    /// Takes the items of the next list out.
    #[inline(always)]
    pub fn clear(&mut self)
        ensures { self.new ≡ record { lists = self.old.lists; next = [] } }
    {
        self.items.truncate(self.start);
    }

    /// Appends an item to the next list. It fails only where memory runs out.
    #[inline(always)]
    pub fn push(&mut self, item: T) -> Result<(), AllocError>
        ensures ok { OnOk result
            (self.new ≡ record { lists = self.old.lists; next = self.old.next ++ item ∷ [] }) }
        ensures err { OnErr result (self.new ≡ self.old) }
    {
        self.items.push(item)?;
        Ok(())
    }

    /// Appends copies of items to the next list. It fails only where memory runs out.
    pub fn extend(&mut self, items: &[T]) -> Result<(), AllocError>
        ensures ok { OnOk result
            (self.new ≡ record { lists = self.old.lists; next = self.old.next ++ items.now }) }
        ensures err { OnErr result (self.new ≡ self.old) }
    {
        self.items.extend_from_slice(items)
    }

    /// The items of the next list.
    #[inline(always)]
    pub fn next_items(&self) -> &[T]
        ensures { result.now ≡ self.now.next }
    {
        &self.items[self.start..]
    }

    /// Ends the next list. It fails only where memory runs out.
    #[inline(always)]
    pub fn end(&mut self) -> Result<(), AllocError>
        ensures ok { OnOk result
            (self.new ≡ record { lists = self.old.lists ++ self.old.next ∷ []; next = [] }) }
        ensures err { OnErr result (self.new ≡ self.old) }
    {
        let end = self.items.len();
        self.ends.push(end)?;
        self.start = end;
        Ok(())
    }

    /// The lists that were ended.
    pub fn finish(self) -> FlatLists<T, A>
        ensures { result ≡ self.lists }
    {
        let GrowingLists {
            mut items,
            ends,
            start,
        } = self;
        items.truncate(start);
        FlatLists { items, ends }
    }
}
