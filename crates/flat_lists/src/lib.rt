//! A list of lists kept flat: all items one after another, and where each list ends. Millions of short lists
//! take two blocks of memory in all, instead of one each.
#![tactic(auto)]

ghost use Rattle.flat_lists.specs.Cuts.{cut, AreEnds};
ghost use Rattle.std.specs.Prelude.{◌≡◌, true, All, ◌+◌, ◌-◌, ◌<◌, ◌==◌, [], ◌∷◌, ◌++◌, length, take, IfOk, OnOk, OnErr, Some, slice_get, slice_index, slice_index_or};

mod growing_lists;

pub use growing_lists::GrowingLists;
use std::alloc::{AllocError, Allocator};
use std::marker::Model;

/// Lists of items, in the order in which they were pushed.
pub struct FlatLists<T: Copy, A: Allocator + Copy> {
    items: Vec<T, A>,
    ends: Vec<usize, A>,
}

impl<T: Copy, A: Allocator + Copy> Model for FlatLists<T, A> {
    ghost use Rattle.std.specs.Prelude.{List, length};
    ghost use Rattle.flat_lists.specs.Cuts.{cut, AreEnds};

    ghost Value = { List (List T) };

    ghost view = { λ lists. cut 0 lists.ends.items lists.items.items };

    ghost invariant = { λ lists. AreEnds 0 lists.ends.items (length lists.items.items) };
}

// Written out, so that it is a call in the proof of each function that owns lists.
impl<T: Copy, A: Allocator + Copy> Drop for FlatLists<T, A> {
    fn drop(self) {
        let FlatLists { items, ends } = self;
        drop(items);
        drop(ends);
    }
}

impl<T: Copy, A: Allocator + Copy> FlatLists<T, A> {
    /// No lists. Allocates nothing.
    pub fn new(alloc: A) -> Self
        ensures { result ≡ [] }
    {
        FlatLists {
            items: Vec::new(alloc),
            ends: Vec::new(alloc),
        }
    }

    /// No lists, with room for the ends of this many.
    pub fn with_room(alloc: A, lists: usize) -> Result<Self, AllocError>
        ensures { IfOk result (λ none. none ≡ []) }
    {
        Ok(FlatLists {
            items: Vec::new(alloc),
            ends: Vec::with_capacity(alloc, lists)?,
        })
    }

    /// No lists, with room for this many, and for this many items in all.
    pub fn with_rooms(alloc: A, lists: usize, items: usize) -> Result<Self, AllocError>
        ensures { IfOk result (λ none. none ≡ []) }
    {
        Ok(FlatLists {
            items: Vec::with_capacity(alloc, items)?,
            ends: Vec::with_capacity(alloc, lists)?,
        })
    }

    /// The lists that these items make, cut at these ends.
    pub fn cut(items: Vec<T, A>, ends: Vec<usize, A>) -> Self
        requires { AreEnds 0 ends.items (length items.items) }
        ensures { result ≡ cut 0 ends.items items.items }
    {
        FlatLists { items, ends }
    }

    /// How many lists there are.
    #[inline(always)]
    #[tactic(auto, using(crate::proofs::CutLemmas::counts))]
    pub fn len(&self) -> usize
        ensures { result ≡ length self.now }
    {
        self.ends.len()
    }

    /// Whether there are no lists. One empty list is a list.
    pub fn is_empty(&self) -> bool
        ensures { result ≡ (length self.now == 0) }
    {
        self.len() == 0
    }

    /// Appends a copy of the list. It fails only where memory runs out.
    pub fn push(&mut self, list: &[T]) -> Result<(), AllocError>
        ensures ok { OnOk result (self.new ≡ self.old ++ list.now ∷ []) }
        ensures err { OnErr result (self.new ≡ self.old) }
    {
        // Room for the end first, so that nothing changes where memory runs out.
        self.ends.reserve(1)?;
        self.items.extend_from_slice(list)?;
        self.ends.push_reserved(self.items.len());
        Ok(())
    }

    /// The list at an index.
    #[inline(always)]
    pub fn get(&self, index: usize) -> &[T]
        requires { index < length self.now }
        ensures item { slice_get self.now index ≡ Some result.now }
        ensures value { result.now ≡ slice_index_or self.now index [] }
    {
        let start = start_of(&self.ends, index);
        let end = self.ends[index];
        &self.items[start..end]
    }
}

// Where the list at an index starts: where the one before it ends, and the first at 0.
#[inline(always)]
fn start_of(ends: &[usize], index: usize) -> usize
    requires { index < length ends.now }
    ensures { result ≡ slice_index (0 ∷ ends.now) index }
{
    if index == 0 { 0 } else { ends[index - 1] }
}
