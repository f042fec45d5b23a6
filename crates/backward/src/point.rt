//! A place between two steps of a program, with the words there.
use crate::moved::size_of_lists;
use circuit_walk::Walk;
use flat_lists::FlatLists;
use std::alloc::Allocator;

/// How many bytes an item of a list takes, and the place where a list ends.
const ITEM: usize = 4;

/// A walk, and a tracker whose words are taken back to its place.
#[derive(Drop)]
pub(crate) struct Point<'p, 'a, A: Allocator + Copy, T> {
    pub(crate) walk: Walk<'p, 'a, A>,
    pub(crate) tracker: T,
}

/// A point from which a pass starts later: a walk, and the words at its place as lists of targets.
pub(crate) struct KeptPoint<'p, 'a, A: Allocator + Copy> {
    pub(crate) walk: Walk<'p, 'a, A>,
    pub(crate) lists: FlatLists<u32, A>,
}

impl<A: Allocator + Copy> KeptPoint<'_, '_, A> {
    /// How many items and lists of items its words take.
    pub(crate) fn size(&self) -> usize {
        size_of_lists(&self.lists)
    }

    /// About how many bytes its words take.
    pub(crate) fn bytes(&self) -> usize {
        self.size().saturating_mul(ITEM)
    }
}

// Written out, so that it is a call in the proof of each function that owns one.
impl<A: Allocator + Copy> Drop for KeptPoint<'_, '_, A> {
    fn drop(self) {
        let KeptPoint { walk, lists } = self;
        drop(walk);
        drop(lists);
    }
}
