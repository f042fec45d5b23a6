//! A set of targets that takes little memory while few are in it, and no more than a row of bits once many are.
ghost use Rattle.std.specs.Prelude.{◌≡◌, false, replicate};

use crate::descending::FEW;
use crate::held::Held;
use crate::list_set::ListSet;
use crate::row_set::RowSet;
use crate::target_set::TargetSet;
use std::alloc::{AllocError, Allocator};
use std::marker::Model;

/// A set of targets as the list of those in it, the greatest first, while these are few: where targets come from the greatest
/// down, each is appended. Once they are many it is a row of bits.
pub struct SparseSet<'a, A: Allocator + Copy> {
    held: Held<'a, A>,
}

impl<'a, A: Allocator + Copy> Model for SparseSet<'a, A> {
    ghost use Rattle.std.specs.Prelude.{List, Bool};
    ghost use Rattle.trackers.specs.private.Held.{bits_of};

    ghost Value = { List Bool };

    ghost view = { λ s. bits_of s.held };
}

// Written out, so that it is a call in the proof of each function that owns one.
impl<A: Allocator + Copy> Drop for SparseSet<'_, A> {
    fn drop(self) {
        let SparseSet { held } = self;
        drop(held);
    }
}

impl<'a, A: Allocator + Copy> SparseSet<'a, A> {
    /// The empty set of this many targets. Takes no memory.
    pub fn none(alloc: &'a A, targets: usize) -> Self
        ensures { result ≡ replicate targets false }
    {
        SparseSet {
            held: Held::List(ListSet::none(alloc, targets)),
        }
    }
}

impl<'a, A: Allocator + Copy> TargetSet for SparseSet<'a, A> {
    ghost bits = { λ set. set };

    fn copy(&self) -> Result<Self, AllocError> {
        match &self.held {
            Held::List(list) => Ok(SparseSet {
                held: Held::List(list.copy()?),
            }),
            Held::Row(row) => Ok(SparseSet {
                held: Held::Row(row.copy()?),
            }),
        }
    }

    // The memory of a row is given back: whoever clears it mostly puts few in.
    fn clear(&mut self) {
        match &mut self.held {
            Held::List(list) => list.clear(),
            Held::Row(row) => {
                let list = row.emptied();
                self.held = Held::List(list);
            }
        }
    }

    #[inline(always)]
    fn toggle(&mut self, target: u32) -> Result<(), AllocError> {
        if let Held::List(list) = &mut self.held {
            // By one target more it doesn't get long.
            if list.is_inline() {
                return list.toggle(target);
            }
        }
        self.held.toggle(target)
    }

    #[inline(always)]
    fn add(&mut self, other: &Self, spare: &mut Self) -> Result<(), AllocError> {
        match &other.held {
            Held::List(list) => {
                if list.is_empty() {
                    Ok(())
                } else {
                    self.held.add_list(list, &mut spare.held)
                }
            }
            Held::Row(row) => self.held.add_row(row),
        }
    }

    fn list<B: Allocator + Copy>(&self, into: &mut Vec<u32, B>) -> Result<(), AllocError> {
        match &self.held {
            Held::List(list) => list.list(into),
            Held::Row(row) => row.list(into),
        }
    }

    fn put_ascending(&mut self, targets: &[u32]) -> Result<bool, AllocError> {
        self.clear();
        match &mut self.held {
            Held::List(list) => {
                if list.would_be_long(targets.len()) {
                    let row = RowSet::of_targets(list, targets)?;
                    self.held = Held::Row(row);
                    return Ok(true);
                }
                list.put_ascending(targets)
            }
            Held::Row(_) => Ok(false),
        }
    }

    #[inline(always)]
    fn kept(&self) -> Option<&[u32]> {
        match &self.held {
            Held::List(list) => list.kept(),
            Held::Row(_) => None,
        }
    }

    #[inline(always)]
    fn count(&self) -> usize {
        match &self.held {
            Held::List(list) => list.count(),
            Held::Row(row) => row.count(),
        }
    }

    fn sum_few(&self, other: &Self, sum: &mut [u32; FEW]) -> Option<usize> {
        match (self.held.as_list(), other.held.as_list()) {
            (Some(list), Some(other)) => list.sum_few(other, sum),
            _ => None,
        }
    }

    fn sum_few_of_four(
        &self,
        second: &Self,
        third: &Self,
        fourth: &Self,
        sum: &mut [u32; FEW],
    ) -> Option<usize> {
        match (
            self.held.as_list(),
            second.held.as_list(),
            third.held.as_list(),
            fourth.held.as_list(),
        ) {
            (Some(first), Some(second), Some(third), Some(fourth)) => {
                first.sum_few_of_four(second, third, fourth, sum)
            }
            _ => None,
        }
    }
}
