//! A set of targets as a row of bits, of which it is known at least how many are set.
ghost use Rattle.std.specs.Prelude.{◌≡◌, ◌<◌, ◌≤◌, ◌^◌, true, false, not, count_by, length, replicate, All, IfOk, OnOk, slice_index_or, slice_set};
ghost use Rattle.bit_rows.specs.Rows.{xor_rows};
ghost use Rattle.step_model.specs.TargetSets.{members, row_of_set};

use crate::list_set::ListSet;
use crate::target_set::{TargetSet, make_set, toggle_down};
use bit_rows::BitRow;
use std::alloc::{AllocError, Allocator};
use std::marker::Model;

/// A set of targets as a row of bits.
pub(crate) struct RowSet<'a, A: Allocator + Copy> {
    alloc: &'a A,
    row: BitRow<A>,
    // At least so many targets are in it. No answer hangs on it: it saves counting them.
    least: usize,
}

impl<'a, A: Allocator + Copy> Model for RowSet<'a, A> {
    ghost use Rattle.std.specs.Prelude.{List, Bool};

    ghost Value = { List Bool };

    ghost view = { λ s. s.row };
}

// Written out, so that it is a call in the proof of each function that owns one.
impl<A: Allocator + Copy> Drop for RowSet<'_, A> {
    fn drop(self) {
        let RowSet {
            alloc: _,
            row,
            least: _,
        } = self;
        drop(row);
    }
}

impl<'a, A: Allocator + Copy> RowSet<'a, A> {
    /// The set that a list is.
    pub(crate) fn of_list(list: &ListSet<'a, A>) -> Result<Self, AllocError>
        ensures { IfOk result (λ set. set ≡ list.now) }
    {
        let alloc = list.allocator();
        let mut row = BitRow::zeros(*alloc, list.targets())?;
        list.toggle_each(&mut row)?;
        Ok(RowSet {
            alloc,
            row,
            least: list.len(),
        })
    }

    /// The set of the targets that are listed an odd number of times, of as many targets as an empty list may have.
    pub(crate) fn of_targets(none: &ListSet<'a, A>, targets: &[u32]) -> Result<Self, AllocError>
        requires { All (λ t. t < length none.now) targets.now }
        ensures { IfOk result (λ set. set ≡ row_of_set (length none.now) targets.now) }
    {
        let alloc = none.allocator();
        let mut row = BitRow::zeros(*alloc, none.targets())?;
        toggle_down(&mut row, targets)?;
        Ok(RowSet {
            alloc,
            row,
            least: 0,
        })
    }

    /// The same set as a list.
    pub(crate) fn to_list(&self) -> Result<ListSet<'a, A>, AllocError>
        requires { length self.now ≤ 2 ^ 32 }
        ensures { IfOk result (λ list. list ≡ self.now) }
    {
        let mut targets = Vec::new(*self.alloc);
        self.list(&mut targets)?;
        let mut list = self.emptied();
        make_set(&mut list, targets.as_slice())?;
        Ok(list)
    }

    /// The empty set of as many targets, as a list.
    pub(crate) fn emptied(&self) -> ListSet<'a, A>
        ensures { result ≡ replicate (length self.now) false }
    {
        ListSet::none(self.alloc, self.row.len())
    }

    /// A copy, on the same allocator.
    pub(crate) fn copy(&self) -> Result<Self, AllocError>
        ensures { IfOk result (λ set. set ≡ self.now) }
    {
        Ok(RowSet {
            alloc: self.alloc,
            row: BitRow::copy(&self.row)?,
            least: self.least,
        })
    }

    /// Puts a target in where it isn't there, and takes it out where it is.
    pub(crate) fn toggle(&mut self, target: u32)
        requires { target < length self.old }
        ensures { self.new
            ≡ slice_set self.old target (not (slice_index_or self.old target false)) }
    {
        let place = target as usize;
        self.least = if self.row.get(place) {
            self.least.saturating_sub(1)
        } else {
            self.least.saturating_add(1)
        };
        self.row.flip(place);
    }

    /// Toggles each target of a list.
    #[inline(never)]
    pub(crate) fn add_list(&mut self, list: &ListSet<'a, A>) -> Result<(), AllocError>
        requires { length self.old ≡ length list.now }
        ensures ok { OnOk result (self.new ≡ xor_rows self.old list.now) }
        ensures len { length self.new ≡ length self.old }
    {
        self.least = self.least.saturating_sub(list.len());
        list.toggle_each(&mut self.row)
    }

    /// Toggles each target of another set.
    pub(crate) fn add_row(&mut self, other: &Self)
        requires { length self.old ≡ length other.now }
        ensures sum { self.new ≡ xor_rows self.old other.now }
        ensures len { length self.new ≡ length self.old }
    {
        self.row.xor_from(&other.row);
        self.least = 0;
    }

    /// Puts the targets in it into `into`, ascending, in place of what it held.
    pub(crate) fn list<B: Allocator + Copy>(&self, into: &mut Vec<u32, B>) -> Result<(), AllocError>
        requires { length self.now ≤ 2 ^ 32 }
        ensures { OnOk result (into.new.items ≡ members self.now) }
    {
        self.row.list(into)
    }

    /// How many targets are in it.
    pub(crate) fn count(&self) -> usize
        ensures { result ≡ count_by (λ b. b) self.now }
    {
        self.row.count_ones()
    }

    /// Whether it may have so few targets that a list takes less time to add.
    #[inline(always)]
    pub(crate) fn may_be_few(&self) -> bool {
        self.least <= few_among(self.row.len())
    }

    /// Whether it has so few, where this isn't known. They are counted only up to twice as many, so that it takes about as
    /// many steps until they are counted again.
    pub(crate) fn is_few(&mut self) -> bool
        ensures few { result ≡ true → length self.old ≤ 2 ^ 32 }
        ensures same { self.new ≡ self.old }
    {
        if self.row.len() > 1 << 32 {
            return false;
        }
        let few = few_among(self.row.len());
        if self.least <= few {
            self.least = count_up_to(&self.row, 2 * few);
        }
        self.least <= few
    }
}

// A list of so many of these targets takes about as long to add as a row.
#[inline(always)]
fn few_among(targets: usize) -> usize
    ensures { result < 2 ^ 62 }
{
    targets / 512
}

// How many bits of a row are set, or more than `most` where more are.
fn count_up_to<A: Allocator + Copy>(row: &BitRow<A>, most: usize) -> usize {
    let mut count: usize = 0;
    for k in 0..row.len().div_ceil(64) {
        count = count.saturating_add(row.word(k).count_ones() as usize);
        if count > most {
            return count;
        }
    }
    count
}
