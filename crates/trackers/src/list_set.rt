//! A set of targets as the list of those in it.
ghost use Rattle.std.specs.Prelude.{◌≡◌, List, Bool, true, false, length, replicate, IfNone, IfSome, OnOk};
ghost use Rattle.bit_rows.specs.Rows.{xor_rows};

use crate::descending::{
    FEW, add_many, empty, list_ascending, put_ascending, put_few, sum_few, sum_few_of_four,
    toggle_in,
};
use crate::target_set::{TargetSet, toggle_down};
use bit_rows::BitRow;
use smallvec::SmallVec;
use std::alloc::{AllocError, Allocator};
use std::marker::Model;

/// A set of targets as the list of those in it, the greatest first: where targets come from the greatest down, each is
/// appended.
pub(crate) struct ListSet<'a, A: Allocator + Copy> {
    targets: usize,
    // On a borrowed allocator, since the size of a SmallVec has to be known.
    items: SmallVec<u32, 4, &'a A>,
}

impl<'a, A: Allocator + Copy> Model for ListSet<'a, A> {
    ghost use Rattle.std.specs.Prelude.{List, Bool};
    ghost use Rattle.trackers.specs.private.Sets.{DescendsBelow};
    ghost use Rattle.step_model.specs.TargetSets.{row_of_set};

    ghost Value = { List Bool };

    ghost view = { λ s. row_of_set s.targets s.items.items };

    ghost invariant = { λ s. DescendsBelow s.targets s.items.items };
}

// Written out, so that it is a call in the proof of each function that owns one.
impl<A: Allocator + Copy> Drop for ListSet<'_, A> {
    fn drop(self) {
        let ListSet { targets: _, items } = self;
        drop(items);
    }
}

impl<'a, A: Allocator + Copy> ListSet<'a, A> {
    /// The empty set of this many targets. Takes no memory.
    pub(crate) fn none(alloc: &'a A, targets: usize) -> Self
        ensures { result ≡ replicate targets false }
    {
        ListSet {
            targets,
            items: SmallVec::new(alloc),
        }
    }

    /// The number of targets that may be in it.
    pub(crate) fn targets(&self) -> usize
        ensures { result ≡ length self.now }
    {
        self.targets
    }

    pub(crate) fn allocator(&self) -> &'a A {
        *self.items.allocator()
    }

    /// The number of targets in it.
    pub(crate) fn len(&self) -> usize {
        self.items.len()
    }

    /// Whether no target is in it: to add it changes nothing.
    #[inline(always)]
    pub(crate) fn is_empty(&self) -> bool
        ensures { result ≡ true
            → (row : List Bool)
            → length row ≡ length self.now
            → row ≡ xor_rows row self.now }
    {
        self.items.as_slice().is_empty()
    }

    /// Whether it takes no memory of its own. Then it has at most four targets.
    #[inline(always)]
    pub(crate) fn is_inline(&self) -> bool {
        !self.items.spilled()
    }

    /// Whether it takes more memory than a row of bits, and isn't short.
    #[inline(always)]
    pub(crate) fn is_long(&self) -> bool {
        self.would_be_long(self.len())
    }

    /// The same if it had so many targets.
    #[inline(always)]
    pub(crate) fn would_be_long(&self, len: usize) -> bool {
        len > FEW && len > self.targets / 32
    }

    /// Toggles each target in it in a row.
    pub(crate) fn toggle_each(&self, row: &mut BitRow<A>) -> Result<(), AllocError>
        requires { length row.old ≡ length self.now }
        ensures ok { OnOk result (row.new ≡ xor_rows row.old self.now) }
        ensures len { length row.new ≡ length row.old }
    {
        toggle_down(row, self.items.as_slice())
    }

    /// Toggles each target of another set where both have few, so that no spare set is needed. Otherwise it answers
    /// nothing.
    #[inline(always)]
    pub(crate) fn add_few(&mut self, other: &Self) -> Option<Result<(), AllocError>>
        requires { length self.old ≡ length other.now }
        ensures few { IfSome result (λ done. OnOk done (self.new ≡ xor_rows self.old other.now)) }
        ensures many { IfNone result (self.new ≡ self.old) }
        ensures len { length self.new ≡ length self.old }
    {
        let more = other.items.as_slice();
        let mut sum = [0; FEW];
        match sum_few(self.items.as_slice(), more, &mut sum) {
            Some(len) => Some(put_few(&mut self.items, &sum, len)),
            None => None,
        }
    }

    /// Toggles each target of another set, by way of a spare one.
    pub(crate) fn add_many(&mut self, other: &Self, spare: &mut Self) -> Result<(), AllocError>
        requires other { length self.old ≡ length other.now }
        requires spare { length spare.old ≡ length self.old }
        ensures ok { OnOk result (self.new ≡ xor_rows self.old other.now) }
        ensures len { length self.new ≡ length self.old }
        ensures spare { length spare.new ≡ length spare.old }
    {
        let more = other.items.as_slice();
        add_many(&mut self.items, more, &mut spare.items)
    }

    /// The same where no spare set is at hand.
    pub(crate) fn add_alone(&mut self, other: &Self) -> Result<(), AllocError>
        requires { length self.old ≡ length other.now }
        ensures ok { OnOk result (self.new ≡ xor_rows self.old other.now) }
        ensures len { length self.new ≡ length self.old }
    {
        let mut spare = ListSet::none(self.allocator(), self.targets());
        self.add_many(other, &mut spare)
    }
}

impl<'a, A: Allocator + Copy> TargetSet for ListSet<'a, A> {
    ghost bits = { λ set. set };

    fn copy(&self) -> Result<Self, AllocError> {
        Ok(ListSet {
            targets: self.targets,
            items: SmallVec::from_slice(*self.items.allocator(), self.items.as_slice())?,
        })
    }

    fn clear(&mut self) {
        empty(&mut self.items);
    }

    fn toggle(&mut self, target: u32) -> Result<(), AllocError> {
        toggle_in(&mut self.items, target)
    }

    fn add(&mut self, other: &Self, spare: &mut Self) -> Result<(), AllocError> {
        match self.add_few(other) {
            Some(done) => done,
            None => self.add_many(other, spare),
        }
    }

    fn list<B: Allocator + Copy>(&self, into: &mut Vec<u32, B>) -> Result<(), AllocError> {
        list_ascending(self.items.as_slice(), into)
    }

    fn put_ascending(&mut self, targets: &[u32]) -> Result<bool, AllocError> {
        put_ascending(&mut self.items, targets)
    }

    #[inline(always)]
    fn kept(&self) -> Option<&[u32]> {
        Some(self.items.as_slice())
    }

    #[inline(always)]
    fn count(&self) -> usize {
        self.items.len()
    }

    fn sum_few(&self, other: &Self, sum: &mut [u32; FEW]) -> Option<usize> {
        sum_few(self.items.as_slice(), other.items.as_slice(), sum)
    }

    fn sum_few_of_four(
        &self,
        second: &Self,
        third: &Self,
        fourth: &Self,
        sum: &mut [u32; FEW],
    ) -> Option<usize> {
        sum_few_of_four(
            self.items.as_slice(),
            second.items.as_slice(),
            third.items.as_slice(),
            fourth.items.as_slice(),
            sum,
        )
    }
}
