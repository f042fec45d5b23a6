//! Sets of targets, in which tracked words are kept.
ghost use Rattle.std.specs.Prelude.{◌≡◌, ◌<◌, ◌≤◌, ◌^◌, true, false, not, count_by, length, replicate, reverse, take, All, IfOk, IfSome, OnOk, List, Bool, slice_index_or, slice_set};
ghost use Rattle.bit_rows.specs.Rows.{xor_rows};
ghost use Rattle.step_model.specs.TargetSets.{members, row_of_set};
ghost use Rattle.trackers.specs.private.Transposed.{xor_where, AreAsLong};

use crate::descending::FEW;
use crate::row_list::list_row;
use bit_rows::BitRow;
use std::alloc::{AllocError, Allocator};

/// From this many targets on, a set of them is made and added: to toggle one takes longer in a set of many.
const MANY: usize = 16;

/// A set of some of a fixed number of targets. After an error in `toggle` or `add` that number stays, and nothing more
/// is promised of the set. (`add` of a `SparseSet` may leave it empty.) After one in a call that lists, the sets are as
/// they were, and nothing is promised of the list.
pub trait TargetSet: Drop {
    // For each target whether it is in the set.
    ghost bits: { Self → List Bool };

    /// A copy, on the same allocator.
    fn copy(&self) -> Result<Self, AllocError>
        ensures { IfOk result (λ set. bits set ≡ bits self.now) };

    /// Takes all targets out.
    fn clear(&mut self)
        ensures { bits self.new ≡ replicate (length (bits self.old)) false };

    /// Puts a target in where it isn't there, and takes it out where it is.
    fn toggle(&mut self, target: u32) -> Result<(), AllocError>
        requires { target < length (bits self.old) }
        ensures ok { OnOk result
            (bits self.new
            ≡ slice_set (bits self.old) target
            (not (slice_index_or (bits self.old) target false))) }
        ensures len { length (bits self.new) ≡ length (bits self.old) };

    /// Toggles each target of another set. What the spare set held is lost.
    fn add(&mut self, other: &Self, spare: &mut Self) -> Result<(), AllocError>
        requires other { length (bits self.old) ≡ length (bits other.now) }
        requires spare { length (bits spare.old) ≡ length (bits self.old) }
        ensures ok { OnOk result (bits self.new ≡ xor_rows (bits self.old) (bits other.now)) }
        ensures len { length (bits self.new) ≡ length (bits self.old) }
        ensures spare { length (bits spare.new) ≡ length (bits spare.old) };

    /// Puts the targets in the set into `into`, ascending, in place of what it held.
    fn list<B: Allocator + Copy>(&self, into: &mut Vec<u32, B>) -> Result<(), AllocError>
        requires { length (bits self.now) ≤ 2 ^ 32 }
        ensures { OnOk result (into.new.items ≡ members (bits self.now)) };

    /// Makes the set that of the targets that a list has an odd number of times, where it answers that it did. It is for long lists that
    /// ascend: a set need not take any. Otherwise nothing is promised of the set but how many targets it is of.
    fn put_ascending(&mut self, targets: &[u32]) -> Result<bool, AllocError>
        requires { All (λ t. t < length (bits self.old)) targets.now }
        ensures put { IfOk result (λ put. put ≡ true
            → bits self.new ≡ row_of_set (length (bits self.old)) targets.now) }
        ensures len { length (bits self.new) ≡ length (bits self.old) };

    /// The targets in the set, the greatest first, where they are kept as such a list.
    fn kept(&self) -> Option<&[u32]>
        ensures { IfSome result (λ list. reverse list.now ≡ members (bits self.now)) };

    /// How many targets are in the set.
    fn count(&self) -> usize
        ensures { result ≡ count_by (λ b. b) (bits self.now) };

    /// Puts the targets that are in just one of two sets at the start of `sum`, from the greatest down, and answers how many
    /// these are, where it does: a set need not. It is for sets of few targets.
    fn sum_few(&self, other: &Self, sum: &mut [u32; FEW]) -> Option<usize>
        requires { length (bits self.now) ≡ length (bits other.now) }
        ensures within { IfSome result (λ len. len ≤ FEW) }
        ensures sum { IfSome result (λ len. reverse (take len sum.new)
            ≡ members (xor_rows (bits self.now) (bits other.now))) };

    /// The same for the targets that are in an odd number of four sets.
    fn sum_few_of_four(
        &self,
        second: &Self,
        third: &Self,
        fourth: &Self,
        sum: &mut [u32; FEW],
    ) -> Option<usize>
        requires second { length (bits self.now) ≡ length (bits second.now) }
        requires third { length (bits self.now) ≡ length (bits third.now) }
        requires fourth { length (bits self.now) ≡ length (bits fourth.now) }
        ensures within { IfSome result (λ len. len ≤ FEW) }
        ensures sum { IfSome result (λ len. reverse (take len sum.new)
            ≡ members (xor_rows (xor_rows (bits self.now) (bits second.now))
            (xor_rows (bits third.now) (bits fourth.now)))) };
}

impl<A: Allocator + Copy> TargetSet for BitRow<A> {
    ghost bits = { λ row. row };

    fn copy(&self) -> Result<Self, AllocError> {
        BitRow::copy(self)
    }

    fn clear(&mut self) {
        BitRow::clear(self);
    }

    fn toggle(&mut self, target: u32) -> Result<(), AllocError> {
        self.flip(target as usize);
        Ok(())
    }

    fn add(&mut self, other: &Self, _spare: &mut Self) -> Result<(), AllocError> {
        self.xor_from(other);
        Ok(())
    }

    fn put_ascending(&mut self, _targets: &[u32]) -> Result<bool, AllocError> {
        Ok(false)
    }

    fn kept(&self) -> Option<&[u32]> {
        None
    }

    fn count(&self) -> usize {
        self.count_ones()
    }

    fn sum_few(&self, _other: &Self, _sum: &mut [u32; FEW]) -> Option<usize> {
        None
    }

    fn sum_few_of_four(
        &self,
        _second: &Self,
        _third: &Self,
        _fourth: &Self,
        _sum: &mut [u32; FEW],
    ) -> Option<usize> {
        None
    }

    fn list<B: Allocator + Copy>(&self, into: &mut Vec<u32, B>) -> Result<(), AllocError> {
        list_row(self, into)
    }
}

/// Adds a set to another where `add`.
#[inline(always)]
pub(crate) fn add_where<S: TargetSet>(
    add: bool,
    set: &mut S,
    other: &S,
    spare: &mut S,
) -> Result<(), AllocError>
    requires other { length (S.bits set.old) ≡ length (S.bits other.now) }
    requires spare { length (S.bits spare.old) ≡ length (S.bits set.old) }
    ensures sum { OnOk result (S.bits set.new ≡ xor_where add (S.bits set.old) (S.bits other.now)) }
    ensures len { length (S.bits set.new) ≡ length (S.bits set.old) }
    ensures spare { length (S.bits spare.new) ≡ length (S.bits spare.old) }
{
    if add { set.add(other, spare) } else { Ok(()) }
}

/// Makes a set that of the targets that a list has an odd number of times. Where the list ascends, the set is made
/// fast.
pub fn make_set<S: TargetSet>(set: &mut S, targets: &[u32]) -> Result<(), AllocError>
    requires { All (λ t. t < length (S.bits set.old)) targets.now }
    ensures ok { OnOk result (S.bits set.new ≡ row_of_set (length (S.bits set.old)) targets.now) }
    ensures len { length (S.bits set.new) ≡ length (S.bits set.old) }
{
    if targets.len() < MANY {
        make_in_turn(set, targets)
    } else {
        make_at_once(set, targets)
    }
}

// The same, where it can be done at once.
fn make_at_once<S: TargetSet>(set: &mut S, targets: &[u32]) -> Result<(), AllocError>
    requires { All (λ t. t < length (S.bits set.old)) targets.now }
    ensures ok { OnOk result (S.bits set.new ≡ row_of_set (length (S.bits set.old)) targets.now) }
    ensures len { length (S.bits set.new) ≡ length (S.bits set.old) }
{
    if set.put_ascending(targets)? {
        return Ok(());
    }
    make_in_turn(set, targets)
}

// The same, target by target.
fn make_in_turn<S: TargetSet>(set: &mut S, targets: &[u32]) -> Result<(), AllocError>
    requires { All (λ t. t < length (S.bits set.old)) targets.now }
    ensures ok { OnOk result (S.bits set.new ≡ row_of_set (length (S.bits set.old)) targets.now) }
    ensures len { length (S.bits set.new) ≡ length (S.bits set.old) }
{
    set.clear();
    toggle_down(set, targets)
}

/// Toggles each of these targets, where `toggle`. What the sets `made` and `spare` held is lost.
#[inline(always)]
pub(crate) fn toggle_where<S: TargetSet>(
    toggle: bool,
    set: &mut S,
    targets: &[u32],
    made: &mut S,
    spare: &mut S,
) -> Result<(), AllocError>
    requires targets { All (λ t. t < length (S.bits set.old)) targets.now }
    requires long { AreAsLong (S.bits set.old) (S.bits made.old) (S.bits spare.old) }
    ensures ok { OnOk result
        (S.bits set.new
        ≡ xor_where toggle (S.bits set.old)
        (row_of_set (length (S.bits set.old)) targets.now)) }
    ensures len { length (S.bits set.new) ≡ length (S.bits set.old) }
    ensures made { length (S.bits made.new) ≡ length (S.bits made.old) }
    ensures spare { length (S.bits spare.new) ≡ length (S.bits spare.old) }
{
    if toggle {
        toggle_all(set, targets, made, spare)
    } else {
        Ok(())
    }
}

fn toggle_all<S: TargetSet>(
    set: &mut S,
    targets: &[u32],
    made: &mut S,
    spare: &mut S,
) -> Result<(), AllocError>
    requires targets { All (λ t. t < length (S.bits set.old)) targets.now }
    requires long { AreAsLong (S.bits set.old) (S.bits made.old) (S.bits spare.old) }
    ensures ok { OnOk result
        (S.bits set.new
        ≡ xor_rows (S.bits set.old) (row_of_set (length (S.bits set.old)) targets.now)) }
    ensures len { length (S.bits set.new) ≡ length (S.bits set.old) }
    ensures made { length (S.bits made.new) ≡ length (S.bits made.old) }
    ensures spare { length (S.bits spare.new) ≡ length (S.bits spare.old) }
{
    if targets.len() < MANY {
        return toggle_down(set, targets);
    }
    make_set(made, targets)?;
    set.add(made, spare)
}

/// Toggles each of these targets, from the last on: where they ascend and the set is empty, each is appended.
pub(crate) fn toggle_down<S: TargetSet>(set: &mut S, targets: &[u32]) -> Result<(), AllocError>
    requires { All (λ t. t < length (S.bits set.old)) targets.now }
    ensures ok { OnOk result
        (S.bits set.new
        ≡ xor_rows (S.bits set.old) (row_of_set (length (S.bits set.old)) targets.now)) }
    ensures len { length (S.bits set.new) ≡ length (S.bits set.old) }
{
    let mut left = targets.len();
    while left > 0 {
        left -= 1;
        set.toggle(targets[left])?;
    }
    Ok(())
}
