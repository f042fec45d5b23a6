//! Lists of targets that stand for sets.
ghost use Rattle.std.specs.Prelude.{◌≡◌, ◌<◌, ◌≤◌, ℕ, true, length, take, All};
ghost use Rattle.std.specs.List.Sorted.{IsNonDecreasing, IsStrictlyIncreasing};
ghost use Rattle.step_model.specs.Targets.{is_listed};
ghost use Rattle.step_model.specs.TargetSets.{members, row_of_set};

use std::alloc::Allocator;

/// Makes a list that of the targets that it has an odd number of times, ascending.
#[inline(always)]
pub(crate) fn make_ascend<A: Allocator + Copy>(list: &mut Vec<u32, A>)
    ensures { (m : ℕ)
        → All (λ t. t < m) list.old.items
        → list.new.items ≡ members (row_of_set m list.old.items) }
{
    if !ascends(list.as_slice()) {
        make_in_order(list);
    }
}

// The same where the list may not ascend.
#[inline(never)]
fn make_in_order<A: Allocator + Copy>(list: &mut Vec<u32, A>)
    ensures { (m : ℕ)
        → All (λ t. t < m) list.old.items
        → list.new.items ≡ members (row_of_set m list.old.items) }
{
    list.sort_unstable();
    let kept = cancel_pairs(list.as_mut_slice());
    list.truncate(kept);
}

// Takes equal targets out of a sorted list, two by two: puts those that are left in front, and answers how many they are.
fn cancel_pairs(list: &mut [u32]) -> usize
    requires { IsNonDecreasing list.old }
    ensures within { result ≤ length list.new }
    ensures rises { IsStrictlyIncreasing (take result list.new) }
    ensures odd { (t : ℕ) → is_listed (take result list.new) t ≡ is_listed list.old t }
    ensures below { (m : ℕ) → All (λ t. t < m) list.old → All (λ t. t < m) (take result list.new) }
{
    let mut kept = 0;
    for i in 0..list.len() {
        let target = list[i];
        if kept > 0 && list[kept - 1] == target {
            kept -= 1;
        } else {
            list[kept] = target;
            kept += 1;
        }
    }
    kept
}

/// Whether each target is greater than the one before it.
#[inline(always)]
pub(crate) fn ascends(targets: &[u32]) -> bool
    ensures { result ≡ true → IsStrictlyIncreasing targets.now }
{
    for i in 1..targets.len() {
        if targets[i] <= targets[i - 1] {
            return false;
        }
    }
    true
}
