//! Descending lists: changed where they stand, merged, and listed in ascending order.
ghost use Rattle.std.specs.Prelude.{◌≡◌, ◌<◌, ◌≤◌, ◌+◌, ◌-◌, ◌++◌, [], ℕ, take, true, length, reverse, slice_index, All, IfOk, IfSome, OnOk, OnErr};
ghost use Rattle.trackers.specs.private.Sets.{xor_sets, DescendsBelow, IsToggled};

use smallvec::SmallVec;
use std::alloc::{AllocError, Allocator};

/// Two lists are short where they have at most this many together.
pub(crate) const FEW: usize = 16;

/// Puts the first `len` of these in place of what a list holds, which is emptied by an error. Few are put one by one: to read
/// at once what was just written in parts takes longer.
#[inline(always)]
pub(crate) fn put_few<A: Allocator + Copy>(
    items: &mut SmallVec<u32, 4, A>,
    sum: &[u32; 16],
    len: usize,
) -> Result<(), AllocError>
    requires { len ≤ 16 }
    ensures ok { OnOk result (items.new.items ≡ take len sum.now) }
    ensures err { OnErr result (items.new.items ≡ []) }
{
    if items.spilled() || len > 4 {
        return replace(items, &sum[..len]);
    }
    *items = SmallVec::new(*items.allocator());
    for i in 0..len {
        items.push_reserved(sum[i]);
    }
    Ok(())
}

// Puts these in place of what a list holds, which is emptied by an error.
#[inline(never)]
fn replace<A: Allocator + Copy>(
    items: &mut SmallVec<u32, 4, A>,
    targets: &[u32],
) -> Result<(), AllocError>
    ensures ok { OnOk result (items.new.items ≡ targets.now) }
    ensures err { OnErr result (items.new.items ≡ []) }
{
    items.clear();
    items.extend_from_slice(targets)
}

/// Takes all targets out, and keeps an allocation. To make an empty list takes less than a call.
#[inline]
pub(crate) fn empty<A: Allocator + Copy>(items: &mut SmallVec<u32, 4, A>)
    ensures { items.new.items ≡ [] }
{
    if items.spilled() {
        items.clear();
    } else {
        *items = SmallVec::new(*items.allocator());
    }
}

/// Takes a target out of a descending list, or puts it in at its place. Most come behind all that are there, where a
/// place is left with no allocation: this is asked first, and takes no call.
#[inline]
pub(crate) fn toggle_in<A: Allocator + Copy>(
    items: &mut SmallVec<u32, 4, A>,
    target: u32,
) -> Result<(), AllocError>
    ensures ok { OnOk result (IsToggled target items.old.items items.new.items) }
    ensures err { OnErr result (items.new.items ≡ items.old.items) }
{
    if !items.spilled() && items.len() < 4 && comes_last(items.as_slice(), target) {
        items.push_reserved(target);
        return Ok(());
    }
    toggle_anywhere(items, target)
}

// The same for any list.
#[inline(never)]
fn toggle_anywhere<A: Allocator + Copy>(
    items: &mut SmallVec<u32, 4, A>,
    target: u32,
) -> Result<(), AllocError>
    ensures ok { OnOk result (IsToggled target items.old.items items.new.items) }
    ensures err { OnErr result (items.new.items ≡ items.old.items) }
{
    if comes_last(items.as_slice(), target) {
        items.push(target)?;
        Ok(())
    } else {
        toggle_among(items, target)
    }
}

// Whether a target is less than the last of a list, or the list is empty.
#[inline(always)]
fn comes_last(items: &[u32], target: u32) -> bool
    ensures { result ≡ true
        → 0 < length items.now
        → target < slice_index items.now (length items.now - 1) }
{
    items.is_empty() || target < items[items.len() - 1]
}

// The same, where the target may stand anywhere.
fn toggle_among<A: Allocator + Copy>(
    items: &mut SmallVec<u32, 4, A>,
    target: u32,
) -> Result<(), AllocError>
    ensures ok { OnOk result (IsToggled target items.old.items items.new.items) }
    ensures err { OnErr result (items.new.items ≡ items.old.items) }
{
    let place = place_among(items.as_slice(), target);
    if place > 0 && items.as_slice()[place - 1] == target {
        let _ = items.remove(place - 1);
    } else {
        items.insert(place, target)?;
    }
    Ok(())
}

// The place from which on all are less than the target, searched for from the end.
fn place_among(items: &[u32], target: u32) -> usize
    ensures within { result ≤ length items.now }
    ensures below { (k : ℕ) → result ≤ k → k < length items.now → slice_index items.now k < target }
    ensures above { 0 < result → target ≤ slice_index items.now (result - 1) }
{
    let mut place = items.len();
    while place > 0 && items[place - 1] < target {
        place -= 1;
    }
    place
}

/// Appends the exclusive or of two descending lists.
pub(crate) fn merge<A: Allocator + Copy>(
    first: &[u32],
    second: &[u32],
    into: &mut SmallVec<u32, 4, A>,
) -> Result<(), AllocError>
    requires { into.old.items ≡ [] }
    ensures { OnOk result (into.new.items ≡ xor_sets first.now second.now) }
{
    let mut i = 0;
    let mut j = 0;
    while i < first.len() && j < second.len() {
        let x = first[i];
        let y = second[j];
        if y < x {
            into.push(x)?;
            i += 1;
        } else if x < y {
            into.push(y)?;
            j += 1;
        } else {
            i += 1;
            j += 1;
        }
    }
    // One of them is used up.
    if i < first.len() {
        into.extend_from_slice(&first[i..])
    } else {
        into.extend_from_slice(&second[j..])
    }
}

// From where on no target of a descending list is greater than this one, searched for from the end.
fn tail_from(items: &[u32], target: u32) -> usize
    ensures within { result ≤ length items.now }
    ensures above { 0 < result → target < slice_index items.now (result - 1) }
{
    let mut place = items.len();
    while place > 0 && items[place - 1] <= target {
        place -= 1;
    }
    place
}

/// Puts the exclusive or of two descending lists in place of the first. Its targets above those of the other aren't gone over:
/// where targets come from the greatest down, these are most of a long list. After an error the first may have lost its end.
/// What the spare list held is lost.
#[inline(never)]
pub(crate) fn add_many<'a, A: Allocator + Copy>(
    items: &mut SmallVec<u32, 4, &'a A>,
    more: &[u32],
    spare: &mut SmallVec<u32, 4, &'a A>,
) -> Result<(), AllocError>
    ensures ok { OnOk result
        ((m : ℕ)
        → DescendsBelow m items.old.items
        → items.new.items ≡ xor_sets items.old.items more.now) }
    ensures err { OnErr result
        ((m : ℕ) → DescendsBelow m items.old.items → DescendsBelow m items.new.items) }
    ensures spare { (m : ℕ)
        → DescendsBelow m items.old.items
        → DescendsBelow m spare.old.items
        → DescendsBelow m spare.new.items }
{
    let Some(greatest) = more.first() else {
        return Ok(());
    };
    let start = tail_from(items.as_slice(), *greatest);
    spare.clear();
    if let Err(error) = merge(&items.as_slice()[start..], more, spare) {
        spare.clear();
        return Err(error);
    }
    if start == 0 {
        std::mem::swap(items, spare);
        return Ok(());
    }
    items.truncate(start);
    let added = items.extend_from_slice(spare.as_slice());
    spare.clear();
    added
}

/// Puts the exclusive or of two descending lists at the start of `sum`, and answers how long it is, where both are
/// short.
#[inline(always)]
pub(crate) fn sum_few(first: &[u32], second: &[u32], sum: &mut [u32; 16]) -> Option<usize>
    ensures within { IfSome result (λ len. len ≤ 16) }
    ensures sum { IfSome result (λ len. take len sum.new ≡ xor_sets first.now second.now) }
{
    if first.len() + second.len() > FEW {
        return None;
    }
    Some(merge_few(first, second, sum))
}

// The same for two that are short. Which of two is the greater is hard to predict, so no branch is taken on it.
#[inline]
fn merge_few(first: &[u32], second: &[u32], sum: &mut [u32; 16]) -> usize
    requires { length first.now + length second.now ≤ 16 }
    ensures within { result ≤ 16 }
    ensures sum { take result sum.new ≡ xor_sets first.now second.now }
{
    let mut i = 0;
    let mut j = 0;
    let mut len = 0;
    while i < first.len() && j < second.len() {
        let x = first[i];
        let y = second[j];
        sum[len] = if x < y { y } else { x };
        len += (x != y) as usize;
        i += (y <= x) as usize;
        j += (x <= y) as usize;
    }
    // One of them is used up.
    let len = append_few(sum, len, &first[i..]);
    append_few(sum, len, &second[j..])
}

// Puts these behind the first `len`, and answers how many there are then. A remainder taken at each keeps the loop from
// being made a call that copies, which takes longer for few.
#[inline(always)]
fn append_few(sum: &mut [u32; 16], len: usize, rest: &[u32]) -> usize
    requires { len + length rest.now ≤ 16 }
    ensures len { result ≡ len + length rest.now }
    ensures sum { take result sum.new ≡ take len sum.old ++ rest.now }
{
    let mut end = len;
    for target in rest {
        sum[end % 16] = *target;
        end += 1;
    }
    end
}

/// The same for four descending lists, added up two by two.
pub(crate) fn sum_few_of_four(
    first: &[u32],
    second: &[u32],
    third: &[u32],
    fourth: &[u32],
    sum: &mut [u32; 16],
) -> Option<usize>
    ensures within { IfSome result (λ len. len ≤ 16) }
    ensures sum { IfSome result (λ len. take len sum.new
        ≡ xor_sets (xor_sets first.now second.now) (xor_sets third.now fourth.now)) }
{
    let mut front = [0; FEW];
    let mut back = [0; FEW];
    match (
        sum_few(first, second, &mut front),
        sum_few(third, fourth, &mut back),
    ) {
        (Some(front_len), Some(back_len)) => sum_few(&front[..front_len], &back[..back_len], sum),
        _ => None,
    }
}

/// Puts a list into `into` the other way round, in place of what it held.
pub(crate) fn list_ascending<B: Allocator + Copy>(
    items: &[u32],
    into: &mut Vec<u32, B>,
) -> Result<(), AllocError>
    ensures { OnOk result (into.new.items ≡ reverse items.now) }
{
    if items.len() > FEW {
        return copy_reversed(items, into);
    }
    into.clear();
    into.reserve(items.len())?;
    let mut left = items.len();
    while left > 0 {
        left -= 1;
        into.push_reserved(items[left]);
    }
    Ok(())
}

// The same for a long list, whose memory is copied in one go.
#[inline(never)]
fn copy_reversed<B: Allocator + Copy>(
    items: &[u32],
    into: &mut Vec<u32, B>,
) -> Result<(), AllocError>
    ensures { OnOk result (into.new.items ≡ reverse items.now) }
{
    into.clear();
    into.extend_from_slice(items)?;
    into.as_mut_slice().reverse();
    Ok(())
}

/// Puts targets in place of what a list holds, the other way round, where they ascend, and answers whether they do. Their memory
/// is copied in one go. The list is empty where they don't ascend, and after an error.
#[inline(never)]
pub(crate) fn put_ascending<A: Allocator + Copy>(
    items: &mut SmallVec<u32, 4, A>,
    targets: &[u32],
) -> Result<bool, AllocError>
    ensures put { IfOk result (λ put. put ≡ true → items.new.items ≡ reverse targets.now) }
    ensures descends { (m : ℕ) → All (λ t. t < m) targets.now → DescendsBelow m items.new.items }
{
    items.clear();
    if !ascends(targets) {
        return Ok(false);
    }
    items.extend_from_slice(targets)?;
    items.as_mut_slice().reverse();
    Ok(true)
}

// Whether each of these is less than the next.
fn ascends(targets: &[u32]) -> bool
    ensures { result ≡ true
        → (m : ℕ)
        → All (λ t. t < m) targets.now
        → DescendsBelow m (reverse targets.now) }
{
    for i in 0..targets.len() {
        if !rises_at(targets, i) {
            return false;
        }
    }
    true
}

// Whether the target at an index is greater than the one before it, if there is one.
#[inline(always)]
fn rises_at(targets: &[u32], i: usize) -> bool
    requires { i < length targets.now }
    ensures { result ≡ true → 0 < i → slice_index targets.now (i - 1) < slice_index targets.now i }
{
    i == 0 || targets[i - 1] < targets[i]
}
