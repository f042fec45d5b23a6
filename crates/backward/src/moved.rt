//! Lists of targets, compared with those of a later turn of a REPEAT block, whose detectors are some number later; and those of many
//! turns earlier.
ghost use Rattle.std.specs.Prelude.{◌≡◌, ◌≤◌, [], ◌∷◌, ◌++◌, ◌*◌, map, take, true, length, All, IfOk, IfSome, OnOk, option_to_list};
ghost use Rattle.backward.specs.private.MovedTargets.{IsClear, earlier_list, grown_list, grown_lists, moved_list, picked, steps_before, window_end};

use flat_lists::FlatLists;
use std::alloc::{AllocError, Allocator};

/// By how much detectors of a turn lie before those of the turn after it. The targets from one on stay: those are observables, and
/// detectors that the turns don't know.
#[derive(Clone, Copy)]
pub(crate) struct Shift {
    pub(crate) by: usize,
    pub(crate) staying: usize,
    /// How many detectors and targets there are.
    pub(crate) detectors: usize,
    pub(crate) targets: usize,
}

impl Shift {
    // The end of the first detectors that stay: each has one before it that doesn't.
    #[inline(always)]
    fn window_end(&self) -> usize
        ensures { result ≡ window_end self.now }
    {
        self.staying.saturating_add(self.by).min(self.detectors)
    }
}

/// Whether a list is that of one turn earlier.
pub(crate) fn is_earlier(list: &[u32], later: &[u32], shift: &Shift) -> bool
    ensures { result ≡ true → list.now ≡ earlier_list shift.now later.now }
{
    let Some(middle) = end_of_picked(list, 0, later, shift.by, shift.window_end(), shift.by) else {
        return false;
    };
    match end_of_picked(list, middle, later, shift.staying, shift.targets, 0) {
        Some(end) => end == list.len(),
        None => false,
    }
}

// Where those of a list end that are at least `low` and below `high`, moved to be `by` earlier, where they stand in another
// list from an index on.
#[inline(always)]
fn end_of_picked(
    list: &[u32],
    from: usize,
    later: &[u32],
    low: usize,
    high: usize,
    by: usize,
) -> Option<usize>
    requires low { by ≤ low }
    requires from { from ≤ length list.now }
    ensures within { IfSome result (λ end. end ≤ length list.now) }
    ensures picked { IfSome result (λ end. take end list.now
        ≡ take from list.now ++ picked low high by later.now) }
{
    let mut at = from;
    for i in 0..later.len() {
        let target = later[i] as usize;
        if low <= target && target < high {
            if at >= list.len() || list[at] as usize != target - by {
                return None;
            }
            at += 1;
        }
    }
    Some(at)
}

/// The same of all lists.
pub(crate) fn are_earlier<A: Allocator + Copy>(
    lists: &FlatLists<u32, A>,
    later: &FlatLists<u32, A>,
    shift: &Shift,
) -> bool
    ensures { result ≡ true → lists.now ≡ map (earlier_list shift.now) later.now }
{
    if lists.len() != later.len() {
        return false;
    }
    for i in 0..later.len() {
        if !is_earlier(lists.get(i), later.get(i), shift) {
            return false;
        }
    }
    true
}

/// Whether no list has one of the first detectors that stay.
pub(crate) fn are_clear<A: Allocator + Copy>(lists: &FlatLists<u32, A>, shift: &Shift) -> bool
    ensures { result ≡ true → All (IsClear shift.now) lists.now }
{
    for i in 0..lists.len() {
        if !is_clear(lists.get(i), shift) {
            return false;
        }
    }
    true
}

fn is_clear(list: &[u32], shift: &Shift) -> bool
    ensures { result ≡ true → IsClear shift.now list.now }
{
    let end = shift.window_end();
    for target in list {
        if shift.staying <= *target as usize && (*target as usize) < end {
            return false;
        }
    }
    true
}

/// How many targets more lists have so many turns earlier.
pub(crate) fn growth<A: Allocator + Copy>(
    lists: &FlatLists<u32, A>,
    turns: usize,
    shift: &Shift,
) -> usize {
    let mut count: usize = 0;
    for i in 0..lists.len() {
        count = count.saturating_add(first_count(lists.get(i), shift));
    }
    count.saturating_mul(turns)
}

// How many of the first detectors that stay a list has.
fn first_count(list: &[u32], shift: &Shift) -> usize {
    let end = shift.window_end();
    let mut count: usize = 0;
    for target in list {
        if shift.staying <= *target as usize && (*target as usize) < end {
            count = count.saturating_add(1);
        }
    }
    count
}

/// Lists of targets so many turns earlier.
pub(crate) fn grown_lists<A: Allocator + Copy>(
    alloc: A,
    lists: &FlatLists<u32, A>,
    turns: usize,
    shift: &Shift,
) -> Result<FlatLists<u32, A>, AllocError>
    requires far { turns * shift.now.by ≤ usize.MAX }
    ensures { IfOk result (λ grown. grown ≡ grown_lists shift.now turns lists.now) }
{
    let mut grown = FlatLists::with_rooms(alloc, lists.len(), item_count(lists))?;
    let mut list = Vec::new(alloc);
    let mut first = Vec::new(alloc);
    for i in 0..lists.len() {
        grow_list(lists.get(i), turns, shift, &mut first, &mut list)?;
        grown.push(list.as_slice())?;
    }
    Ok(grown)
}

// Puts a list of so many turns earlier into `into`, in place of what it held.
fn grow_list<A: Allocator + Copy>(
    list: &[u32],
    turns: usize,
    shift: &Shift,
    first: &mut Vec<u32, A>,
    into: &mut Vec<u32, A>,
) -> Result<(), AllocError>
    requires far { turns * shift.now.by ≤ usize.MAX }
    ensures { OnOk result (into.new.items ≡ grown_list shift.now turns list.now) }
{
    let far = turns * shift.by;
    into.clear();
    first.clear();
    pick(list, far, shift.staying, far, into)?;
    pick(list, shift.staying, shift.window_end(), 0, first)?;
    put_steps(first.as_slice(), turns, shift, into)?;
    pick(list, shift.staying, shift.targets, 0, into)
}

// Puts the detectors before these, which are the first that stay, so many turns earlier and less, behind others.
fn put_steps<A: Allocator + Copy>(
    first: &[u32],
    turns: usize,
    shift: &Shift,
    into: &mut Vec<u32, A>,
) -> Result<(), AllocError>
    requires far { turns * shift.now.by ≤ usize.MAX }
    ensures { OnOk result
        (into.new.items ≡ into.old.items ++ steps_before shift.now turns first.now) }
{
    // As most words of most blocks.
    if first.is_empty() {
        return Ok(());
    }
    let mut left = turns;
    while left > 0 {
        let far = left * shift.by;
        pick(first, far, shift.window_end(), far, into)?;
        left -= 1;
    }
    Ok(())
}

// Puts those of a list that are at least `low` and below `high`, moved to be `by` earlier, behind others.
#[inline(always)]
fn pick<A: Allocator + Copy>(
    list: &[u32],
    low: usize,
    high: usize,
    by: usize,
    into: &mut Vec<u32, A>,
) -> Result<(), AllocError>
    requires { by ≤ low }
    ensures { OnOk result (into.new.items ≡ into.old.items ++ picked low high by list.now) }
{
    for target in list {
        let target = *target as usize;
        if low <= target && target < high {
            into.push((target - by) as u32)?;
        }
    }
    Ok(())
}

// A target that is below `staying`, moved to be `by` earlier; others stay.
#[inline(always)]
fn moved_target(target: u32, by: usize, staying: usize) -> Option<u32>
    ensures { option_to_list result ≡ moved_list staying by (target ∷ []) }
{
    if target as usize >= staying {
        Some(target)
    } else if (target as usize) < by {
        None
    } else {
        Some((target as usize - by) as u32)
    }
}

/// How many lists and items of lists there are.
pub(crate) fn size_of_lists<A: Allocator + Copy>(lists: &FlatLists<u32, A>) -> usize {
    item_count(lists).saturating_add(lists.len())
}

/// How many items lists have in all.
pub(crate) fn item_count<A: Allocator + Copy>(lists: &FlatLists<u32, A>) -> usize {
    let mut count: usize = 0;
    for i in 0..lists.len() {
        count = count.saturating_add(lists.get(i).len());
    }
    count
}

/// Puts a list of targets, those below `staying` moved to be `by` earlier, into `into`, in place of what it held.
pub(crate) fn move_list<A: Allocator + Copy>(
    list: &[u32],
    by: usize,
    staying: usize,
    into: &mut Vec<u32, A>,
) -> Result<(), AllocError>
    ensures { OnOk result (into.new.items ≡ moved_list staying by list.now) }
{
    into.clear();
    for target in list {
        if let Some(moved) = moved_target(*target, by, staying) {
            into.push(moved)?;
        }
    }
    Ok(())
}
