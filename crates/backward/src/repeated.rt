//! The lists of records of a turn of a REPEAT block, compared with those of the turn behind it.
ghost use Rattle.std.specs.Prelude.{◌≡◌, ℕ, ◌+◌, ◌-◌, ◌<◌, ◌≤◌, [], true, length, slice_index_or, IfOk, IfSome};
ghost use Rattle.backward.specs.private.MovedTargets.{IsShiftOf, earlier_list, list_then};
ghost use Rattle.step_model.specs.TargetSets.{members};

use crate::moved::{Shift, is_earlier};
use flat_lists::FlatLists;
use record_targets::ChangingLists;
use std::alloc::{AllocError, Allocator};

/// The lists of some records, as they stand; none where one doesn't stand as it is asked for.
pub(crate) fn kept_lists<'s, A: Allocator + Copy>(
    alloc: A,
    lists: &ChangingLists<'s, A>,
    from: usize,
    to: usize,
) -> Result<Option<FlatLists<u32, A>>, AllocError>
    requires order { from ≤ to }
    requires within { to ≤ length lists.now }
    ensures count { IfOk result (λ kept. IfSome kept (λ kept. length kept ≡ to - from)) }
    ensures each { IfOk result (λ kept. IfSome kept (λ kept. (r : ℕ)
        → from ≤ r
        → r < to
        → slice_index_or kept (r - from) [] ≡ members (slice_index_or lists.now r []))) }
{
    // First, so that none is copied where one is missing.
    if !are_lent(lists, from, to) {
        return Ok(None);
    }
    let mut kept = FlatLists::new(alloc);
    for rec in from..to {
        match lists.lent(rec) {
            Some(list) => kept.push(list)?,
            None => return Ok(None),
        }
    }
    Ok(Some(kept))
}

// Whether the lists of some records all stand as they are asked for.
fn are_lent<'s, A: Allocator + Copy>(lists: &ChangingLists<'s, A>, from: usize, to: usize) -> bool
    requires { to ≤ length lists.now }
{
    for rec in from..to {
        if lists.lent(rec).is_none() {
            return false;
        }
    }
    true
}

/// The lowest record from which on the lists of all records up to `end` are those of the turn after them, one turn earlier; `least`
/// or more. The lists of the turn's records, which begin at `end`, are kept. A record whose list doesn't stand as it is asked for
/// ends them.
pub(crate) fn repeated_from<'s, A: Allocator + Copy>(
    lists: &ChangingLists<'s, A>,
    kept: &FlatLists<u32, A>,
    least: usize,
    end: usize,
    shift: &Shift,
) -> usize
    requires order { least ≤ end }
    requires within { end ≤ length lists.now }
    ensures above { least ≤ result }
    ensures below { result ≤ end }
    ensures each { (r : ℕ)
        → result ≤ r
        → r < end
        → members (slice_index_or lists.now r [])
        ≡ earlier_list shift.now (list_then lists.now end kept.now (r + length kept.now)) }
{
    let mut from = end;
    while from > least && is_repeated(lists, kept, end, from - 1, shift) {
        from -= 1;
    }
    from
}

// Whether the list of a record is that of the record a turn later, one turn earlier.
fn is_repeated<'s, A: Allocator + Copy>(
    lists: &ChangingLists<'s, A>,
    kept: &FlatLists<u32, A>,
    end: usize,
    rec: usize,
    shift: &Shift,
) -> bool
    requires rec { rec < end }
    requires within { end ≤ length lists.now }
    ensures { result ≡ true
        → members (slice_index_or lists.now rec [])
        ≡ earlier_list shift.now (list_then lists.now end kept.now (rec + length kept.now)) }
{
    match lent_both(lists, kept, end, rec) {
        Some((list, other)) => is_earlier(list, other, shift),
        None => false,
    }
}

// The lists of a record before `end` and of the one a turn later, where both stand as they are asked for. No record has a
// number that doesn't fit.
fn lent_both<'l, 's, A: Allocator + Copy>(
    lists: &'l ChangingLists<'s, A>,
    kept: &'l FlatLists<u32, A>,
    end: usize,
    rec: usize,
) -> Option<(&'l [u32], &'l [u32])>
    requires rec { rec < end }
    requires within { end ≤ length lists.now }
    ensures first { IfSome result (λ both. both.0.now
        ≡ members (slice_index_or lists.now rec [])) }
    ensures second { IfSome result (λ both. both.1.now
        ≡ list_then lists.now end kept.now (rec + length kept.now)) }
{
    let list = lists.lent(rec)?;
    let later = rec.checked_add(kept.len())?;
    if later < end {
        Some((list, lists.lent(later)?))
    } else {
        Some((list, kept.get(later - end)))
    }
}

/// By how much the detectors of the turn before `end` lie before those of the turn behind it, whose lists are kept: a guess. The
/// last record in whose list a detector is first says by how many. Detectors stay behind all that are listed, and behind all in whose
/// words a letter goes away before the turn: `words` are the lists of the words before and behind it.
pub(crate) fn guessed_shift<'s, A: Allocator + Copy>(
    lists: &ChangingLists<'s, A>,
    kept: &FlatLists<u32, A>,
    end: usize,
    words: (&FlatLists<u32, A>, &FlatLists<u32, A>),
    detectors: usize,
    targets: usize,
) -> Shift
    requires within { end ≤ length lists.now }
    requires few { detectors ≤ targets }
    ensures { IsShiftOf detectors targets result }
{
    let (before, behind) = words;
    Shift {
        by: detectors_moved(lists, kept, end, detectors),
        staying: end_of_listed(kept, detectors).max(end_of_gone(before, behind, detectors)),
        detectors,
        targets,
    }
}

// The number behind the greatest detector that is in a list and not in that at the same place of `before`; 0 where there is none.
fn end_of_gone<A: Allocator + Copy>(
    before: &FlatLists<u32, A>,
    lists: &FlatLists<u32, A>,
    detectors: usize,
) -> usize
    ensures { result ≤ detectors }
{
    let mut end = 0;
    for i in 0..before.len().min(lists.len()) {
        end = end_without(before.get(i), lists.get(i), detectors).max(end);
    }
    end
}

// The number behind the greatest detector that is in a list and not in another, where both ascend; 0 where there is none.
fn end_without(other: &[u32], list: &[u32], detectors: usize) -> usize
    ensures { result ≤ detectors }
{
    let mut end = 0;
    let mut at = 0;
    for target in list {
        while at < other.len() && other[at] < *target {
            at += 1;
        }
        let is_there = at < other.len() && other[at] == *target;
        if !is_there && (*target as usize) < detectors {
            end = *target as usize + 1;
        }
    }
    end
}

// The number behind the greatest detector that is last but for observables in one of these lists; 0 where there is none.
fn end_of_listed<A: Allocator + Copy>(lists: &FlatLists<u32, A>, detectors: usize) -> usize
    ensures { result ≤ detectors }
{
    let mut end = 0;
    for i in 0..lists.len() {
        for target in lists.get(i) {
            if (*target as usize) < detectors && *target as usize >= end {
                end = *target as usize + 1;
            }
        }
    }
    end
}

// By how many detectors the lists of the records before `end` lie before those a turn later, of which those from `end` on are
// kept, by the last of them in which a detector is first; 0 where none of the last turn is such.
fn detectors_moved<'s, A: Allocator + Copy>(
    lists: &ChangingLists<'s, A>,
    kept: &FlatLists<u32, A>,
    end: usize,
    detectors: usize,
) -> usize
    requires { end ≤ length lists.now }
{
    for i in 0..kept.len().min(end) {
        if let Some(by) = first_moved(lists, kept, end, end - 1 - i, detectors) {
            return by;
        }
    }
    0
}

// By how many detectors the first target of a record lies earlier than that of the record a turn later, where both are detectors.
fn first_moved<'s, A: Allocator + Copy>(
    lists: &ChangingLists<'s, A>,
    kept: &FlatLists<u32, A>,
    end: usize,
    rec: usize,
    detectors: usize,
) -> Option<usize>
    requires rec { rec < end }
    requires within { end ≤ length lists.now }
{
    let (list, other) = lent_both(lists, kept, end, rec)?;
    let first = *list.first()? as usize;
    let moved = *other.first()? as usize;
    if first <= moved && moved < detectors {
        Some(moved - first)
    } else {
        None
    }
}
