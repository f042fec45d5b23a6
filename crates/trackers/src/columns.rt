//! All columns: kept as lists, restored from them, and asked where their words anticommute with a product.
ghost use Rattle.std.specs.Prelude.{◌≡◌, ◌<◌, ◌≤◌, ◌*◌, ◌^◌, ◌∷◌, [], length, reverse, take, All, IfOk, IfSome, OnOk, map, slice_index_or};
ghost use Rattle.trackers.specs.Tracked.{anticommuting};
ghost use Rattle.trackers.specs.private.Transposed.{lists_of_each, tracked_of, AreRestored};

use crate::clashing::clashing;
use crate::column::{Column, is_y};
use crate::descending::{FEW, list_ascending};
use crate::target_set::TargetSet;
use flat_lists::FlatLists;
use std::alloc::{AllocError, Allocator};
use step_model::Term;

/// The lists of each column.
pub(crate) fn keep_columns<S: TargetSet, B: Allocator + Copy>(
    columns: &[Column<S>],
    alloc: B,
) -> Result<FlatLists<u32, B>, AllocError>
    requires { All (λ column. length column ≤ 2 ^ 32) columns.now }
    ensures { IfOk result (λ lists. lists ≡ lists_of_each columns.now) }
{
    let mut lists = FlatLists::with_room(alloc, columns.len().saturating_mul(2))?;
    let mut list = Vec::new(alloc);
    for column in columns {
        column.keep(&mut lists, &mut list)?;
    }
    Ok(lists)
}

/// Makes each column that for which its two lists stand.
pub(crate) fn restore_columns<S: TargetSet, B: Allocator + Copy>(
    columns: &mut [Column<S>],
    lists: &FlatLists<u32, B>,
) -> Result<(), AllocError>
    requires two_each { length lists.now ≡ 2 * length columns.old }
    requires named { All (λ column. All (All (λ t. t < length column)) lists.now) columns.old }
    ensures ok { OnOk result (AreRestored lists.now columns.old columns.new) }
    ensures long { map length columns.new ≡ map length columns.old }
{
    for q in 0..lists.len() / 2 {
        columns[q].restore(lists.get(2 * q), lists.get(2 * q + 1))?;
    }
    Ok(())
}

/// Lists the targets whose words anticommute with the product of these letters. After an error the list may hold some
/// of them, or what it held.
#[inline(always)]
pub(crate) fn list_hit<S: TargetSet, B: Allocator + Copy>(
    columns: &[Column<S>],
    terms: &[Term],
    set: &mut S,
    spare: &mut S,
    hit: &mut Vec<u32, B>,
) -> Result<(), AllocError>
    requires terms { All (λ term. term.qubit < length columns.now) terms.now }
    requires long { All (λ column. length column ≡ length (S.bits set.old)) columns.now }
    requires spare { length (S.bits spare.old) ≡ length (S.bits set.old) }
    requires few { length (S.bits set.old) ≤ 2 ^ 32 }
    ensures hit { OnOk result
        (hit.new.items
        ≡ anticommuting terms.now (tracked_of (length (S.bits set.old)) columns.now)) }
    ensures len { length (S.bits set.new) ≡ length (S.bits set.old) }
    ensures spare { length (S.bits spare.new) ≡ length (S.bits spare.old) }
{
    if let [term] = terms {
        if let Some(set) = columns[term.qubit as usize].kept_clashing(term.letter) {
            return set.list(hit);
        }
    }
    if let [first, second] = terms {
        let mut sum = [0; FEW];
        if let Some(len) = sum_both(columns, first, second, &mut sum) {
            return list_ascending(&sum[..len], hit);
        }
    }
    clashing(columns, terms, set, spare)?;
    set.list(hit)
}

/// Puts the targets whose words anticommute with the product of two letters at the start of `sum`, from the greatest down,
/// and answers how many these are, where it does: it need not.
#[inline(never)]
fn sum_both<S: TargetSet>(
    columns: &[Column<S>],
    first: &Term,
    second: &Term,
    sum: &mut [u32; FEW],
) -> Option<usize>
    requires first_in_range { first.now.qubit < length columns.now }
    requires second_in_range { second.now.qubit < length columns.now }
    requires same { length (slice_index_or columns.now first.now.qubit [])
        ≡ length (slice_index_or columns.now second.now.qubit []) }
    ensures within { IfSome result (λ len. len ≤ FEW) }
    ensures sum { IfSome result (λ len. reverse (take len sum.new)
        ≡ anticommuting (first.now ∷ second.now ∷ [])
        (tracked_of (length (slice_index_or columns.now first.now.qubit [])) columns.now)) }
{
    let one = &columns[first.qubit as usize];
    let other = &columns[second.qubit as usize];
    if is_y(first.letter) && is_y(second.letter) {
        return one.sum_clashing_y(other, sum);
    }
    match (
        one.kept_clashing(first.letter),
        other.kept_clashing(second.letter),
    ) {
        (Some(one), Some(other)) => one.sum_few(other, sum),
        _ => None,
    }
}
