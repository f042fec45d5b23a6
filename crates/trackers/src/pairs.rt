//! Two columns of a list: multiplied by images of one another where they stand, exchanged, or made anew.
ghost use Rattle.std.specs.Prelude.{◌≡◌, ◌<◌, [], length, All, OnOk, slice_index_or};
ghost use Rattle.gate_table.specs.Images.{arity_of};
ghost use Rattle.pauli_word.specs.declared.letter.Letter.TheVariants.{I};
ghost use Rattle.trackers.specs.private.Transposed.{ArePlaces, combined, exchanged_columns, first_before, multiplied_columns, second_before};

use crate::column::{Column, multiply_both};
use crate::images::images_before;
use crate::target_set::TargetSet;
use gate_table::Gate;
use pauli_word::Letter;
use std::alloc::AllocError;

/// Multiplies the letters of each of the columns at two places by an image of those of the other. What the first is
/// multiplied by has the image I at the second.
#[inline(always)]
pub(crate) fn multiply_pair<S: TargetSet>(
    columns: &mut [Column<S>],
    a: usize,
    b: usize,
    to_first: (Letter, Letter),
    to_second: (Letter, Letter),
    spare: &mut S,
) -> Result<(), AllocError>
    requires places { ArePlaces (length columns.old) a b }
    requires long { All (λ column. length column ≡ length (S.bits spare.old)) columns.old }
    requires x_is_lost { combined to_second.0 to_second.1 to_first.0 ≡ I }
    requires z_is_lost { combined to_second.0 to_second.1 to_first.1 ≡ I }
    ensures columns { OnOk result
        (columns.new ≡ multiplied_columns a b to_first to_second columns.old) }
    ensures long { All (λ column. length column ≡ length (S.bits spare.old)) columns.new }
    ensures spare { length (S.bits spare.new) ≡ length (S.bits spare.old) }
{
    if a < b {
        let (front, back) = columns.split_at_mut(b);
        multiply_both(&mut front[a], &mut back[0], to_first, to_second, spare)
    } else {
        let (front, back) = columns.split_at_mut(a);
        multiply_both(&mut back[0], &mut front[b], to_first, to_second, spare)
    }
}

/// Puts at each of two places an image of the letters of the column at the other.
#[inline(always)]
pub(crate) fn exchange_pair<S: TargetSet>(
    columns: &mut [Column<S>],
    a: usize,
    b: usize,
    to_first: (Letter, Letter),
    to_second: (Letter, Letter),
    other: &mut Column<S>,
    spare: &mut S,
) -> Result<(), AllocError>
    requires places { ArePlaces (length columns.old) a b }
    requires long { All (λ column. length column ≡ length (S.bits spare.old)) columns.old }
    requires other { length other.old ≡ length (S.bits spare.old) }
    ensures columns { OnOk result
        (columns.new ≡ exchanged_columns a b to_first to_second columns.old) }
    ensures long { All (λ column. length column ≡ length (S.bits spare.old)) columns.new }
    ensures other { length other.new ≡ length other.old }
    ensures spare { length (S.bits spare.new) ≡ length (S.bits spare.old) }
{
    columns.swap(a, b);
    columns[a].become_image(to_first.0, to_first.1, other, spare)?;
    columns[b].become_image(to_second.0, to_second.1, other, spare)
}

/// Makes of two columns those that the columns at two places were before a gate.
pub(crate) fn image_pair<S: TargetSet>(
    columns: &[Column<S>],
    gate: Gate,
    a: usize,
    b: usize,
    first: &mut Column<S>,
    second: &mut Column<S>,
    spare: &mut S,
) -> Result<(), AllocError>
    requires arity { arity_of gate ≡ 2 }
    requires first_place { a < length columns.now }
    requires second_place { b < length columns.now }
    requires long { All (λ column. length column ≡ length (S.bits spare.old)) columns.now }
    requires first_long { length first.old ≡ length (S.bits spare.old) }
    requires second_long { length second.old ≡ length (S.bits spare.old) }
    ensures first { OnOk result
        (first.new
        ≡ first_before gate (slice_index_or columns.now a [])
        (slice_index_or columns.now b [])) }
    ensures second { OnOk result
        (second.new
        ≡ second_before gate (slice_index_or columns.now a [])
        (slice_index_or columns.now b [])) }
    ensures first_len { length first.new ≡ length first.old }
    ensures second_len { length second.new ≡ length second.old }
    ensures spare { length (S.bits spare.new) ≡ length (S.bits spare.old) }
{
    let images = images_before(gate);
    first.set_images(
        &columns[a],
        &columns[b],
        images.first_own,
        images.first_other,
        spare,
    )?;
    second.set_images(
        &columns[a],
        &columns[b],
        images.second_other,
        images.second_own,
        spare,
    )
}
