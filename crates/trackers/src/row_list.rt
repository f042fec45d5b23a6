//! The targets of a set that is a row of bits, listed word by word.
ghost use Rattle.std.specs.Prelude.{◌≡◌, ◌<◌, ◌≤◌, ◌+◌, ◌*◌, ◌^◌, false, filter, length, OnOk, slice_index_or};
ghost use Rattle.std.specs.List.{range_with_len};
ghost use Rattle.step_model.specs.TargetSets.{members};

use bit_rows::{BitRow, lanes};
use std::alloc::{AllocError, Allocator};

/// Puts the places at which a row has a one into `into`, ascending, in place of what it held.
#[inline(never)]
pub(crate) fn list_row<A: Allocator + Copy, B: Allocator + Copy>(
    row: &BitRow<A>,
    into: &mut Vec<u32, B>,
) -> Result<(), AllocError>
    requires { length row.now ≤ 2 ^ 32 }
    ensures { OnOk result (into.new.items ≡ members row.now) }
{
    into.clear();
    for k in 0..row.len().div_ceil(64) {
        list_word(row, k, into)?;
    }
    Ok(())
}

// Appends those of the 64 places from place 64·k on, where those before are listed.
#[inline(always)]
fn list_word<A: Allocator + Copy, B: Allocator + Copy>(
    row: &BitRow<A>,
    k: usize,
    into: &mut Vec<u32, B>,
) -> Result<(), AllocError>
    requires few { length row.now ≤ 2 ^ 32 }
    requires within { 64 * k < length row.now }
    requires listed { into.old.items
        ≡ filter (λ t. slice_index_or row.now t false) (range_with_len 0 (64 * k)) }
    ensures { OnOk result
        (into.new.items
        ≡ filter (λ t. slice_index_or row.now t false) (range_with_len 0 (64 * k + 64))) }
{
    let mut rest = row.word(k);
    if rest == 0 {
        return Ok(());
    }
    into.reserve(64)?;
    while let Some(lane) = lanes::first(rest) {
        into.push_reserved((64 * k) as u32 + lane);
        rest = lanes::without_bit(rest, lane);
    }
    Ok(())
}
