// Whether two lists of words have an odd number of common ones, eight words at a time.
ghost use Rattle.std.specs.Prelude.{◌≡◌, ◌==◌, ◌+◌, ◌*◌, ◌/◌, ◌%◌, ◌≤◌, length, bit_and, bit_xor};
ghost use Rattle.std.specs.Simd.Lanes.{zip2, chunk};
ghost use Rattle.bit_rows.specs.private.WordTotals.{common_ones, word_ones};

use std::simd::prelude::*;

pub(crate) fn has_odd_common_ones(first: &[u64], second: &[u64]) -> bool
    requires { length first.now ≡ length second.now }
    ensures { result ≡ (common_ones first.now second.now (length first.now) % 2 == 1) }
{
    let mut odd = fold_blocks(first, second);
    for i in first.len() / 8 * 8..first.len() {
        odd ^= first[i] & second[i];
    }
    odd.count_ones() % 2 == 1
}

// A word with as many ones, modulo 2, as the whole blocks of eight words have in common.
fn fold_blocks(first: &[u64], second: &[u64]) -> u64
    requires { length first.now ≡ length second.now }
    ensures { word_ones result % 2
        ≡ common_ones first.now second.now (length first.now / 8 * 8) % 2 }
{
    let mut odd = u64x8::splat(0);
    for block in 0..first.len() / 8 {
        odd = fold_block(odd, first, second, block * 8);
    }
    odd.reduce_xor()
}

#[inline(always)]
fn fold_block(odd: u64x8, first: &[u64], second: &[u64], at: usize) -> u64x8
    requires first { at + 8 ≤ length first.now }
    requires second { at + 8 ≤ length second.now }
    ensures { result
        ≡ zip2 bit_xor odd (zip2 bit_and (chunk at 8 first.now) (chunk at 8 second.now)) }
{
    odd ^ (u64x8::from_slice(&first[at..]) & u64x8::from_slice(&second[at..]))
}
