// The product of two Pauli words in one pass: the x bits and the z bits of the first, lists of machine words, become
// those of the product, and the power of i is answered. It goes four machine words at a time, so that the carry words
// stay in registers of 16 bytes, and goes from block to block that has a mark: in others the second word has no letters.
ghost use Rattle.std.specs.Prelude.{◌≡◌, ℕ, ◌+◌, ◌*◌, ◌/◌, ◌%◌, ◌<◌, ◌≤◌, true, length, slice_index};
ghost use Rattle.bit_rows.specs.private.Marks.{BlanksBelow};
ghost use Rattle.bit_rows.specs.private.Multiplied.{HaveOneLength, MarksBoth, Multiplies, MultipliesFirst};
ghost use Rattle.bit_rows.specs.private.Spans.{XorsWithin};
ghost use Rattle.bit_rows.specs.private.WordTotals.{carried, word_phase};

use crate::marks::{mark_block_where, marked_block};
use crate::phase::{carry, carry_block, join_lanes, power_held};
use std::simd::prelude::*;

// Answers the power of i and, as bits, words that are known to have no letter left.
#[inline(always)]
pub(crate) fn multiply_words(
    xa: &mut [u64],
    za: &mut [u64],
    xb: &[u64],
    zb: &[u64],
    marks: u64,
) -> (u8, u64)
    requires long { HaveOneLength xa.old za.old xb.now zb.now }
    requires marks { MarksBoth marks xb.now zb.now }
    ensures product { Multiplies xa.old za.old xb.now zb.now xa.new za.new result.0 }
    ensures blank { BlanksBelow result.1 xa.new za.new (length xa.old) }
{
    if xb.len() < 4 {
        return (multiply_few(xa, za, xb, zb), 0);
    }
    multiply_many(xa, za, xb, zb, marks)
}

// The same for words of less than a block.
#[inline(always)]
fn multiply_few(xa: &mut [u64], za: &mut [u64], xb: &[u64], zb: &[u64]) -> u8
    requires { HaveOneLength xa.old za.old xb.now zb.now }
    ensures { Multiplies xa.old za.old xb.now zb.now xa.new za.new result }
{
    let mut ones = 0u64;
    let mut twos = 0u64;
    for i in 0..xb.len() {
        let x = xb[i];
        let z = zb[i];
        (ones, twos) = carry(ones, twos, xa[i], za[i], x, z);
        xa[i] ^= x;
        za[i] ^= z;
    }
    (power_held(ones, twos) % 4) as u8
}

// The same for words of a block or more. It is never inlined: that would slow its callers where words are short.
#[inline(never)]
fn multiply_many(xa: &mut [u64], za: &mut [u64], xb: &[u64], zb: &[u64], marks: u64) -> (u8, u64)
    requires long { HaveOneLength xa.old za.old xb.now zb.now }
    requires marks { MarksBoth marks xb.now zb.now }
    ensures product { Multiplies xa.old za.old xb.now zb.now xa.new za.new result.0 }
    ensures blank { BlanksBelow result.1 xa.new za.new (length xa.old) }
{
    let (mut ones, mut twos, noted) = multiply_blocks(xa, za, xb, zb, marks);
    for i in xb.len() / 4 * 4..xb.len() {
        (ones, twos) = carry(ones, twos, xa[i], za[i], xb[i], zb[i]);
        xa[i] ^= xb[i];
        za[i] ^= zb[i];
    }
    ((power_held(ones, twos) % 4) as u8, noted)
}

// The whole blocks of four words, of which most have no mark where a word is long: answers the carry words after them, and the words without letters as above.
fn multiply_blocks(
    xa: &mut [u64],
    za: &mut [u64],
    xb: &[u64],
    zb: &[u64],
    marks: u64,
) -> (u64, u64, u64)
    requires long { HaveOneLength xa.old za.old xb.now zb.now }
    requires marks { MarksBoth marks xb.now zb.now }
    ensures product { MultipliesFirst xa.old za.old xb.now zb.now xa.new za.new
        (carried result.0 result.1) (length xb.now / 4 * 4) }
    ensures blank { BlanksBelow result.2 xa.new za.new (length xb.now / 4 * 4) }
{
    if marks.trailing_ones() as usize >= xb.len() / 4 * 4 {
        let (ones, twos) = multiply_all(xa, za, xb, zb);
        return (ones, twos, 0);
    }
    let mut ones = u64x4::splat(0);
    let mut twos = u64x4::splat(0);
    let mut noted = 0u64;
    let end = xb.len() / 4;
    let mut block = marked_block(marks, 0, end);
    while block < end {
        let (next_ones, next_twos, emptied) = multiply_block(ones, twos, xa, za, xb, zb, block);
        ones = next_ones;
        twos = next_twos;
        noted = mark_block_where(noted, block, emptied);
        block = marked_block(marks, block + 1, end);
    }
    let (one, two) = join_lanes(&ones.to_array(), &twos.to_array());
    (one, two, noted)
}

// The same where every word may have letters: no mark is looked at, and no word is noted as empty.
fn multiply_all(xa: &mut [u64], za: &mut [u64], xb: &[u64], zb: &[u64]) -> (u64, u64)
    requires { HaveOneLength xa.old za.old xb.now zb.now }
    ensures { MultipliesFirst xa.old za.old xb.now zb.now xa.new za.new
        (carried result.0 result.1) (length xb.now / 4 * 4) }
{
    let mut ones = u64x4::splat(0);
    let mut twos = u64x4::splat(0);
    for block in 0..xb.len() / 4 {
        (ones, twos) = carry_block(ones, twos, xa, za, xb, zb, block * 4);
        xor_both(xa, za, xb, zb, block * 4);
    }
    join_lanes(&ones.to_array(), &twos.to_array())
}

// One block. The last answer is true only where no letter is left in it.
#[inline(always)]
fn multiply_block(
    ones: u64x4,
    twos: u64x4,
    xa: &mut [u64],
    za: &mut [u64],
    xb: &[u64],
    zb: &[u64],
    block: usize,
) -> (u64x4, u64x4, bool)
    requires xa { block * 4 + 4 ≤ length xa.old }
    requires za { block * 4 + 4 ≤ length za.old }
    requires xb { block * 4 + 4 ≤ length xb.now }
    requires zb { block * 4 + 4 ≤ length zb.now }
    ensures power { (k : ℕ) → k < 4 → carried (slice_index result.0 k) (slice_index result.1 k) % 4
        ≡ (carried (slice_index ones k) (slice_index twos k)
        + word_phase (slice_index xa.old (block * 4 + k)) (slice_index za.old (block * 4 + k))
        (slice_index xb.now (block * 4 + k)) (slice_index zb.now (block * 4 + k))) % 4 }
    ensures x { XorsWithin xa.old xb.now xa.new (block * 4) (block * 4 + 4) }
    ensures z { XorsWithin za.old zb.now za.new (block * 4) (block * 4 + 4) }
    ensures emptied { result.2 ≡ true
        → (k : ℕ)
        → k < 4
        → (slice_index xa.new (block * 4 + k) ≡ 0) × (slice_index za.new (block * 4 + k) ≡ 0) }
{
    let (next_ones, next_twos) = carry_block(ones, twos, xa, za, xb, zb, block * 4);
    let bits = xor_both(xa, za, xb, zb, block * 4);
    (next_ones, next_twos, bits == 0)
}

// Both exclusive ors are made before either is written, so that no word is read twice. Answers the bits that are set
// in any of the new words.
#[inline(always)]
fn xor_both(xa: &mut [u64], za: &mut [u64], xb: &[u64], zb: &[u64], at: usize) -> u64
    requires xa { at + 4 ≤ length xa.old }
    requires za { at + 4 ≤ length za.old }
    requires xb { at + 4 ≤ length xb.now }
    requires zb { at + 4 ≤ length zb.now }
    ensures x { XorsWithin xa.old xb.now xa.new at (at + 4) }
    ensures z { XorsWithin za.old zb.now za.new at (at + 4) }
    ensures blank { result ≡ 0
        → (k : ℕ)
        → k < 4
        → (slice_index xa.new (at + k) ≡ 0) × (slice_index za.new (at + k) ≡ 0) }
{
    let x = u64x4::from_slice(&xa[at..]) ^ u64x4::from_slice(&xb[at..]);
    let z = u64x4::from_slice(&za[at..]) ^ u64x4::from_slice(&zb[at..]);
    x.copy_to_slice(&mut xa[at..]);
    z.copy_to_slice(&mut za[at..]);
    (x | z).reduce_or()
}
