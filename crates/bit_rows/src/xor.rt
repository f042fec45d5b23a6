// The exclusive or of two lists of words, eight words at a time.
ghost use Rattle.std.specs.Prelude.{◌≡◌, ℕ, ◌+◌, ◌*◌, ◌/◌, ◌≤◌, length, slice_index, bit_xor};
ghost use Rattle.bit_rows.specs.private.Spans.{XorsWithin};

use std::simd::prelude::*;

pub(crate) fn xor_words(first: &mut [u64], second: &[u64])
    requires { length first.old ≡ length second.now }
    ensures { (k : ℕ)
        → slice_index first.new k ≡ bit_xor (slice_index first.old k) (slice_index second.now k) }
{
    xor_blocks(first, second);
    for i in second.len() / 8 * 8..second.len() {
        first[i] ^= second[i];
    }
}

// The whole blocks of eight words.
pub(crate) fn xor_blocks(first: &mut [u64], second: &[u64])
    requires { length first.old ≡ length second.now }
    ensures { XorsWithin first.old second.now first.new 0 (length second.now / 8 * 8) }
{
    for block in 0..second.len() / 8 {
        xor_block(first, second, block * 8);
    }
}

#[inline(always)]
pub(crate) fn xor_block(first: &mut [u64], second: &[u64], at: usize)
    requires own { at + 8 ≤ length first.old }
    requires other { at + 8 ≤ length second.now }
    ensures { XorsWithin first.old second.now first.new at (at + 8) }
{
    let block = u64x8::from_slice(&first[at..]) ^ u64x8::from_slice(&second[at..]);
    block.copy_to_slice(&mut first[at..]);
}
