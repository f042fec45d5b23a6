// The power of i of the product of two Pauli words, whose x bits and z bits are lists of machine words, four at a time.
// Two carry words add the powers modulo 4 at 64 places at once, as Stim does for its products of Pauli strings.
ghost use Rattle.std.specs.Prelude.{◌≡◌, ℕ, ◌+◌, ◌*◌, ◌/◌, ◌%◌, ◌<◌, ◌≤◌, length, slice_index};
ghost use Rattle.bit_rows.specs.private.WordTotals.{carried, carried_by, word_phase, words_phase};

use std::simd::prelude::*;

pub(crate) fn power_of_words(xa: &[u64], za: &[u64], xb: &[u64], zb: &[u64]) -> u8
    requires za { length za.now ≡ length xa.now }
    requires xb { length xb.now ≡ length xa.now }
    requires zb { length zb.now ≡ length xa.now }
    ensures { result ≡ words_phase xa.now za.now xb.now zb.now (length xa.now) % 4 }
{
    let before = power_of_blocks(xa, za, xb, zb);
    let mut ones = 0u64;
    let mut twos = 0u64;
    for i in xa.len() / 4 * 4..xa.len() {
        (ones, twos) = carry(ones, twos, xa[i], za[i], xb[i], zb[i]);
    }
    ((before + power_held(ones, twos)) % 4) as u8
}

// The power of the whole blocks of four words.
fn power_of_blocks(xa: &[u64], za: &[u64], xb: &[u64], zb: &[u64]) -> u32
    requires za { length za.now ≡ length xa.now }
    requires xb { length xb.now ≡ length xa.now }
    requires zb { length zb.now ≡ length xa.now }
    ensures { result ≡ words_phase xa.now za.now xb.now zb.now (length xa.now / 4 * 4) % 4 }
{
    let mut ones = u64x4::splat(0);
    let mut twos = u64x4::splat(0);
    for block in 0..xa.len() / 4 {
        (ones, twos) = carry_block(ones, twos, xa, za, xb, zb, block * 4);
    }
    power_of_lanes(&ones.to_array(), &twos.to_array())
}

fn power_of_lanes(ones: &[u64], twos: &[u64]) -> u32
    requires { length ones.now ≡ length twos.now }
    ensures { result ≡ carried_by ones.now twos.now (length ones.now) % 4 }
{
    let (one, two) = join_lanes(ones, twos);
    power_held(one, two) % 4
}

// The carry words of all lanes joined into two, modulo 4: joining words takes less than counting their ones.
#[inline(always)]
pub(crate) fn join_lanes(ones: &[u64], twos: &[u64]) -> (u64, u64)
    requires { length ones.now ≡ length twos.now }
    ensures { carried result.0 result.1 % 4 ≡ carried_by ones.now twos.now (length ones.now) % 4 }
{
    let mut one = 0u64;
    let mut two = 0u64;
    for k in 0..ones.len() {
        (one, two) = join(one, two, ones[k], twos[k]);
    }
    (one, two)
}

// One pair of carry words that holds, modulo 4, the sum of what two pairs hold.
#[inline(always)]
fn join(ones: u64, twos: u64, more_ones: u64, more_twos: u64) -> (u64, u64)
    ensures { carried result.0 result.1 % 4
        ≡ (carried ones twos + carried more_ones more_twos) % 4 }
{
    (ones ^ more_ones, (twos ^ more_twos) ^ (ones & more_ones))
}

// The power of i that two carry words hold.
#[inline(always)]
pub(crate) fn power_held(ones: u64, twos: u64) -> u32
    ensures value { result ≡ carried ones twos }
    ensures small { result ≤ 192 }
{
    ones.count_ones() + 2 * twos.count_ones()
}

// Adds the powers of i of 64 letters to those that the carry words hold, modulo 4.
#[inline(always)]
pub(crate) fn carry(ones: u64, twos: u64, xa: u64, za: u64, xb: u64, zb: u64) -> (u64, u64)
    ensures { carried result.0 result.1 % 4 ≡ (carried ones twos + word_phase xa za xb zb) % 4 }
{
    let turned = xa & zb;
    let clash = turned ^ (za & xb);
    let sign = (xa ^ xb) ^ (za ^ zb) ^ (ones ^ turned);
    (ones ^ clash, twos ^ (sign & clash))
}

// The same in each of four lanes.
#[inline(always)]
pub(crate) fn carry_block(
    ones: u64x4,
    twos: u64x4,
    xa: &[u64],
    za: &[u64],
    xb: &[u64],
    zb: &[u64],
    at: usize,
) -> (u64x4, u64x4)
    requires xa { at + 4 ≤ length xa.now }
    requires za { at + 4 ≤ length za.now }
    requires xb { at + 4 ≤ length xb.now }
    requires zb { at + 4 ≤ length zb.now }
    ensures { (k : ℕ) → k < 4 → carried (slice_index result.0 k) (slice_index result.1 k) % 4
        ≡ (carried (slice_index ones k) (slice_index twos k)
        + word_phase (slice_index xa.now (at + k)) (slice_index za.now (at + k))
        (slice_index xb.now (at + k)) (slice_index zb.now (at + k))) % 4 }
{
    let xa = u64x4::from_slice(&xa[at..]);
    let za = u64x4::from_slice(&za[at..]);
    let xb = u64x4::from_slice(&xb[at..]);
    let zb = u64x4::from_slice(&zb[at..]);
    let turns = xa & zb;
    let clashes = turns ^ (za & xb);
    let signs = (xa ^ xb) ^ (za ^ zb) ^ (ones ^ turns);
    (ones ^ clashes, twos ^ (signs & clashes))
}
