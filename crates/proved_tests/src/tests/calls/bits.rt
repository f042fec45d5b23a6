//! Rows of bits, of lengths round those of a word and of a block of words, beside what their places give one by one.
ghost use Rattle.std.specs.Prelude.{◌≡◌, length, IfOk};

use bit_rows::BitRow;
use std::alloc::{AllocError, Global};

/// A row of so many places, with a pattern's bits over and over.
fn row_of(alloc: Global, n: usize, pattern: &[bool]) -> Result<BitRow<Global>, AllocError>
    ensures { IfOk result (λ row. length row ≡ n) }
{
    let mut row = BitRow::zeros(alloc, n)?;
    for i in 0..n {
        row.set(i, bit_at(pattern, i));
    }
    Ok(row)
}

/// The bit of a pattern at a place of a row.
fn bit_at(pattern: &[bool], place: usize) -> bool {
    match place.checked_rem(pattern.len()) {
        Some(place) => pattern.get(place).copied() == Some(true),
        None => false,
    }
}

const ONES: &[bool] = &[true];

const ZEROS: &[bool] = &[false];

const LENGTHS: [usize; 9] = [0, 1, 63, 64, 65, 511, 512, 513, 4_096];

/// Lengths, and the power of i of the product of X at so many places and of Y there: X Y = i Z.
const POWERS: [(usize, u8); 11] = [
    (0, 0),
    (1, 1),
    (63, 3),
    (64, 0),
    (65, 1),
    (130, 2),
    (511, 3),
    (512, 0),
    (513, 1),
    (4_095, 3),
    (4_096, 0),
];

fn has_power(alloc: Global, n: usize, power: u8) -> Result<bool, AllocError> {
    let one = row_of(alloc, n, ONES)?;
    let zero = row_of(alloc, n, ZEROS)?;
    Ok(BitRow::phase_step(&one, &zero, &one, &one) == power)
}

#[test]
fn all_x_times_all_y(rt: HostRuntime) {
    for (n, power) in POWERS {
        assert!(rt; matches!(has_power(rt.alloc(), n, power), Ok(true)));
    }
}

/// The x and z bits of the words X Y Z X, over and over, and X Y Y Z I. Within twenty places the product of these brings one i.
const WORDS: [&[bool]; 4] = [
    &[true, true, false, true],
    &[false, true, true, false],
    &[true, true, true, false, false],
    &[false, true, true, true, false],
];

/// The power of i of a product of two letters, each by its x and its z bit.
fn power_of(first: (bool, bool), second: (bool, bool)) -> u8 {
    let (x, y, z) = ((true, false), (true, true), (false, true));
    if first == (false, false) || second == (false, false) || first == second {
        0
    } else if (first, second) == (x, y) || (first, second) == (y, z) || (first, second) == (z, x) {
        1
    } else {
        3
    }
}

/// The power of i of the product of the words, summed place by place.
fn power_of_places(n: usize) -> u8 {
    let [xa, za, xb, zb] = WORDS;
    let mut power = 0u8;
    for i in 0..n {
        let first = (bit_at(xa, i), bit_at(za, i));
        let second = (bit_at(xb, i), bit_at(zb, i));
        power = power.wrapping_add(power_of(first, second));
    }
    // 4 divides 256, so what wraps is no matter
    power % 4
}

/// Whether the first word's rows times the second word bring the power of their places.
fn have_power_of_places(
    alloc: Global,
    n: usize,
    xa: &BitRow<Global>,
    za: &BitRow<Global>,
) -> Result<bool, AllocError>
    requires x { length xa.now ≡ n }
    requires z { length za.now ≡ n }
{
    let [_, _, xb, zb] = WORDS;
    let xb = row_of(alloc, n, xb)?;
    let zb = row_of(alloc, n, zb)?;
    Ok(BitRow::phase_step(xa, za, &xb, &zb) == power_of_places(n))
}

fn has_power_of_places(alloc: Global, n: usize) -> Result<bool, AllocError> {
    let [xa, za, _, _] = WORDS;
    let xa = row_of(alloc, n, xa)?;
    let za = row_of(alloc, n, za)?;
    have_power_of_places(alloc, n, &xa, &za)
}

#[test]
fn words_of_mixed_letters(rt: HostRuntime) {
    assert!(rt; power_of_places(20) == 1);
    for n in LENGTHS {
        assert!(rt;
            matches!(has_power_of_places(rt.alloc(), n), Ok(true)),
            "{n}"
        );
    }
}

/// Ones at the places that 2 divides, and at those that 3 does.
const EVEN: &[bool] = &[true, false];

const THIRD: &[bool] = &[true, false, false];

/// Whether each place is 1 where it is in just one of both.
fn is_sum(row: &BitRow<Global>) -> bool {
    for i in 0..row.len() {
        if row.get(i) != (bit_at(EVEN, i) != bit_at(THIRD, i)) {
            return false;
        }
    }
    true
}

/// Whether the places in both, those that 6 divides, are odd in number just where they should be, and the sum is right.
fn has_sum(alloc: Global, n: usize) -> Result<bool, AllocError> {
    let mut even = row_of(alloc, n, EVEN)?;
    let third = row_of(alloc, n, THIRD)?;
    let is_odd = even.and_parity(&third);
    even.xor_from(&third);
    Ok(is_odd == (n.div_ceil(6) % 2 == 1) && is_sum(&even))
}

#[test]
fn sums_and_common_ones(rt: HostRuntime) {
    for n in LENGTHS {
        assert!(rt; matches!(has_sum(rt.alloc(), n), Ok(true)), "{n}");
    }
}

/// Whether the places at which a row and its copy are 1 are odd in number as they should be, and the sum of both is zero.
fn has_parity(alloc: Global, n: usize, odd: bool) -> Result<bool, AllocError> {
    let mut row = row_of(alloc, n, ONES)?;
    let copy = row.copy()?;
    let is_right = row.and_parity(&copy) == odd && row.first_one().is_some() == (n > 0);
    row.xor_from(&copy);
    Ok(is_right && row.first_one().is_none())
}

#[test]
fn common_ones_of_a_row_and_its_copy(rt: HostRuntime) {
    for n in [0, 1, 63, 64, 65, 128, 129, 511, 512, 513, 4_096] {
        assert!(rt; matches!(has_parity(rt.alloc(), n, n % 2 == 1), Ok(true)));
    }
}
