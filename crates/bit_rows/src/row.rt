ghost use Rattle.std.specs.Prelude.{◌≡◌, ◌↔◌, ◌<◌, ◌≤◌, ◌⊎◌, ◌+◌, ◌*◌, ℕ, List, Bool, true, false, not, length, replicate, count_by, slice_index_or, slice_set, IfOk, IfSome, IfNone, IsTrue};
ghost use Rattle.bit_rows.specs.Lanes.{lane_bit};
ghost use Rattle.bit_rows.specs.Rows.{AreZeroAt, xor_rows, and_parity_of, phase_of, first_one_of};

use crate::bits::{bit_at_place, first_place_from, flip_bit, put_bit};
use crate::count::count_ones;
use crate::marks::{either, is_unmarked, mark, marks_of_sum};
use crate::multiply::multiply_words;
use crate::parity::has_odd_common_ones;
use crate::phase::power_of_words;
use crate::short::{clear_words, copy_words};
use crate::xor::xor_words;
use std::alloc::{AllocError, Allocator};
use std::marker::Model;

/// A row of bits of fixed length.
///
/// Only `zeros` and `copy` allocate.
#[derive(Drop)]
pub struct BitRow<A: Allocator + Copy> {
    words: Vec<u64, A>,
    places: usize,
    // the words that may have ones
    marks: u64,
}

impl<A: Allocator + Copy> Model for BitRow<A> {
    ghost use Rattle.std.specs.Prelude.{List, Bool};
    ghost use Rattle.bit_rows.specs.private.Marks.{KeepsRow};
    ghost use Rattle.bit_rows.specs.private.Words.{row_of};

    ghost Value = { List Bool };

    ghost view = { λ r. row_of r.places r.words.items };

    ghost invariant = { λ r. KeepsRow r.places r.marks r.words.items };
}

impl<A: Allocator + Copy> BitRow<A> {
    /// The row of `n` zeros.
    pub fn zeros(alloc: A, n: usize) -> Result<Self, AllocError>
        ensures { IfOk result (λ row. row ≡ replicate n false) }
    {
        Ok(BitRow {
            words: Vec::from_elem(alloc, 0u64, n.div_ceil(64))?,
            places: n,
            marks: 0,
        })
    }

    /// A copy, in memory of its own.
    pub fn copy(&self) -> Result<Self, AllocError>
        ensures { IfOk result (λ row. row ≡ self.now) }
    {
        let alloc = *self.words.allocator();
        Ok(BitRow {
            words: Vec::from_slice(alloc, self.words.as_slice())?,
            places: self.places,
            marks: self.marks,
        })
    }

    /// The number of places.
    pub fn len(&self) -> usize
        ensures { result ≡ length self.now }
    {
        self.places
    }

    /// Whether there are 64 places or less.
    #[inline(always)]
    pub fn is_short(&self) -> bool
        ensures { IsTrue result ↔ (length self.now ≤ 64) }
    {
        self.words.as_slice().len() <= 1
    }

    /// The bit at a place.
    #[inline(always)]
    pub fn get(&self, i: usize) -> bool
        requires { i < length self.now }
        ensures { result ≡ slice_index_or self.now i false }
    {
        let unmarked = is_unmarked(self.marks, i / 64);
        if unmarked {
            return false;
        }
        bit_at_place(self.words.as_slice(), i)
    }

    /// The bits at a place of two rows, faster than by two calls of `get`.
    #[inline(always)]
    pub fn get_both(first: &BitRow<A>, second: &BitRow<A>, i: usize) -> (bool, bool)
        requires first { i < length first.now }
        requires second { i < length second.now }
        ensures first { result.0 ≡ slice_index_or first.now i false }
        ensures second { result.1 ≡ slice_index_or second.now i false }
    {
        let unmarked = is_unmarked(either(first.marks, second.marks), i / 64);
        if unmarked {
            return (false, false);
        }
        (
            bit_at_place(first.words.as_slice(), i),
            bit_at_place(second.words.as_slice(), i),
        )
    }

    /// The bits at the 64 places from place 64·k on, a lane each. Those past the last place are 0.
    #[inline(always)]
    pub fn word(&self, k: usize) -> u64
        requires { 64 * k < length self.now }
        ensures { (j : ℕ)
            → j < 64
            → lane_bit j result ≡ slice_index_or self.now (64 * k + j) false }
    {
        self.words.as_slice()[k]
    }

    /// How many bits are set.
    pub fn count_ones(&self) -> usize
        ensures { result ≡ count_by (λ b. b) self.now }
    {
        count_ones(self.words.as_slice())
    }

    /// Puts a bit at a place.
    #[inline(always)]
    pub fn set(&mut self, i: usize, b: bool)
        requires { i < length self.old }
        ensures { self.new ≡ slice_set self.old i b }
    {
        put_bit(self.words.as_mut_slice(), i, b);
        self.marks = mark(self.marks, i / 64);
    }

    /// Flips the bit at a place.
    pub fn flip(&mut self, i: usize)
        requires { i < length self.old }
        ensures { self.new ≡ slice_set self.old i (not (slice_index_or self.old i false)) }
    {
        flip_bit(self.words.as_mut_slice(), i);
        self.marks = mark(self.marks, i / 64);
    }

    /// Exchanges two rows of any lengths.
    pub fn swap(&mut self, other: &mut BitRow<A>)
        ensures first { self.new ≡ other.old }
        ensures second { other.new ≡ self.old }
    {
        std::mem::swap(self, other);
    }

    /// Makes this row equal to another of its length.
    #[inline(always)]
    pub fn copy_from(&mut self, other: &BitRow<A>)
        requires { length self.old ≡ length other.now }
        ensures { self.new ≡ other.now }
    {
        copy_words(self.words.as_mut_slice(), other.words.as_slice());
        self.marks = other.marks;
    }

    /// Makes every bit 0.
    #[inline(always)]
    pub fn clear(&mut self)
        ensures { self.new ≡ replicate (length self.old) false }
    {
        clear_words(self.words.as_mut_slice());
        self.marks = 0;
    }

    /// Adds a row of this length by exclusive or, place by place.
    pub fn xor_from(&mut self, other: &BitRow<A>)
        requires { length self.old ≡ length other.now }
        ensures sum { self.new ≡ xor_rows self.old other.now }
        ensures len { length self.new ≡ length self.old }
    {
        xor_words(self.words.as_mut_slice(), other.words.as_slice());
        self.marks = either(self.marks, other.marks);
    }

    /// Multiplies the Pauli word with x bits `xa` and z bits `za` from the right by the one with `xb` and `zb`, and
    /// answers the power of i, 0 to 3, of their product.
    #[inline(always)]
    pub fn multiply(xa: &mut BitRow<A>, za: &mut BitRow<A>, xb: &BitRow<A>, zb: &BitRow<A>) -> u8
        requires za { length za.old ≡ length xa.old }
        requires xb { length xb.now ≡ length xa.old }
        requires zb { length zb.now ≡ length xa.old }
        ensures power { result ≡ phase_of xa.old za.old xb.now zb.now }
        ensures x { xa.new ≡ xor_rows xa.old xb.now }
        ensures z { za.new ≡ xor_rows za.old zb.now }
        ensures x_len { length xa.new ≡ length xa.old }
        ensures z_len { length za.new ≡ length za.old }
    {
        let x = xb.words.as_slice();
        let z = zb.words.as_slice();
        let marks = either(xb.marks, zb.marks);
        let (power, noted) = multiply_words(
            xa.words.as_mut_slice(),
            za.words.as_mut_slice(),
            x,
            z,
            marks,
        );
        xa.marks = marks_of_sum(xa.marks, xb.marks, noted);
        za.marks = marks_of_sum(za.marks, zb.marks, noted);
        power
    }

    /// Whether the number of places with both bits set is odd.
    pub fn and_parity(&self, other: &BitRow<A>) -> bool
        requires { length self.now ≡ length other.now }
        ensures { result ≡ and_parity_of self.now other.now }
    {
        has_odd_common_ones(self.words.as_slice(), other.words.as_slice())
    }

    /// The first place with a set bit.
    pub fn first_one(&self) -> Option<usize>
        ensures { result ≡ first_one_of self.now }
    {
        BitRow::first_one_from(self, self, 0)
    }

    /// The first place from `start` on at which one of two rows has a one.
    pub fn first_one_from(first: &BitRow<A>, second: &BitRow<A>, start: usize) -> Option<usize>
        requires { length first.now ≡ length second.now }
        ensures none { IfNone result ((k : ℕ) → start ≤ k → AreZeroAt k first.now second.now) }
        ensures within { IfSome result (λ i. (start ≤ i) × (i < length first.now)) }
        ensures is_set { IfSome result (λ i. (slice_index_or first.now i false ≡ true)
            ⊎ (slice_index_or second.now i false ≡ true)) }
        ensures before { IfSome result (λ i. (k : ℕ)
            → start ≤ k
            → k < i
            → AreZeroAt k first.now second.now) }
    {
        let marks = either(first.marks, second.marks);
        first_place_from(
            first.words.as_slice(),
            second.words.as_slice(),
            marks,
            start,
        )
    }

    /// The power of i, 0 to 3, of a product of Pauli words: the one with x bits `xa` and z bits `za`, times the one with
    /// `xb` and `zb`.
    pub fn phase_step(xa: &BitRow<A>, za: &BitRow<A>, xb: &BitRow<A>, zb: &BitRow<A>) -> u8
        requires za { length za.now ≡ length xa.now }
        requires xb { length xb.now ≡ length xa.now }
        requires zb { length zb.now ≡ length xa.now }
        ensures { result ≡ phase_of xa.now za.now xb.now zb.now }
    {
        power_of_words(
            xa.words.as_slice(),
            za.words.as_slice(),
            xb.words.as_slice(),
            zb.words.as_slice(),
        )
    }
}
