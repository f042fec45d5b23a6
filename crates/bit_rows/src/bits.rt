// The bit at a place of a list of words of 64 bits.
ghost use Rattle.std.specs.Prelude.{◌≡◌, ◌==◌, ℕ, ◌+◌, ◌*◌, ◌/◌, ◌^◌, ◌<◌, ◌≤◌, ◌⊎◌, true, false, not, if◌then◌else◌, length, IfSome, IfNone};
ghost use Rattle.bit_rows.specs.private.Multiplied.{MarksBoth};
ghost use Rattle.bit_rows.specs.private.Words.{bit_of, bit_in};

use crate::marks::next_marked;

#[inline(always)]
pub(crate) fn bit_at_place(words: &[u64], place: usize) -> bool
    requires { place / 64 < length words.now }
    ensures { result ≡ bit_in words.now place }
{
    (words[place / 64] >> (place % 64)) & 1 == 1
}

#[inline(always)]
pub(crate) fn put_bit(words: &mut [u64], place: usize, bit: bool)
    requires { place / 64 < length words.old }
    ensures { (k : ℕ) → bit_in words.new k ≡ (if k == place then bit else bit_in words.old k) }
{
    let mask = 1u64 << (place % 64);
    let word = words[place / 64];
    words[place / 64] = if bit { word | mask } else { word & !mask };
}

pub(crate) fn flip_bit(words: &mut [u64], place: usize)
    requires { place / 64 < length words.old }
    ensures { (k : ℕ)
        → bit_in words.new k
        ≡ (if k == place then not (bit_in words.old place) else bit_in words.old k) }
{
    let mask = 1u64 << (place % 64);
    words[place / 64] ^= mask;
}

// The first place from `start` on with a set bit in one of two lists. Behind the word of `start` only words with marks are
// read.
#[inline(always)]
pub(crate) fn first_place_from(
    first: &[u64],
    second: &[u64],
    marks: u64,
    start: usize,
) -> Option<usize>
    requires marks { MarksBoth marks first.now second.now }
    requires lengths { length first.now ≡ length second.now }
    requires few { 64 * length first.now ≤ 2 ^ 64 }
    ensures none { IfNone result ((k : ℕ)
        → start ≤ k
        → (bit_in first.now k ≡ false) × (bit_in second.now k ≡ false)) }
    ensures after { IfSome result (λ i. start ≤ i) }
    ensures is_set { IfSome result (λ i. (bit_in first.now i ≡ true) ⊎ (bit_in second.now i ≡ true)) }
    ensures before { IfSome result (λ i. (k : ℕ)
        → start ≤ k
        → k < i
        → (bit_in first.now k ≡ false) × (bit_in second.now k ≡ false)) }
{
    let mut i = start / 64;
    let mut low = start % 64;
    while i < first.len() {
        if let Some(bit) = first_bit_from(first[i] | second[i], low) {
            return Some(64 * i + bit);
        }
        i = next_marked(marks, i + 1, first.len());
        low = 0;
    }
    None
}

// The first set bit of a word from a bit on.
#[inline(always)]
pub(crate) fn first_bit_from(word: u64, start: usize) -> Option<usize>
    requires { start < 64 }
    ensures none { IfNone result ((j : ℕ) → start ≤ j → j < 64 → bit_of word j ≡ false) }
    ensures within { IfSome result (λ i. (start ≤ i) × (i < 64)) }
    ensures is_set { IfSome result (λ i. bit_of word i ≡ true) }
    ensures before { IfSome result (λ i. (j : ℕ) → start ≤ j → j < i → bit_of word j ≡ false) }
{
    let later = word >> start;
    if later == 0 {
        return None;
    }
    Some(start + later.trailing_zeros() as usize)
}
