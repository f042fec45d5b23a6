// Marks of a list of words: one bit for each of the first 64 words, set where the word may have ones. A block is four words.
ghost use Rattle.std.specs.Prelude.{◌≡◌, ◌==◌, ◌⊎◌, ◌<◌, ◌≤◌, ◌+◌, ◌*◌, ◌/◌, ◌^◌, ℕ, true, false, if◌then◌else◌};
ghost use Rattle.bit_rows.specs.private.Words.{bit_of};

use crate::bits::first_bit_from;

// The bit of a word's mark, 0 where it has none.
#[inline(always)]
fn mark_of(word: usize) -> u64
    ensures marked { word < 64 → result ≡ 2 ^ word }
    ensures past { 64 ≤ word → result ≡ 0 }
{
    if word < 64 { 1u64 << word } else { 0 }
}

// Whether a word is known to have no ones. In a loop over rows its mark is made once.
#[inline(always)]
pub(crate) fn is_unmarked(marks: u64, word: usize) -> bool
    ensures { result ≡ true → (word < 64) × (bit_of marks word ≡ false) }
{
    let mark = mark_of(word);
    marks & mark < mark
}

// The first word from `word` on, if that comes before `end`, that isn't known to have no ones.
#[inline(always)]
pub(crate) fn next_marked(marks: u64, word: usize, end: usize) -> usize
    ensures from { word ≤ result }
    ensures unmarked { (k : ℕ) → word ≤ k → k < result → (k < 64) × (bit_of marks k ≡ false) }
{
    if word >= end || word >= 64 {
        return word;
    }
    first_bit_from(marks, word).unwrap_or(64)
}

// The first block from `block` on, if that comes before `end`, that isn't known to have no ones, and else `end`.
#[inline(always)]
pub(crate) fn marked_block(marks: u64, block: usize, end: usize) -> usize
    requires order { block ≤ end }
    requires few { end * 4 < 2 ^ 64 }
    ensures from { block ≤ result }
    ensures within { result ≤ end }
    ensures unmarked { (k : ℕ)
        → block * 4 ≤ k
        → k < result * 4
        → (k < 64) × (bit_of marks k ≡ false) }
{
    (next_marked(marks, block * 4, end * 4) / 4).min(end)
}

// Sets the mark of a word, where it has one.
#[inline(always)]
pub(crate) fn mark(marks: u64, word: usize) -> u64
    ensures { (w : ℕ) → w < 64 → bit_of result w ≡ (if w == word then true else bit_of marks w) }
{
    if word >= 64 {
        return marks;
    }
    marks | 1u64 << word
}

// Sets the marks of a block where a condition holds.
#[inline(always)]
pub(crate) fn mark_block_where(marks: u64, block: usize, condition: bool) -> u64
    ensures { (w : ℕ)
        → w < 64
        → bit_of result w ≡ true
        → (bit_of marks w ≡ true) ⊎ ((w / 4 ≡ block) × (condition ≡ true)) }
{
    if block >= 16 || !condition {
        return marks;
    }
    marks | 15u64 << (block * 4)
}

// The marks that either of two lists has.
#[inline(always)]
pub(crate) fn either(first: u64, second: u64) -> u64
    ensures { (w : ℕ)
        → bit_of result w ≡ false
        → (bit_of first w ≡ false) × (bit_of second w ≡ false) }
{
    first | second
}

// Marks of the exclusive or of two lists, whose noted words are known to be 0.
#[inline(always)]
pub(crate) fn marks_of_sum(first: u64, second: u64, noted: u64) -> u64
    ensures { (w : ℕ)
        → w < 64
        → bit_of result w ≡ false
        → (bit_of noted w ≡ true) ⊎ ((bit_of first w ≡ false) × (bit_of second w ≡ false)) }
{
    (first | second) & !noted
}
