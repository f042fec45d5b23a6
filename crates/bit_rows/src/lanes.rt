//! Words whose 64 bits belong to 64 runs that go side by side, or to 64 places of a row, a lane each: the lowest bit is
//! lane 0.
ghost use Rattle.std.specs.Prelude.{◌≡◌, ◌==◌, ◌&&◌, ℕ, ◌<◌, true, false, if◌then◌else◌, IfNone, IfSome};
ghost use Rattle.bit_rows.specs.Rows.{exclusive_or};
ghost use Rattle.bit_rows.specs.Lanes.{lane_bit};

/// Whether a lane is 1.
#[inline(always)]
pub fn bit(word: u64, lane: u32) -> bool
    requires { lane < 64 }
    ensures { result ≡ lane_bit lane word }
{
    (word >> lane) & 1 == 1
}

/// The first lane that is 1.
#[inline(always)]
pub fn first(word: u64) -> Option<u32>
    ensures none { IfNone result ((j : ℕ) → j < 64 → lane_bit j word ≡ false) }
    ensures within { IfSome result (λ lane. lane < 64) }
    ensures is_set { IfSome result (λ lane. lane_bit lane word ≡ true) }
    ensures before { IfSome result (λ lane. (j : ℕ) → j < lane → lane_bit j word ≡ false) }
{
    if word == 0 {
        return None;
    }
    Some(word.trailing_zeros())
}

/// The word with a lane made 1.
#[inline(always)]
pub fn with_bit(word: u64, lane: u32) -> u64
    requires { lane < 64 }
    ensures { (j : ℕ) → lane_bit j result ≡ (if j == lane then true else lane_bit j word) }
{
    word | 1u64 << lane
}

/// The word with a lane that is 1 made 0: a lesser number.
#[inline(always)]
pub fn without_bit(word: u64, lane: u32) -> u64
    requires within { lane < 64 }
    requires is_set { lane_bit lane word ≡ true }
    ensures lanes { (j : ℕ) → lane_bit j result ≡ (if j == lane then false else lane_bit j word) }
    ensures less { result < word }
{
    word ^ 1u64 << lane
}

/// The word whose lanes are all of this value.
#[inline(always)]
pub fn spread(value: bool) -> u64
    ensures { (j : ℕ) → j < 64 → lane_bit j result ≡ value }
{
    if value { u64::MAX } else { 0 }
}

/// The lanes that are 1 in exactly one of two words.
#[inline(always)]
pub fn xor(a: u64, b: u64) -> u64
    ensures { (j : ℕ) → lane_bit j result ≡ exclusive_or (lane_bit j a) (lane_bit j b) }
{
    a ^ b
}

/// The lanes that are 1 in both words.
#[inline(always)]
pub fn and(a: u64, b: u64) -> u64
    ensures { (j : ℕ) → lane_bit j result ≡ (lane_bit j a && lane_bit j b) }
{
    a & b
}
