//! Whole numbers as most lines write them: short ones, with no blanks but a space after a comma. They are judged without
//! being kept.
ghost use Rattle.std.specs.Prelude.{◌≡◌, ◌⊎◌, ◌≤◌, ◌∷◌, length, true, IfSome};
ghost use Rattle.stim_parser.specs.Arguments.{arguments_in};
ghost use Rattle.stim_parser.specs.private.ShortNumbers.{AreShort, BeginsShort};

use crate::arguments::{MOST_ARGUMENTS, has_argument};
use crate::digits::cut_digits;
use crate::numbers::without_minus;

/// A number of at most so many digits is short.
const SHORT_DIGITS: usize = 9;

/// The greatest short number.
pub(crate) const GREATEST_SHORT: u64 = 999_999_999;

/// A text without a space in front.
#[inline(always)]
fn without_space(text: &[u8]) -> &[u8]
    ensures { (text.now ≡ result.now) ⊎ (text.now ≡ 32 ∷ result.now) }
{
    match text {
        [b' ', rest @ ..] => rest,
        _ => text,
    }
}

/// What follows the short whole number that a text begins with.
#[inline(always)]
fn behind_short(text: &[u8]) -> Option<&[u8]>
    ensures { IfSome result (λ rest. BeginsShort text.now rest.now) }
{
    let (digits, rest) = cut_digits(without_minus(without_space(text)));
    if digits.is_empty() || digits.len() > SHORT_DIGITS {
        return None;
    }
    Some(rest)
}

/// What follows the comma that a text begins with.
#[inline(always)]
fn behind_comma(text: &[u8]) -> Option<&[u8]>
    ensures { IfSome result (λ rest. text.now ≡ 44 ∷ rest.now) }
{
    match text {
        [b',', rest @ ..] => Some(rest),
        _ => None,
    }
}

/// Whether the arguments in the text of some parentheses are short whole numbers, and no more than an instruction takes. Such
/// that are written otherwise are not found.
pub(crate) fn are_short(text: &[u8]) -> bool
    ensures short { result ≡ true → AreShort (arguments_in text.now) }
    ensures few { result ≡ true → length (arguments_in text.now) ≤ MOST_ARGUMENTS }
{
    if !has_argument(text) {
        return true;
    }
    let mut rest = text;
    for read in 0..MOST_ARGUMENTS {
        let Some(behind) = behind_short(rest) else {
            return false;
        };
        if behind.is_empty() {
            return true;
        }
        let Some(after) = behind_comma(behind) else {
            return false;
        };
        rest = after;
    }
    false
}
