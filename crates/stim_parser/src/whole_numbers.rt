//! The whole numbers between parentheses, each read as it is cut.
ghost use Rattle.std.specs.Prelude.{◌≡◌, ◌≤◌, false, if◌then◌else◌, map, nat_abs, nat_lt, neg_ℤ, pos, true, MatchBool, MatchOption};
ghost use Rattle.std.specs.List.{list_any};
ghost use Rattle.stim_parser.specs.declared.forms.ArgumentForm.TheVariants.{WholeNumbers};
ghost use Rattle.stim_parser.specs.Arguments.{arguments_in};
ghost use Rattle.stim_parser.specs.Coordinates.{is_whole_number};
ghost use Rattle.stim_parser.specs.Limits.{has_wrong_arguments};
ghost use Rattle.stim_parser.specs.Numbers.{has_minus, whole_value};

use crate::arguments::{MOST_ARGUMENTS, cut_at_comma, trimmed};
use crate::digits::number_of;
use crate::numbers::without_minus;
use arrayvec::ArrayVec;
use stim_lexer::after_blanks;

/// Whether a text begins with a `-`.
#[inline(always)]
fn has_minus(text: &[u8]) -> bool
    ensures { result ≡ has_minus text.now }
{
    matches!(text, [b'-', ..])
}

/// A magnitude with its sign.
#[inline(always)]
fn signed(negative: bool, magnitude: u64) -> i64
    requires { magnitude ≤ 1_000_000_000_000_000_000 }
    ensures { result ≡ (if negative then neg_ℤ (pos magnitude) else pos magnitude) }
{
    let number = magnitude as i64;
    if negative { -number } else { number }
}

/// The value of a text with its sign, where it is a whole number.
#[inline(always)]
fn whole_number_of(text: &[u8]) -> Option<i64>
    ensures { MatchOption result (is_whole_number text.now ≡ false)
        (λ value. (is_whole_number text.now ≡ true) × (value ≡ whole_value text.now)) }
{
    match number_of(without_minus(text)) {
        Some(magnitude) => Some(signed(has_minus(text), magnitude)),
        None => None,
    }
}

/// Puts all arguments in the text of some parentheses in place of what was there. Answers whether they are at most 16 whole
/// numbers.
pub fn put_whole_numbers(found: &mut ArrayVec<i64, MOST_ARGUMENTS>, text: &[u8]) -> bool
    ensures { MatchBool result
        ((has_wrong_arguments WholeNumbers (arguments_in text.now) ≡ false)
        × (found.new.items ≡ map whole_value (arguments_in text.now)))
        (has_wrong_arguments WholeNumbers (arguments_in text.now) ≡ true) }
{
    found.clear();
    if after_blanks(text).is_empty() {
        return true;
    }
    let mut rest = Some(text);
    while let Some(part) = rest {
        if found.is_full() {
            return false;
        }
        let (first, after) = cut_at_comma(part);
        let Some(number) = whole_number_of(trimmed(first)) else {
            return false;
        };
        found.push(number);
        rest = after;
    }
    true
}

/// Whether one of the numbers is of a magnitude above the greatest one.
#[inline(always)]
pub(crate) fn are_beyond(greatest: u64, numbers: &[i64]) -> bool
    ensures { result ≡ list_any (λ number. nat_lt greatest (nat_abs number)) numbers.now }
{
    numbers
        .iter()
        .any(|number| number.unsigned_abs() > greatest)
}
