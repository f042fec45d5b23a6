ghost use Rattle.std.specs.Prelude.{◌≡◌, ◌<◌, ◌≤◌, true, length, IfSome, option_map};
ghost use Rattle.std.specs.Char.{is_ascii_digit};
ghost use Rattle.std.specs.List.{list_all};
ghost use Rattle.step_model.specs.Probabilities.{after_fraction, decimal_of, exponent_amount, exponent_part, fraction, signed_exponent};
ghost use Rattle.stim_parser.specs.private.Decimals.{decimal_in, IsOfText};

use crate::digits::{cut_digits, is_number, value_of};

/// A number text taken apart: the digits before and after its point, and its exponent, negative or not.
#[derive(Clone, Copy)]
pub(crate) struct Parts<'a> {
    pub whole: &'a [u8],
    pub fraction: &'a [u8],
    pub negative: bool,
    pub exponent: u64,
}

/// The exponent that one to three digits write.
fn exponent_amount(negative: bool, text: &[u8]) -> Option<(bool, u64)>
    ensures value { result ≡ exponent_amount negative text.now }
    ensures small { IfSome result (λ e. e.1 < 1000) }
{
    if text.len() <= 3 && is_number(text) {
        Some((negative, value_of(text)))
    } else {
        None
    }
}

/// The exponent after its `e`.
fn signed_exponent(text: &[u8]) -> Option<(bool, u64)>
    ensures value { result ≡ signed_exponent text.now }
    ensures small { IfSome result (λ e. e.1 < 1000) }
{
    match text {
        [b'-', digits @ ..] => exponent_amount(true, digits),
        [b'+', digits @ ..] => exponent_amount(false, digits),
        digits => exponent_amount(false, digits),
    }
}

/// The exponent that follows the digits of a number text; it is 0 where nothing follows.
fn exponent_part(text: &[u8]) -> Option<(bool, u64)>
    ensures value { result ≡ exponent_part text.now }
    ensures small { IfSome result (λ e. e.1 < 1000) }
{
    match text {
        [] => Some((false, 0)),
        [b'e' | b'E', exponent @ ..] => signed_exponent(exponent),
        _ => None,
    }
}

/// The digits after a point at the front, and what follows them.
fn cut_fraction(text: &[u8]) -> (&[u8], &[u8])
    ensures fraction { result.0.now ≡ fraction text.now }
    ensures after { result.1.now ≡ after_fraction text.now }
    ensures digits { list_all is_ascii_digit result.0.now ≡ true }
    ensures len { length result.0.now ≤ length text.now }
{
    match text {
        [b'.', after @ ..] => cut_digits(after),
        _ => (&[], text),
    }
}

/// A number text taken apart, where it is one.
pub(crate) fn decimal_of(text: &[u8]) -> Option<Parts<'_>>
    ensures value { option_map decimal_in result ≡ decimal_of text.now }
    ensures parts { IfSome result (IsOfText (length text.now)) }
{
    let (whole, rest) = cut_digits(text);
    let (fraction, rest) = cut_fraction(rest);
    if whole.is_empty() && fraction.is_empty() {
        return None;
    }
    let (negative, exponent) = exponent_part(rest)?;
    Some(Parts {
        whole,
        fraction,
        negative,
        exponent,
    })
}
