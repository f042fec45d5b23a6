ghost use Rattle.std.specs.Prelude.{◌≡◌};
ghost use Rattle.stim_parser.specs.Numbers.{is_number_beyond, is_qubit_beyond, magnitude_of, without_minus};
ghost use Rattle.stim_parser.specs.Coordinates.{is_decimal, is_whole_number};

use crate::decimal::decimal_of;
use crate::digits::{is_number, value_of};

/// The greatest number of a qubit.
const GREATEST_QUBIT: u64 = 4_095;

/// The greatest magnitude of a coordinate.
pub(crate) const GREATEST_COORDINATE: u64 = 1_000_000_000;

/// The greatest of all other numbers.
const GREATEST_NUMBER: u64 = 999_999_999_999_999_999;

/// A text without a `-` in front.
#[inline(always)]
pub(crate) fn without_minus(text: &[u8]) -> &[u8]
    ensures { result.now ≡ without_minus text.now }
{
    match text {
        [b'-', rest @ ..] => rest,
        _ => text,
    }
}

/// Whether a text is digits, with or without a `-` in front.
pub(crate) fn is_whole_number(text: &[u8]) -> bool
    ensures { result ≡ is_whole_number text.now }
{
    is_number(without_minus(text))
}

/// Whether a text is a number, perhaps with a point and an exponent, and with or without a `-` in front.
pub(crate) fn is_decimal(text: &[u8]) -> bool
    ensures { result ≡ is_decimal text.now }
{
    decimal_of(without_minus(text)).is_some()
}

/// The value of a whole number without its sign.
pub fn magnitude_of(text: &[u8]) -> u64
    ensures { result ≡ magnitude_of text.now }
{
    value_of(without_minus(text))
}

/// Whether a number that is neither a qubit's nor a coordinate is beyond its limit.
pub(crate) fn is_number_beyond(number: u64) -> bool
    ensures { result ≡ is_number_beyond number }
{
    number > GREATEST_NUMBER
}

/// Whether the number of a qubit is beyond its limit.
pub(crate) fn is_qubit_beyond(qubit: u64) -> bool
    ensures { result ≡ is_qubit_beyond qubit }
{
    qubit > GREATEST_QUBIT
}
