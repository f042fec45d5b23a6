ghost use Rattle.std.specs.Prelude.{◌≡◌, ◌+◌, ◌<◌, ◌≤◌, ◌++◌, true, length, not, position};
ghost use Rattle.std.specs.Char.{is_ascii_digit};
ghost use Rattle.std.specs.List.{list_all};
ghost use Rattle.step_model.specs.Probabilities.{front_digits, after_digits};
ghost use Rattle.stim_parser.specs.Numbers.{is_number, number_of, value_of};

/// The least number that is beyond every limit.
pub(crate) const BEYOND_ALL: u64 = 1_000_000_000_000_000_000;

/// A number of at most this many digits isn't beyond every limit.
pub(crate) const SHORT_DIGITS: usize = 18;

/// The number that digits write, or the one beyond every limit where it is greater.
#[inline(always)]
pub(crate) fn value_of(digits: &[u8]) -> u64
    ensures { result ≡ value_of digits.now }
{
    let mut value: u64 = 0;
    for digit in digits {
        value = (10 * value + digit.saturating_sub(b'0') as u64).min(BEYOND_ALL);
    }
    value
}

/// Whether a text has only digits.
#[inline(always)]
fn are_digits(text: &[u8]) -> bool
    ensures { result ≡ list_all is_ascii_digit text.now }
{
    text.iter().all(|byte| byte.is_ascii_digit())
}

/// Whether a text is one digit or more.
#[inline(always)]
pub(crate) fn is_number(text: &[u8]) -> bool
    ensures { result ≡ is_number text.now }
{
    !text.is_empty() && are_digits(text)
}

/// The number that a text writes, where it is digits.
#[inline(always)]
pub fn number_of(text: &[u8]) -> Option<u64>
    ensures { result ≡ number_of text.now }
{
    if text.is_empty() {
        None
    } else if text.len() <= SHORT_DIGITS {
        short_number_of(text)
    } else {
        long_number_of(text)
    }
}

/// The same for a text that is too short for a number beyond every limit.
#[inline(always)]
fn short_number_of(text: &[u8]) -> Option<u64>
    requires some { 0 < length text.now }
    requires short { length text.now ≤ SHORT_DIGITS }
    ensures { result ≡ number_of text.now }
{
    let mut value: u64 = 0;
    for digit in text {
        if !digit.is_ascii_digit() {
            return None;
        }
        value = 10 * value + (*digit - b'0') as u64;
    }
    Some(value)
}

/// The same for any text.
fn long_number_of(text: &[u8]) -> Option<u64>
    ensures { result ≡ number_of text.now }
{
    if is_number(text) {
        Some(value_of(text))
    } else {
        None
    }
}

/// Where the first byte stands that isn't a digit.
#[inline(always)]
fn place_after_digits(text: &[u8]) -> Option<usize>
    ensures { result ≡ position (λ b. not (is_ascii_digit b)) text.now }
{
    text.iter().position(|byte| !byte.is_ascii_digit())
}

/// The digits at the front of a text, and what follows them.
#[inline(always)]
pub(crate) fn cut_digits(text: &[u8]) -> (&[u8], &[u8])
    ensures front { result.0.now ≡ front_digits text.now }
    ensures after { result.1.now ≡ after_digits text.now }
    ensures text { text.now ≡ result.0.now ++ result.1.now }
    ensures digits { list_all is_ascii_digit result.0.now ≡ true }
    ensures len { length result.0.now + length result.1.now ≡ length text.now }
{
    let place = place_after_digits(text).unwrap_or(text.len());
    text.split_at(place)
}
