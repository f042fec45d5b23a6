//! The number at the front of a text of targets: most targets are one.
ghost use Rattle.std.specs.Prelude.{◌≡◌, ◌<◌, ◌≤◌, ◌^◌, true, length, take, IfSome};
ghost use Rattle.std.specs.Char.{is_ascii_digit};
ghost use Rattle.std.specs.List.{list_all};
ghost use Rattle.step_model.specs.Probabilities.{digits_value};
ghost use Rattle.stim_parser.specs.Pieces.{ends_here};
ghost use Rattle.stim_parser.specs.private.FrontNumbers.{BeginsWithNumber};

use crate::digits::SHORT_DIGITS;
use crate::piece::ends_piece;

/// How many digits a text begins with, up to as many as a short number has, before them the number
/// that they write.
#[inline(always)]
fn short_front(text: &[u8]) -> (u64, usize)
    ensures value { result.0 ≡ digits_value (take result.1 text.now) }
    ensures digits { list_all is_ascii_digit (take result.1 text.now) ≡ true }
    ensures within { result.1 ≤ length text.now }
    ensures short { result.1 ≤ SHORT_DIGITS }
{
    let most = text.len().min(SHORT_DIGITS);
    let mut value: u64 = 0;
    for i in 0..most {
        if !text[i].is_ascii_digit() {
            return (value, i);
        }
        value = 10 * value + (text[i] - b'0') as u64;
    }
    (value, most)
}

/// Whether a piece ends before a text.
#[inline(always)]
fn ends_here(text: &[u8]) -> bool
    ensures { result ≡ ends_here text.now }
{
    match text {
        [] => true,
        [byte, ..] => ends_piece(*byte),
    }
}

/// The number that the first piece of a text is, where no blank stands before it and it isn't long,
/// and what follows it.
#[inline(always)]
pub(crate) fn front_number(text: &[u8]) -> Option<(u64, &[u8])>
    ensures number { IfSome result (λ cut. BeginsWithNumber text.now cut.0 cut.1.now) }
    ensures near { IfSome result (λ cut. cut.0 < 2 ^ 60) }
    ensures less { IfSome result (λ cut. length cut.1.now < length text.now) }
{
    let (value, len) = short_front(text);
    let rest = &text[len..];
    if len == 0 || !ends_here(rest) {
        return None;
    }
    Some((value, rest))
}
