ghost use Rattle.std.specs.Prelude.{◌≡◌, ◌<◌, ◌∷◌, length, map, option_map, slice_get, is_some, MatchOption, IfSome};
ghost use Rattle.std.specs.List.{slice_split};
ghost use Rattle.stim_parser.specs.Arguments.{arguments_in, before_blanks, is_comma, parts_of, trimmed};

use arrayvec::ArrayVec;
use stim_lexer::{after_blanks, cut_near, is_blank};

/// How many arguments an instruction takes at most.
pub const MOST_ARGUMENTS: usize = 16;

/// A text without the blanks at its end.
#[inline(always)]
fn before_blanks(text: &[u8]) -> &[u8]
    ensures { result.now ≡ before_blanks text.now }
{
    let mut end = text.len();
    while 0 < end {
        if !is_blank(text[end - 1]) {
            return &text[..end];
        }
        end -= 1;
    }
    &[]
}

/// A text without the blanks at its ends.
#[inline(always)]
pub(crate) fn trimmed(text: &[u8]) -> &[u8]
    ensures { result.now ≡ trimmed text.now }
{
    before_blanks(after_blanks(text))
}

/// What stands before the first comma, and what follows the comma where there is one.
#[inline(always)]
pub(crate) fn cut_at_comma(text: &[u8]) -> (&[u8], Option<&[u8]>)
    ensures parts { slice_split is_comma text.now
        ≡ result.0.now ∷ parts_of result.1 }
    ensures less { IfSome result.1 (λ rest. length rest.now < length text.now) }
{
    let (first, rest) = cut_near(text, b',');
    match rest {
        [_, after @ ..] => (first, Some(after)),
        [] => (first, None),
    }
}

/// The arguments in the text of some parentheses, where there are no more than an instruction takes at most.
#[inline(always)]
pub fn read_arguments(text: &[u8]) -> Option<ArrayVec<&[u8], MOST_ARGUMENTS>>
    ensures { MatchOption result (MOST_ARGUMENTS < length (arguments_in text.now))
        (λ found. map (λ argument. argument.now) found.items ≡ arguments_in text.now) }
{
    let mut found = ArrayVec::new();
    if after_blanks(text).is_empty() {
        return Some(found);
    }
    let mut rest = Some(text);
    while let Some(part) = rest {
        if found.is_full() {
            return None;
        }
        let (first, after) = cut_at_comma(part);
        found.push(trimmed(first));
        rest = after;
    }
    Some(found)
}

/// The first argument in the text of some parentheses. Others are not cut.
pub fn first_argument(text: &[u8]) -> Option<&[u8]>
    ensures { option_map (λ argument. argument.now) result ≡ slice_get (arguments_in text.now) 0 }
{
    if after_blanks(text).is_empty() {
        return None;
    }
    Some(trimmed(cut_at_comma(text).0))
}

/// Whether there is an argument in the text of some parentheses.
#[inline(always)]
pub fn has_argument(text: &[u8]) -> bool
    ensures { result ≡ is_some (slice_get (arguments_in text.now) 0) }
{
    !after_blanks(text).is_empty()
}
