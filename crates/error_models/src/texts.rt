//! The texts of probabilities that are kept once for many lines.
ghost use Rattle.std.specs.Prelude.{◌≡◌, ◌<◌, true, length, IfOk, IfSome};
ghost use Rattle.error_models.specs.ErrorLines.{text_at, KeepsTexts};

use crate::line_text::LineText;
use std::alloc::{AllocError, Allocator};

/// The text of a new line is looked for among this many of the latest.
const LATEST: usize = 8;

/// The number of a text, which is appended where it isn't among the latest. It fails only where memory runs out.
pub(crate) fn number_of<'a, A: Allocator + Copy>(
    texts: &mut Vec<LineText<'a>, A>,
    text: &'a [u8],
) -> Result<usize, AllocError>
    ensures kept { KeepsTexts texts.old.items texts.new.items }
    ensures within { IfOk result (λ n. n < length texts.new.items) }
    ensures named { IfOk result (λ n. text_at texts.new.items n ≡ text.now) }
{
    if let Some(number) = latest(texts.as_slice(), text) {
        return Ok(number);
    }
    let count = texts.len();
    texts.push(LineText::new(text))?;
    Ok(count)
}

// Where a text stands among the latest.
fn latest<'a>(texts: &[LineText<'a>], text: &[u8]) -> Option<usize>
    ensures within { IfSome result (λ n. n < length texts.now) }
    ensures named { IfSome result (λ n. text_at texts.now n ≡ text.now) }
{
    let mut left = texts.len();
    let last = left.saturating_sub(LATEST);
    while left > last {
        left -= 1;
        if is_same(texts[left].text(), text) {
            return Some(left);
        }
    }
    None
}

// Whether two texts are the same. Texts of the same length most often differ at their ends.
#[inline]
fn is_same(first: &[u8], second: &[u8]) -> bool
    ensures { result ≡ true → first.now ≡ second.now }
{
    if first.len() != second.len() {
        return false;
    }
    let mut left = first.len();
    while left > 0 {
        left -= 1;
        if first[left] != second[left] {
            return false;
        }
    }
    true
}
