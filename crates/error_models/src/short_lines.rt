//! The text of targets and of short lines, written into a buffer from its end towards its start: so the digits of each
//! number, which are found last digit first, go to their place at once.
ghost use Rattle.std.specs.Prelude.{◌≡◌, ◌≤◌, ◌+◌, ◌*◌, ◌∷◌, ◌++◌, decimal, length, drop};
ghost use Rattle.error_models.specs.ModelText.{target_text, targets_text, line_text};

use crate::line_text::LineText;
use itoa::write_digits;

/// How long a buffer for short lines is.
pub(crate) const ROOM: usize = 4096;

/// How many short lines the buffer holds at least.
pub(crate) const SHORT_LINES: usize = 16;

/// How many targets a short line has at most.
pub(crate) const SHORT_TARGETS: usize = 16;

/// How long the probability text of a short line is at most.
pub(crate) const SHORT_TEXT: usize = 32;

/// How long a short line is at most.
pub(crate) const SHORT_LINE: usize = 240;

/// How long the text of a target is at most: a space, a letter and ten digits.
pub(crate) const ANY_NAME: usize = 12;

/// Writes a short line so that it ends at `end`, and answers where it starts.
#[inline]
pub(crate) fn line_before<'a>(
    buffer: &mut [u8],
    end: usize,
    detectors: usize,
    text: &LineText<'a>,
    targets: &[u32],
) -> usize
    requires within { end ≤ length buffer.old }
    requires room { SHORT_LINE ≤ end }
    requires short { length text.now ≤ SHORT_TEXT }
    requires few { length targets.now ≤ SHORT_TARGETS }
    ensures within { result ≤ end }
    ensures least { end ≤ result + SHORT_LINE }
    ensures written { drop result buffer.new
        ≡ line_text detectors (record { text = text.now; targets = targets.now })
        ++ drop end buffer.old }
{
    let at = text_before(buffer, end, b"\n");
    let at = targets_before(buffer, at, detectors, targets);
    text.head_before(buffer, at)
}

/// Writes some targets so that they end at `end`, and answers where they start.
#[inline]
pub(crate) fn targets_before(
    buffer: &mut [u8],
    end: usize,
    detectors: usize,
    targets: &[u32],
) -> usize
    requires within { end ≤ length buffer.old }
    requires room { length targets.now * ANY_NAME ≤ end }
    ensures within { result ≤ end }
    ensures least { end ≤ result + length targets.now * ANY_NAME }
    ensures written { drop result buffer.new
        ≡ targets_text detectors targets.now ++ drop end buffer.old }
{
    let mut left = targets.len();
    let mut at = end;
    while left > 0 {
        left -= 1;
        at = target_before(buffer, at, detectors, targets[left]);
    }
    at
}

/// Writes a target after its space.
#[inline(always)]
pub(crate) fn target_before(buffer: &mut [u8], end: usize, detectors: usize, target: u32) -> usize
    requires within { end ≤ length buffer.old }
    requires room { ANY_NAME ≤ end }
    ensures within { result ≤ end }
    ensures least { end ≤ result + ANY_NAME }
    ensures written { drop result buffer.new ≡ target_text detectors target ++ drop end buffer.old }
{
    let target = target as usize;
    if target < detectors {
        number_before(buffer, end, b'D', target as u32)
    } else {
        number_before(buffer, end, b'L', (target - detectors) as u32)
    }
}

// Writes a number after a space and a letter.
#[inline(always)]
pub(crate) fn number_before(buffer: &mut [u8], end: usize, letter: u8, number: u32) -> usize
    requires within { end ≤ length buffer.old }
    requires room { ANY_NAME ≤ end }
    ensures within { result ≤ end }
    ensures least { end ≤ result + ANY_NAME }
    ensures written { drop result buffer.new ≡ 32 ∷ letter ∷ decimal number ++ drop end buffer.old }
{
    let start = write_digits(number as u64, buffer, end);
    buffer[start - 1] = letter;
    buffer[start - 2] = b' ';
    start - 2
}

// Writes some text.
#[inline(always)]
pub(crate) fn text_before(buffer: &mut [u8], end: usize, text: &[u8]) -> usize
    requires within { end ≤ length buffer.old }
    requires room { length text.now ≤ end }
    ensures start { result + length text.now ≡ end }
    ensures written { drop result buffer.new ≡ text.now ++ drop end buffer.old }
{
    let start = end - text.len();
    buffer[start..end].copy_from_slice(text);
    start
}
