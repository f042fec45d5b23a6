//! Runs of short lines, which are written together.
ghost use Rattle.std.specs.Prelude.{◌≡◌, ◌<◌, ◌≤◌, ◌+◌, ◌-◌, ℕ, length, take, drop, true};
ghost use Rattle.std.specs.List.{flat_map};
ghost use Rattle.error_models.specs.ErrorLines.{line_at};
ghost use Rattle.error_models.specs.ModelText.{line_text};
ghost use Rattle.error_models.specs.private.ShortLines.{IsShort};

use crate::Model;
use crate::short_lines::{ROOM, SHORT_LINES, SHORT_TARGETS, SHORT_TEXT, line_before};
use std::alloc::Allocator;

/// The end of the run of short lines from `line` on, which has at most as many as are written together.
pub(crate) fn end_of_short<'a, A: Allocator + Copy>(model: &Model<'a, A>, line: usize) -> usize
    requires { line ≤ length model.now.lines }
    ensures from { line ≤ result }
    ensures few { result ≤ line + SHORT_LINES }
    ensures within { result ≤ length model.now.lines }
    ensures short { (k : ℕ) → line ≤ k → k < result → IsShort (line_at model.now k) }
{
    let last = line + SHORT_LINES.min(model.line_count() - line);
    let mut next = line;
    while next < last && is_short(model, next) {
        next += 1;
    }
    next
}

#[inline(always)]
fn is_short<'a, A: Allocator + Copy>(model: &Model<'a, A>, line: usize) -> bool
    requires { line < length model.now.lines }
    ensures { result ≡ true → IsShort (line_at model.now line) }
{
    model.targets(line).len() <= SHORT_TARGETS && model.text(line).len() <= SHORT_TEXT
}

/// Writes short lines so that they end where the buffer does, and answers where they start.
pub(crate) fn lines_before<'a, A: Allocator + Copy>(
    buffer: &mut [u8; ROOM],
    model: &Model<'a, A>,
    line: usize,
    next: usize,
) -> usize
    requires from { line ≤ next }
    requires few { next ≤ line + SHORT_LINES }
    requires within { next ≤ length model.now.lines }
    requires short { (k : ℕ) → line ≤ k → k < next → IsShort (line_at model.now k) }
    ensures start { result ≤ ROOM }
    ensures written { drop result buffer.new
        ≡ flat_map (line_text model.now.detectors)
        (take (next - line) (drop line model.now.lines)) }
{
    let detectors = model.detector_count();
    let mut left = next;
    let mut at = ROOM;
    while left > line {
        left -= 1;
        at = line_before(
            buffer,
            at,
            detectors,
            model.line_text(left),
            model.targets(left),
        );
    }
    at
}
