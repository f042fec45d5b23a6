//! The line of a detector with few coordinates, written into a buffer from its end on towards its start.
ghost use Rattle.std.specs.Prelude.{◌≡◌, ◌≤◌, ◌+◌, ◌*◌, ◌++◌, length, drop};
ghost use Rattle.std.specs.Fmt.{signed_decimal};
ghost use Rattle.error_models.specs.ModelText.{more_coordinates_text, coordinates_text, detector_text};

use crate::short_lines::{number_before, text_before};
use itoa::write_digits;

/// How many coordinates a detector may have for its line to be written here.
pub(crate) const SHORT_COORDINATES: usize = 8;

/// How long a buffer for the line of a detector is. It is small, so that each line can have its own.
pub(crate) const DETECTOR_ROOM: usize = 256;

/// How long the text of a coordinate is at most: a sign and nineteen digits.
const COORDINATE: usize = 20;

/// How long it is behind a comma and a space.
const LATER_COORDINATE: usize = 22;

/// Writes the line of a detector so that it ends where the buffer does, and answers where it starts.
pub(crate) fn detector_before(buffer: &mut [u8], detector: u32, coordinates: &[i64]) -> usize
    requires room { length buffer.old ≡ DETECTOR_ROOM }
    requires few { length coordinates.now ≤ SHORT_COORDINATES }
    ensures within { result ≤ DETECTOR_ROOM }
    ensures written { drop result buffer.new ≡ detector_text detector coordinates.now }
{
    let at = text_before(buffer, DETECTOR_ROOM, b"\n");
    let at = number_before(buffer, at, b'D', detector);
    let at = coordinates_before(buffer, at, coordinates);
    text_before(buffer, at, b"detector")
}

/// Writes coordinates in parentheses, where there are some, so that they end at `end`, and answers where they start.
pub(crate) fn coordinates_before(buffer: &mut [u8], end: usize, coordinates: &[i64]) -> usize
    requires within { end ≤ length buffer.old }
    requires room { length coordinates.now * LATER_COORDINATE + 2 ≤ end }
    ensures within { result ≤ end }
    ensures least { end ≤ result + length coordinates.now * LATER_COORDINATE + 2 }
    ensures written { drop result buffer.new
        ≡ coordinates_text coordinates.now ++ drop end buffer.old }
{
    match coordinates {
        [first, more @ ..] => {
            let at = text_before(buffer, end, b")");
            let at = more_before(buffer, at, more);
            let at = whole_before(buffer, at, *first);
            text_before(buffer, at, b"(")
        }
        [] => end,
    }
}

// Writes coordinates after the first.
fn more_before(buffer: &mut [u8], end: usize, coordinates: &[i64]) -> usize
    requires within { end ≤ length buffer.old }
    requires room { length coordinates.now * LATER_COORDINATE ≤ end }
    ensures within { result ≤ end }
    ensures least { end ≤ result + length coordinates.now * LATER_COORDINATE }
    ensures written { drop result buffer.new
        ≡ more_coordinates_text coordinates.now ++ drop end buffer.old }
{
    let mut left = coordinates.len();
    let mut at = end;
    while left > 0 {
        left -= 1;
        at = whole_before(buffer, at, coordinates[left]);
        at = text_before(buffer, at, b", ");
    }
    at
}

// Writes a whole number.
#[inline]
fn whole_before(buffer: &mut [u8], end: usize, number: i64) -> usize
    requires within { end ≤ length buffer.old }
    requires room { COORDINATE ≤ end }
    ensures within { result ≤ end }
    ensures least { end ≤ result + COORDINATE }
    ensures written { drop result buffer.new ≡ signed_decimal number ++ drop end buffer.old }
{
    let start = write_digits(number.unsigned_abs(), buffer, end);
    if number >= 0 {
        return start;
    }
    buffer[start - 1] = b'-';
    start - 1
}
