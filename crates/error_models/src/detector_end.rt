//! The end of a detector's line, kept for the line of the detector before it.
ghost use Rattle.std.specs.Prelude.{◌≡◌, ◌≤◌, ◌+◌, ◌++◌, drop, length};
ghost use Rattle.error_models.specs.private.DetectorEnds.{end_text, HasEnd};

use crate::short_lines::{number_before, text_before};

/// How many bytes are kept for the end of a line. It has at most fourteen; so many are copied at once.
pub(crate) const END: usize = 16;

/// Where its last digit is.
const LAST: usize = 14;

/// A space, a detector and a line feed, at the end of a fixed number of bytes. Lines are put from the last on, so mostly the
/// next detector is one less, and only its last digit changes. It is changed as soon as it was put, since bytes that were just
/// written are slow to copy.
#[derive(Drop)]
pub(crate) struct DetectorEnd {
    detector: u32,
    bytes: [u8; END],
    len: usize,
    ghost written: { HasEnd detector len bytes },
}

impl DetectorEnd {
    /// That of a detector.
    #[inline(never)]
    pub(crate) fn new(detector: u32) -> Self
        ensures { result.detector ≡ detector }
    {
        let mut bytes = [0; END];
        let at = text_before(&mut bytes, END, b"\n");
        let start = number_before(&mut bytes, at, b'D', detector);
        DetectorEnd {
            detector,
            bytes,
            len: END - start,
        }
    }

    /// Writes that of a detector so that it ends at `end`, and answers where it starts.
    #[inline(always)]
    pub(crate) fn before(&mut self, buffer: &mut [u8], end: usize, detector: u32) -> usize
        requires within { end ≤ length buffer.old }
        requires room { END ≤ end }
        ensures within { result ≤ end }
        ensures least { end ≤ result + END }
        ensures written { drop result buffer.new ≡ end_text detector ++ drop end buffer.old }
    {
        self.turn_to(detector);
        let start = self.copy_before(buffer, end);
        self.count_down();
        start
    }

    #[inline(always)]
    fn turn_to(&mut self, detector: u32)
        ensures { self.new.detector ≡ detector }
    {
        if self.detector != detector {
            *self = DetectorEnd::new(detector);
        }
    }

    #[inline(always)]
    fn copy_before(&self, buffer: &mut [u8], end: usize) -> usize
        requires within { end ≤ length buffer.old }
        requires room { END ≤ end }
        ensures within { result ≤ end }
        ensures least { end ≤ result + END }
        ensures written { drop result buffer.new
            ≡ end_text self.now.detector ++ drop end buffer.old }
    {
        // A local copy cannot overlap the buffer, so no check is made at run time.
        let bytes = self.bytes;
        buffer[end - END..end].copy_from_slice(&bytes);
        end - self.len
    }

    // Turns to the detector before, where its digits are found easily.
    #[inline(always)]
    fn count_down(&mut self) {
        if self.bytes[LAST] > b'0' {
            self.detector -= 1;
            self.bytes[LAST] -= 1;
        }
    }
}
