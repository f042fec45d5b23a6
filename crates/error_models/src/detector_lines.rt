//! The lines of successive detectors, put into a buffer from its end on towards its start.
ghost use Rattle.std.specs.Prelude.{◌≡◌, ◌<◌, ◌≤◌, ◌+◌, ◌++◌, length};
ghost use Rattle.error_models.specs.HeldText.{no_text};
ghost use Rattle.error_models.specs.ModelText.{detector_text};
ghost use Rattle.step_model.specs.Pushed.{Pushes};

use crate::detector_end::DetectorEnd;
use crate::short_detectors::coordinates_before;
use crate::short_lines::text_before;
use std::marker::Model;
use step_model::{Pieces, Sink};

/// How many coordinates a detector has at most whose line is put here.
pub const MOST_COORDINATES: usize = 16;

/// How many lines fit. The last digits of so many detectors go round once.
pub const MOST_LINES: usize = 10;

/// How long a line is at most, with what is copied before its end.
const LINE: usize = 384;

const ROOM: usize = 3840;

/// The lines of some detectors, each put before those that were there, which go out together. In contracts its room is how
/// many lines fit.
#[derive(Drop)]
pub struct DetectorLines {
    buffer: [u8; ROOM],
    start: usize,
    end: DetectorEnd,
}

impl Model for DetectorLines {
    ghost use Rattle.std.specs.Prelude.{◌≤◌, ◌/◌, drop};
    ghost use Rattle.error_models.specs.HeldText.{Filled};

    ghost Value = { Filled };

    ghost view = { λ l. record { text = drop l.start l.buffer; room = l.start / 384 } };

    ghost invariant = { λ l. l.start ≤ 3840 };
}

impl DetectorLines {
    /// No lines.
    pub fn new() -> Self
        ensures { result ≡ no_text MOST_LINES }
    {
        DetectorLines {
            buffer: [0; ROOM],
            start: ROOM,
            end: DetectorEnd::new(0),
        }
    }

    /// Puts the line of a detector before those that were there.
    #[inline(always)]
    pub fn put(&mut self, detector: u32, coordinates: &[i64])
        requires room { 0 < self.old.room }
        requires few { length coordinates.now ≤ MOST_COORDINATES }
        ensures room { self.old.room ≤ self.new.room + 1 }
        ensures text { self.new.text ≡ detector_text detector coordinates.now ++ self.old.text }
    {
        let at = self.end.before(&mut self.buffer, self.start, detector);
        let at = coordinates_before(&mut self.buffer, at, coordinates);
        self.start = text_before(&mut self.buffer, at, b"detector");
    }

    /// Pushes the lines, and takes them out.
    pub fn push_to<W: Sink>(&mut self, out: &mut Pieces, sink: &mut W)
        ensures pushed { Pushes W.taken W.failures sink.old sink.new out.old out.new self.old.text }
        ensures left { self.new ≡ no_text MOST_LINES }
    {
        out.push(sink, &self.buffer[self.start..]);
        self.start = ROOM;
    }
}
