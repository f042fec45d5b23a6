ghost use Rattle.std.specs.Prelude.{◌≡◌, ◌++◌, ◌∷◌, [], ◌<◌, length, reverse, OnOk, OnErr, slice_index_or};
ghost use Rattle.error_models.specs.ErrorLines.{line_at};

use crate::line_text::LineText;
use crate::lines::Lines;
use flat_lists::FlatLists;
use std::alloc::{AllocError, Allocator};

/// What the faults of a circuit flip: an error line for each fault that flips some target, and how many detectors,
/// with what coordinates, and observables there are. Targets are numbered, the detectors first: observable k has the
/// number of detectors and k more.
pub struct Model<'a, A: Allocator + Copy> {
    // The lines: those of `back` from the last to the first, and then those of `front`.
    back: Lines<'a, A>,
    front: Lines<'a, A>,
    coordinates: FlatLists<i64, A>,
    observables: usize,
}

impl<'a, A: Allocator + Copy> std::marker::Model for Model<'a, A> {
    ghost use Rattle.std.specs.Prelude.{◌++◌, length, reverse};
    ghost use Rattle.step_model.specs.ErrorModels.{ErrorModel};

    ghost Value = { ErrorModel };

    ghost view = { λ m. record {
      lines = reverse m.back ++ m.front;
      coordinates = m.coordinates;
      detectors = length m.coordinates;
      observables = m.observables;
    } };
}

// Written out, so that it is a call in the proof of each function that owns one.
impl<A: Allocator + Copy> Drop for Model<'_, A> {
    fn drop(self) {
        let Model {
            back,
            front,
            coordinates,
            observables: _,
        } = self;
        drop(back);
        drop(front);
        drop(coordinates);
    }
}

impl<'a, A: Allocator + Copy> Model<'a, A> {
    /// A model without lines, with a detector for each list of coordinates. Takes no memory.
    pub fn new(alloc: A, coordinates: FlatLists<i64, A>, observables: usize) -> Self
        ensures { result
            ≡ record {
              lines = [];
              coordinates = coordinates;
              detectors = length coordinates;
              observables = observables;
            } }
    {
        Model {
            back: Lines::new(alloc),
            front: Lines::new(alloc),
            coordinates,
            observables,
        }
    }

    /// A model with the lines of another in the opposite order, with a detector for each list of coordinates. Copies no
    /// line.
    pub fn in_reverse(lines: Self, coordinates: FlatLists<i64, A>, observables: usize) -> Self
        ensures { result
            ≡ record {
              lines = reverse lines.entry.lines;
              coordinates = coordinates;
              detectors = length coordinates;
              observables = observables;
            } }
    {
        let Model {
            back,
            front,
            coordinates: replaced,
            observables: _,
        } = lines;
        drop(replaced);
        Model {
            back: front,
            front: back,
            coordinates,
            observables,
        }
    }

    /// Appends a line. It fails only where memory runs out.
    pub fn push_line(&mut self, text: &'a [u8], targets: &[u32]) -> Result<(), AllocError>
        ensures ok { OnOk result
            (self.new
            ≡ record self.old
            { lines = self.old.lines ++ record { text = text.now; targets = targets.now } ∷ [] }) }
        ensures err { OnErr result (self.new ≡ self.old) }
    {
        self.front.push(text, targets)
    }

    /// How many error lines there are.
    pub fn line_count(&self) -> usize
        ensures { result ≡ length self.now.lines }
    {
        self.back.len() + self.front.len()
    }

    /// The text of a line's probability.
    pub fn text(&self, line: usize) -> &'a [u8]
        requires { line < length self.now.lines }
        ensures { result.now ≡ (line_at self.now line).text }
    {
        self.line_text(line).text()
    }

    /// The same, with the beginning of a line that has it.
    pub(crate) fn line_text(&self, line: usize) -> &LineText<'a>
        requires { line < length self.now.lines }
        ensures { result.now ≡ (line_at self.now line).text }
    {
        let back = self.back.len();
        if line < back {
            self.back.text(back - 1 - line)
        } else {
            self.front.text(line - back)
        }
    }

    /// The targets that a line flips.
    pub fn targets(&self, line: usize) -> &[u32]
        requires { line < length self.now.lines }
        ensures { result.now ≡ (line_at self.now line).targets }
    {
        let back = self.back.len();
        if line < back {
            self.back.targets(back - 1 - line)
        } else {
            self.front.targets(line - back)
        }
    }

    /// How many detectors there are.
    pub fn detector_count(&self) -> usize
        ensures count { result ≡ self.now.detectors }
        ensures coordinates { result ≡ length self.now.coordinates }
    {
        self.coordinates.len()
    }

    /// The coordinates of a detector, none where it states none.
    pub fn coordinates(&self, detector: usize) -> &[i64]
        requires { detector < length self.now.coordinates }
        ensures { result.now ≡ slice_index_or self.now.coordinates detector [] }
    {
        self.coordinates.get(detector)
    }

    /// How many observables there are.
    pub fn observable_count(&self) -> usize
        ensures { result ≡ self.now.observables }
    {
        self.observables
    }
}
