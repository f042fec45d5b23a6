//! Error lines, kept flat.
ghost use Rattle.std.specs.Prelude.{◌≡◌, ◌<◌, ◌^◌, ◌++◌, ◌∷◌, [], length, OnOk, OnErr, slice_index_or};
ghost use Rattle.error_models.specs.ErrorLines.{no_line};

use crate::line_text::LineText;
use crate::texts::number_of;
use flat_lists::FlatLists;
use std::alloc::{AllocError, Allocator};
use std::marker::Model;

/// Error lines, in the order in which they were pushed. A circuit has few different texts of probabilities, so a line
/// keeps the number of its text.
#[derive(Drop)]
pub(crate) struct Lines<'a, A: Allocator + Copy> {
    texts: Vec<LineText<'a>, A>,
    numbers: Vec<usize, A>,
    targets: FlatLists<u32, A>,
}

impl<'a, A: Allocator + Copy> Model for Lines<'a, A> {
    ghost use Rattle.std.specs.Prelude.{List};
    ghost use Rattle.step_model.specs.ErrorModels.{ErrorLine};
    ghost use Rattle.error_models.specs.ErrorLines.{lines_of, IsNumbered};

    ghost Value = { List ErrorLine };

    ghost view = { λ l. lines_of l.texts.items l.numbers.items l.targets };

    ghost invariant = { λ l. IsNumbered l.texts.items l.numbers.items l.targets };
}

impl<'a, A: Allocator + Copy> Lines<'a, A> {
    /// No lines. Takes no memory.
    pub(crate) fn new(alloc: A) -> Self
        ensures { result ≡ [] }
    {
        Lines {
            texts: Vec::new(alloc),
            numbers: Vec::new(alloc),
            targets: FlatLists::new(alloc),
        }
    }

    /// Appends a line. It fails only where memory runs out.
    pub(crate) fn push(&mut self, text: &'a [u8], targets: &[u32]) -> Result<(), AllocError>
        ensures ok { OnOk result
            (self.new ≡ self.old ++ record { text = text.now; targets = targets.now } ∷ []) }
        ensures err { OnErr result (self.new ≡ self.old) }
    {
        let number = number_of(&mut self.texts, text)?;
        // Room for the number first, so that nothing changes where memory runs out.
        self.numbers.reserve(1)?;
        self.targets.push(targets)?;
        self.numbers.push_reserved(number);
        Ok(())
    }

    pub(crate) fn len(&self) -> usize
        ensures value { result ≡ length self.now }
        ensures few { result < 2 ^ 63 }
    {
        self.numbers.len()
    }

    /// The text of a line's probability.
    pub(crate) fn text(&self, line: usize) -> &LineText<'a>
        requires { line < length self.now }
        ensures { result.now ≡ (slice_index_or self.now line no_line).text }
    {
        &self.texts[self.numbers[line]]
    }

    /// The targets that a line flips.
    pub(crate) fn targets(&self, line: usize) -> &[u32]
        requires { line < length self.now }
        ensures { result.now ≡ (slice_index_or self.now line no_line).targets }
    {
        self.targets.get(line)
    }
}
