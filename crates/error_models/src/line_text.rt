//! The text of an error line's probability, and the beginning of a line with it.
ghost use Rattle.std.specs.Prelude.{◌≡◌, ◌≤◌, ◌+◌, ◌++◌, codes, drop, length};
ghost use Rattle.error_models.specs.private.LineHeads.{HasHead};

use crate::short_lines::{SHORT_TEXT, text_before};
use std::marker::Model;

/// How long the beginning of a short line is at most: `error(`, a probability and `)`.
const HEAD: usize = 40;

/// The text of an error line's probability, a slice of the text that it was read from. The beginning of a short line
/// with it is kept, at the end of a fixed number of bytes, so that all of them are copied at once.
#[derive(Drop)]
pub(crate) struct LineText<'a> {
    text: &'a [u8],
    head: [u8; HEAD],
}

impl<'a> Model for LineText<'a> {
    ghost use Rattle.std.specs.Prelude.{List, ℕ};
    ghost use Rattle.error_models.specs.private.LineHeads.{HasHead};

    ghost Value = { List ℕ };

    ghost view = { λ t. t.text.now };

    ghost invariant = { λ t. HasHead t.text.now t.head };
}

impl<'a> LineText<'a> {
    pub(crate) fn new(text: &'a [u8]) -> Self
        ensures { result ≡ text.now }
    {
        LineText {
            text,
            head: head_of(text),
        }
    }

    #[inline(always)]
    pub(crate) fn text(&self) -> &'a [u8]
        ensures { result.now ≡ self.now }
    {
        self.text
    }

    /// Writes the beginning of a short line so that it ends at `end`, and answers where it starts.
    #[inline(always)]
    pub(crate) fn head_before(&self, buffer: &mut [u8], end: usize) -> usize
        requires short { length self.now ≤ SHORT_TEXT }
        requires room { HEAD ≤ end }
        requires within { end ≤ length buffer.old }
        ensures within { result ≤ end }
        ensures least { end ≤ result + HEAD }
        ensures written { drop result buffer.new
            ≡ codes "error(" ++ self.now ++ codes ")" ++ drop end buffer.old }
    {
        // A local copy cannot overlap the buffer, so no check is made at run time.
        let head = self.head;
        buffer[end - HEAD..end].copy_from_slice(&head);
        end - (self.text.len() + 7)
    }
}

fn head_of(text: &[u8]) -> [u8; HEAD]
    ensures { HasHead text.now result }
{
    let mut head = [0; HEAD];
    if text.len() <= SHORT_TEXT {
        let at = text_before(&mut head, HEAD, b")");
        let at = text_before(&mut head, at, text);
        text_before(&mut head, at, b"error(");
    }
    head
}
