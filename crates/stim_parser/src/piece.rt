ghost use Rattle.std.specs.Prelude.{◌≡◌, ◌<◌, ◌∷◌, [], length, position, IfSome, MatchOption};
ghost use Rattle.stim_parser.specs.Pieces.{ends_piece, pieces_of};

use stim_lexer::{after_blanks, is_blank};

/// Whether a piece ends before a byte.
#[inline(always)]
pub(crate) fn ends_piece(byte: u8) -> bool
    ensures { result ≡ ends_piece byte }
{
    is_blank(byte) || byte == b'*'
}

/// Where the first byte stands before which a piece ends.
#[inline(always)]
fn place_of_end(text: &[u8]) -> Option<usize>
    ensures { result ≡ position ends_piece text.now }
{
    text.iter().position(|byte| ends_piece(*byte))
}

/// The first piece of a text, and what follows it. There is none where all is blank.
pub(crate) fn next_piece(text: &[u8]) -> Option<(&[u8], &[u8])>
    ensures pieces { MatchOption result (pieces_of text.now ≡ [])
        (λ cut. pieces_of text.now ≡ cut.0.now ∷ pieces_of cut.1.now) }
    ensures less { IfSome result (λ cut. length cut.1.now < length text.now) }
{
    let text = after_blanks(text);
    if text.is_empty() {
        return None;
    }
    // A star is a piece of its own, so a piece has at least one byte.
    let end = place_of_end(text).unwrap_or(text.len()).max(1);
    Some(text.split_at(end))
}
