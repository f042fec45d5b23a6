ghost use Rattle.std.specs.Prelude.{◌≡◌, ℕ, List, Option, None, Some, IfOk, MatchBool};
ghost use Rattle.stim_parser.specs.Pieces.{pieces_of};
ghost use Rattle.stim_parser.specs.Targets.{each_of};
ghost use Rattle.stim_parser.specs.private.FrontNumbers.{with_front};

use crate::piece::next_piece;
use std::alloc::AllocError;
use stim_lexer::LineTargets;

/// A value that a piece of a text writes, such as a target.
pub trait PieceValue: Copy {
    ghost written: { List ℕ → Option Self };

    /// The value that a piece writes; none where it writes none.
    fn of_piece(piece: &[u8]) -> Option<Self>
        ensures { result ≡ written piece.now };
}

/// Puts the values that the pieces of a text write in place of those that were there. Answers whether each piece writes one.
pub fn read_pieces<V: PieceValue, L: LineTargets<V>>(
    values: &mut L,
    text: &[u8],
) -> Result<bool, AllocError>
    ensures read { IfOk result (λ all. MatchBool all
        (each_of V.written (pieces_of text.now) ≡ Some (L.targets values.new))
        (each_of V.written (pieces_of text.now) ≡ None)) }
    ensures others { IfOk result (λ all. L.others values.new ≡ L.others values.old) }
{
    values.clear();
    push_pieces(values, text)
}

/// Appends the values that the pieces of a text write. Answers whether each piece writes one.
#[inline(never)]
pub(crate) fn push_pieces<V: PieceValue, L: LineTargets<V>>(
    values: &mut L,
    text: &[u8],
) -> Result<bool, AllocError>
    ensures read { IfOk result (λ all. MatchBool all
        (with_front (L.targets values.old) (each_of V.written (pieces_of text.now))
        ≡ Some (L.targets values.new))
        (with_front (L.targets values.old) (each_of V.written (pieces_of text.now)) ≡ None)) }
    ensures others { IfOk result (λ all. L.others values.new ≡ L.others values.old) }
{
    let mut rest = text;
    while let Some((piece, after)) = next_piece(rest) {
        let Some(value) = V::of_piece(piece) else {
            return Ok(false);
        };
        values.push(value)?;
        rest = after;
    }
    Ok(true)
}
