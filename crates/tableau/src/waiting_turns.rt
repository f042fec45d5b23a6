//! The turns of random measurements, which can wait: then one pass over the rows makes many of them, and a row goes through the
//! caches once for all.
ghost use Rattle.std.specs.Prelude.{◌≡◌, ◌<◌, ℕ, length, All, IfOk};
ghost use Rattle.tableau.specs.private.Encoding.{pair_at};
ghost use Rattle.tableau.specs.private.EncodingSteps.{mapped};
ghost use Rattle.tableau.specs.private.Waiting.{all_turned, measured_letter, CanTurn, IsSized};

use crate::measure::turn_pair_by;
use crate::pairs::Pair;
use pauli_word::{Letter, Word};
use std::alloc::{AllocError, Allocator};

/// What a turn was made of: the letter that was measured at a qubit, and the pivot, where its code has X or Y.
#[derive(Clone, Copy)]
pub(crate) struct Origin {
    pub(crate) pivot: usize,
    pub(crate) qubit: usize,
    pub(crate) letter: Letter,
}

/// A turn by a word, which is Z at the pivot times that code.
pub(crate) type Turn<A> = (Word<A>, Origin);

/// Room for so many turns of words of `n` letters.
pub(crate) fn identity_turns<A: Allocator + Copy>(
    alloc: A,
    n: usize,
    room: usize,
) -> Result<Vec<Turn<A>, A>, AllocError>
    ensures { IfOk result (λ turns. All (IsSized n) turns.items) }
{
    let mut turns = Vec::with_capacity(alloc, room)?;
    for _ in 0..room {
        let origin = Origin {
            pivot: 0,
            qubit: 0,
            letter: Letter::I,
        };
        turns.push_reserved((Word::identity(alloc, n)?, origin));
    }
    Ok(turns)
}

// How many letters of a word are looked at, how far apart, and how many make it dense.
const LOOKED_AT: usize = 32;

const APART: usize = 127;

const MANY: usize = 8;

/// Whether a word of `n` letters seems to have them at many qubits, by a look at some.
pub(crate) fn seems_dense<A: Allocator + Copy>(word: &Word<A>, n: usize) -> bool
    requires size { length word.now.letters ≡ n }
    requires some { 0 < n }
{
    let mut seen = 0;
    for place in 0..LOOKED_AT {
        if word.letter(place * APART % n) != Letter::I {
            seen += 1;
        }
    }
    MANY <= seen
}

/// Turns the pair of a qubit by one turn after another.
pub(crate) fn turn_pair_by_all<A: Allocator + Copy>(
    pair: &mut Pair<A>,
    turns: &[Turn<A>],
    qubit: usize,
)
    requires { CanTurn qubit turns.now pair.old }
    ensures { pair.new ≡ (all_turned turns.now pair.old.0, all_turned turns.now pair.old.1) }
{
    for turn in turns {
        turn_pair_by(pair, &turn.0, turn.1, qubit);
    }
}

/// Turns all rows by one turn after another.
pub(crate) fn turn_rows_by_all<A: Allocator + Copy>(rows: &mut Vec<Pair<A>, A>, turns: &[Turn<A>])
    requires { (q : ℕ)
        → q < length rows.old.items
        → CanTurn q turns.now (pair_at (length rows.old.items) rows.old.items q) }
    ensures { rows.new.items ≡ mapped (all_turned turns.now) rows.old.items }
{
    for row in 0..rows.len() {
        turn_pair_by_all(&mut rows[row], turns, row);
    }
}
