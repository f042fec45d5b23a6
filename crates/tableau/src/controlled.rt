//! Controlled gates, in place: such a gate has a letter on each of its qubits. Where X or Z at a qubit clashes with the
//! letter there, its word is multiplied by the word of the letter on the other qubit. No word is copied.
ghost use Rattle.std.specs.Prelude.{◌≡◌, ◌≢◌, length, false, IfSome};
ghost use Rattle.gate_table.specs.Images.{factor};
ghost use Rattle.pauli_word.specs.declared.letter.Letter.{Letter};
ghost use Rattle.pauli_word.specs.declared.letter.Letter.TheVariants.{Y};
ghost use Rattle.pauli_word.specs.Words.{anticommute};
ghost use Rattle.tableau.specs.private.ControlledSteps.{CanControl, IsControlled, after_controlled, controlled_pair, CommuteWith};
ghost use Rattle.tableau.specs.private.Encoding.{HasLength, word_of};

use crate::pairs::{Pair, multiply};
use gate_table::Gate;
use pauli_word::Letter;
use std::alloc::Allocator;

/// The letters of a controlled gate on its first and its second qubit. None for other gates, and where both are Y.
#[inline(always)]
pub(crate) fn controlled_letters(gate: Gate) -> Option<(Letter, Letter)>
    ensures { IfSome result (λ letters. IsControlled gate letters.0 letters.1) }
{
    match gate {
        Gate::CX => Some((Letter::Z, Letter::X)),
        Gate::CY => Some((Letter::Z, Letter::Y)),
        Gate::CZ => Some((Letter::Z, Letter::Z)),
        Gate::XCX => Some((Letter::X, Letter::X)),
        Gate::XCY => Some((Letter::X, Letter::Y)),
        Gate::XCZ => Some((Letter::X, Letter::Z)),
        Gate::YCX => Some((Letter::Y, Letter::X)),
        Gate::YCZ => Some((Letter::Y, Letter::Z)),
        _ => None,
    }
}

/// Applies the controlled gate with these letters to two qubits. The letters of CX and CZ stand as constants, so that
/// what depends on them is decided once, by the compiler. A gate with Y on its first qubit is one with Y on its second.
pub(crate) fn apply_controlled<A: Allocator + Copy>(
    rows: &mut [Pair<A>],
    own: Letter,
    other: Letter,
    a: usize,
    b: usize,
)
    requires own { own ≡ Y → other ≢ Y }
    requires rows { CanControl a b rows.old }
    ensures { rows.new ≡ after_controlled own other a b rows.old }
{
    match (own, other) {
        (Letter::Z, Letter::X) => multiply_at(rows, Letter::Z, Letter::X, a, b),
        (Letter::Z, Letter::Z) => multiply_at(rows, Letter::Z, Letter::Z, a, b),
        _ => {
            if own == Letter::Y {
                multiply_at(rows, other, own, b, a)
            } else {
                multiply_at(rows, own, other, a, b)
            }
        }
    }
}

#[inline(always)]
fn multiply_at<A: Allocator + Copy>(
    rows: &mut [Pair<A>],
    own: Letter,
    other: Letter,
    a: usize,
    b: usize,
)
    requires own { own ≢ Y }
    requires rows { CanControl a b rows.old }
    ensures { rows.new ≡ after_controlled own other a b rows.old }
{
    if a < b {
        let (front, back) = rows.split_at_mut(b);
        multiply_both(&mut front[a], &mut back[0], own, other);
    } else {
        let (front, back) = rows.split_at_mut(a);
        multiply_both(&mut back[0], &mut front[b], own, other);
    }
}

// The word of `own`, by which the second pair is multiplied, is not changed before: `own` doesn't clash with itself.
#[inline(always)]
fn multiply_both<A: Allocator + Copy>(
    first: &mut Pair<A>,
    second: &mut Pair<A>,
    own: Letter,
    other: Letter,
)
    requires own { own ≢ Y }
    requires first { HasLength (length first.old.0.letters) first.old }
    requires second { HasLength (length first.old.0.letters) second.old }
    requires commuting { (a : Letter)
        → anticommute (word_of (length first.old.0.letters) first.old a).letters
        second.old.1.letters
        ≡ false }
    ensures first { first.new
        ≡ controlled_pair (length first.old.0.letters) own other first.old second.old }
    ensures second { second.new
        ≡ controlled_pair (length first.old.0.letters) other own second.old first.old }
{
    multiply_clashing(first, own, second, other);
    multiply_clashing(second, other, first, own);
}

// Multiplies the words of X and of Z, each where its letter clashes with `own`, by the word of `other` in another pair.
#[inline(always)]
fn multiply_clashing<A: Allocator + Copy>(
    pair: &mut Pair<A>,
    own: Letter,
    others: &Pair<A>,
    other: Letter,
)
    requires size { HasLength (length pair.old.0.letters) pair.old }
    requires others { HasLength (length pair.old.0.letters) others.now }
    requires commuting { other ≡ Y → CommuteWith others.now.1 pair.old }
    ensures { pair.new ≡ controlled_pair (length pair.old.0.letters) own other pair.old others.now }
{
    multiply(&mut pair.0, others, factor(Letter::X.clashes(own), other));
    multiply(&mut pair.1, others, factor(Letter::Z.clashes(own), other));
}

// A letter where it is a factor, otherwise I.
#[inline(always)]
fn factor(taken: bool, letter: Letter) -> Letter
    ensures { result ≡ factor taken letter }
{
    if taken { letter } else { Letter::I }
}
