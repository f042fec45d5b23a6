//! Letters that a step lends, as a slice: one alone, few in an array, more in a list.
ghost use Rattle.std.specs.Prelude.{◌≡◌, ◌≤◌, ◌∷◌, [], length, take, IfOk, IfSome, OnOk};
ghost use Rattle.circuit_walk.specs.Letters.{AreSmall, letters_in};

use circuit_walk::Letters;
use pauli_word::Letter;
use std::alloc::{AllocError, Allocator};
use step_model::Term;

/// How many letters are few: most products have no more.
pub(crate) const FEW_LETTERS: usize = 16;

/// What an array of few letters holds where none was put.
pub(crate) const NO_LETTER: Term = Term {
    qubit: 0,
    letter: Letter::I,
};

/// The letter where there is one alone, as in most faults.
#[inline(always)]
pub(crate) fn lone_letter(letters: Letters<'_>) -> Option<Term>
    requires { AreSmall letters }
    ensures { IfSome result (λ term. letters_in letters.entry ≡ term ∷ []) }
{
    match letters.split_first() {
        Some((term, rest)) => {
            if rest.split_first().is_none() {
                Some(term)
            } else {
                None
            }
        }
        None => None,
    }
}

/// The letters as a slice: in the array where they are few, else in the list, in place of what it held.
#[inline(always)]
pub(crate) fn terms_of<'t, A: Allocator + Copy>(
    letters: Letters<'_>,
    few: &'t mut [Term],
    many: &'t mut Vec<Term, A>,
) -> Result<&'t [Term], AllocError>
    requires { AreSmall letters }
    ensures { IfOk result (λ terms. terms.now ≡ letters_in letters.entry) }
{
    match put_few(letters, few) {
        Some(count) => Ok(&few[..count]),
        None => {
            put_all(letters, many)?;
            Ok(many.as_slice())
        }
    }
}

// Puts the letters at the start of the array, and answers how many these are; none where there are too many.
fn put_few(letters: Letters<'_>, few: &mut [Term]) -> Option<usize>
    requires { AreSmall letters }
    ensures within { IfSome result (λ count. count ≤ length few.new) }
    ensures terms { IfSome result (λ count. take count few.new ≡ letters_in letters.entry) }
{
    let mut count = 0;
    let mut left = letters;
    while let Some((term, rest)) = left.split_first() {
        if count == few.len() {
            return None;
        }
        few[count] = term;
        count += 1;
        left = rest;
    }
    Some(count)
}

// Puts the letters into the list, in place of what it held.
fn put_all<A: Allocator + Copy>(
    letters: Letters<'_>,
    many: &mut Vec<Term, A>,
) -> Result<(), AllocError>
    requires { AreSmall letters }
    ensures { OnOk result (many.new.items ≡ letters_in letters.entry) }
{
    many.clear();
    let mut left = letters;
    while let Some((term, rest)) = left.split_first() {
        many.push(term)?;
        left = rest;
    }
    Ok(())
}
