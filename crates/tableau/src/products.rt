//! Pauli products whose letters are handed out one after another.
ghost use Rattle.std.specs.Prelude.{◌≡◌, [], ◌∷◌, ℕ, List, MatchOption, false, length, take, true};
ghost use Rattle.pauli_word.specs.declared.letter.Letter.{Letter};
ghost use Rattle.pauli_word.specs.Words.{signed};
ghost use Rattle.tableau.specs.Products.{AreWithin, word_of_factors};
ghost use Rattle.tableau.specs.private.Encoding.{HasLength, IsTableau};
ghost use Rattle.tableau.specs.private.EncodingSteps.{code_of};
ghost use Rattle.tableau.specs.private.Factors.{AreBetween, NameNone};

use crate::codes::{encode, set_code};
use crate::pairs::{Pair, multiply};
use pauli_word::{Letter, Word};
use std::alloc::Allocator;

const FEW_FACTORS: usize = 8;

/// The factors of a Pauli product: letters at qubits, one after another.
pub trait Factors: Copy {
    // The letters with their qubits.
    ghost factors: { Self → List (ℕ × Letter) };

    /// Takes the first of them out, if one is left.
    fn take_first(&mut self) -> Option<(usize, Letter)>
        ensures { MatchOption result (factors self.old ≡ [])
            (λ first. factors self.old ≡ first ∷ factors self.new) };
}

/// Makes `code.0` the code of a product: the product of the factors' codes, if it is seen that no
/// two are at one qubit, as nearly always. Otherwise `word.0` is made the product, and its code
/// is made.
#[inline(always)]
pub(crate) fn encode_product<F: Factors, A: Allocator + Copy>(
    rows: &Vec<Pair<A>, A>,
    factors: F,
    word: &mut Pair<A>,
    code: &mut Pair<A>,
)
    requires tableau { IsTableau (length rows.now.items) rows.now.items }
    requires within { AreWithin (length rows.now.items) (F.factors factors) }
    requires word { HasLength (length rows.now.items) word.old }
    requires code { HasLength (length rows.now.items) code.old }
    ensures word { HasLength (length rows.now.items) word.new }
    ensures code { HasLength (length rows.now.items) code.new }
    ensures of_product { let n = length rows.now.items in
        code.new.0 ≡ code_of n rows.now.items (word_of_factors n (F.factors factors)) }
{
    if !encode_apart(rows, factors, code) {
        set_product(&mut word.0, factors);
        encode(rows, &word.0, code);
    }
}

// Makes `code.0` the product of the factors' codes, if it is seen that no two are at one qubit, and
// answers whether it is so.
#[inline(always)]
fn encode_apart<F: Factors, A: Allocator + Copy>(
    rows: &Vec<Pair<A>, A>,
    factors: F,
    code: &mut Pair<A>,
) -> bool
    requires tableau { IsTableau (length rows.now.items) rows.now.items }
    requires within { AreWithin (length rows.now.items) (F.factors factors) }
    requires code { HasLength (length rows.now.items) code.old }
    ensures code { HasLength (length rows.now.items) code.new }
    ensures of_product { let n = length rows.now.items in
        result ≡ true
        → code.new.0 ≡ code_of n rows.now.items (word_of_factors n (F.factors factors)) }
{
    let mut left = factors;
    let Some((first, letter)) = left.take_first() else {
        code.0.clear();
        return true;
    };
    set_code(rows, code, letter, first);
    let mut lowest = first;
    let mut highest = first;
    for count in 1..usize::MAX {
        let Some((qubit, letter)) = left.take_first() else {
            return true;
        };
        if !is_apart(&factors, count, lowest, highest, qubit) {
            return false;
        }
        multiply(&mut code.0, &rows[qubit], letter);
        lowest = lowest.min(qubit);
        highest = highest.max(qubit);
    }
    false
}

// Whether no factor among so many first ones, which are at qubits from `lowest` to `highest`, is at
// this qubit. Where it lies between those, they are searched if the factors are few.
#[inline(always)]
fn is_apart<F: Factors>(
    factors: &F,
    count: usize,
    lowest: usize,
    highest: usize,
    qubit: usize,
) -> bool
    requires { AreBetween lowest highest (take count (F.factors factors.now)) }
    ensures { result ≡ true → NameNone qubit (take count (F.factors factors.now)) }
{
    qubit < lowest || highest < qubit || few_name_none(factors, count, qubit)
}

// Whether there are few factors, and none among so many first ones is at this qubit. Where there
// are more, making the word of all takes less than searching.
#[inline(never)]
fn few_name_none<F: Factors>(factors: &F, count: usize, qubit: usize) -> bool
    ensures { result ≡ true → NameNone qubit (take count (F.factors factors.now)) }
{
    let mut left = *factors;
    for place in 0..FEW_FACTORS + 1 {
        match left.take_first() {
            Some((at, _)) => {
                if place < count && at == qubit {
                    return false;
                }
            }
            None => return true,
        }
    }
    false
}

/// Sets a word to a product, with sign plus.
#[inline(always)]
pub(crate) fn set_product<F: Factors, A: Allocator + Copy>(word: &mut Word<A>, factors: F)
    requires { AreWithin (length word.old.letters) (F.factors factors) }
    ensures word { word.new
        ≡ signed (word_of_factors (length word.old.letters) (F.factors factors)) false }
    ensures len { length word.new.letters ≡ length word.old.letters }
{
    word.clear();
    let mut left = factors;
    while let Some((qubit, letter)) = left.take_first() {
        word.set_letter(qubit, letter.times(word.letter(qubit)));
    }
}
