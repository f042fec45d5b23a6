ghost use Rattle.std.specs.Prelude.{◌≡◌, ◌≢◌, ◌<◌, Bool, true, false, length, None, IfOk, IfSome};
ghost use Rattle.gate_table.specs.Images.{arity_of};
ghost use Rattle.gate_table.specs.WordImages.{preimage_at, preimage_at_two};
ghost use Rattle.pauli_word.specs.States.{start_state, applied, collapsed, correcting, outcome};
ghost use Rattle.pauli_word.specs.declared.letter.Letter.TheVariants.{X, Z};
ghost use Rattle.pauli_word.specs.Letters.{letters_clash};
ghost use Rattle.pauli_word.specs.Words.{letter_at, lone_letter, signed};
ghost use Rattle.tableau.specs.Products.{AreWithin, word_of_factors};
ghost use Rattle.tableau.specs.Rows.{row_count, state_of, stabilizer_at, destabilizer_at, HasState, NamesRandom, IsCollapsed};
ghost use Rattle.tableau.specs.private.Waiting.{outcome_by, turned_by, turns_by, AreTurns, IsSized, Measures};

pub mod laws;
mod waiting;

use crate::codes::{diagonal_sign, encode, encode_letter, set_code, sign_seen};
use crate::collapse::collapse_code;
use crate::decode::{decode, stabilizer_clashes};
use crate::gates::{apply_letters, apply_one, apply_two};
use crate::measure::{measure_code, measure_letter, set_turn};
use crate::pairs::{Pair, identity_pair, replace, restart_pairs, set_word, start_pairs};
use crate::products::{Factors, encode_product, set_product};
use crate::waiting_turns::{Origin, Turn, seems_dense, turn_pair_by_all, turn_rows_by_all};
use gate_table::Gate;
use pauli_word::{Letter, Word};
use std::alloc::{AllocError, Allocator};
use std::marker::Model;
pub use waiting::WaitingTableau;

/// The state of n qubits. Contracts see it as n stabilizer rows, whose products are the words of the state, and n
/// destabilizer rows.
///
/// It keeps the rows of the inverse circuit, from which those are read: a gate changes only the rows of its qubits, and
/// an outcome that isn't random is the sign of a product. Only `start` allocates.
pub struct Tableau<A: Allocator + Copy> {
    rows: Vec<Pair<A>, A>,
    first: Pair<A>,
    second: Pair<A>,
}

impl<A: Allocator + Copy> Model for Tableau<A> {
    ghost use Rattle.std.specs.Prelude.{length};
    ghost use Rattle.tableau.specs.private.Decoding.{rows_seen};
    ghost use Rattle.tableau.specs.private.Encoding.{HasLength, IsTableau};
    ghost use Rattle.tableau.specs.Rows.{Rows};

    ghost Value = { Rows };

    ghost view = { λ t. rows_seen t.rows.items };

    ghost invariant = { λ t. IsTableau (length t.rows.items) t.rows.items × HasLength (length t.rows.items) t.first × HasLength (length t.rows.items) t.second };
}

// Written out, so that it is a call in the proof of each function that owns one.
impl<A: Allocator + Copy> Drop for Tableau<A> {
    fn drop(self) {
        let Tableau {
            rows,
            first,
            second,
        } = self;
        drop(rows);
        drop(first);
        drop(second);
    }
}

impl<A: Allocator + Copy> Tableau<A> {
    /// The state in which all of `n` qubits are 0.
    pub fn start(alloc: A, n: usize) -> Result<Self, AllocError>
        ensures len { IfOk result (λ t. row_count t ≡ n) }
        ensures state { IfOk result (λ t. HasState t start_state) }
    {
        let rows = start_pairs(alloc, n)?;
        let first = identity_pair(alloc, n)?;
        let second = identity_pair(alloc, n)?;
        Ok(Tableau {
            rows,
            first,
            second,
        })
    }

    /// Makes all qubits 0 again.
    pub fn restart(&mut self)
        ensures len { row_count self.new ≡ row_count self.old }
        ensures state { HasState self.new start_state }
    {
        restart_pairs(&mut self.rows);
    }

    /// How many qubits there are.
    pub fn len(&self) -> usize
        ensures { result ≡ row_count self.now }
    {
        self.rows.len()
    }

    /// Applies a gate, to qubit `a` or to qubits `a` and `b`. A one-qubit gate ignores `b`.
    #[inline(always)]
    pub fn apply(&mut self, gate: Gate, a: usize, b: usize)
        requires first_inside { a < row_count self.old }
        requires second_inside { arity_of gate ≡ 2 → b < row_count self.old }
        requires differ { arity_of gate ≡ 2 → a ≢ b }
        ensures len { row_count self.new ≡ row_count self.old }
        ensures one { arity_of gate ≡ 1
            → HasState self.new (λ p. state_of self.old (preimage_at gate a p)) }
        ensures two { arity_of gate ≡ 2
            → HasState self.new (λ p. state_of self.old (preimage_at_two gate a b p)) }
    {
        if gate.arity() == 1 {
            self.apply_one(gate, a);
        } else {
            self.apply_two(gate, a, b);
        }
    }

    #[inline(always)]
    fn apply_one(&mut self, gate: Gate, qubit: usize)
        requires arity { arity_of gate ≡ 1 }
        requires inside { qubit < row_count self.old }
        ensures len { row_count self.new ≡ row_count self.old }
        ensures state { HasState self.new (λ p. state_of self.old (preimage_at gate qubit p)) }
    {
        apply_one(&mut self.rows, gate, qubit);
    }

    #[inline(always)]
    fn apply_two(&mut self, gate: Gate, a: usize, b: usize)
        requires arity { arity_of gate ≡ 2 }
        requires first_inside { a < row_count self.old }
        requires second_inside { b < row_count self.old }
        requires differ { a ≢ b }
        ensures len { row_count self.new ≡ row_count self.old }
        ensures state { HasState self.new (λ p. state_of self.old (preimage_at_two gate a b p)) }
    {
        apply_two(
            &mut self.rows,
            &mut self.first,
            &mut self.second,
            gate,
            a,
            b,
        );
    }

    /// Applies a Pauli word. Its sign is ignored.
    pub fn apply_word(&mut self, word: &Word<A>)
        requires { length word.now.letters ≡ row_count self.old }
        ensures len { row_count self.new ≡ row_count self.old }
        ensures state { HasState self.new (applied true word.now.letters (state_of self.old)) }
    {
        apply_letters(&mut self.rows, word);
    }

    /// Measures a letter at a qubit: a collapse. Answers the outcome, which is the coin where it is random, and the row
    /// whose stabilizer was then replaced.
    pub fn collapse(&mut self, letter: Letter, qubit: usize, coin: bool) -> (bool, Option<usize>)
        requires { qubit < row_count self.old }
        ensures { IsCollapsed self.old self.new (lone_letter (row_count self.old) qubit letter) coin
            result.0 result.1 }
    {
        encode_letter(&self.rows, &mut self.second, &mut self.first, letter, qubit);
        collapse_code(&mut self.rows, &self.second.0, &mut self.first, coin)
    }

    /// Measures a word as if its sign were plus. Answers the outcome, which is the coin where it is random, and the row
    /// whose stabilizer was then replaced.
    pub fn collapse_word(&mut self, word: &Word<A>, coin: bool) -> (bool, Option<usize>)
        requires { length word.now.letters ≡ row_count self.old }
        ensures { IsCollapsed self.old self.new word.now.letters coin result.0 result.1 }
    {
        encode(&self.rows, word, &mut self.first);
        collapse_code(&mut self.rows, word, &mut self.first, coin)
    }

    /// The row whose stabilizer a measurement of a letter at a qubit may replace: it is in the state, and anticommutes with what
    /// is measured. None where the outcome isn't random.
    pub fn random_row(&mut self, letter: Letter, qubit: usize) -> Option<usize>
        requires { qubit < row_count self.old }
        ensures same { self.new ≡ self.old }
        ensures row { NamesRandom self.old (lone_letter (row_count self.old) qubit letter) result }
    {
        if let Some(_) = sign_seen(&self.rows[qubit], letter) {
            return None;
        }
        set_code(&self.rows, &mut self.first, letter, qubit);
        self.first.0.lowest_x_or_y()
    }

    /// The same for a word.
    pub fn random_row_of_word(&mut self, word: &Word<A>) -> Option<usize>
        requires { length word.now.letters ≡ row_count self.old }
        ensures same { self.new ≡ self.old }
        ensures row { NamesRandom self.old word.now.letters result }
    {
        encode(&self.rows, word, &mut self.first);
        self.first.0.lowest_x_or_y()
    }

    /// The same for a product.
    pub fn random_row_of_product<F: Factors>(&mut self, factors: F) -> Option<usize>
        requires { AreWithin (row_count self.old) (F.factors factors) }
        ensures same { self.new ≡ self.old }
        ensures row { NamesRandom self.old
            (word_of_factors (row_count self.old) (F.factors factors)) result }
    {
        encode_product(&self.rows, factors, &mut self.second, &mut self.first);
        self.first.0.lowest_x_or_y()
    }

    /// Measures a letter at a qubit, and answers the outcome: faster than `collapse`, which names a row.
    pub fn measure(&mut self, letter: Letter, qubit: usize, coin: bool) -> bool
        requires { qubit < row_count self.old }
        ensures len { row_count self.new ≡ row_count self.old }
        ensures outcome { result
            ≡ outcome (state_of self.old) (lone_letter (row_count self.old) qubit letter) coin }
        ensures state { HasState self.new
            (collapsed (lone_letter (row_count self.old) qubit letter) coin (state_of self.old)) }
    {
        if let Some(outcome) = sign_seen(&self.rows[qubit], letter) {
            return outcome;
        }
        set_code(&self.rows, &mut self.first, letter, qubit);
        measure_letter(&mut self.rows, &mut self.first, letter, qubit, coin)
    }

    /// Measures a word as if its sign were plus, and answers the outcome: faster than `collapse_word`, which names a row.
    pub fn measure_word(&mut self, word: &Word<A>, coin: bool) -> bool
        requires { length word.now.letters ≡ row_count self.old }
        ensures len { row_count self.new ≡ row_count self.old }
        ensures outcome { result ≡ outcome (state_of self.old) word.now.letters coin }
        ensures state { HasState self.new (collapsed word.now.letters coin (state_of self.old)) }
    {
        encode(&self.rows, word, &mut self.first);
        measure_code(&mut self.rows, word, &mut self.first, coin)
    }

    /// Measures a product as if its sign were plus, and answers the outcome.
    #[inline(always)]
    pub fn measure_product<F: Factors>(&mut self, factors: F, coin: bool) -> bool
        requires { AreWithin (row_count self.old) (F.factors factors) }
        ensures len { row_count self.new ≡ row_count self.old }
        ensures outcome { result
            ≡ outcome (state_of self.old)
            (word_of_factors (row_count self.old) (F.factors factors)) coin }
        ensures state { HasState self.new
            (collapsed (word_of_factors (row_count self.old) (F.factors factors)) coin
            (state_of self.old)) }
    {
        encode_product(&self.rows, factors, &mut self.second, &mut self.first);
        if let Some(outcome) = diagonal_sign(&self.first.0) {
            return outcome;
        }
        set_product(&mut self.second.0, factors);
        measure_code(&mut self.rows, &self.second.0, &mut self.first, coin)
    }

    /// Ends the reset of a qubit whose letter was measured: where the outcome is 1, applies the letter that turns it
    /// into 0.
    pub fn reset_after(&mut self, letter: Letter, qubit: usize, outcome: bool)
        requires { qubit < row_count self.old }
        ensures len { row_count self.new ≡ row_count self.old }
        ensures state { HasState self.new
            (applied outcome (lone_letter (row_count self.old) qubit (correcting letter))
            (state_of self.old)) }
    {
        if outcome {
            match letter {
                Letter::I => {}
                Letter::X => self.apply_one(Gate::Z, qubit),
                Letter::Y | Letter::Z => self.apply_one(Gate::X, qubit),
            }
        }
    }

    /// Sets a word to the destabilizer of a row, with sign plus.
    pub fn destabilizer(&self, row: usize, word: &mut Word<A>)
        requires inside { row < row_count self.now }
        requires lengths { length word.old.letters ≡ row_count self.now }
        ensures { word.new ≡ signed (destabilizer_at self.now row).letters false }
    {
        decode(&self.rows, row, word);
    }

    /// Whether the letter of a row's stabilizer at a qubit clashes with Z, as X and Y do, and whether with X, as Z and Y do.
    #[inline(always)]
    pub fn stabilizer_clashes(&self, row: usize, qubit: usize) -> (bool, bool)
        requires row { row < row_count self.now }
        requires qubit { qubit < row_count self.now }
        ensures z { result.0 ≡ letters_clash (letter_at (stabilizer_at self.now row).letters qubit) Z }
        ensures x { result.1 ≡ letters_clash (letter_at (stabilizer_at self.now row).letters qubit) X }
    {
        stabilizer_clashes(&self.rows[qubit], row)
    }

    // The outcome of a letter at a qubit, where one look at a row shows that it is decided.
    fn outcome_seen(&self, letter: Letter, qubit: usize) -> Option<bool>
        requires { qubit < row_count self.now }
        ensures { IfSome result (λ seen. (coin : Bool)
            → IsCollapsed self.now self.now (lone_letter (row_count self.now) qubit letter) coin
            seen None) }
    {
        sign_seen(&self.rows[qubit], letter)
    }

    // Whether the row of a letter at a qubit seems dense; that of X stands for that of Y.
    fn seems_dense(&self, letter: Letter, qubit: usize) -> bool
        requires { qubit < row_count self.now }
    {
        let pair = &self.rows[qubit];
        match letter {
            Letter::Z => seems_dense(&pair.1, self.rows.len()),
            _ => seems_dense(&pair.0, self.rows.len()),
        }
    }

    // Makes turns that waited.
    #[inline(never)]
    fn turn(&mut self, turns: &[Turn<A>])
        requires { AreTurns turns.now self.old }
        ensures { self.new ≡ turned_by turns.now self.old }
    {
        turn_rows_by_all(&mut self.rows, turns);
    }

    // Measures a letter at a qubit as it is once these turns are made. Where the outcome is decided it is answered, and otherwise
    // the turn of the measurement is left in `turn`.
    fn measure_after(
        &mut self,
        turns: &[Turn<A>],
        turn: &mut Turn<A>,
        letter: Letter,
        qubit: usize,
        coin: bool,
    ) -> Option<bool>
        requires inside { qubit < row_count self.old }
        requires turns { AreTurns turns.now self.old }
        requires size { IsSized (row_count self.old) turn.old }
        ensures same { self.new ≡ self.old }
        ensures size { IsSized (row_count self.old) turn.new }
        ensures measures { Measures turns.now (turns_by result turns.now turn.new) self.old
            (lone_letter (row_count self.old) qubit letter) coin (outcome_by result coin) }
    {
        replace(&mut self.second, &self.rows[qubit]);
        turn_pair_by_all(&mut self.second, turns, qubit);
        set_word(&mut self.first.0, &self.second, letter, false);
        match self.first.0.lowest_x_or_y() {
            None => Some(self.first.0.sign()),
            Some(pivot) => {
                set_turn(&mut self.first, pivot, coin);
                turn.0.copy_from(&self.first.1);
                turn.1 = Origin {
                    pivot,
                    qubit,
                    letter,
                };
                None
            }
        }
    }
}
