//! A tableau whose random measurements wait.
ghost use Rattle.std.specs.Prelude.{◌≡◌, ◌≢◌, ◌<◌, true, length, IfOk, IfSome};
ghost use Rattle.gate_table.specs.Images.{arity_of};
ghost use Rattle.gate_table.specs.WordImages.{preimage_at, preimage_at_two};
ghost use Rattle.pauli_word.specs.States.{start_state, applied, collapsed, correcting, outcome};
ghost use Rattle.pauli_word.specs.Words.{lone_letter};
ghost use Rattle.tableau.specs.Products.{AreWithin, word_of_factors};
ghost use Rattle.tableau.specs.Rows.{row_count, state_of, HasState, NamesRandom};
ghost use Rattle.tableau.specs.private.Waiting.{awaited, SeesAtOnce, Waits};

use super::Tableau;
use crate::products::Factors;
use crate::waiting_turns::{Turn, identity_turns};
use gate_table::Gate;
use pauli_word::{Letter, Word};
use std::alloc::{AllocError, Allocator};
use std::marker::Model;

// For so many decided outcomes turns wait at most.
const MOST_DECIDED: usize = 16;

/// A tableau that many measurements with random outcomes change in one pass over its rows. It does what `Tableau` does.
///
/// The turns of measured letters, if they are dense, wait until there is no room for more, or until anything else is asked. A
/// letter that is measured while turns wait has them made of a copy of its row. Only `start` allocates.
pub struct WaitingTableau<A: Allocator + Copy> {
    tableau: Tableau<A>,
    // the first `waiting` of these wait
    turns: Vec<Turn<A>, A>,
    waiting: usize,
    // how many outcomes were decided since a turn last came to wait
    decided: usize,
}

impl<A: Allocator + Copy> Model for WaitingTableau<A> {
    ghost use Rattle.tableau.specs.private.Waiting.{awaited, Waits};
    ghost use Rattle.tableau.specs.Rows.{WaitingRows};

    ghost Value = { WaitingRows };

    ghost view = { λ t. record { rows = awaited t.tableau t.turns.items t.waiting; waiting = t.waiting } };

    ghost invariant = { λ t. Waits t.tableau t.turns.items t.waiting };
}

// Written out, so that it is a call in the proof of each function that owns one.
impl<A: Allocator + Copy> Drop for WaitingTableau<A> {
    fn drop(self) {
        let WaitingTableau {
            tableau,
            turns,
            waiting: _,
            decided: _,
        } = self;
        drop(tableau);
        drop(turns);
    }
}

impl<A: Allocator + Copy> WaitingTableau<A> {
    /// The state in which all of `n` qubits are 0, with room for so many turns. Without room none waits.
    pub fn start(alloc: A, n: usize, room: usize) -> Result<Self, AllocError>
        ensures len { IfOk result (λ t. row_count t.rows ≡ n) }
        ensures state { IfOk result (λ t. HasState t.rows start_state) }
    {
        let turns = identity_turns(alloc, n, room)?;
        let tableau = Tableau::start(alloc, n)?;
        Ok(WaitingTableau {
            tableau,
            turns,
            waiting: 0,
            decided: 0,
        })
    }

    /// Makes all qubits 0 again.
    pub fn restart(&mut self)
        ensures len { row_count self.new.rows ≡ row_count self.old.rows }
        ensures state { HasState self.new.rows start_state }
    {
        settle(&mut self.tableau, self.turns.as_slice(), &mut self.waiting);
        self.tableau.restart();
    }

    /// Has no turn wait any more.
    pub fn settle(&mut self)
        ensures { self.new ≡ record { rows = self.old.rows; waiting = 0 } }
    {
        settle(&mut self.tableau, self.turns.as_slice(), &mut self.waiting);
    }

    /// The tableau, where no turn waits.
    pub fn settled(&self) -> &Tableau<A>
        requires { self.now.waiting ≡ 0 }
        ensures { result.now ≡ self.now.rows }
    {
        &self.tableau
    }

    /// Applies a gate, to qubit `a` or to qubits `a` and `b`. A one-qubit gate ignores `b`.
    #[inline(always)]
    pub fn apply(&mut self, gate: Gate, a: usize, b: usize)
        requires first_inside { a < row_count self.old.rows }
        requires second_inside { arity_of gate ≡ 2 → b < row_count self.old.rows }
        requires differ { arity_of gate ≡ 2 → a ≢ b }
        ensures len { row_count self.new.rows ≡ row_count self.old.rows }
        ensures one { arity_of gate ≡ 1
            → HasState self.new.rows (λ p. state_of self.old.rows (preimage_at gate a p)) }
        ensures two { arity_of gate ≡ 2
            → HasState self.new.rows (λ p. state_of self.old.rows (preimage_at_two gate a b p)) }
    {
        settle(&mut self.tableau, self.turns.as_slice(), &mut self.waiting);
        self.tableau.apply(gate, a, b);
    }

    /// The row whose stabilizer a measurement of a letter at a qubit may replace: it is in the state, and anticommutes with what
    /// is measured. None where the outcome isn't random.
    pub fn random_row(&mut self, letter: Letter, qubit: usize) -> Option<usize>
        requires { qubit < row_count self.old.rows }
        ensures same { self.new.rows ≡ self.old.rows }
        ensures row { NamesRandom self.old.rows (lone_letter (row_count self.old.rows) qubit letter) result }
    {
        settle(&mut self.tableau, self.turns.as_slice(), &mut self.waiting);
        self.tableau.random_row(letter, qubit)
    }

    /// The same for a word.
    pub fn random_row_of_word(&mut self, word: &Word<A>) -> Option<usize>
        requires { length word.now.letters ≡ row_count self.old.rows }
        ensures same { self.new.rows ≡ self.old.rows }
        ensures row { NamesRandom self.old.rows word.now.letters result }
    {
        settle(&mut self.tableau, self.turns.as_slice(), &mut self.waiting);
        self.tableau.random_row_of_word(word)
    }

    /// The same for a product.
    pub fn random_row_of_product<F: Factors>(&mut self, factors: F) -> Option<usize>
        requires { AreWithin (row_count self.old.rows) (F.factors factors) }
        ensures same { self.new.rows ≡ self.old.rows }
        ensures row { NamesRandom self.old.rows
            (word_of_factors (row_count self.old.rows) (F.factors factors)) result }
    {
        settle(&mut self.tableau, self.turns.as_slice(), &mut self.waiting);
        self.tableau.random_row_of_product(factors)
    }

    /// Measures a letter at a qubit, and answers the outcome. Where that is random, the turn of the measurement waits.
    #[inline(always)]
    pub fn measure(&mut self, letter: Letter, qubit: usize, coin: bool) -> bool
        requires { qubit < row_count self.old.rows }
        ensures len { row_count self.new.rows ≡ row_count self.old.rows }
        ensures outcome { result
            ≡ outcome (state_of self.old.rows) (lone_letter (row_count self.old.rows) qubit letter) coin }
        ensures state { HasState self.new.rows
            (collapsed (lone_letter (row_count self.old.rows) qubit letter) coin (state_of self.old.rows)) }
    {
        match outcome_seen(&self.tableau, self.waiting, letter, qubit) {
            Some(outcome) => outcome,
            None => self.measure_unseen(letter, qubit, coin),
        }
    }

    // The same of an outcome that one look doesn't show. It stands apart, so that the look alone is short.
    #[inline(never)]
    fn measure_unseen(&mut self, letter: Letter, qubit: usize, coin: bool) -> bool
        requires { qubit < row_count self.old.rows }
        ensures len { row_count self.new.rows ≡ row_count self.old.rows }
        ensures outcome { result
            ≡ outcome (state_of self.old.rows) (lone_letter (row_count self.old.rows) qubit letter) coin }
        ensures state { HasState self.new.rows
            (collapsed (lone_letter (row_count self.old.rows) qubit letter) coin (state_of self.old.rows)) }
    {
        let waiting = self.waiting;
        if !shall_wait(
            &self.tableau,
            self.turns.len(),
            waiting,
            self.decided,
            letter,
            qubit,
        ) {
            settle(&mut self.tableau, self.turns.as_slice(), &mut self.waiting);
            return self.tableau.measure(letter, qubit, coin);
        }
        let outcome = measure_waiting(
            &mut self.tableau,
            self.turns.as_mut_slice(),
            &mut self.waiting,
            letter,
            qubit,
            coin,
        );
        self.decided = decided_by_now(self.decided, waiting, self.waiting);
        outcome
    }

    /// Measures a word as if its sign were plus, and answers the outcome.
    pub fn measure_word(&mut self, word: &Word<A>, coin: bool) -> bool
        requires { length word.now.letters ≡ row_count self.old.rows }
        ensures len { row_count self.new.rows ≡ row_count self.old.rows }
        ensures outcome { result ≡ outcome (state_of self.old.rows) word.now.letters coin }
        ensures state { HasState self.new.rows (collapsed word.now.letters coin (state_of self.old.rows)) }
    {
        settle(&mut self.tableau, self.turns.as_slice(), &mut self.waiting);
        self.tableau.measure_word(word, coin)
    }

    /// Measures a product as if its sign were plus, and answers the outcome.
    #[inline(always)]
    pub fn measure_product<F: Factors>(&mut self, factors: F, coin: bool) -> bool
        requires { AreWithin (row_count self.old.rows) (F.factors factors) }
        ensures len { row_count self.new.rows ≡ row_count self.old.rows }
        ensures outcome { result
            ≡ outcome (state_of self.old.rows)
            (word_of_factors (row_count self.old.rows) (F.factors factors)) coin }
        ensures state { HasState self.new.rows
            (collapsed (word_of_factors (row_count self.old.rows) (F.factors factors)) coin
            (state_of self.old.rows)) }
    {
        settle(&mut self.tableau, self.turns.as_slice(), &mut self.waiting);
        self.tableau.measure_product(factors, coin)
    }

    /// Ends the reset of a qubit whose letter was measured: where the outcome is 1, applies the letter that turns it
    /// into 0.
    #[inline(always)]
    pub fn reset_after(&mut self, letter: Letter, qubit: usize, outcome: bool)
        requires { qubit < row_count self.old.rows }
        ensures len { row_count self.new.rows ≡ row_count self.old.rows }
        ensures state { HasState self.new.rows
            (applied outcome (lone_letter (row_count self.old.rows) qubit (correcting letter))
            (state_of self.old.rows)) }
    {
        if outcome {
            settle(&mut self.tableau, self.turns.as_slice(), &mut self.waiting);
            self.tableau.reset_after(letter, qubit, outcome);
        }
    }
}

// Makes the turns that wait, so that none does.
#[inline(always)]
fn settle<A: Allocator + Copy>(tableau: &mut Tableau<A>, turns: &[Turn<A>], waiting: &mut usize)
    requires { Waits tableau.old turns.now waiting.old }
    ensures tableau { tableau.new ≡ awaited tableau.old turns.now waiting.old }
    ensures none { waiting.new ≡ 0 }
{
    if *waiting > 0 {
        tableau.turn(&turns[..*waiting]);
        *waiting = 0;
    }
}

// Makes the turns that wait if there is no room for one more.
fn make_room<A: Allocator + Copy>(tableau: &mut Tableau<A>, turns: &[Turn<A>], waiting: &mut usize)
    requires waits { Waits tableau.old turns.now waiting.old }
    requires some { 0 < length turns.now }
    ensures waits { Waits tableau.new turns.now waiting.new }
    ensures room { waiting.new < length turns.now }
    ensures len { row_count tableau.new ≡ row_count tableau.old }
    ensures same { awaited tableau.new turns.now waiting.new
        ≡ awaited tableau.old turns.now waiting.old }
{
    if *waiting == turns.len() {
        settle(tableau, turns, waiting);
    }
}

// The outcome of a letter at a qubit, where no turn waits and one look at a row shows that it is decided.
#[inline(always)]
fn outcome_seen<A: Allocator + Copy>(
    tableau: &Tableau<A>,
    waiting: usize,
    letter: Letter,
    qubit: usize,
) -> Option<bool>
    requires { waiting ≡ 0 → qubit < row_count tableau.now }
    ensures { IfSome result (λ seen. SeesAtOnce tableau.now waiting
        (lone_letter (row_count tableau.now) qubit letter) seen) }
{
    if waiting > 0 {
        return None;
    }
    tableau.outcome_seen(letter, qubit)
}

// Whether the turn of a measurement shall wait. A sparse one is made in hardly more than a look at each row. And a decided outcome takes
// longer where turns wait, so they don't wait for many of these.
fn shall_wait<A: Allocator + Copy>(
    tableau: &Tableau<A>,
    room: usize,
    waiting: usize,
    decided: usize,
    letter: Letter,
    qubit: usize,
) -> bool
    requires { qubit < row_count tableau.now }
    ensures { result ≡ true → 0 < room }
{
    if waiting == 0 {
        return room > 0 && tableau.seems_dense(letter, qubit);
    }
    room > 0 && decided < MOST_DECIDED
}

// How many outcomes were decided since a turn last came to wait, after a measurement before and after which so many waited.
fn decided_by_now(decided: usize, before: usize, after: usize) -> usize {
    if before == after {
        decided.wrapping_add(1)
    } else {
        0
    }
}

// Measures a letter at a qubit, while turns wait.
fn measure_waiting<A: Allocator + Copy>(
    tableau: &mut Tableau<A>,
    turns: &mut [Turn<A>],
    waiting: &mut usize,
    letter: Letter,
    qubit: usize,
    coin: bool,
) -> bool
    requires waits { Waits tableau.old turns.old waiting.old }
    requires some { 0 < length turns.old }
    requires inside { qubit < row_count tableau.old }
    ensures waits { Waits tableau.new turns.new waiting.new }
    ensures len { row_count tableau.new ≡ row_count tableau.old }
    ensures outcome { result
        ≡ outcome (state_of (awaited tableau.old turns.old waiting.old))
        (lone_letter (row_count tableau.old) qubit letter) coin }
    ensures state { HasState (awaited tableau.new turns.new waiting.new)
        (collapsed (lone_letter (row_count tableau.old) qubit letter) coin
        (state_of (awaited tableau.old turns.old waiting.old))) }
{
    make_room(tableau, turns, waiting);
    let (made, rest) = turns.split_at_mut(*waiting);
    match tableau.measure_after(made, &mut rest[0], letter, qubit, coin) {
        Some(outcome) => outcome,
        None => {
            *waiting += 1;
            coin
        }
    }
}
