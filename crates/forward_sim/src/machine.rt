ghost use Rattle.std.specs.Prelude.{◌≡◌, ◌≢◌, ◌+◌, ◌<◌, ◌≤◌, true, false, length, drop, IfOk, is_some, if◌then◌else◌, slice_index_or};
ghost use Rattle.circuit_walk.specs.Letters.{AreSmall, letters_in};
ghost use Rattle.gate_table.specs.Images.{arity_of};
ghost use Rattle.gate_table.specs.WordImages.{preimage_at, preimage_at_two};
ghost use Rattle.pauli_word.specs.States.{applied, correcting};
ghost use Rattle.pauli_word.specs.Words.{lone_letter};
ghost use Rattle.step_model.specs.Listing.{word_of_terms};
ghost use Rattle.step_model.specs.Runs.{start, next_coin, corrected};
ghost use Rattle.step_model.specs.WellFormed.{TermsFit};
ghost use Rattle.forward_sim.specs.private.Machines.{ComesTo, correction_of, in_state, qubit_count, run_of, with_record};
ghost use Rattle.forward_sim.specs.SameRuns.{IsSameRun};

use crate::records::Records;
use crate::values::value_at;
use circuit_walk::Letters;
use gate_table::Gate;
use pauli_word::Letter;
use std::alloc::{AllocError, Allocator};
use std::marker::Model;
use std::mem;
use tableau::WaitingTableau;

// So many turns of measurements wait at most, where there are so many qubits: the rows of fewer stay in the near caches anyway.
const TURNS_THAT_WAIT: usize = 16;

const MANY_QUBITS: usize = 256;

/// What a run holds between two steps. All of its memory is taken before the first step.
pub(crate) struct Machine<'c, A: Allocator + Copy> {
    pub(crate) tableau: WaitingTableau<A>,
    // those of the collapses to come
    coins: &'c [bool],
    records: Vec<bool, A>,
}

impl<'c, A: Allocator + Copy> Model for Machine<'c, A> {
    ghost use Rattle.std.specs.Prelude.{vec_capacity};
    ghost use Rattle.forward_sim.specs.private.Machines.{Running};

    ghost Value = { Running };

    ghost view = { λ m. record { rows = m.tableau.rows; coins = m.coins.now; records = m.records.items; room = vec_capacity m.records } };
}

// Written out, so that it is a call in the proof of each function that owns one.
impl<A: Allocator + Copy> Drop for Machine<'_, A> {
    fn drop(self) {
        let Machine {
            tableau,
            coins: _,
            records,
        } = self;
        drop(tableau);
        drop(records);
    }
}

impl<'c, A: Allocator + Copy> Machine<'c, A> {
    /// All qubits 0, no records, and room for `records`.
    pub(crate) fn start(
        alloc: A,
        qubits: usize,
        records: usize,
        coins: &'c [bool],
    ) -> Result<Self, AllocError>
        ensures qubits { IfOk result (λ m. qubit_count m ≡ qubits) }
        ensures room { IfOk result (λ m. m.room ≡ records) }
        ensures run { IfOk result (λ m. IsSameRun qubits (run_of m) (start coins.now)) }
    {
        let turns = if qubits < MANY_QUBITS {
            0
        } else {
            TURNS_THAT_WAIT
        };
        Machine::with_turns(alloc, qubits, records, coins, turns)
    }

    /// The same of a machine whose tableau is read between steps: no measurement waits.
    pub(crate) fn start_to_be_read(
        alloc: A,
        qubits: usize,
        records: usize,
        coins: &'c [bool],
    ) -> Result<Self, AllocError>
        ensures qubits { IfOk result (λ m. qubit_count m ≡ qubits) }
        ensures room { IfOk result (λ m. m.room ≡ records) }
        ensures run { IfOk result (λ m. IsSameRun qubits (run_of m) (start coins.now)) }
    {
        Machine::with_turns(alloc, qubits, records, coins, 0)
    }

    // With room for so many turns that wait.
    fn with_turns(
        alloc: A,
        qubits: usize,
        records: usize,
        coins: &'c [bool],
        turns: usize,
    ) -> Result<Self, AllocError>
        ensures qubits { IfOk result (λ m. qubit_count m ≡ qubits) }
        ensures room { IfOk result (λ m. m.room ≡ records) }
        ensures run { IfOk result (λ m. IsSameRun qubits (run_of m) (start coins.now)) }
    {
        let records = Vec::with_capacity(alloc, records)?;
        let tableau = WaitingTableau::start(alloc, qubits, turns)?;
        Ok(Machine {
            tableau,
            coins,
            records,
        })
    }

    /// All qubits 0 and no records again. The coins to come stay.
    pub(crate) fn restart(&mut self)
        ensures qubits { qubit_count self.new ≡ qubit_count self.old }
        ensures room { self.new.room ≡ self.old.room }
        ensures run { IsSameRun (qubit_count self.old) (run_of self.new) (start self.old.coins) }
    {
        self.tableau.restart();
        self.records.clear();
    }

    /// Takes the records made out of it. No more can be made.
    pub(crate) fn take_records(&mut self, alloc: A) -> Records<A>
        ensures records { result ≡ self.old.records }
        ensures qubits { qubit_count self.new ≡ qubit_count self.old }
    {
        Records::new(mem::replace(&mut self.records, Vec::new(alloc)))
    }

    /// Takes the coin of the next collapse: 0 where none is left.
    #[inline(always)]
    pub(crate) fn take_coin(&mut self) -> bool
        ensures coin { result ≡ next_coin self.old.coins }
        ensures taken { self.new ≡ record self.old { coins = drop 1 self.old.coins } }
    {
        if self.coins.is_empty() {
            return false;
        }
        let coin = self.coins[0];
        self.coins = &self.coins[1..];
        coin
    }

    /// Where `reset`, ends the reset of a qubit whose letter was measured with this outcome.
    #[inline(always)]
    pub(crate) fn correct(&mut self, letter: Letter, qubit: u32, reset: bool, seen: bool)
        requires { qubit < qubit_count self.old }
        ensures { ComesTo self.old self.new
            (in_state (run_of self.old)
            (corrected (correction_of self.old reset letter qubit) seen (run_of self.old).state)) }
    {
        if reset {
            self.reset_after(letter, qubit, seen);
        }
    }

    fn reset_after(&mut self, letter: Letter, qubit: u32, seen: bool)
        requires { qubit < qubit_count self.old }
        ensures { ComesTo self.old self.new
            (in_state (run_of self.old)
            (applied seen (lone_letter (qubit_count self.old) qubit (correcting letter))
            (run_of self.old).state)) }
    {
        self.tableau.reset_after(letter, qubit as usize, seen);
    }

    /// Records a value, where there is a number for it.
    #[inline(always)]
    pub(crate) fn keep(&mut self, number: Option<u32>, value: bool)
        requires { length self.old.records + (if is_some number then 1 else 0) ≤ self.old.room }
        ensures { self.new ≡ with_record number value self.old }
    {
        if number.is_some() {
            self.records.push_reserved(value);
        }
    }

    /// The record with a number: false where it isn't made yet.
    pub(crate) fn record(&self, number: u32) -> bool
        ensures { result ≡ slice_index_or self.now.records number false }
    {
        value_at(self.records.as_slice(), number)
    }

    /// Applies a gate to a qubit.
    pub(crate) fn apply_one(&mut self, gate: Gate, qubit: u32)
        requires arity { arity_of gate ≡ 1 }
        requires inside { qubit < qubit_count self.old }
        ensures { ComesTo self.old self.new
            (in_state (run_of self.old)
            (λ p. (run_of self.old).state (preimage_at gate qubit p))) }
    {
        self.tableau.apply(gate, qubit as usize, 0);
    }

    /// Applies a gate to two qubits.
    pub(crate) fn apply_two(&mut self, gate: Gate, a: u32, b: u32)
        requires arity { arity_of gate ≡ 2 }
        requires first_inside { a < qubit_count self.old }
        requires second_inside { b < qubit_count self.old }
        requires differ { a ≢ b }
        ensures { ComesTo self.old self.new
            (in_state (run_of self.old)
            (λ p. (run_of self.old).state (preimage_at_two gate a b p))) }
    {
        self.tableau.apply(gate, a as usize, b as usize);
    }

    /// Applies a letter at a qubit, as the gate of that name.
    pub(crate) fn apply_letter(&mut self, letter: Letter, qubit: u32)
        requires { qubit < qubit_count self.old }
        ensures { ComesTo self.old self.new
            (in_state (run_of self.old)
            (applied true (lone_letter (qubit_count self.old) qubit letter)
            (run_of self.old).state)) }
    {
        let gate = match letter {
            Letter::I => Gate::I,
            Letter::X => Gate::X,
            Letter::Y => Gate::Y,
            Letter::Z => Gate::Z,
        };
        self.apply_one(gate, qubit);
    }

    /// Applies a product of letters at qubits.
    pub(crate) fn apply_letters(&mut self, letters: Letters<'_>)
        requires small { AreSmall letters }
        requires fit { TermsFit (qubit_count self.old) (letters_in letters) }
        ensures { ComesTo self.old self.new
            (in_state (run_of self.old)
            (applied true (word_of_terms (qubit_count self.old) (letters_in letters.entry))
            (run_of self.old).state)) }
    {
        let mut left = letters;
        while let Some((term, rest)) = left.split_first() {
            self.apply_letter(term.letter, term.qubit);
            left = rest;
        }
    }
}
