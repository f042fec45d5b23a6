ghost use Rattle.std.specs.Prelude.{◌≡◌, ◌<◌, ◌≤◌, ◌+◌, ℕ, length, is_some, if◌then◌else◌, slice_index_or, slice_set, false, IfOk};
ghost use Rattle.gate_table.specs.Images.{arity_of};
ghost use Rattle.gate_table.specs.WordImages.{image_at, image_at_two};
ghost use Rattle.bit_rows.specs.Lanes.{lane, lane_bit};
ghost use Rattle.circuit_walk.specs.Letters.{AreSmall, letters_in};
ghost use Rattle.circuit_walk.specs.NamedRecords.{records_in};
ghost use Rattle.forward_sim.specs.References.{terms_at, terms_in};
ghost use Rattle.pauli_word.specs.declared.letter.Letter.TheVariants.{I};
ghost use Rattle.pauli_word.specs.Words.{anticommute, letter_at, lone_letter, signed};
ghost use Rattle.step_model.specs.Listing.{word_of_terms};
ghost use Rattle.step_model.specs.Targets.{parity};
ghost use Rattle.step_model.specs.WellFormed.{TermsFit};
ghost use Rattle.frames.specs.Batches.{AreAtStart};
ghost use Rattle.frames.specs.LaneFrames.{GoesTo, with_record};
ghost use Rattle.frames.specs.LaneLetters.{letter_in, word_in};
ghost use Rattle.frames.specs.private.Followed.{multiplied_in};

use crate::letters::{LaneLetters, clear_all, multiply_letter};
use crate::steps::word_at;
use bit_rows::lanes::xor;
use circuit_walk::{Letters, NamedRecords};
use forward_sim::ReplacedWord;
use gate_table::Gate;
use pauli_word::Letter;
use std::alloc::{AllocError, Allocator};
use std::marker::Model;

/// The frames of 64 runs: their letters at each qubit, and a word of flips for each record so far.
#[derive(Drop)]
pub(crate) struct Frames<A: Allocator + Copy> {
    letters: Vec<LaneLetters, A>,
    flips: Vec<u64, A>,
}

impl<A: Allocator + Copy> Model for Frames<A> {
    ghost use Rattle.std.specs.Prelude.{vec_capacity};
    ghost use Rattle.frames.specs.LaneFrames.{LaneFrames};

    ghost Value = { LaneFrames };

    ghost view = { λ f. record { letters = f.letters.items; flips = f.flips.items; room = vec_capacity f.flips } };
}

impl<A: Allocator + Copy> Frames<A> {
    /// Frames of I alone, before the first record, with memory for these numbers of qubits and records.
    pub(crate) fn start(alloc: A, qubits: usize, records: usize) -> Result<Self, AllocError>
        ensures qubits { IfOk result (λ f. length f.letters ≡ qubits) }
        ensures room { IfOk result (λ f. f.room ≡ records) }
    {
        let flips = Vec::with_capacity(alloc, records)?;
        let letters = Vec::from_elem(alloc, LaneLetters::none(), qubits)?;
        Ok(Frames { letters, flips })
    }

    /// Makes them frames of I alone again, before the first record.
    pub(crate) fn restart(&mut self)
        ensures qubits { length self.new.letters ≡ length self.old.letters }
        ensures room { self.new.room ≡ self.old.room }
        ensures start { AreAtStart self.new }
    {
        clear_all(&mut self.letters);
        self.flips.clear();
    }

    /// The letters at a qubit.
    pub(crate) fn at(&self, qubit: usize) -> LaneLetters
        requires { qubit < length self.now.letters }
        ensures { (j : ℕ) → letter_in j result ≡ letter_at (word_in j self.now.letters) qubit }
    {
        self.letters[qubit]
    }

    // Puts letters at a qubit.
    fn put(&mut self, qubit: usize, letters: LaneLetters)
        requires { qubit < length self.old.letters }
        ensures { self.new
            ≡ record self.old { letters = slice_set self.old.letters qubit letters } }
    {
        self.letters[qubit] = letters;
    }

    /// Takes the frames over a gate of one qubit.
    pub(crate) fn move_one(&mut self, gate: Gate, qubit: usize)
        requires arity { arity_of gate ≡ 1 }
        requires inside { qubit < length self.old.letters }
        ensures { GoesTo self.old self.new (λ j v. record v
            { word = (image_at gate qubit (signed v.word false)).letters }) }
    {
        let image = self.at(qubit).image(gate);
        self.put(qubit, image);
    }

    /// Takes the frames over a gate of two qubits.
    pub(crate) fn move_two(&mut self, gate: Gate, a: usize, b: usize)
        requires arity { arity_of gate ≡ 2 }
        requires first { a < length self.old.letters }
        requires second { b < length self.old.letters }
        ensures { GoesTo self.old self.new (λ j v. record v
            { word = (image_at_two gate a b (signed v.word false)).letters }) }
    {
        let (first, second) = LaneLetters::images(gate, self.at(a), self.at(b));
        self.put(a, first);
        self.put(b, second);
    }

    /// Makes the letters at a qubit I.
    pub(crate) fn clear(&mut self, qubit: usize)
        requires { qubit < length self.old.letters }
        ensures { GoesTo self.old self.new (λ j v. record v { word = slice_set v.word qubit I }) }
    {
        self.put(qubit, LaneLetters::none());
    }

    /// Multiplies the frames of these runs by a letter at a qubit.
    pub(crate) fn times(&mut self, letter: Letter, qubit: usize, runs: u64)
        requires { qubit < length self.old.letters }
        ensures { GoesTo self.old self.new
            (multiplied_in runs (lone_letter (length self.old.letters) qubit letter)) }
    {
        let letters = self.at(qubit).times(letter, runs);
        self.put(qubit, letters);
    }

    /// Multiplies the frames of these runs by a product of letters at qubits. It stands apart, since few faults happen.
    #[inline(never)]
    pub(crate) fn times_letters(&mut self, letters: Letters<'_>, runs: u64)
        requires small { AreSmall letters }
        requires inside { TermsFit (length self.old.letters) (letters_in letters) }
        ensures { GoesTo self.old self.new
            (multiplied_in runs
            (word_of_terms (length self.old.letters) (letters_in letters.entry))) }
    {
        let mut left = letters;
        while let Some((term, rest)) = left.split_first() {
            self.times(term.letter, term.qubit as usize, runs);
            left = rest;
        }
    }

    /// Multiplies the frames of these runs by a word. It stands apart, since few outcomes are random.
    #[inline(never)]
    pub(crate) fn times_word(&mut self, word: ReplacedWord<'_>, runs: u64)
        requires { TermsFit (length self.old.letters) (terms_in word) }
        ensures { GoesTo self.old self.new
            (multiplied_in runs (word_of_terms (length self.old.letters) (terms_in word.entry))) }
    {
        self.times_at(Letter::Z, word.zs, runs);
        self.times_at(Letter::X, word.xs, runs);
    }

    // Multiplies the frames of these runs by a letter at each of these qubits.
    #[inline(always)]
    fn times_at(&mut self, letter: Letter, qubits: &[u16], runs: u64)
        requires { TermsFit (length self.old.letters) (terms_at letter qubits.now) }
        ensures { GoesTo self.old self.new
            (multiplied_in runs
            (word_of_terms (length self.old.letters) (terms_at letter qubits.now))) }
    {
        multiply_letter(&mut self.letters, letter, qubits, runs);
    }

    /// The runs whose frame anticommutes with a product of letters at qubits.
    pub(crate) fn meet(&self, letters: Letters<'_>) -> u64
        requires small { AreSmall letters }
        requires inside { TermsFit (length self.now.letters) (letters_in letters) }
        ensures { (j : ℕ)
            → lane_bit j result
            ≡ anticommute (word_in j self.now.letters)
            (word_of_terms (length self.now.letters) (letters_in letters.entry)) }
    {
        let mut odd = 0;
        let mut left = letters;
        while let Some((term, rest)) = left.split_first() {
            odd = xor(odd, self.at(term.qubit as usize).clashes(term.letter));
            left = rest;
        }
        odd
    }

    /// Appends the flips of a record, where there is a number for it.
    pub(crate) fn record(&mut self, number: Option<u32>, flips: u64)
        requires { length self.old.flips + (if is_some number then 1 else 0) ≤ self.old.room }
        ensures { GoesTo self.old self.new (λ j v. with_record number (lane_bit j flips) v) }
    {
        if number.is_some() {
            self.flips.push_reserved(flips);
        }
    }

    /// The flips of a record: 0 where it isn't made yet.
    pub(crate) fn flips(&self, number: usize) -> u64
        ensures { (j : ℕ)
            → lane_bit j result ≡ slice_index_or (lane j self.now.flips) number false }
    {
        word_at(self.flips.as_slice(), number)
    }

    /// The parity of the flips of these records. One that is named twice counts twice.
    #[inline(always)]
    pub(crate) fn parity(&self, named: NamedRecords<'_>) -> u64
        ensures { (j : ℕ)
            → lane_bit j result ≡ parity (records_in named.entry) (lane j self.now.flips) }
    {
        let mut odd = 0;
        let mut left = named;
        while let Some((rec, rest)) = left.split_first() {
            odd = xor(odd, self.flips(rec as usize));
            left = rest;
        }
        odd
    }
}
