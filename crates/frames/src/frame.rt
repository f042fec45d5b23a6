ghost use Rattle.std.specs.Prelude.{◌≡◌, ℕ, ◌<◌, ◌++◌, if◌then◌else◌, length, replicate, IfOk, OnOk, slice_set, false};
ghost use Rattle.pauli_word.specs.declared.letter.Letter.TheVariants.{I};
ghost use Rattle.pauli_word.specs.Words.{anticommute, signed};
ghost use Rattle.gate_table.specs.Images.{arity_of};
ghost use Rattle.gate_table.specs.WordImages.{image_at, image_at_two};
ghost use Rattle.circuit_walk.specs.Letters.{AreSmall, letters_in};
ghost use Rattle.circuit_walk.specs.Steps.{listed};
ghost use Rattle.circuit_walk.specs.Named.{IsStepOf};
ghost use Rattle.step_model.specs.Frames.{begun, carried};
ghost use Rattle.step_model.specs.Listing.{step_records, word_of_terms};
ghost use Rattle.step_model.specs.WellFormed.{TermsFit};
ghost use Rattle.frames.specs.private.Flips.{fed_back, flip_of, recorded_flips};

use crate::words::{anticommutes, multiply_at};
use circuit_walk::{Letters, Program, Step};
use gate_table::Gate;
use pauli_word::{Letter, Word};
use std::alloc::{AllocError, Allocator};
use std::marker::Model;

/// A Pauli frame on its way through a program: its word, and for each record so far whether the frame flips it.
#[derive(Drop)]
pub(crate) struct Frame<A: Allocator + Copy> {
    word: Word<A>,
    records: Vec<bool, A>,
}

impl<A: Allocator + Copy> Model for Frame<A> {
    ghost use Rattle.step_model.specs.Frames.{Frame as Seen};

    ghost Value = { Seen };

    ghost view = { λ f. record { word = f.word.letters; records = f.records.items } };
}

impl<A: Allocator + Copy> Frame<A> {
    /// A frame that begins as a word at the start.
    pub(crate) fn begin(alloc: A, word: Word<A>) -> Self
        ensures { result ≡ begun word.letters 0 }
    {
        Frame {
            word,
            records: Vec::new(alloc),
        }
    }

    /// Has it begin anew, as another word, with the records that there are.
    pub(crate) fn begin_as(&mut self, word: Word<A>)
        ensures { self.new ≡ record self.old { word = word.letters } }
    {
        self.word = word;
    }

    /// Goes over a step before the frame begins: it flips no record.
    pub(crate) fn pass(&mut self, step: Step<'_>) -> Result<(), AllocError>
        ensures { OnOk result ((n : ℕ) → self.new
            ≡ record self.old {
              records = self.old.records
                  ++ replicate (length (step_records (listed n step.entry))) false;
            }) }
    {
        match step {
            Step::Collapse { rec, .. } | Step::CollapseWord { rec, .. } => self.record(rec, false),
            _ => Ok(()),
        }
    }

    /// Carries the frame over a step. Where the step is a collapse, it answers whether the frame flips its outcome.
    pub(crate) fn carry(
        &mut self,
        program: &Program<'_, A>,
        step: Step<'_>,
    ) -> Result<Option<bool>, AllocError>
        requires named { IsStepOf program.now step }
        requires size { length self.old.word ≡ program.now.listing.qubits }
        ensures flip { IfOk result (λ flip. flip
            ≡ flip_of program.now.listing.qubits self.old
            (listed program.now.listing.qubits step.entry)) }
        ensures carried { OnOk result
            (self.new
            ≡ carried program.now.listing.qubits
            (listed program.now.listing.qubits step.entry) self.old) }
    {
        match step {
            Step::One { gate, q } => self.move_one(gate, q as usize),
            Step::Two { gate, a, b } => self.move_two(gate, a as usize, b as usize),
            Step::Collapse {
                letter,
                qubit,
                rec,
                reset,
                ..
            } => {
                let flip = self.word.letter(qubit as usize).clashes(letter);
                self.record(rec, flip)?;
                self.clear(qubit as usize, reset);
                return Ok(Some(flip));
            }
            Step::CollapseWord { letters, rec, .. } => {
                let flip = self.meets(letters);
                self.record(rec, flip)?;
                return Ok(Some(flip));
            }
            Step::Fault { .. } => {}
            Step::Feedback { letter, q, rec } => self.feed_back(rec, q as usize, letter),
        }
        Ok(None)
    }

    fn move_one(&mut self, gate: Gate, q: usize)
        requires arity { arity_of gate ≡ 1 }
        requires there { q < length self.old.word }
        ensures { self.new
            ≡ record self.old { word = (image_at gate q (signed self.old.word false)).letters } }
    {
        let (letter, _) = gate.image1(self.word.letter(q));
        self.word.set_letter(q, letter);
    }

    fn move_two(&mut self, gate: Gate, a: usize, b: usize)
        requires arity { arity_of gate ≡ 2 }
        requires first { a < length self.old.word }
        requires second { b < length self.old.word }
        ensures { self.new
            ≡ record self.old
            { word = (image_at_two gate a b (signed self.old.word false)).letters } }
    {
        let (first, second, _) = gate.image2(self.word.letter(a), self.word.letter(b));
        self.word.set_letter(a, first);
        self.word.set_letter(b, second);
    }

    // Whether the frame anticommutes with a product of letters at qubits.
    fn meets(&self, letters: Letters<'_>) -> bool
        requires small { AreSmall letters }
        requires inside { TermsFit (length self.now.word) (letters_in letters) }
        ensures { result
            ≡ anticommute self.now.word
            (word_of_terms (length self.now.word) (letters_in letters.entry)) }
    {
        anticommutes(&self.word, letters)
    }

    // Notes whether a collapse's record is flipped, where the collapse makes one.
    fn record(&mut self, rec: Option<u32>, flip: bool) -> Result<(), AllocError>
        ensures { OnOk result
            (self.new ≡ record self.old { records = self.old.records ++ recorded_flips rec flip }) }
    {
        if rec.is_some() {
            self.records.push(flip)?;
        }
        Ok(())
    }

    // Makes the letter at a qubit I, where the qubit is reset.
    fn clear(&mut self, q: usize, reset: bool)
        requires { q < length self.old.word }
        ensures { self.new
            ≡ record self.old {
              word = if reset then slice_set self.old.word q I else self.old.word;
            } }
    {
        if reset {
            self.word.set_letter(q, Letter::I);
        }
    }

    // Feedback applies a letter where an earlier record is 1: the frame takes it in where it flips that record.
    fn feed_back(&mut self, rec: u32, q: usize, letter: Letter)
        requires { q < length self.old.word }
        ensures { self.new ≡ fed_back rec q letter self.old }
    {
        let rec = rec as usize;
        if rec < self.records.len() && self.records[rec] {
            multiply_at(&mut self.word, q, letter);
        }
    }
}
