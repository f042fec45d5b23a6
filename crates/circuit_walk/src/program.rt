//! Programs: circuits as their text writes them, and what they take as a whole.

ghost use Rattle.std.specs.Prelude.{◌≡◌, ◌+◌, ◌<◌, ◌^◌, Some, length, slice_get, slice_index_or};
ghost use Rattle.circuit_walk.specs.Made.{IsAcceptedAs, PartsFit, kept_program};
ghost use Rattle.circuit_walk.specs.private.Held.{Holds};
ghost use Rattle.step_model.specs.Chances.{chance_at};
ghost use Rattle.step_model.specs.WellFormed.{IsWellFormed};
ghost use Rattle.stim_lexer.specs.Kept.{item_in};
ghost use Rattle.circuit_walk.specs.private.InstructionSteps.{AreStepsOf};
ghost use Rattle.stim_lexer.specs.Trees.{InstructionLine, items_of};
ghost use Rattle.stim_parser.specs.Circuits.{Fits};
ghost use Rattle.stim_parser.specs.Kept.{instruction_in};
ghost use Rattle.stim_parser.specs.Verdicts.{Instruction};

use crate::instruction_steps::InstructionSteps;
use crate::step::Counts;
use std::alloc::Allocator;
use std::marker::Model;
use step_model::ChanceText;
use stim_lexer::Items;
use stim_parser::{Item, Numbered, Operation, TargetWord};

/// What a circuit takes as a whole: how many qubits it has, how many records, collapses, faults and steps its instructions make
/// as they are reached, and how many detectors and observables.
#[derive(Clone, Copy)]
pub struct Totals {
    pub qubits: u32,
    pub counts: Counts,
    pub steps: u32,
    pub detectors: u32,
    pub observables: u32,
}

/// What is kept of a program: its circuit with the texts of its probabilities, and its totals.
pub struct Parts<'a, A: Allocator + Copy> {
    pub read: Numbered<'a, Operation, TargetWord, A>,
    pub totals: Totals,
}

// Written out, so that it is a call in the proof of each function that owns one.
impl<A: Allocator + Copy> Drop for Parts<'_, A> {
    fn drop(self) {
        let Parts { read, totals: _ } = self;
        drop(read);
    }
}

/// A circuit that isn't refused. Contracts see what it lists, and the texts of its probabilities.
pub struct Program<'a, A: Allocator + Copy> {
    parts: Parts<'a, A>,
}

impl<'a, A: Allocator + Copy> Model for Program<'a, A> {
    ghost use Rattle.circuit_walk.specs.Programs.{KeptProgram};
    ghost use Rattle.std.specs.Coded.{codes};
    ghost use Rattle.circuit_walk.specs.Programs.{coded_circuit};

    ghost Value = { KeptProgram };

    ghost coded = { Prim.hlevel (codes, coded_circuit) };

    ghost use Rattle.circuit_walk.specs.Made.{PartsFit, kept_program};

    ghost view = { λ p. kept_program p.parts };

    ghost invariant = { λ p. PartsFit p.parts };
}

// Written out, so that it is a call in the proof of each function that owns one.
impl<A: Allocator + Copy> Drop for Program<'_, A> {
    fn drop(self) {
        let Program { parts } = self;
        drop(parts);
    }
}

/// What a walk goes over: the items of a circuit, the texts of its probabilities, and its totals.
#[derive(Clone, Copy, Drop)]
pub(crate) struct Text<'a, 'p, A: Allocator + Copy> {
    pub items: &'a Items<'p, Operation, TargetWord, A>,
    pub chances: &'a [ChanceText<'p>],
    pub totals: Totals,
}

impl<'a, 'p, A: Allocator + Copy> Text<'a, 'p, A> {
    /// Does nothing: the number of steps fits 32 bits.
    #[inline(always)]
    pub(crate) fn fits(&self)
        ensures { self.now.totals.steps < 2 ^ 32 }
    {
        // The proof takes the range from a read.
        let _steps = self.totals.steps;
    }

    /// The instruction of an item.
    #[inline(always)]
    pub(crate) fn instruction_at(&self, i: usize) -> stim_parser::Instruction<'a, 'p>
        requires { (x : Instruction) × (slice_get self.now.items.now.items i ≡ Some (InstructionLine x)) }
        ensures item { Some (InstructionLine (instruction_in result))
            ≡ slice_get self.now.items.now.items i }
        ensures is { (x : Instruction) → slice_get self.now.items.now.items i ≡ Some (InstructionLine x)
            → instruction_in result ≡ x }
    {
        match self.items.get(i) {
            Item::InstructionLine(instruction) => instruction,
            _ => unreachable!(),
        }
    }

    /// The steps of the instruction of an item, before the first.
    #[inline(always)]
    pub(crate) fn steps_at(&self, i: usize) -> InstructionSteps<'a>
        requires { (x : Instruction) × (slice_get self.now.items.now.items i ≡ Some (InstructionLine x)) × Fits x }
        ensures steps { (x : Instruction) → slice_get self.now.items.now.items i ≡ Some (InstructionLine x)
            → AreStepsOf x result }
        ensures at { result.at ≡ 0 }
        ensures chance { result.chance ≡ slice_index_or self.now.items.now.marks i 0 }
    {
        match self.items.get(i) {
            Item::InstructionLine(instruction) => InstructionSteps::new(instruction),
            _ => unreachable!(),
        }
    }
}

impl<'p, A: Allocator + Copy> Program<'p, A> {
    /// The program that these parts make.
    pub fn new(parts: Parts<'p, A>) -> Self
        requires { PartsFit parts }
        ensures { result ≡ kept_program parts.entry }
    {
        Program { parts }
    }

    /// What a walk goes over.
    #[inline(always)]
    pub(crate) fn text(&self) -> Text<'_, 'p, A>
        ensures { Holds self.now result }
    {
        Text {
            items: &self.parts.read.items,
            chances: self.parts.read.texts.as_slice(),
            totals: self.parts.totals,
        }
    }

    /// Does nothing: every program is well formed.
    pub fn well_formed(&self)
        ensures { IsWellFormed self.now.listing }
    {
        // The proof looks inside.
        let _parts = &self.parts;
    }

    /// Does nothing: the circuit is one that isn't refused, and its program is listed.
    pub fn accepted(&self)
        ensures { IsAcceptedAs self.now.circuit self.now.listing }
    {
        // The proof looks inside.
        let _parts = &self.parts;
    }

    /// How many items the circuit has: instructions, and starts and ends of blocks.
    #[inline(always)]
    pub fn len(&self) -> usize
        ensures { result ≡ length (items_of self.now.circuit) }
    {
        self.parts.read.items.len()
    }

    /// The item at a place of the circuit.
    #[inline(always)]
    pub fn item(&self, i: usize) -> Item<'_, 'p>
        requires { i < length (items_of self.now.circuit) }
        ensures { Some (item_in result) ≡ slice_get (items_of self.now.circuit) i }
    {
        self.parts.read.items.get(i)
    }

    pub fn qubits(&self) -> u32
        ensures { result ≡ self.now.listing.qubits }
    {
        self.parts.totals.qubits
    }

    pub fn record_count(&self) -> u32
        ensures { result ≡ self.now.listing.records }
    {
        self.parts.totals.counts.records
    }

    pub fn collapse_count(&self) -> u32
        ensures { result ≡ self.now.listing.collapses }
    {
        self.parts.totals.counts.collapses
    }

    pub fn fault_count(&self) -> u32
        ensures { result ≡ length self.now.listing.faults }
    {
        self.parts.totals.counts.faults
    }

    pub fn detector_count(&self) -> usize
        ensures { result ≡ length self.now.listing.detectors }
    {
        self.parts.totals.detectors as usize
    }

    pub fn observable_count(&self) -> usize
        ensures { result ≡ length self.now.listing.observables }
    {
        self.parts.totals.observables as usize
    }

    /// How many detectors and observables there are.
    pub fn target_count(&self) -> usize
        ensures { result ≡ length self.now.listing.detectors + length self.now.listing.observables }
    {
        self.well_formed();
        self.detector_count() + self.observable_count()
    }

    /// The text of the probability with this number, byte for byte as the circuit has it.
    pub fn chance_text(&self, number: u32) -> &'p [u8]
        requires { number < length self.now.chances }
        ensures { result.now ≡ (chance_at self.now.chances number).text }
    {
        self.parts.read.texts[number as usize].text
    }

    /// The floor of that probability times 2^64.
    pub fn chance_bound(&self, number: u32) -> u128
        requires { number < length self.now.chances }
        ensures { result ≡ (chance_at self.now.chances number).bound }
    {
        self.parts.read.texts[number as usize].bound
    }

    /// The texts of the probabilities and their bounds, by their numbers: a caller that keeps something for each
    /// probability needs it once for each of these.
    pub fn chances(&self) -> &[ChanceText<'p>]
        ensures { result.now ≡ self.now.chances }
    {
        self.parts.read.texts.as_slice()
    }
}
