//! How the frames of 64 runs go over one step of a program: a function for each kind of step.
ghost use Rattle.std.specs.Prelude.{◌≡◌, ◌<◌, ◌≤◌, ◌+◌, ℕ, Bool, true, false, None, List, is_some, if◌then◌else◌, length, option_map, slice_index_or};
ghost use Rattle.bit_rows.specs.Lanes.{lane, lane_bit};
ghost use Rattle.pauli_word.specs.Parity.{exclusive_or};
ghost use Rattle.pauli_word.specs.Words.{lone_letter};
ghost use Rattle.circuit_walk.specs.Letters.{AreSmall, letters_in};
ghost use Rattle.circuit_walk.specs.Steps.{listed, number_of};
ghost use Rattle.circuit_walk.specs.Named.{IsStepOf};
ghost use Rattle.circuit_walk.specs.declared.step.Step.TheVariants.{Collapse, CollapseWord, Fault, Feedback, One, Two};
ghost use Rattle.step_model.specs.Listing.{word_of_terms};
ghost use Rattle.step_model.specs.Runs.{flip_happens};
ghost use Rattle.step_model.specs.WellFormed.{TermsFit};
ghost use Rattle.frames.specs.private.Followed.{AreStill, Turns, flips_in, followed, reset_in, terms_of, terms_or_none, turned_in, turned_where};
ghost use Rattle.frames.specs.LaneFrames.{GoesTo};

use crate::frames::Frames;
use bit_rows::lanes::xor;
use circuit_walk::{FaultName, Letters, Program};
use forward_sim::ReplacedWord;
use gate_table::Gate;
use pauli_word::Letter;
use std::alloc::Allocator;

/// A gate of one qubit. Where `still` all frames are I, and stay so.
#[inline(always)]
pub(crate) fn move_one<A: Allocator + Copy>(
    frames: &mut Frames<A>,
    program: &Program<'_, A>,
    still: bool,
    gate: Gate,
    q: u32,
)
    requires of_program { IsStepOf program.now (One gate q) }
    requires qubits { length frames.old.letters ≡ program.now.listing.qubits }
    requires still { still ≡ true → AreStill frames.old }
    ensures goes { (faults : List ℕ)
        → GoesTo frames.old frames.new (λ j v. followed program.now.listing (lane j faults) None
        (lane_bit j 0) (listed program.now.listing.qubits (One gate q)) v) }
    ensures still { still ≡ true → AreStill frames.new }
{
    if !still {
        frames.move_one(gate, q as usize);
    }
}

/// A gate of two qubits. Where `still` all frames are I, and stay so.
#[inline(always)]
pub(crate) fn move_two<A: Allocator + Copy>(
    frames: &mut Frames<A>,
    program: &Program<'_, A>,
    still: bool,
    gate: Gate,
    a: u32,
    b: u32,
)
    requires of_program { IsStepOf program.now (Two gate a b) }
    requires qubits { length frames.old.letters ≡ program.now.listing.qubits }
    requires still { still ≡ true → AreStill frames.old }
    ensures goes { (faults : List ℕ)
        → GoesTo frames.old frames.new (λ j v. followed program.now.listing (lane j faults) None
        (lane_bit j 0) (listed program.now.listing.qubits (Two gate a b)) v) }
    ensures still { still ≡ true → AreStill frames.new }
{
    if !still {
        frames.move_two(gate, a as usize, b as usize);
    }
}

/// A letter where an earlier record is 1.
#[inline(always)]
pub(crate) fn feed_back<A: Allocator + Copy>(
    frames: &mut Frames<A>,
    program: &Program<'_, A>,
    letter: Letter,
    q: u32,
    rec: u32,
)
    requires of_program { IsStepOf program.now (Feedback letter q rec) }
    requires qubits { length frames.old.letters ≡ program.now.listing.qubits }
    ensures { (faults : List ℕ)
        → GoesTo frames.old frames.new (λ j v. followed program.now.listing (lane j faults) None
        (lane_bit j 0) (listed program.now.listing.qubits (Feedback letter q rec)) v) }
{
    let runs = frames.flips(rec as usize);
    frames.times(letter, q as usize, runs);
}

/// A fault. Lane j of `faults` says which faults happen in run j: most happen in none. Where `still` all frames are I, and it
/// answers whether they are known to be I then.
#[inline(always)]
pub(crate) fn apply_fault<A: Allocator + Copy>(
    frames: &mut Frames<A>,
    program: &Program<'_, A>,
    faults: &[u64],
    still: bool,
    name: FaultName,
    letters: Letters<'_>,
) -> bool
    requires of_program { IsStepOf program.now (Fault name letters) }
    requires qubits { length frames.old.letters ≡ program.now.listing.qubits }
    requires still { still ≡ true → AreStill frames.old }
    ensures goes { GoesTo frames.old frames.new (λ j v. followed program.now.listing
        (lane j faults.now) None (lane_bit j 0)
        (listed program.now.listing.qubits (Fault name letters.entry)) v) }
    ensures still { result ≡ true → AreStill frames.new }
{
    let runs = word_at(faults, name.number as usize);
    if runs == 0 {
        return still;
    }
    frames.times_letters(letters, runs);
    false
}

/// A collapse of a letter at a qubit, which is then reset where `reset`. `coins` has a coin for each run, and `replaced` is what
/// the reference run keeps of the collapse.
#[inline(always)]
pub(crate) fn collapse<A: Allocator + Copy>(
    frames: &mut Frames<A>,
    program: &Program<'_, A>,
    faults: &[u64],
    replaced: Option<ReplacedWord<'_>>,
    coins: u64,
    letter: Letter,
    qubit: u32,
    rec: Option<u32>,
    reset: bool,
    flip: Option<FaultName>,
)
    requires inside { qubit < program.now.listing.qubits }
    requires qubits { length frames.old.letters ≡ program.now.listing.qubits }
    requires room { length frames.old.flips + (if is_some rec then 1 else 0) ≤ frames.old.room }
    requires turns { Turns program.now.listing.qubits (terms_of replaced)
        (lone_letter program.now.listing.qubits qubit letter) }
    ensures { (inverted : Bool)
        → GoesTo frames.old frames.new (λ j v. followed program.now.listing (lane j faults.now)
        (terms_of replaced.entry) (lane_bit j coins)
        (listed program.now.listing.qubits (Collapse letter qubit rec reset inverted flip)) v) }
{
    let flips = collapse_letter(frames, replaced, coins, letter, qubit as usize, reset);
    frames.record(rec, xor(flips, flips_of(faults, flip)));
}

/// A collapse of a product.
#[inline(always)]
pub(crate) fn collapse_word<A: Allocator + Copy>(
    frames: &mut Frames<A>,
    program: &Program<'_, A>,
    faults: &[u64],
    replaced: Option<ReplacedWord<'_>>,
    coins: u64,
    letters: Letters<'_>,
    rec: Option<u32>,
    flip: Option<FaultName>,
)
    requires small { AreSmall letters }
    requires inside { TermsFit program.now.listing.qubits (letters_in letters) }
    requires qubits { length frames.old.letters ≡ program.now.listing.qubits }
    requires room { length frames.old.flips + (if is_some rec then 1 else 0) ≤ frames.old.room }
    requires turns { Turns program.now.listing.qubits (terms_of replaced)
        (word_of_terms program.now.listing.qubits (letters_in letters)) }
    ensures { (inverted : Bool)
        → GoesTo frames.old frames.new (λ j v. followed program.now.listing (lane j faults.now)
        (terms_of replaced.entry) (lane_bit j coins)
        (listed program.now.listing.qubits (CollapseWord letters.entry rec inverted flip)) v) }
{
    let flips = collapse_product(frames, replaced, coins, letters);
    frames.record(rec, xor(flips, flips_of(faults, flip)));
}

// A collapse of a letter at a qubit, which is then reset where `reset`. Answers the flips.
fn collapse_letter<A: Allocator + Copy>(
    frames: &mut Frames<A>,
    replaced: Option<ReplacedWord<'_>>,
    coins: u64,
    letter: Letter,
    qubit: usize,
    reset: bool,
) -> u64
    requires inside { qubit < length frames.old.letters }
    requires turns { Turns (length frames.old.letters) (terms_of replaced)
        (lone_letter (length frames.old.letters) qubit letter) }
    ensures moved { GoesTo frames.old frames.new
        (reset_in (length frames.old.letters) (terms_of replaced.entry) coins reset letter qubit) }
    ensures flips { (j : ℕ)
        → lane_bit j result
        ≡ flips_in (length frames.old.letters) (terms_of replaced.entry) coins
        (lone_letter (length frames.old.letters) qubit letter) frames.old j }
{
    let met = frames.at(qubit).clashes(letter);
    let flips = turn(frames, replaced, coins, met);
    if reset {
        frames.clear(qubit);
    }
    flips
}

// A collapse of a product of letters at qubits. Answers the flips.
fn collapse_product<A: Allocator + Copy>(
    frames: &mut Frames<A>,
    replaced: Option<ReplacedWord<'_>>,
    coins: u64,
    letters: Letters<'_>,
) -> u64
    requires small { AreSmall letters }
    requires inside { TermsFit (length frames.old.letters) (letters_in letters) }
    requires turns { Turns (length frames.old.letters) (terms_of replaced)
        (word_of_terms (length frames.old.letters) (letters_in letters)) }
    ensures moved { GoesTo frames.old frames.new
        (turned_in (length frames.old.letters) (terms_of replaced.entry) coins
        (word_of_terms (length frames.old.letters) (letters_in letters.entry))) }
    ensures flips { (j : ℕ)
        → lane_bit j result
        ≡ flips_in (length frames.old.letters) (terms_of replaced.entry) coins
        (word_of_terms (length frames.old.letters) (letters_in letters.entry)) frames.old j }
{
    let met = frames.meet(letters);
    turn(frames, replaced, coins, met)
}

// Where the reference run's outcome was random, multiplies by the word that was replaced the frames of the runs whose
// coin differs from their flip, so that the flips become the coins. Answers the flips.
fn turn<A: Allocator + Copy>(
    frames: &mut Frames<A>,
    replaced: Option<ReplacedWord<'_>>,
    coins: u64,
    met: u64,
) -> u64
    requires { TermsFit (length frames.old.letters) (terms_or_none (terms_of replaced)) }
    ensures moved { GoesTo frames.old frames.new (λ j v. turned_where (length frames.old.letters)
        (terms_of replaced.entry) (exclusive_or (lane_bit j coins) (lane_bit j met)) v) }
    ensures flips { (j : ℕ)
        → lane_bit j result
        ≡ (if is_some (terms_of replaced.entry) then lane_bit j coins else lane_bit j met) }
{
    match replaced {
        Some(word) => {
            frames.times_word(word, xor(coins, met));
            coins
        }
        None => met,
    }
}

// The runs in which the fault that flips a record happens, if there is such a fault.
#[inline(always)]
fn flips_of(faults: &[u64], flip: Option<FaultName>) -> u64
    ensures { (j : ℕ)
        → lane_bit j result ≡ flip_happens (lane j faults.now) (option_map number_of flip) }
{
    match flip {
        Some(name) => word_at(faults, name.number as usize),
        None => 0,
    }
}

/// The word at an index, 0 past the end.
#[inline(always)]
pub(crate) fn word_at(words: &[u64], index: usize) -> u64
    ensures { (j : ℕ) → lane_bit j result ≡ slice_index_or (lane j words.now) index false }
{
    if index < words.len() { words[index] } else { 0 }
}
