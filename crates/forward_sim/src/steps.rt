//! What a run does at each kind of step. (What is long stays apart, so that a loop over the targets of an instruction is small.)
ghost use Rattle.std.specs.Prelude.{◌≡◌, ◌+◌, ◌<◌, ◌≤◌, false, if◌then◌else◌, is_some, length, None, option_map, slice_index_or};
ghost use Rattle.circuit_walk.specs.Letters.{AreSmall, letters_in};
ghost use Rattle.circuit_walk.specs.Steps.{listed, number_of};
ghost use Rattle.pauli_word.specs.States.{applied};
ghost use Rattle.pauli_word.specs.Words.{lone_letter};
ghost use Rattle.step_model.specs.Listing.{word_of_terms};
ghost use Rattle.step_model.specs.Runs.{after_collapse, flip_happens, happens, next};
ghost use Rattle.step_model.specs.WellFormed.{TermsFit};
ghost use Rattle.forward_sim.specs.private.Machines.{CanTake, ComesTo, correction_of, ended, in_state, qubit_count, run_of};

use crate::letters::measure_letter;
use crate::machine::Machine;
use crate::products::measure_product;
use crate::values::value_at;
use circuit_walk::{FaultName, Letters, Program, Step};
use pauli_word::Letter;
use std::alloc::Allocator;

/// Takes a step of a program in which these faults happen. Where the kind of the step is known, nothing is left of the others.
#[inline(always)]
pub(crate) fn take_step<A: Allocator + Copy>(
    machine: &mut Machine<'_, A>,
    program: &Program<'_, A>,
    faults: &[bool],
    step: Step<'_>,
)
    requires { CanTake program.now step (qubit_count machine.old) (length machine.old.records)
        machine.old.room }
    ensures { ComesTo machine.old machine.new
        (next program.now.listing faults.now
        (listed program.now.listing.qubits step.entry) (run_of machine.old)) }
{
    match step {
        Step::One { gate, q } => machine.apply_one(gate, q),
        Step::Two { gate, a, b } => machine.apply_two(gate, a, b),
        Step::Collapse {
            letter,
            qubit,
            rec,
            reset,
            inverted,
            flip,
        } => {
            let changes = inverted ^ flip_happens(faults, flip);
            collapse(machine, letter, qubit, reset, rec, changes);
        }
        Step::CollapseWord {
            letters,
            rec,
            inverted,
            flip,
        } => {
            let changes = inverted ^ flip_happens(faults, flip);
            collapse_word(machine, letters, rec, changes);
        }
        Step::Fault { name, letters } => take_fault(machine, faults, name, letters),
        Step::Feedback { letter, q, rec } => feed_back(machine, letter, q, rec),
    }
}

/// Measures a letter at a qubit, resets the qubit where `reset`, and records the outcome, inverted where `changes`, where
/// there is a number for it.
#[inline(always)]
fn collapse<A: Allocator + Copy>(
    machine: &mut Machine<'_, A>,
    letter: Letter,
    qubit: u32,
    reset: bool,
    rec: Option<u32>,
    changes: bool,
)
    requires inside { qubit < qubit_count machine.old }
    requires room { length machine.old.records + (if is_some rec then 1 else 0) ≤ machine.old.room }
    ensures { ComesTo machine.old machine.new
        (after_collapse (lone_letter (qubit_count machine.old) qubit letter)
        (correction_of machine.old reset letter qubit) (is_some rec) changes (run_of machine.old)) }
{
    let seen = measure_letter(machine, letter, qubit);
    end_collapse(machine, letter, qubit, reset, seen, rec, changes);
}

// Ends the collapse of a letter at a qubit with this outcome: resets the qubit where `reset`, and records the outcome,
// inverted where `changes`, where there is a number for it.
#[inline(always)]
fn end_collapse<A: Allocator + Copy>(
    machine: &mut Machine<'_, A>,
    letter: Letter,
    qubit: u32,
    reset: bool,
    seen: bool,
    rec: Option<u32>,
    changes: bool,
)
    requires inside { qubit < qubit_count machine.old }
    requires room { length machine.old.records + (if is_some rec then 1 else 0) ≤ machine.old.room }
    ensures { ComesTo machine.old machine.new
        (ended (correction_of machine.old reset letter qubit) (is_some rec) seen changes
        (run_of machine.old)) }
{
    machine.correct(letter, qubit, reset, seen);
    machine.keep(rec, seen ^ changes);
}

/// Measures a Pauli product, and records the outcome, inverted where `changes`, where there is a number for it.
#[inline(never)]
fn collapse_word<A: Allocator + Copy>(
    machine: &mut Machine<'_, A>,
    letters: Letters<'_>,
    rec: Option<u32>,
    changes: bool,
)
    requires small { AreSmall letters }
    requires fit { TermsFit (qubit_count machine.old) (letters_in letters) }
    requires room { length machine.old.records + (if is_some rec then 1 else 0) ≤ machine.old.room }
    ensures { ComesTo machine.old machine.new
        (after_collapse (word_of_terms (qubit_count machine.old) (letters_in letters.entry)) None
        (is_some rec) changes (run_of machine.old)) }
{
    let seen = measure_product(machine, letters);
    machine.keep(rec, seen ^ changes);
}

/// Applies the letters of a fault, where it happens.
#[inline(never)]
fn take_fault<A: Allocator + Copy>(
    machine: &mut Machine<'_, A>,
    faults: &[bool],
    name: FaultName,
    letters: Letters<'_>,
)
    requires small { AreSmall letters }
    requires fit { TermsFit (qubit_count machine.old) (letters_in letters) }
    ensures { ComesTo machine.old machine.new
        (in_state (run_of machine.old)
        (applied (happens faults.now name.number)
        (word_of_terms (qubit_count machine.old) (letters_in letters.entry))
        (run_of machine.old).state)) }
{
    if value_at(faults, name.number) {
        machine.apply_letters(letters);
    }
}

/// Applies a letter at a qubit, where a record is 1.
#[inline(never)]
fn feed_back<A: Allocator + Copy>(
    machine: &mut Machine<'_, A>,
    letter: Letter,
    qubit: u32,
    rec: u32,
)
    requires { qubit < qubit_count machine.old }
    ensures { ComesTo machine.old machine.new
        (in_state (run_of machine.old)
        (applied (slice_index_or machine.old.records rec false)
        (lone_letter (qubit_count machine.old) qubit letter) (run_of machine.old).state)) }
{
    if machine.record(rec) {
        machine.apply_letter(letter, qubit);
    }
}

/// Whether the fault that flips a record happens, if there is one.
fn flip_happens(faults: &[bool], flip: Option<FaultName>) -> bool
    ensures { result ≡ flip_happens faults.now (option_map number_of flip) }
{
    match flip {
        Some(name) => value_at(faults, name.number),
        None => false,
    }
}
