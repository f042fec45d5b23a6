//! A reference run is made: its records, and the words that its collapses replaced, where there is room for them.
ghost use Rattle.std.specs.Prelude.{◌≡◌, ◌+◌, ℕ, [], true, false, length, slice_get, IfOk, OnOk, Some};
ghost use Rattle.circuit_walk.specs.Named.{IsStepOf};
ghost use Rattle.circuit_walk.specs.Steps.{listed};
ghost use Rattle.step_model.specs.Frames.{zero_coins};
ghost use Rattle.step_model.specs.Runs.{next, records_of, start};
ghost use Rattle.forward_sim.specs.References.{walking_qubits, walking_run, AreEntries, AreWordsOf};
ghost use Rattle.forward_sim.specs.private.Kept.{StepIsKept, WalksTo};
ghost use Rattle.forward_sim.specs.private.Said.{words_of};
ghost use Rattle.forward_sim.specs.private.Machines.{CanTake};
ghost use Rattle.forward_sim.specs.private.Takers.{IsKept};

use crate::kept_words::KeptWords;
use crate::records::Records;
use crate::walking::WalkingRun;
use crate::words::ReplacedWords;
use circuit_walk::{FaultName, Letters, Program, Step, StepTaker, take_all};
use gate_table::Gate;
use pauli_word::Letter;
use std::alloc::{AllocError, Allocator};

/// The records of a program's reference run, and what says which words its collapses replaced: the words themselves where
/// they take so many bytes at most.
pub(crate) fn follow<A: Allocator + Copy>(
    alloc: A,
    program: &Program<'_, A>,
    bytes: usize,
) -> Result<(Records<A>, ReplacedWords<A>), AllocError>
    ensures records { IfOk result (λ made. made.0
        ≡ records_of program.now.listing [] (zero_coins program.now.listing)) }
    ensures count { IfOk result (λ made. length made.0 ≡ program.now.listing.records) }
    ensures words { IfOk result (λ made. AreWordsOf program.now.listing (words_of made.1)) }
{
    let (records, kept) = run_and_keep(alloc, program, bytes)?;
    with_words(alloc, program, records, kept)
}

// These records, and what says the replaced words: those kept, where there was room for all of them.
fn with_words<A: Allocator + Copy>(
    alloc: A,
    program: &Program<'_, A>,
    records: Records<A>,
    kept: KeptWords<A>,
) -> Result<(Records<A>, ReplacedWords<A>), AllocError>
    requires kept { kept.whole ≡ true
        → AreEntries program.now.listing program.now.listing.steps
        (start (zero_coins program.now.listing)) kept.replaced }
    ensures records { IfOk result (λ made. made.0 ≡ records) }
    ensures words { IfOk result (λ made. AreWordsOf program.now.listing (words_of made.1)) }
{
    if kept.is_whole() {
        return Ok((records, ReplacedWords::Kept(kept)));
    }
    let walk = WalkingRun::start(alloc, program)?;
    Ok((records, ReplacedWords::Walked(walk)))
}

// A reference run that takes the steps of a program, and what is kept of it. Once memory has run out it takes none.
#[derive(Drop)]
struct Keeping<A: Allocator + Copy> {
    walk: WalkingRun<A>,
    kept: KeptWords<A>,
    failed: bool,
}

impl<A: Allocator + Copy> Keeping<A> {
    // Takes the next step, and keeps the word that it replaced if it is a collapse.
    #[inline(always)]
    fn keep(&mut self, program: &Program<'_, A>, step: Step<'_>)
        requires named { IsStepOf program.now step }
        requires next { (k : ℕ)
            × (self.old.failed ≡ false → IsKept program.now.listing k self.old.walk self.old.kept)
            × (slice_get program.now.listing.steps k
            ≡ Some (listed program.now.listing.qubits step)) }
        ensures { (k : ℕ)
            → (self.old.failed ≡ false → IsKept program.now.listing k self.old.walk self.old.kept)
            → slice_get program.now.listing.steps k
            ≡ Some (listed program.now.listing.qubits step.entry)
            → self.new.failed ≡ false
            → IsKept program.now.listing (k + 1) self.new.walk self.new.kept }
    {
        program.well_formed();
        if self.failed {
            return;
        }
        match keep_step(&mut self.walk, program, &mut self.kept, step) {
            Ok(()) => {}
            Err(_) => self.failed = true,
        }
    }
}

impl<A: Allocator + Copy> StepTaker<A> for Keeping<A> {
    ghost use Rattle.std.specs.Prelude.{◌≡◌, false};
    ghost use Rattle.forward_sim.specs.private.Takers.{IsKept};

    ghost stands = { λ program begun k keeping. keeping.failed ≡ false → IsKept program.listing k keeping.walk keeping.kept };

    #[inline(always)]
    fn apply_one(&mut self, program: &Program<'_, A>, gate: Gate, q: u32) {
        self.keep(program, Step::One { gate, q });
    }

    #[inline(always)]
    fn apply_two(&mut self, program: &Program<'_, A>, gate: Gate, a: u32, b: u32) {
        self.keep(program, Step::Two { gate, a, b });
    }

    #[inline(always)]
    fn feed_back(&mut self, program: &Program<'_, A>, letter: Letter, q: u32, rec: u32) {
        self.keep(program, Step::Feedback { letter, q, rec });
    }

    // What reads a word stays apart from the loops over targets.
    #[inline(never)]
    fn collapse(
        &mut self,
        program: &Program<'_, A>,
        letter: Letter,
        qubit: u32,
        rec: Option<u32>,
        reset: bool,
        inverted: bool,
        flip: Option<FaultName>,
    ) {
        let step = Step::Collapse {
            letter,
            qubit,
            rec,
            reset,
            inverted,
            flip,
        };
        self.keep(program, step);
    }

    #[inline(never)]
    fn collapse_word(
        &mut self,
        program: &Program<'_, A>,
        letters: Letters<'_>,
        rec: Option<u32>,
        inverted: bool,
        flip: Option<FaultName>,
    ) {
        let step = Step::CollapseWord {
            letters,
            rec,
            inverted,
            flip,
        };
        self.keep(program, step);
    }

    #[inline(always)]
    fn fault(&mut self, program: &Program<'_, A>, name: FaultName, letters: Letters<'_>) {
        self.keep(program, Step::Fault { name, letters });
    }

    // No fault happens at all.
    #[inline(always)]
    fn pass_faults(&mut self, program: &Program<'_, A>, _first: u32, count: usize) -> usize {
        program.well_formed();
        count
    }
}

// Takes all steps of the program, and answers the records of the run, and the words that its collapses replaced, where there was
// room for them.
fn run_and_keep<A: Allocator + Copy>(
    alloc: A,
    program: &Program<'_, A>,
    bytes: usize,
) -> Result<(Records<A>, KeptWords<A>), AllocError>
    ensures records { IfOk result (λ made. made.0
        ≡ records_of program.now.listing [] (zero_coins program.now.listing)) }
    ensures count { IfOk result (λ made. length made.0 ≡ program.now.listing.records) }
    ensures kept { IfOk result (λ made. made.1.whole ≡ true
        → AreEntries program.now.listing program.now.listing.steps
        (start (zero_coins program.now.listing)) made.1.replaced) }
{
    program.well_formed();
    let mut keeping = Keeping {
        walk: WalkingRun::start(alloc, program)?,
        kept: KeptWords::new(alloc, bytes)?,
        failed: false,
    };
    take_all(program, &mut keeping);
    let Keeping {
        mut walk,
        kept,
        failed,
    } = keeping;
    if failed {
        return Err(AllocError);
    }
    Ok((walk.take_records(alloc), kept))
}

// Takes a step, and keeps the word that it replaced if it is a collapse. Where there is no room for the words any more, it
// doesn't look at them.
#[inline(always)]
fn keep_step<A: Allocator + Copy>(
    walk: &mut WalkingRun<A>,
    program: &Program<'_, A>,
    kept: &mut KeptWords<A>,
    step: Step<'_>,
) -> Result<(), AllocError>
    requires { CanTake program.now step (walking_qubits walk.old) (length walk.old.records)
        walk.old.room }
    ensures walked { OnOk result
        (WalksTo walk.old walk.new
        (next program.now.listing []
        (listed program.now.listing.qubits step.entry) (walking_run walk.old))) }
    ensures kept { OnOk result
        (StepIsKept program.now.listing.qubits (walking_run walk.old).state
        (listed program.now.listing.qubits step.entry) kept.old kept.new) }
{
    if kept.is_whole() && step.is_collapse() {
        walk.go_over(program, step);
        return kept.push(walk.list());
    }
    walk.go_past(program, step);
    Ok(())
}
