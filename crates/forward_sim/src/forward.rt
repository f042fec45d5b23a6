ghost use Rattle.std.specs.Prelude.{◌≡◌, ◌+◌, ℕ, Bool, List, length, slice_get, IfOk, IfErr, Some};
ghost use Rattle.circuit_walk.specs.Named.{IsStepOf};
ghost use Rattle.circuit_walk.specs.Steps.{listed};
ghost use Rattle.step_model.specs.Faults.{memory_fault};
ghost use Rattle.step_model.specs.Runs.{records_of};
ghost use Rattle.forward_sim.specs.private.Takers.{IsRunning};

use crate::machine::Machine;
use crate::quiet::quiet_count;
use crate::records::Records;
use crate::steps::take_step;
use circuit_walk::{FaultName, Letters, Program, Step, StepTaker, take_all};
use gate_table::Gate;
use pauli_word::Letter;
use std::alloc::{AllocError, Allocator};
use step_model::Fault;

/// The records of a run in which these faults happen and the collapses take these coins: a truth value for each fault
/// and one for each collapse. Past the end of a list no fault happens, and coins are 0. (A collapse is the projective
/// measurement inside a measurement or a reset; its coin is the outcome where that is random.)
///
/// All memory is taken before the first step.
pub fn run<A: Allocator + Copy>(
    alloc: A,
    program: &Program<'_, A>,
    faults: &[bool],
    coins: &[bool],
) -> Result<Records<A>, Fault>
    ensures ok { IfOk result (λ records. records
        ≡ records_of program.now.listing faults.now coins.now) }
    ensures count { IfOk result (λ records. length records ≡ program.now.listing.records) }
    ensures err { IfErr result (λ fault. fault ≡ memory_fault) }
{
    Ok(take_steps(alloc, program, faults, coins)?)
}

/// A run that takes the steps of a program in which these faults happen.
#[derive(Drop)]
struct OneRun<'r, 'c, A: Allocator + Copy> {
    machine: Machine<'c, A>,
    faults: &'r [bool],
}

impl<'r, 'c, A: Allocator + Copy> OneRun<'r, 'c, A> {
    // Takes the next step. Where its kind is known, nothing is left of the others.
    #[inline(always)]
    fn take(&mut self, program: &Program<'_, A>, step: Step<'_>)
        requires named { IsStepOf program.now step }
        requires next { (faults : List Bool) × (coins : List Bool) × (k : ℕ)
            × IsRunning program.now.listing faults coins k self.old.faults.now self.old.machine
            × (slice_get program.now.listing.steps k
            ≡ Some (listed program.now.listing.qubits step)) }
        ensures { (faults coins : List Bool)
            → (k : ℕ)
            → IsRunning program.now.listing faults coins k self.old.faults.now self.old.machine
            → slice_get program.now.listing.steps k
            ≡ Some (listed program.now.listing.qubits step.entry)
            → IsRunning program.now.listing faults coins (k + 1) self.new.faults.now self.new.machine }
    {
        program.well_formed();
        take_step(&mut self.machine, program, self.faults, step);
    }
}

impl<'r, 'c, A: Allocator + Copy> StepTaker<A> for OneRun<'r, 'c, A> {
    ghost use Rattle.forward_sim.specs.private.Takers.{IsRunning};

    ghost stands = { λ program begun k run. IsRunning program.listing begun.faults.now begun.machine.coins k run.faults.now run.machine };

    #[inline(always)]
    fn apply_one(&mut self, program: &Program<'_, A>, gate: Gate, q: u32) {
        self.take(program, Step::One { gate, q });
    }

    #[inline(always)]
    fn apply_two(&mut self, program: &Program<'_, A>, gate: Gate, a: u32, b: u32) {
        self.take(program, Step::Two { gate, a, b });
    }

    #[inline(always)]
    fn feed_back(&mut self, program: &Program<'_, A>, letter: Letter, q: u32, rec: u32) {
        self.take(program, Step::Feedback { letter, q, rec });
    }

    #[inline(always)]
    fn collapse(
        &mut self,
        program: &Program<'_, A>,
        letter: Letter,
        qubit: u32,
        rec: Option<u32>,
        reset: bool,
        inverted: bool,
        flip: Option<FaultName>,
    ) {
        let step = Step::Collapse {
            letter,
            qubit,
            rec,
            reset,
            inverted,
            flip,
        };
        self.take(program, step);
    }

    #[inline(always)]
    fn collapse_word(
        &mut self,
        program: &Program<'_, A>,
        letters: Letters<'_>,
        rec: Option<u32>,
        inverted: bool,
        flip: Option<FaultName>,
    ) {
        let step = Step::CollapseWord {
            letters,
            rec,
            inverted,
            flip,
        };
        self.take(program, step);
    }

    #[inline(always)]
    fn fault(&mut self, program: &Program<'_, A>, name: FaultName, letters: Letters<'_>) {
        self.take(program, Step::Fault { name, letters });
    }

    #[inline(always)]
    fn pass_faults(&mut self, program: &Program<'_, A>, first: u32, count: usize) -> usize {
        program.well_formed();
        quiet_count(self.faults, first, count)
    }
}

// Takes all steps of the program.
fn take_steps<A: Allocator + Copy>(
    alloc: A,
    program: &Program<'_, A>,
    faults: &[bool],
    coins: &[bool],
) -> Result<Records<A>, AllocError>
    ensures ok { IfOk result (λ records. records
        ≡ records_of program.now.listing faults.now coins.now) }
    ensures count { IfOk result (λ records. length records ≡ program.now.listing.records) }
{
    program.well_formed();
    let qubits = program.qubits() as usize;
    let machine = Machine::start(alloc, qubits, program.record_count() as usize, coins)?;
    let mut run = OneRun { machine, faults };
    take_all(program, &mut run);
    Ok(run.machine.take_records(alloc))
}
