//! The faults of a program in their order, of which a taker takes each.

ghost use Rattle.std.specs.Prelude.{◌≡◌, ◌+◌, ℕ, Some, length, slice_get};
ghost use Rattle.circuit_walk.specs.Named.{IsStepOf};
ghost use Rattle.circuit_walk.specs.Steps.{listed};
ghost use Rattle.circuit_walk.specs.Walks.{faults_before};

use crate::fault_taker::FaultTaker;
use crate::found_fault::fault_in;
use crate::letters::Letters;
use crate::passes::take_all;
use crate::program::Program;
use crate::step::{FaultName, Step};
use crate::step_taker::StepTaker;
use gate_table::Gate;
use pauli_word::Letter;
use std::alloc::Allocator;

/// What takes all steps of a program, and has a taker take the fault of each that has one.
#[derive(Drop)]
struct EachFault<'t, T> {
    taker: &'t mut T,
}

impl<'t, T: FaultTaker<A>, A: Allocator + Copy> StepTaker<A> for EachFault<'t, T> {
    ghost use Rattle.std.specs.Prelude.{◌≡◌};
    ghost use Rattle.circuit_walk.specs.Walks.{faults_before};

    ghost stands = { λ program begun k each.
        (each.taker.ghost_name ≡ begun.taker.ghost_name)
        × T.stands program begun.taker.now (faults_before program.listing.steps k) each.taker.now };

    #[inline(always)]
    fn apply_one(&mut self, _program: &Program<'_, A>, _gate: Gate, _q: u32) {}

    #[inline(always)]
    fn apply_two(&mut self, _program: &Program<'_, A>, _gate: Gate, _a: u32, _b: u32) {}

    #[inline(always)]
    fn feed_back(&mut self, _program: &Program<'_, A>, _letter: Letter, _q: u32, _rec: u32) {}

    #[inline(always)]
    fn collapse(
        &mut self,
        program: &Program<'_, A>,
        letter: Letter,
        qubit: u32,
        rec: Option<u32>,
        reset: bool,
        inverted: bool,
        flip: Option<FaultName>,
    ) {
        let step = Step::Collapse {
            letter,
            qubit,
            rec,
            reset,
            inverted,
            flip,
        };
        take_fault_of(program, self.taker, step);
    }

    #[inline(always)]
    fn collapse_word(
        &mut self,
        program: &Program<'_, A>,
        letters: Letters<'_>,
        rec: Option<u32>,
        inverted: bool,
        flip: Option<FaultName>,
    ) {
        let step = Step::CollapseWord {
            letters,
            rec,
            inverted,
            flip,
        };
        take_fault_of(program, self.taker, step);
    }

    #[inline(always)]
    fn fault(&mut self, program: &Program<'_, A>, name: FaultName, letters: Letters<'_>) {
        take_fault_of(program, self.taker, Step::Fault { name, letters });
    }

    // Each of them is taken.
    #[inline(always)]
    fn pass_faults(&mut self, _program: &Program<'_, A>, _first: u32, _count: usize) -> usize {
        0
    }
}

/// Has a taker of faults take the fault of the next step, where that has one.
#[inline(always)]
fn take_fault_of<T: FaultTaker<A>, A: Allocator + Copy>(
    program: &Program<'_, A>,
    taker: &mut T,
    step: Step<'_>,
)
    requires named { IsStepOf program.now step }
    requires next { (begun : T) × (k : ℕ)
        × T.stands program.now begun (faults_before program.now.listing.steps k) taker.old
        × (slice_get program.now.listing.steps k
        ≡ Some (listed program.now.listing.qubits step)) }
    ensures { (begun : T) (k : ℕ)
        → T.stands program.now begun (faults_before program.now.listing.steps k) taker.old
        → slice_get program.now.listing.steps k
        ≡ Some (listed program.now.listing.qubits step.entry)
        → T.stands program.now begun (faults_before program.now.listing.steps (k + 1)) taker.new }
{
    program.well_formed();
    if let Some(fault) = fault_in(step) {
        taker.take(program, fault);
    }
}

/// Has a taker take all faults of a program, and ends at once where there is none. It takes no memory of its own.
#[inline(always)]
pub fn take_faults<T: FaultTaker<A>, A: Allocator + Copy>(program: &Program<'_, A>, taker: &mut T)
    requires { T.stands program.now taker.old 0 taker.old }
    ensures { T.stands program.now taker.old (length program.now.listing.faults) taker.new }
{
    program.well_formed();
    if program.fault_count() == 0 {
        return;
    }
    let mut each = EachFault { taker };
    take_all(program, &mut each);
}
