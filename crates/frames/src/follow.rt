//! 64 runs of a program that follow its reference run.
ghost use Rattle.std.specs.Prelude.{◌≡◌, ℕ, length};
ghost use Rattle.forward_sim.specs.References.{IsReferenceOf, StandBefore};
ghost use Rattle.bit_rows.specs.Lanes.{lane};
ghost use Rattle.run_laws.specs.Shifts.{flipped_by};
ghost use Rattle.step_model.specs.Frames.{zero_coins};
ghost use Rattle.step_model.specs.Runs.{records_of, start};
ghost use Rattle.frames.specs.Batches.{AreAtStart};

use crate::frames::Frames;
use crate::steps::{apply_fault, collapse, collapse_word, feed_back, move_one, move_two, word_at};
use circuit_walk::{FaultName, Letters, Program, Step, StepTaker, take_all};
use forward_sim::{Reference, quiet_count};
use gate_table::Gate;
use pauli_word::Letter;
use std::alloc::Allocator;

/// Frames of 64 runs beside their reference run, behind so many collapses. Where `still` all of them are I.
#[derive(Drop)]
struct Following<'r, A: Allocator + Copy> {
    frames: &'r mut Frames<A>,
    reference: &'r mut Reference<A>,
    faults: &'r [u64],
    coins: &'r [u64],
    collapse: usize,
    still: bool,
}

impl<'r, A: Allocator + Copy> StepTaker<A> for Following<'r, A> {
    ghost use Rattle.std.specs.Prelude.{◌≡◌};
    ghost use Rattle.frames.specs.private.Takers.{IsFollowing};

    ghost stands = { λ program begun k run. (run.frames.ghost_name ≡ begun.frames.ghost_name)
        × (run.reference.ghost_name ≡ begun.reference.ghost_name)
        × IsFollowing program.listing begun.faults.now begun.coins.now k
        run.faults.now run.coins.now run.collapse run.still run.frames.now run.reference.now };

    #[inline(always)]
    fn apply_one(&mut self, program: &Program<'_, A>, gate: Gate, q: u32) {
        program.well_formed();
        self.reference.go_over(program, &Step::One { gate, q });
        move_one(self.frames, program, self.still, gate, q);
    }

    #[inline(always)]
    fn apply_two(&mut self, program: &Program<'_, A>, gate: Gate, a: u32, b: u32) {
        program.well_formed();
        self.reference.go_over(program, &Step::Two { gate, a, b });
        move_two(self.frames, program, self.still, gate, a, b);
    }

    #[inline(always)]
    fn feed_back(&mut self, program: &Program<'_, A>, letter: Letter, q: u32, rec: u32) {
        program.well_formed();
        self.reference
            .go_over(program, &Step::Feedback { letter, q, rec });
        feed_back(self.frames, program, letter, q, rec);
        self.still = false;
    }

    #[inline(always)]
    fn collapse(
        &mut self,
        program: &Program<'_, A>,
        letter: Letter,
        qubit: u32,
        rec: Option<u32>,
        reset: bool,
        inverted: bool,
        flip: Option<FaultName>,
    ) {
        program.well_formed();
        let _collapses = program.collapse_count();
        let step = Step::Collapse {
            letter,
            qubit,
            rec,
            reset,
            inverted,
            flip,
        };
        self.reference.go_over(program, &step);
        collapse(
            self.frames,
            program,
            self.faults,
            self.reference.replaced(self.collapse),
            word_at(self.coins, self.collapse),
            letter,
            qubit,
            rec,
            reset,
            flip,
        );
        self.collapse += 1;
        self.still = false;
    }

    #[inline(always)]
    fn collapse_word(
        &mut self,
        program: &Program<'_, A>,
        letters: Letters<'_>,
        rec: Option<u32>,
        inverted: bool,
        flip: Option<FaultName>,
    ) {
        program.well_formed();
        let _collapses = program.collapse_count();
        let step = Step::CollapseWord {
            letters,
            rec,
            inverted,
            flip,
        };
        self.reference.go_over(program, &step);
        collapse_word(
            self.frames,
            program,
            self.faults,
            self.reference.replaced(self.collapse),
            word_at(self.coins, self.collapse),
            letters,
            rec,
            flip,
        );
        self.collapse += 1;
        self.still = false;
    }

    #[inline(always)]
    fn fault(&mut self, program: &Program<'_, A>, name: FaultName, letters: Letters<'_>) {
        program.well_formed();
        self.reference
            .go_over(program, &Step::Fault { name, letters });
        self.still = apply_fault(self.frames, program, self.faults, self.still, name, letters);
    }

    // A fault that doesn't happen leaves the reference run as it is too.
    #[inline(always)]
    fn pass_faults(&mut self, program: &Program<'_, A>, first: u32, count: usize) -> usize {
        program.well_formed();
        quiet_count(self.faults, first, count)
    }
}

/// Takes the frames of 64 runs over all steps of a program, beside its reference run.
pub(crate) fn follow_steps<A: Allocator + Copy>(
    frames: &mut Frames<A>,
    program: &Program<'_, A>,
    reference: &mut Reference<A>,
    faults: &[u64],
    coins: &[u64],
)
    requires reference { IsReferenceOf program.now.listing reference.old }
    requires stands { StandBefore program.now.listing program.now.listing.steps
        (start (zero_coins program.now.listing)) 0 reference.old.words }
    requires qubits { length frames.old.letters ≡ program.now.listing.qubits }
    requires room { frames.old.room ≡ program.now.listing.records }
    requires start { AreAtStart frames.old }
    ensures qubits { length frames.new.letters ≡ length frames.old.letters }
    ensures room { frames.new.room ≡ frames.old.room }
    ensures reference { IsReferenceOf program.now.listing reference.new }
    ensures records { reference.new.records ≡ reference.old.records }
    ensures runs { (j : ℕ)
        → flipped_by (lane j frames.new.flips) reference.new.records
        ≡ records_of program.now.listing (lane j faults.now) (lane j coins.now) }
{
    program.well_formed();
    let mut following = Following {
        frames,
        reference,
        faults,
        coins,
        collapse: 0,
        still: true,
    };
    take_all(program, &mut following);
}
