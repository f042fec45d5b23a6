//! 64 runs of a program of which only the frames are carried.
ghost use Rattle.std.specs.Prelude.{◌≡◌, ℕ, length};
ghost use Rattle.bit_rows.specs.Lanes.{lane};
ghost use Rattle.frames.specs.Batches.{AreAtStart};
ghost use Rattle.frames.specs.Carried.{carried_frame};
ghost use Rattle.frames.specs.LaneFrames.{frame_in};

use crate::frames::Frames;
use crate::steps::{apply_fault, collapse, collapse_word, feed_back, move_one, move_two};
use circuit_walk::{FaultName, Letters, Program, StepTaker, take_all};
use forward_sim::quiet_count;
use gate_table::Gate;
use pauli_word::Letter;
use std::alloc::Allocator;

/// Frames of 64 runs, with no run beside them. Where `still` all of them are I.
#[derive(Drop)]
struct Carrying<'r, A: Allocator + Copy> {
    frames: &'r mut Frames<A>,
    faults: &'r [u64],
    still: bool,
}

impl<'r, A: Allocator + Copy> StepTaker<A> for Carrying<'r, A> {
    ghost use Rattle.std.specs.Prelude.{◌≡◌};
    ghost use Rattle.frames.specs.private.Takers.{IsCarrying};

    ghost stands = { λ program begun k run. (run.frames.ghost_name ≡ begun.frames.ghost_name)
        × IsCarrying program.listing begun.faults.now k run.faults.now run.still run.frames.now };

    #[inline(always)]
    fn apply_one(&mut self, program: &Program<'_, A>, gate: Gate, q: u32) {
        program.well_formed();
        move_one(self.frames, program, self.still, gate, q);
    }

    #[inline(always)]
    fn apply_two(&mut self, program: &Program<'_, A>, gate: Gate, a: u32, b: u32) {
        program.well_formed();
        move_two(self.frames, program, self.still, gate, a, b);
    }

    #[inline(always)]
    fn feed_back(&mut self, program: &Program<'_, A>, letter: Letter, q: u32, rec: u32) {
        program.well_formed();
        feed_back(self.frames, program, letter, q, rec);
        self.still = false;
    }

    #[inline(always)]
    fn collapse(
        &mut self,
        program: &Program<'_, A>,
        letter: Letter,
        qubit: u32,
        rec: Option<u32>,
        reset: bool,
        _inverted: bool,
        flip: Option<FaultName>,
    ) {
        program.well_formed();
        collapse(
            self.frames,
            program,
            self.faults,
            None,
            0,
            letter,
            qubit,
            rec,
            reset,
            flip,
        );
        self.still = false;
    }

    #[inline(always)]
    fn collapse_word(
        &mut self,
        program: &Program<'_, A>,
        letters: Letters<'_>,
        rec: Option<u32>,
        _inverted: bool,
        flip: Option<FaultName>,
    ) {
        program.well_formed();
        collapse_word(
            self.frames,
            program,
            self.faults,
            None,
            0,
            letters,
            rec,
            flip,
        );
        self.still = false;
    }

    #[inline(always)]
    fn fault(&mut self, program: &Program<'_, A>, name: FaultName, letters: Letters<'_>) {
        program.well_formed();
        self.still = apply_fault(self.frames, program, self.faults, self.still, name, letters);
    }

    #[inline(always)]
    fn pass_faults(&mut self, program: &Program<'_, A>, first: u32, count: usize) -> usize {
        program.well_formed();
        quiet_count(self.faults, first, count)
    }
}

/// Takes the frames of 64 runs over all steps of a program, with no run beside them.
pub(crate) fn carry_alone<A: Allocator + Copy>(
    frames: &mut Frames<A>,
    program: &Program<'_, A>,
    faults: &[u64],
)
    requires qubits { length frames.old.letters ≡ program.now.listing.qubits }
    requires room { frames.old.room ≡ program.now.listing.records }
    requires start { AreAtStart frames.old }
    ensures qubits { length frames.new.letters ≡ length frames.old.letters }
    ensures room { frames.new.room ≡ frames.old.room }
    ensures carried { (j : ℕ)
        → frame_in j frames.new ≡ carried_frame program.now.listing (lane j faults.now) }
{
    program.well_formed();
    let mut carrying = Carrying {
        frames,
        faults,
        still: true,
    };
    take_all(program, &mut carrying);
}
