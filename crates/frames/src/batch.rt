ghost use Rattle.std.specs.Prelude.{◌≡◌, ◌<◌, ◌≤◌, ◌+◌, ℕ, false, length, slice_index_or, IfOk, IfErr};
ghost use Rattle.bit_rows.specs.Lanes.{lane, lane_bit};
ghost use Rattle.step_model.specs.Faults.{memory_fault};
ghost use Rattle.step_model.specs.Targets.{difference, targets_of};
ghost use Rattle.frames.specs.Batches.{AreRuns, DontCount, IsBatchOf, shot_records};

use crate::detections::detect;
use crate::follow::follow_steps;
use crate::frames::Frames;
use bit_rows::lanes::{bit, spread, xor};
use circuit_walk::Program;
use forward_sim::{Reference, Span};
use std::alloc::{AllocError, Allocator};
use std::marker::Model;
use step_model::Fault;

/// 64 runs (shots) of a program side by side, each with its own faults and coins: bit j of a word belongs to run j, the
/// lowest bit to run 0. Each run is followed by its Pauli frame beside a reference run, whose records are made once. (A
/// collapse is the projective measurement inside a measurement or a reset; its coin is the outcome where that is random.)
pub struct Batch<A: Allocator + Copy> {
    reference: Reference<A>,
    frames: Frames<A>,
}

impl<A: Allocator + Copy> Model for Batch<A> {
    ghost use Rattle.std.specs.Prelude.{length};
    ghost use Rattle.frames.specs.Batches.{Followed};

    ghost Value = { Followed };

    ghost view = { λ b. record { reference = b.reference; flips = b.frames.flips; qubits = length b.frames.letters; room = b.frames.room } };
}

// Written out, so that it is a call in the proof of each function that owns one.
impl<A: Allocator + Copy> Drop for Batch<A> {
    fn drop(self) {
        let Batch { reference, frames } = self;
        drop(reference);
        drop(frames);
    }
}

impl<A: Allocator + Copy> Batch<A> {
    /// Makes the reference run, and takes the memory that `follow` needs.
    pub fn new(alloc: A, program: &Program<'_, A>) -> Result<Self, Fault>
        ensures ok { IfOk result (IsBatchOf program.now.listing) }
        ensures err { IfErr result (λ fault. fault ≡ memory_fault) }
    {
        let frames = start(alloc, program)?;
        let reference = Reference::of(alloc, program)?;
        Ok(Batch { reference, frames })
    }

    /// Follows 64 runs once: what `new` and then `follow` leave.
    pub fn run(
        alloc: A,
        program: &Program<'_, A>,
        faults: &[u64],
        coins: &[u64],
    ) -> Result<Self, Fault>
        ensures runs { IfOk result (AreRuns program.now.listing faults.now coins.now) }
        ensures batch { IfOk result (IsBatchOf program.now.listing) }
        ensures err { IfErr result (λ fault. fault ≡ memory_fault) }
    {
        let mut batch = Batch::new(alloc, program)?;
        batch.follow(program, faults, coins);
        Ok(batch)
    }

    /// Follows 64 runs from the start. `faults` has a word for each fault, which says in which runs it happens, and
    /// `coins` a word for each collapse. A missing word counts as 0. Allocates nothing.
    pub fn follow(&mut self, program: &Program<'_, A>, faults: &[u64], coins: &[u64])
        requires { IsBatchOf program.now.listing self.old }
        ensures runs { AreRuns program.now.listing faults.now coins.now self.new }
        ensures reference { self.new.reference.records ≡ self.old.reference.records }
        ensures batch { IsBatchOf program.now.listing self.new }
    {
        self.frames.restart();
        self.reference.restart(program);
        follow_steps(
            &mut self.frames,
            program,
            &mut self.reference,
            faults,
            coins,
        );
    }

    /// Collapses whose coins don't count: the longest span of those whose outcome isn't random in the reference run, where that keeps
    /// its words, and else none.
    pub fn coins_that_dont_count(&self, program: &Program<'_, A>) -> Span
        requires { IsBatchOf program.now.listing self.now }
        ensures order { result.start ≤ result.end }
        ensures within { result.end ≤ program.now.listing.collapses }
        ensures coins { DontCount program.now.listing result }
    {
        program.well_formed();
        self.reference.longest_decided(program)
    }

    /// A record of a run.
    pub fn record(&self, shot: u32, index: usize) -> bool
        requires shot { shot < 64 }
        requires index { index < length self.now.reference.records }
        ensures { result ≡ slice_index_or (shot_records shot self.now) index false }
    {
        bit(self.records_word(index), shot)
    }

    /// A record of all runs: bit j is that of run j.
    pub fn records_word(&self, index: usize) -> u64
        requires { index < length self.now.reference.records }
        ensures { (j : ℕ)
            → j < 64
            → lane_bit j result ≡ slice_index_or (shot_records j self.now) index false }
    {
        let value = self.reference.records().get(index);
        xor(self.frames.flips(index), spread(value))
    }

    /// Fills a word for each target, detectors first, then observables: in which runs its parity differs from that in the
    /// reference run, a bit a run. These are detection events, and flips of observables. Allocates nothing.
    pub(crate) fn detect(&self, program: &Program<'_, A>, words: &mut [u64])
        requires { length words.old ≡ length (targets_of program.now.listing) }
        ensures size { length words.new ≡ length words.old }
        ensures lanes { (j : ℕ)
            → lane j words.new
            ≡ difference program.now.listing (shot_records j self.now)
            self.now.reference.records }
    {
        detect(&self.frames, program, words);
    }
}

/// Memory for the frames of a program.
pub(crate) fn start<A: Allocator + Copy>(
    alloc: A,
    program: &Program<'_, A>,
) -> Result<Frames<A>, AllocError>
    ensures qubits { IfOk result (λ f. length f.letters ≡ program.now.listing.qubits) }
    ensures room { IfOk result (λ f. f.room ≡ program.now.listing.records) }
{
    Frames::start(
        alloc,
        program.qubits() as usize,
        program.record_count() as usize,
    )
}
