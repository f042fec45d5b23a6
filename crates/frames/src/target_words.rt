//! Frames of 64 runs, with a word for each target of their program, which says in which runs the target differs from that in the
//! run without faults whose coins are all 0.
ghost use Rattle.std.specs.Prelude.{◌≡◌, ℕ, Bool, List, length, IfOk, IfErr};
ghost use Rattle.bit_rows.specs.Lanes.{lane};
ghost use Rattle.step_model.specs.Faults.{memory_fault};
ghost use Rattle.step_model.specs.Targets.{targets_of};
ghost use Rattle.frames.specs.Batches.{IsBatchOf};
ghost use Rattle.frames.specs.Carried.{NoneRandom};
ghost use Rattle.frames.specs.declared.side_runs.Shown.TheVariants.{Detections};
ghost use Rattle.frames.specs.private.Followers.{AreFramesOf};
ghost use Rattle.frames.specs.private.ShownRuns.{shown_of};

use crate::alone::carry_alone;
use crate::batch::{Batch, start};
use crate::detections::detect;
use crate::frames::Frames;
use circuit_walk::Program;
use std::alloc::{AllocError, Allocator};
use step_model::Fault;

/// Frames beside a reference run.
#[derive(Drop)]
pub(crate) struct WordsBeside<A: Allocator + Copy> {
    pub(crate) batch: Batch<A>,
    pub(crate) words: Vec<u64, A>,
}

/// Frames alone, of a program of which no target is random.
#[derive(Drop)]
pub(crate) struct WordsAlone<A: Allocator + Copy> {
    pub(crate) frames: Frames<A>,
    pub(crate) words: Vec<u64, A>,
}

impl<A: Allocator + Copy> WordsBeside<A> {
    /// Takes the memory that `follow` needs.
    pub(crate) fn new(alloc: A, program: &Program<'_, A>, batch: Batch<A>) -> Result<Self, Fault>
        requires { IsBatchOf program.now.listing batch }
        ensures batch { IfOk result (λ made. IsBatchOf program.now.listing made.batch) }
        ensures size { IfOk result (λ made. length made.words.items
            ≡ length (targets_of program.now.listing)) }
        ensures err { IfErr result (λ fault. fault ≡ memory_fault) }
    {
        let words = zeros(alloc, program)?;
        Ok(WordsBeside { batch, words })
    }

    /// Follows 64 runs from the start, with the faults and the coins of each lane. Allocates nothing.
    pub(crate) fn follow(&mut self, program: &Program<'_, A>, faults: &[u64], coins: &[u64])
        requires batch { IsBatchOf program.now.listing self.old.batch }
        requires size { length self.old.words.items ≡ length (targets_of program.now.listing) }
        ensures batch { IsBatchOf program.now.listing self.new.batch }
        ensures size { length self.new.words.items ≡ length (targets_of program.now.listing) }
        ensures runs { (j : ℕ)
            → lane j self.new.words.items
            ≡ shown_of Detections program.now.listing (lane j faults.now) (lane j coins.now) }
    {
        self.batch.follow(program, faults, coins);
        self.batch.detect(program, &mut self.words);
    }
}

impl<A: Allocator + Copy> WordsAlone<A> {
    /// Takes the memory that `follow` needs.
    pub(crate) fn new(alloc: A, program: &Program<'_, A>) -> Result<Self, Fault>
        requires { NoneRandom program.now.listing }
        ensures frames { IfOk result (λ made. AreFramesOf program.now.listing made.frames) }
        ensures size { IfOk result (λ made. length made.words.items
            ≡ length (targets_of program.now.listing)) }
        ensures err { IfErr result (λ fault. fault ≡ memory_fault) }
    {
        let frames = start(alloc, program)?;
        let words = zeros(alloc, program)?;
        Ok(WordsAlone { frames, words })
    }

    /// Follows 64 runs from the start, with the faults of each lane, whatever their coins are. Allocates nothing.
    pub(crate) fn follow(&mut self, program: &Program<'_, A>, faults: &[u64])
        requires frames { AreFramesOf program.now.listing self.old.frames }
        requires size { length self.old.words.items ≡ length (targets_of program.now.listing) }
        ensures frames { AreFramesOf program.now.listing self.new.frames }
        ensures size { length self.new.words.items ≡ length (targets_of program.now.listing) }
        ensures runs { (coins : List Bool)
            → (j : ℕ)
            → lane j self.new.words.items
            ≡ shown_of Detections program.now.listing (lane j faults.now) coins }
    {
        program.well_formed();
        self.frames.restart();
        carry_alone(&mut self.frames, program, faults);
        detect(&self.frames, program, &mut self.words);
    }
}

// A word for each target, 0 at first.
fn zeros<A: Allocator + Copy>(alloc: A, program: &Program<'_, A>) -> Result<Vec<u64, A>, AllocError>
    ensures { IfOk result (λ words. length words.items ≡ length (targets_of program.now.listing)) }
{
    vec![in alloc; 0u64; program.target_count()]
}
