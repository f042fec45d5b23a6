//! What follows 64 runs of a program.
ghost use Rattle.std.specs.Prelude.{◌≡◌, ◌<◌, ◌≤◌, ℕ, false, slice_index_or, IfOk, IfErr};
ghost use Rattle.bit_rows.specs.Lanes.{lane, lane_bit};
ghost use Rattle.step_model.specs.Faults.{memory_fault};
ghost use Rattle.frames.specs.Carried.{NoneRandom};
ghost use Rattle.frames.specs.declared.side_runs.Shown.TheVariants as kind;
ghost use Rattle.frames.specs.private.Followers.{Follows, kind_of, value_count, shown_by};
ghost use Rattle.frames.specs.private.ShownRuns.{DontShow, shown_of};

use crate::batch::Batch;
use crate::side_runs::Shown;
use crate::target_words::{WordsAlone, WordsBeside};
use circuit_walk::Program;
use forward_sim::Span;
use std::alloc::Allocator;
use step_model::Fault;

/// What follows 64 runs: their frames, beside a reference run, which show their records, or their detections, a word for each
/// target; or alone, without a reference run and without coins, which show detections where no target is random.
#[derive(Drop)]
pub(crate) enum Follower<A: Allocator + Copy> {
    Records(Batch<A>),
    Detections(WordsBeside<A>),
    Alone(WordsAlone<A>),
}

impl<A: Allocator + Copy> Follower<A> {
    /// Frames beside a reference run, which is made here.
    pub(crate) fn beside(alloc: A, program: &Program<'_, A>, shown: Shown) -> Result<Self, Fault>
        ensures follows { IfOk result (Follows program.now.listing) }
        ensures kind { IfOk result (λ follower. kind_of follower ≡ shown) }
        ensures err { IfErr result (λ fault. fault ≡ memory_fault) }
    {
        let batch = Batch::new(alloc, program)?;
        match shown {
            Shown::Records => Ok(Follower::Records(batch)),
            Shown::Detections => {
                let beside = WordsBeside::new(alloc, program, batch)?;
                Ok(Follower::Detections(beside))
            }
        }
    }

    /// Frames alone.
    pub(crate) fn alone(alloc: A, program: &Program<'_, A>) -> Result<Self, Fault>
        requires { NoneRandom program.now.listing }
        ensures follows { IfOk result (Follows program.now.listing) }
        ensures kind { IfOk result (λ follower. kind_of follower ≡ kind.Detections) }
        ensures err { IfErr result (λ fault. fault ≡ memory_fault) }
    {
        let alone = WordsAlone::new(alloc, program)?;
        Ok(Follower::Alone(alone))
    }

    /// Collapses whose coins don't count for what is shown: of frames alone none does.
    pub(crate) fn coins_that_dont_count(&self, program: &Program<'_, A>) -> Span
        requires { Follows program.now.listing self.now }
        ensures order { result.start ≤ result.end }
        ensures within { result.end ≤ program.now.listing.collapses }
        ensures coins { DontShow (kind_of self.now) program.now.listing result }
    {
        program.well_formed();
        match self {
            Follower::Records(batch) => batch.coins_that_dont_count(program),
            Follower::Detections(beside) => beside.batch.coins_that_dont_count(program),
            Follower::Alone(_) => Span {
                start: 0,
                end: program.collapse_count() as usize,
            },
        }
    }

    /// Follows 64 runs from the start, with the faults and the coins of each lane. Allocates nothing.
    pub(crate) fn follow(&mut self, program: &Program<'_, A>, faults: &[u64], coins: &[u64])
        requires { Follows program.now.listing self.old }
        ensures follows { Follows program.now.listing self.new }
        ensures kind { kind_of self.new ≡ kind_of self.old }
        ensures runs { (j : ℕ)
            → shown_by j self.new
            ≡ shown_of (kind_of self.old) program.now.listing (lane j faults.now)
            (lane j coins.now) }
    {
        program.well_formed();
        match self {
            Follower::Records(batch) => batch.follow(program, faults, coins),
            Follower::Detections(beside) => beside.follow(program, faults, coins),
            Follower::Alone(alone) => alone.follow(program, faults),
        }
    }

    /// One truth value of all runs.
    #[inline(always)]
    pub(crate) fn word(&self, index: usize) -> u64
        requires { index < value_count self.now }
        ensures { (j : ℕ)
            → j < 64
            → lane_bit j result ≡ slice_index_or (shown_by j self.now) index false }
    {
        match self {
            Follower::Records(batch) => batch.records_word(index),
            Follower::Detections(beside) => beside.words[index],
            Follower::Alone(alone) => alone.words[index],
        }
    }
}
