//! Runs of a program, 64 side by side, of which the records or the detections are shown.
ghost use Rattle.std.specs.Prelude.{◌≡◌, ◌<◌, ℕ, false, length, slice_index, slice_index_or};
ghost use Rattle.bit_rows.specs.Lanes.{lane, lane_bit};
ghost use Rattle.frames.specs.private.Followers.{Follows, kind_of, value_count, shown_by};
ghost use Rattle.frames.specs.private.ShownRuns.{shown_count, shown_of};

use crate::follower::Follower;
use circuit_walk::Program;
use std::alloc::Allocator;
use std::marker::Model;

/// What is shown of a run: a truth value for each record; or for each detector and then for each observable, whether its parity
/// differs from that in the run without faults whose coins are all 0. (A coin is the outcome of a collapse, the projective
/// measurement inside a measurement or a reset, where that is random.)
#[derive(Clone, Copy)]
pub enum Shown {
    Records,
    Detections,
}

/// Runs of a program, of which words have in their lanes what is shown. Each call of `run` runs them anew. What follows them and the
/// words are lent.
#[derive(Drop)]
pub(crate) struct SideRuns<'b, 'p, A: Allocator + Copy> {
    program: &'b Program<'p, A>,
    follower: &'b mut Follower<A>,
    words: &'b mut [u64],
}

impl<'b, 'p, A: Allocator + Copy> Model for SideRuns<'b, 'p, A> {
    ghost use Rattle.std.specs.Prelude.{◌≡◌, length};
    ghost use Rattle.frames.specs.private.Followers.{Follows, kind_of};
    ghost use Rattle.frames.specs.private.ShownRuns.{ShownRuns, shown_count};

    ghost Value = { ShownRuns };

    ghost view = { λ r. record { program = r.program.now.listing; shown = kind_of r.follower.now; words = r.words.now } };

    ghost invariant = { λ r. Follows r.program.now.listing r.follower.now × (length r.words.now ≡ shown_count (kind_of r.follower.now) r.program.now.listing) };
}

impl<'b, 'p, A: Allocator + Copy> SideRuns<'b, 'p, A> {
    /// Runs of a program, with what follows them, and a word for each truth value that this shows.
    pub(crate) fn new(
        program: &'b Program<'p, A>,
        follower: &'b mut Follower<A>,
        words: &'b mut [u64],
    ) -> Self
        requires follows { Follows program.now.listing follower.now }
        requires words { length words.now
            ≡ shown_count (kind_of follower.now) program.now.listing }
        ensures program { result.program ≡ program.now.listing }
        ensures shown { result.shown ≡ kind_of follower.entry.now }
        ensures words { result.words ≡ words.entry.now }
    {
        SideRuns {
            program,
            follower,
            words,
        }
    }

    /// Runs the program with the faults and the coins of each lane.
    pub(crate) fn run(&mut self, faults: &[u64], coins: &[u64])
        requires faults { length faults.now ≡ length self.old.program.faults }
        requires coins { length coins.now ≡ self.old.program.collapses }
        ensures program { self.new.program ≡ self.old.program }
        ensures shown { self.new.shown ≡ self.old.shown }
        ensures size { length self.new.words ≡ length self.old.words }
        ensures lanes { (j : ℕ)
            → j < 64
            → lane j self.new.words
            ≡ shown_of self.old.shown self.old.program (lane j faults.now) (lane j coins.now) }
    {
        self.program.well_formed();
        self.follower.follow(self.program, faults, coins);
        fill(self.words, self.follower);
    }

    /// What is shown of the runs made last: a word for each truth value, whose bit j belongs to run j.
    pub(crate) fn words(&self) -> &[u64]
        ensures { result.now ≡ self.now.words }
    {
        self.words
    }
}

/// How many truth values are shown of a run.
pub(crate) fn count<A: Allocator + Copy>(program: &Program<'_, A>, shown: Shown) -> usize
    ensures { result ≡ shown_count shown program.now.listing }
{
    match shown {
        Shown::Records => program.record_count() as usize,
        Shown::Detections => program.target_count(),
    }
}

/// What is shown of all runs, a word for each truth value.
fn fill<A: Allocator + Copy>(words: &mut [u64], follower: &Follower<A>)
    requires { length words.old ≡ value_count follower.now }
    ensures size { length words.new ≡ length words.old }
    ensures filled { (index : ℕ)
        → index < length words.old
        → (j : ℕ)
        → j < 64
        → lane_bit j (slice_index words.new index)
        ≡ slice_index_or (shown_by j follower.now) index false }
{
    for index in 0..words.len() {
        words[index] = follower.word(index);
    }
}
