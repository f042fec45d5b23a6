//! A course over turns of a block: the same place one turn earlier, and whole turns that are gone back over.

ghost use Rattle.std.specs.Prelude.{◌≡◌, ◌+◌, ◌-◌, ◌*◌, ◌<◌, ◌≤◌, ℕ};
ghost use Rattle.circuit_walk.specs.Programs.{KeptProgram};
ghost use Rattle.circuit_walk.specs.private.Courses.{IsCourse};
ghost use Rattle.circuit_walk.specs.private.Turns.{Again, GrowBy, GrowsBy, count_back, counts_back};

use crate::choice::StepMakers;
use crate::course::Course;
use crate::step::Counts;
use std::alloc::Allocator;
use stim_parser::{Operation, TargetWord};

/// The count so many turns back, from the count one turn later.
fn count_back(count: u32, later: u32, turns: u32) -> u32
    requires { GrowsBy count later turns }
    ensures { result ≡ count_back count later turns }
{
    count - turns * (later - count)
}

/// The same of counts.
fn counts_back(counts: Counts, later: Counts, turns: u32) -> Counts
    requires { GrowBy counts later turns }
    ensures { result ≡ counts_back counts later turns }
{
    Counts {
        records: count_back(counts.records, later.records, turns),
        collapses: count_back(counts.collapses, later.collapses, turns),
        faults: count_back(counts.faults, later.faults, turns),
    }
}

/// How many turns of so many steps each are among these steps.
fn turns_within(steps: usize, period: usize) -> usize
    requires { 0 < period }
    ensures { result * period ≤ steps }
{
    steps / period
}

impl<'a, 'p, A: Allocator + Copy> Course<'a, 'p, A> {
    /// Whether the place is in an outermost block and in no other, and some turn is before it.
    pub(crate) fn is_behind_turn(&self) -> bool
        requires course { (program : KeptProgram) × IsCourse program self.now }
    {
        match self.cursor.iteration(self.text.items) {
            Some(turns) => 0 < turns,
            None => false,
        }
    }

    /// Whether `later`, which is over the same items, is the same place one turn later, where that is before a step.
    #[inline(always)]
    pub(crate) fn is_turn_before(&self, later: &Self) -> bool
        requires course { (program : KeptProgram) × IsCourse program self.now }
    {
        self.inside
            && later.inside
            && self.here.at == later.here.at
            && self
                .cursor
                .iterations_before::<StepMakers, Operation, TargetWord, A>(
                    self.text.items,
                    &later.cursor,
                )
                .is_some()
    }

    /// Goes back over whole turns, but no further than `from`, where `later` is the same place one turn later; over none where
    /// it isn't. Answers over how many.
    pub(crate) fn pass_turns_back(&mut self, later: &Self, from: usize) -> usize
        requires course { (program : KeptProgram) × IsCourse program self.old × IsCourse program later.now }
        requires from { from ≤ self.old.steps }
        ensures course { (program : KeptProgram) → IsCourse program self.old → IsCourse program later.now
            → IsCourse program self.new }
        ensures above { from ≤ self.new.steps }
        ensures place { self.old.steps ≡ self.new.steps + result * (later.now.steps - self.old.steps) }
        ensures later { 0 < result → self.old.steps < later.now.steps }
        ensures again { (program : KeptProgram) → IsCourse program self.old → IsCourse program later.now → 0 < result
            → Again program self.new.steps self.old.steps later.now.steps }
    {
        if !self.inside
            || !later.inside
            || self.here.at != later.here.at
            || later.steps <= self.steps
        {
            return 0;
        }
        self.text.fits();
        let period = later.steps - self.steps;
        let most = turns_within(self.steps - from, period);
        match self
            .cursor
            .go_back_iterations::<StepMakers, Operation, TargetWord, A>(
                self.text.items,
                &later.cursor,
                most as u64,
            ) {
            Some(turns) => {
                let count = turns as usize;
                self.counts = counts_back(self.counts, later.counts, count as u32);
                self.steps -= count * period;
                count
            }
            None => 0,
        }
    }
}
