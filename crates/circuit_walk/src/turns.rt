//! Turns of a block that a walk passes at once.

ghost use Rattle.std.specs.Prelude.{◌≡◌, ◌+◌, ◌-◌, ◌*◌, ◌<◌, ◌≤◌, ℕ, false, true, IfSome};
ghost use Rattle.circuit_walk.specs.Turns.{AreFedFrom, Repeat, RepeatFaults};
ghost use Rattle.circuit_walk.specs.Walks.{faults_before, records_before};

use crate::step::Step;
use crate::walk::Walk;
use std::alloc::Allocator;

impl<'a, 'p, A: Allocator + Copy> Walk<'a, 'p, A> {
    /// The same place one turn earlier, where this one is in an outermost block and in no other, and some turn is before it.
    /// Feedback between the two depends on records that are made there: none is answered where it depends on an earlier one, or
    /// where there is some and none may be `fed` forward. It goes over these steps.
    pub fn turn_before(&self, fed: bool) -> Option<Self>
        ensures program { IfSome result (λ walk. walk.program ≡ self.now.program) }
        ensures back { IfSome result (λ walk. walk.place < self.now.place) }
        ensures own { IfSome result (λ walk. AreFedFrom self.now.program.listing.steps
            (records_before self.now.program.listing.steps walk.place) walk.place self.now.place) }
        ensures none { fed ≡ false
            → IfSome result (λ walk. (low : ℕ)
            → AreFedFrom self.now.program.listing.steps low walk.place self.now.place) }
    {
        let mut walk = self.copy();
        walk.face_step();
        let later = walk.course.copy();
        if !later.is_behind_turn() {
            return None;
        }
        let mut lowest = usize::MAX;
        while walk.goes_back(fed, &mut lowest) {
            if walk.course.is_turn_before(&later) {
                return if walk.records() <= lowest {
                    Some(walk)
                } else {
                    None
                };
            }
        }
        None
    }

    /// Goes back over whole turns, but no further than `from`, where `later` is the same place one turn later; over none where
    /// it isn't. Answers over how many.
    pub fn pass_turns_back(&mut self, later: &Self, from: usize) -> usize
        requires program { later.now.program ≡ self.old.program }
        requires from { from ≤ self.old.place }
        ensures program { self.new.program ≡ self.old.program }
        ensures above { from ≤ self.new.place }
        ensures place { self.old.place
            ≡ self.new.place + result * (later.now.place - self.old.place) }
        ensures later { 0 < result → self.old.place < later.now.place }
        ensures repeat { 0 < result
            → Repeat self.old.program.listing.steps self.new.place self.old.place
            (later.now.place - self.old.place)
            (records_before self.old.program.listing.steps later.now.place
            - records_before self.old.program.listing.steps self.old.place)
            (faults_before self.old.program.listing.steps later.now.place
            - faults_before self.old.program.listing.steps self.old.place) }
        ensures faults { 0 < result
            → RepeatFaults self.old.program.listing self.new.place self.old.place
            (records_before self.old.program.listing.steps later.now.place
            - records_before self.old.program.listing.steps self.old.place)
            (faults_before self.old.program.listing.steps later.now.place
            - faults_before self.old.program.listing.steps self.old.place) }
    {
        self.face_step();
        let mut later = later.copy();
        later.face_step();
        self.course.pass_turns_back(&later.course, from)
    }

    // Goes over instructions without further steps, to a place before a step or to the end: so each place is written in one way.
    fn face_step(&mut self)
        ensures { self.new ≡ self.old }
    {
        let _ahead = self.course.face_step();
    }

    // Goes back over the step before, if there is one, and keeps the lowest record that feedback depends on. Answers whether
    // there is one that isn't feedback, or is where some may be `fed` forward.
    fn goes_back(&mut self, fed: bool, lowest: &mut usize) -> bool
        ensures program { self.new.program ≡ self.old.program }
        ensures back { result ≡ true → self.new.place + 1 ≡ self.old.place }
        ensures lower { lowest.new ≤ lowest.old }
        ensures own { result ≡ true
            → AreFedFrom self.old.program.listing.steps lowest.new self.new.place self.old.place }
        ensures none { result ≡ true
            → fed ≡ false
            → (low : ℕ)
            → AreFedFrom self.old.program.listing.steps low self.new.place self.old.place }
    {
        match self.previous_step() {
            None => false,
            Some(Step::Feedback { rec, .. }) => {
                *lowest = (*lowest).min(rec as usize);
                fed
            }
            Some(_) => true,
        }
    }
}
