//! A tracker whose words stay short.
ghost use Rattle.std.specs.Prelude.{◌≡◌, ◌<◌, true, OnErr, OnOk};

use flat_lists::FlatLists;
use gate_table::Gate;
use pauli_word::Letter;
use std::alloc::{AllocError, Allocator};
use step_model::Term;
use trackers::Tracker;

/// How many letters the words may have at a time. A surface code has some ten for each qubit. What is kept of them along the way
/// is up to 25 times as much.
const MOST_HELD: usize = 1 << 20;

/// A tracker that answers an error once its words have too many letters, or too many were gone over, and notes that it did: for who
/// has another way where the words of targets are long. An error without the note is want of memory.
#[derive(Drop)]
pub(crate) struct Limited<'n, T> {
    tracker: T,
    held: usize,
    left: usize,
    is_reached: &'n mut bool,
}

impl<'n, T: Tracker> Limited<'n, T> {
    /// A tracker whose words are the identity, which may go over so many letters, and where it notes that it reached a limit.
    pub(crate) fn new(tracker: T, most: usize, is_reached: &'n mut bool) -> Self
        ensures { result.tracker ≡ tracker }
    {
        Limited {
            tracker,
            held: 0,
            left: most,
            is_reached,
        }
    }

    /// Notes that a limit is reached, and answers the error for it.
    fn give_up(&mut self) -> AllocError
        ensures tracker { self.new.tracker ≡ self.old.tracker }
        ensures noted { self.new.is_reached.now ≡ true }
    {
        *self.is_reached = true;
        AllocError
    }

    /// Counts letters that were gone over.
    fn count_read(&mut self, letters: usize) -> Result<(), AllocError>
        ensures tracker { self.new.tracker ≡ self.old.tracker }
        ensures noted { OnErr result (self.new.is_reached.now ≡ true) }
        ensures kept { OnOk result (self.new.is_reached.now ≡ self.old.is_reached.now) }
    {
        self.left = self.left.saturating_sub(letters);
        if self.left == 0 {
            return Err(self.give_up());
        }
        Ok(())
    }

    /// Counts letters that took the place of others.
    fn count_replaced(&mut self, before: usize, after: usize) -> Result<(), AllocError>
        ensures tracker { self.new.tracker ≡ self.old.tracker }
        ensures noted { OnErr result (self.new.is_reached.now ≡ true) }
        ensures kept { OnOk result (self.new.is_reached.now ≡ self.old.is_reached.now) }
    {
        self.held = self.held.saturating_sub(before).saturating_add(after);
        if self.held > MOST_HELD {
            return Err(self.give_up());
        }
        self.count_read(after)
    }
}

/// How many letters words have that are kept as lists.
fn letter_count<A: Allocator + Copy>(lists: &FlatLists<u32, A>) -> usize {
    let mut count: usize = 0;
    for i in 0..lists.len() {
        count = count.saturating_add(lists.get(i).len());
    }
    count
}

impl<'n, T: Tracker> Tracker for Limited<'n, T> {
    ghost tracked = { λ limited. T.tracked limited.tracker };

    fn keep<B: Allocator + Copy>(&self, alloc: B) -> Result<FlatLists<u32, B>, AllocError> {
        self.tracker.keep(alloc)
    }

    fn restore<B: Allocator + Copy>(
        &mut self,
        lists: &FlatLists<u32, B>,
    ) -> Result<(), AllocError> {
        let before = self.held;
        self.count_replaced(before, letter_count(lists))?;
        self.tracker.restore(lists)
    }

    fn undo1(&mut self, gate: Gate, q: usize) -> Result<(), AllocError> {
        let before = self.tracker.letters_at(q);
        self.tracker.undo1(gate, q)?;
        let after = self.tracker.letters_at(q);
        self.count_replaced(before, after)
    }

    fn undo2(&mut self, gate: Gate, a: usize, b: usize) -> Result<(), AllocError> {
        let before = self
            .tracker
            .letters_at(a)
            .saturating_add(self.tracker.letters_at(b));
        self.tracker.undo2(gate, a, b)?;
        let after = self
            .tracker
            .letters_at(a)
            .saturating_add(self.tracker.letters_at(b));
        self.count_replaced(before, after)
    }

    fn add(&mut self, targets: &[u32], letter: Letter, q: usize) -> Result<(), AllocError> {
        let before = self.tracker.letters_at(q);
        self.tracker.add(targets, letter, q)?;
        let after = self.tracker.letters_at(q);
        self.count_replaced(before, after)
    }

    fn clear(&mut self, q: usize) {
        self.held = self.held.saturating_sub(self.tracker.letters_at(q));
        self.tracker.clear(q);
    }

    fn hit<B: Allocator + Copy>(
        &mut self,
        terms: &[Term],
        hit: &mut Vec<u32, B>,
    ) -> Result<(), AllocError> {
        self.tracker.hit(terms, hit)?;
        let read = self.count_read(terms.len().saturating_add(hit.len()));
        if read.is_err() {
            hit.clear();
        }
        read
    }

    fn kept_hit(&self, terms: &[Term]) -> Option<&[u32]> {
        self.tracker.kept_hit(terms)
    }

    fn letters_at(&self, q: usize) -> usize {
        self.tracker.letters_at(q)
    }
}
