//! What a pass back over the steps keeps beside the words.
ghost use Rattle.std.specs.Prelude.{◌≡◌, ◌==◌, ◌-◌, ◌<◌, ◌≤◌, ◌^◌, ℕ, false, true, not, length, All, IfOk, IfSome, OnOk};
ghost use Rattle.step_model.specs.Listing.{Listing};
ghost use Rattle.step_model.specs.Targets.{targets_of};
ghost use Rattle.trackers.specs.Tracked.{anticommuting, fresh};
ghost use Rattle.backward.specs.private.Collapses.{members_at, noted};
ghost use Rattle.backward.specs.private.Passes.{HoldsLists, IsPassed, opened, records_before};

use crate::places::note;
use circuit_walk::Program;
use record_targets::ChangingLists;
use std::alloc::{AllocError, Allocator};
use step_model::Term;
use trackers::Tracker;

/// The targets that list each record, and where targets are random. A collapse is the projective measurement inside a
/// measurement or a reset.
///
/// A pass changes a record's list at feedback that depends on the record, which stands behind the collapse that makes
/// it, and reads the list at that collapse. So a first pass leaves each list as it is read; from then on the lists are
/// `settled`, and another pass changes none, and asks no more where targets are random.
pub(crate) struct Found<'s, A: Allocator + Copy> {
    pub(crate) alloc: &'s A,
    pub(crate) lists: ChangingLists<'s, A>,
    pub(crate) settled: bool,
    /// Whether the lists of records gone over are kept, for another pass.
    pub(crate) keeps: bool,
    /// How many records' lists are held, the first ones.
    pub(crate) known: usize,
    /// For each target the latest collapse that its word anticommutes with. Empty where that is so of no target.
    pub(crate) latest: Vec<Option<u32>, A>,
    /// How many collapses are left.
    pub(crate) left: u32,
    /// A buffer.
    pub(crate) hit: Vec<u32, A>,
    /// Another, of letters.
    pub(crate) terms: Vec<Term, A>,
}

// Written out, so that it is a call in the proof of each function that owns one.
impl<A: Allocator + Copy> Drop for Found<'_, A> {
    fn drop(self) {
        let Found {
            alloc: _,
            lists,
            settled: _,
            keeps: _,
            known: _,
            latest,
            left: _,
            hit,
            terms,
        } = self;
        drop(lists);
        drop(latest);
        drop(hit);
        drop(terms);
    }
}

impl<'s, A: Allocator + Copy> Found<'s, A> {
    /// After the last step.
    pub(crate) fn new<'a>(alloc: &'s A, program: &Program<'a, A>) -> Result<Self, AllocError>
        ensures first { IfOk result (λ found. found.settled ≡ false) }
        ensures passed { IfOk result (λ found. IsPassed program.now.listing
            (length program.now.listing.steps)
            (fresh program.now.listing.qubits (length (targets_of program.now.listing))) found) }
    {
        program.well_formed();
        let lists = ChangingLists::new(alloc, program)?;
        Ok(Found {
            alloc,
            lists,
            settled: false,
            keeps: false,
            known: program.record_count() as usize,
            latest: Vec::new(*alloc),
            left: program.collapse_count(),
            hit: Vec::new(*alloc),
            terms: Vec::new(*alloc),
        })
    }

    /// Whether some target is known to be random.
    pub(crate) fn is_random(&self) -> bool
        ensures { result ≡ not (length self.now.latest.items == 0) }
    {
        !self.latest.is_empty()
    }

    /// How many records' lists are held once steps are passed over, up to a place with so many records before it: the steps may
    /// have fed later ones forward. Where lists are kept, they have no feedback.
    pub(crate) fn known_at(&self, records: usize) -> usize
        ensures kept { self.now.keeps ≡ true → result ≡ self.now.known }
        ensures fewer { self.now.keeps ≡ false → result ≡ records }
    {
        if self.keeps { self.known } else { records }
    }

    /// Notes the targets that a collapse of a product of letters is the latest place of, unless the lists are settled.
    #[inline(always)]
    pub(crate) fn judge<T: Tracker>(
        &mut self,
        targets: usize,
        terms: &[Term],
        tracker: &mut T,
    ) -> Result<(), AllocError>
        requires terms { All (λ term. term.qubit < (T.tracked tracker.old).qubits) terms.now }
        requires words { length (T.tracked tracker.old).words ≡ targets }
        requires left { self.old.settled ≡ false → 0 < self.old.left }
        requires long { self.old.settled ≡ false
            → length (opened targets self.old.latest.items) ≡ targets }
        ensures words { T.tracked tracker.new ≡ T.tracked tracker.old }
        ensures latest { OnOk result
            (self.old.settled ≡ false
            → opened targets self.new.latest.items
            ≡ noted (self.old.left - 1) (anticommuting terms.now (T.tracked tracker.old))
            (opened targets self.old.latest.items)) }
        ensures left { OnOk result (self.old.settled ≡ false → self.new.left ≡ self.old.left - 1) }
        ensures lists { self.new.lists ≡ self.old.lists }
        ensures settled { self.new.settled ≡ self.old.settled }
        ensures keeps { self.new.keeps ≡ self.old.keeps }
        ensures known { self.new.known ≡ self.old.known }
    {
        if self.settled {
            return Ok(());
        }
        self.left -= 1;
        // Most collapses hit no target.
        if let Some(hit) = tracker.kept_hit(terms)
            && hit.is_empty()
        {
            return Ok(());
        }
        self.note_hit(targets, terms, tracker)
    }

    // Notes the targets whose words anticommute with a product of letters, for which a collapse with so many before it is
    // the latest place.
    #[inline(never)]
    fn note_hit<T: Tracker>(
        &mut self,
        targets: usize,
        terms: &[Term],
        tracker: &mut T,
    ) -> Result<(), AllocError>
        requires terms { All (λ term. term.qubit < (T.tracked tracker.old).qubits) terms.now }
        requires words { length (T.tracked tracker.old).words ≡ targets }
        requires long { length (opened targets self.old.latest.items) ≡ targets }
        ensures words { T.tracked tracker.new ≡ T.tracked tracker.old }
        ensures latest { OnOk result
            (opened targets self.new.latest.items
            ≡ noted self.old.left (anticommuting terms.now (T.tracked tracker.old))
            (opened targets self.old.latest.items)) }
        ensures left { self.new.left ≡ self.old.left }
        ensures lists { self.new.lists ≡ self.old.lists }
        ensures settled { self.new.settled ≡ self.old.settled }
        ensures keeps { self.new.keeps ≡ self.old.keeps }
        ensures known { self.new.known ≡ self.old.known }
    {
        tracker.hit(terms, &mut self.hit)?;
        note(
            *self.alloc,
            &mut self.latest,
            targets,
            self.hit.as_slice(),
            self.left,
        )
    }

    /// The targets that list a record, where they need not be put into the buffer.
    #[inline(always)]
    pub(crate) fn lent_record(&self, rec: Option<u32>) -> Option<&[u32]>
        requires { IfSome rec (λ r. r < length self.now.lists) }
        ensures { IfSome result (λ list. list.now ≡ members_at self.now.lists rec) }
    {
        match rec {
            Some(r) => self.lists.lent(r as usize),
            None => Some(&[]),
        }
    }

    /// Puts into the buffer the targets that list a record.
    #[inline(never)]
    pub(crate) fn list_record(&mut self, rec: Option<u32>) -> Result<(), AllocError>
        requires rec { IfSome rec (λ r. r < length self.old.lists) }
        requires long { All (λ set. length set ≤ 2 ^ 32) self.old.lists }
        ensures hit { OnOk result (self.new.hit.items ≡ members_at self.old.lists rec) }
        ensures lists { OnOk result (self.new.lists ≡ self.old.lists) }
        ensures settled { self.new.settled ≡ self.old.settled }
        ensures keeps { self.new.keeps ≡ self.old.keeps }
        ensures known { self.new.known ≡ self.old.known }
        ensures latest { self.new.latest ≡ self.old.latest }
        ensures left { self.new.left ≡ self.old.left }
    {
        match rec {
            Some(r) => self.lists.list(r as usize, &mut self.hit),
            None => {
                self.hit.clear();
                Ok(())
            }
        }
    }

    /// Lets go of the list of a record, unless lists are kept: the pass has gone over the collapse that makes it.
    pub(crate) fn let_go(&mut self, rec: Option<u32>)
        requires { IfSome rec (λ r. r < length self.old.lists) }
        ensures lists { (program : Listing) (place : ℕ)
            → IfSome rec (λ r. (records_before program place ≤ r) × (r ≤ self.old.known))
            → HoldsLists program self.old.settled place self.old.known self.old.lists
            → HoldsLists program self.new.settled place self.new.known self.new.lists }
        ensures settled { self.new.settled ≡ self.old.settled }
        ensures keeps { self.new.keeps ≡ self.old.keeps }
        ensures known { self.old.keeps ≡ true → self.new.known ≡ self.old.known }
        ensures latest { self.new.latest ≡ self.old.latest }
        ensures left { self.new.left ≡ self.old.left }
    {
        if let Some(r) = rec
            && !self.keeps
        {
            self.lists.let_go(r as usize);
            self.known = r as usize;
        }
    }
}
