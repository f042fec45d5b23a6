//! For each record the targets that feedback changes, as linked lists: most records have none or few.
ghost use Rattle.std.specs.Prelude.{◌≡◌, ◌<◌, ◌≤◌, ◌∷◌, ℕ, [], true, false, length, replicate, slice_index_or, slice_set, All, IfOk, OnErr, OnOk};
ghost use Rattle.record_targets.specs.private.Apart.{toggled_at};
ghost use Rattle.record_targets.specs.private.Links.{list_at, rows_at, LeadBack, AreLists, IsGrown, IsPutAt};
ghost use Rattle.record_targets.specs.private.RecordSets.{opened_sets, AreAsLong};
ghost use Rattle.step_model.specs.TargetSets.{members};

use crate::ascending::make_ascend;
use std::alloc::{AllocError, Allocator};
use std::marker::Model;

/// A target in a list, and the place of the rest of the list.
#[derive(Clone, Copy, Drop)]
struct Link {
    target: u32,
    next: u32,
}

// With no more links than this each place of a list fits 32 bits.
const MOST_LINKS: usize = u32::MAX as usize;

/// For each record a set of targets.
///
/// They are kept as linked lists, and a target is in a set where it is in the list an odd number of times: to toggle
/// it, it is put in front. A list's place is how many links there are up to and with its first, and 0 where it is
/// empty. Where feedback has put many, the lists are made anew, so the links don't grow with the number of steps: what
/// lists had that are empty now is left out.
pub(crate) struct RecordLists<'s, A: Allocator + Copy> {
    alloc: &'s A,
    targets: usize,
    links: Vec<Link, A>,
    places: Vec<u32, A>,
    // From how many links on the lists are made anew.
    many: usize,
}

impl<'s, A: Allocator + Copy> Model for RecordLists<'s, A> {
    ghost use Rattle.std.specs.Prelude.{List, Bool};
    ghost use Rattle.record_targets.specs.private.Links.{rows_at, AreLists};

    ghost Value = { List (List Bool) };

    ghost view = { λ lists. rows_at lists.targets lists.links.items lists.places.items };

    ghost invariant = { λ lists. AreLists lists.targets lists.links.items lists.places.items };
}

// Written out, so that it is a call in the proof of each function that owns one.
impl<A: Allocator + Copy> Drop for RecordLists<'_, A> {
    fn drop(self) {
        let RecordLists {
            alloc: _,
            targets: _,
            links,
            places,
            many: _,
        } = self;
        drop(links);
        drop(places);
    }
}

impl<'s, A: Allocator + Copy> RecordLists<'s, A> {
    /// Of no records yet. Takes no memory.
    pub(crate) fn none(alloc: &'s A) -> Self
        ensures { result ≡ [] }
    {
        RecordLists {
            alloc,
            targets: 0,
            links: Vec::new(*alloc),
            places: Vec::new(*alloc),
            many: 0,
        }
    }

    // Empty sets of so many targets.
    fn new(alloc: &'s A, records: usize, targets: usize) -> Result<Self, AllocError>
        ensures { IfOk result (λ lists. lists ≡ replicate records (replicate targets false)) }
    {
        let places = Vec::from_elem(*alloc, 0, records)?;
        Ok(RecordLists {
            alloc,
            targets,
            links: Vec::new(*alloc),
            places,
            many: many_links(0, records),
        })
    }

    /// How many records there are.
    #[inline(always)]
    pub(crate) fn len(&self) -> usize
        ensures { result ≡ length self.now }
    {
        self.places.len()
    }

    /// Whether nothing was put for a record since its set was empty.
    #[inline(always)]
    pub(crate) fn is_empty(&self, rec: usize) -> bool
        requires { rec < length self.now }
        ensures { let set = slice_index_or self.now rec [] in
            result ≡ true → set ≡ replicate (length set) false }
    {
        self.places[rec] == 0
    }

    /// Gives each of so many records an empty set of so many targets, where there is no record yet.
    pub(crate) fn open(&mut self, records: usize, targets: usize) -> Result<(), AllocError>
        ensures ok { OnOk result (self.new ≡ opened_sets records targets self.old) }
        ensures err { OnErr result (self.new ≡ self.old) }
    {
        if self.places.is_empty() {
            let lists = RecordLists::new(self.alloc, records, targets)?;
            *self = lists;
        }
        Ok(())
    }

    /// Puts the targets in the set of a record into `into`, ascending, in place of what it held.
    pub(crate) fn list<B: Allocator + Copy>(
        &self,
        rec: usize,
        into: &mut Vec<u32, B>,
    ) -> Result<(), AllocError>
        requires { rec < length self.now }
        ensures { OnOk result (into.new.items ≡ members (slice_index_or self.now rec [])) }
    {
        list_from(self.links.as_slice(), self.places[rec], into)?;
        // What was put last stands first.
        into.reverse();
        make_ascend(into);
        Ok(())
    }

    /// Toggles each of these targets in the set of a record.
    pub(crate) fn toggle_each(&mut self, rec: usize, targets: &[u32]) -> Result<(), AllocError>
        requires rec { rec < length self.old }
        requires targets { All (λ t. t < length (slice_index_or self.old rec [])) targets.now }
        ensures ok { OnOk result (self.new ≡ toggled_at rec targets.now self.old) }

        // After an error too.
        ensures as_long { AreAsLong self.old self.new }
    {
        self.shorten()?;
        self.put(rec, targets)
    }

    /// Makes the set of a record empty. Takes no memory.
    pub(crate) fn empty(&mut self, rec: usize)
        requires { rec < length self.old }
        ensures set { (m : ℕ)
            → All (λ set. length set ≡ m) self.old
            → self.new ≡ slice_set self.old rec (replicate m false) }
        ensures as_long { AreAsLong self.old self.new }
    {
        self.places[rec] = 0;
    }

    // Makes the lists anew where they have many links.
    fn shorten(&mut self) -> Result<(), AllocError>
        ensures { self.new ≡ self.old }
    {
        if self.links.len() < self.many {
            return Ok(());
        }
        let lists = self.anew()?;
        *self = lists;
        self.many = many_links(self.links.len(), self.places.len());
        Ok(())
    }

    // The same sets, with each of their targets listed once.
    fn anew(&self) -> Result<Self, AllocError>
        ensures { IfOk result (λ lists. lists ≡ self.now) }
    {
        let records = self.places.len();
        let mut lists = RecordLists::new(self.alloc, records, self.targets)?;
        let mut set = Vec::new(*self.alloc);
        for rec in 0..records {
            self.list(rec, &mut set)?;
            lists.put(rec, set.as_slice())?;
        }
        Ok(lists)
    }

    // Puts each of these targets in front of the list of a record.
    fn put(&mut self, rec: usize, targets: &[u32]) -> Result<(), AllocError>
        requires rec { rec < length self.old }
        requires targets { All (λ t. t < length (slice_index_or self.old rec [])) targets.now }
        ensures ok { OnOk result (self.new ≡ toggled_at rec targets.now self.old) }
        ensures as_long { AreAsLong self.old self.new }
    {
        let first = put_each(&mut self.links, self.places[rec], targets)?;
        self.places[rec] = first;
        Ok(())
    }
}

// From how many links on the lists are made anew, when there are this many links and records: so many more that it is
// done seldom.
fn many_links(links: usize, records: usize) -> usize
    ensures { links ≤ result }
{
    links
        .saturating_mul(2)
        .saturating_add(records)
        .saturating_add(1024)
}

// Puts each of these targets in front of a list, the last in front of all, and answers the place of that list. What was
// put before an error stays, and no list has it.
fn put_each<A: Allocator + Copy>(
    links: &mut Vec<Link, A>,
    place: u32,
    targets: &[u32],
) -> Result<u32, AllocError>
    requires back { LeadBack links.old.items }
    requires placed { place ≤ length links.old.items }
    ensures put { IfOk result (λ first. IsPutAt targets.now links.old.items place links.new.items
        first) }
    ensures grown { IsGrown links.old.items links.new.items }
{
    let mut first = place;
    for target in targets {
        first = put_first(links, first, *target)?;
    }
    Ok(first)
}

// Puts a target in front of a list, and answers the place of that list. It fails where memory runs out, or links do.
fn put_first<A: Allocator + Copy>(
    links: &mut Vec<Link, A>,
    place: u32,
    target: u32,
) -> Result<u32, AllocError>
    requires back { LeadBack links.old.items }
    requires placed { place ≤ length links.old.items }
    ensures put { IfOk result (λ first. IsPutAt (target ∷ []) links.old.items place links.new.items
        first) }
    ensures grown { IsGrown links.old.items links.new.items }
{
    if links.len() >= MOST_LINKS {
        return Err(AllocError);
    }
    links.push(Link {
        target,
        next: place,
    })?;
    Ok(links.len() as u32)
}

// Puts the targets of a list into `into`, in place of what it held.
fn list_from<B: Allocator + Copy>(
    links: &[Link],
    place: u32,
    into: &mut Vec<u32, B>,
) -> Result<(), AllocError>
    requires back { LeadBack links.now }
    requires placed { place ≤ length links.now }
    ensures { OnOk result (into.new.items ≡ list_at links.now place) }
{
    into.clear();
    let mut left = place as usize;
    while left > 0 {
        let link = links[left - 1];
        into.push(link.target)?;
        left = link.next as usize;
    }
    Ok(())
}
