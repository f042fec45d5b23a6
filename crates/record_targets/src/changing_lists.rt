//! For each record the targets that list it, while feedback changes the set of one.
ghost use Rattle.std.specs.Prelude.{◌≡◌, ◌<◌, ◌≤◌, ◌^◌, ◌++◌, ℕ, [], false, None, Some, length, slice_index_or, slice_set, take, All, IfOk, IfSome, OnOk};
ghost use Rattle.record_targets.specs.private.Apart.{toggled_at, with_apart, AreToggled, IsApart, IsUnchanged};
ghost use Rattle.record_targets.specs.ListingSets.{toggled_each, listing_sets};
ghost use Rattle.step_model.specs.TargetSets.{members};

use crate::ascending::{ascends, make_ascend};
use crate::listed_targets::ListedTargets;
use crate::record_lists::RecordLists;
use crate::targets::target_count;
use circuit_walk::Program;
use std::alloc::{AllocError, Allocator};
use std::marker::Model;
use std::mem;

/// From this many targets on that feedback toggles at once the record's changes are taken out of the lists.
const MANY: usize = 16;

/// For each record the set of the targets that list it an odd number of times. Feedback alone changes them.
///
/// The program's own are kept as they are, and apart from them for each record the targets that feedback toggled, as
/// linked lists, from the first on that it toggles. A few targets are toggled there. Where feedback toggles many, the
/// record's changes are taken out of the lists and kept apart, as targets of which each is changed where it is listed an
/// odd number of times, and are put back when another record's are wanted. So it takes a few steps a target.
#[derive(Drop)]
pub struct ChangingLists<'s, A: Allocator + Copy> {
    targets: usize,
    listed: ListedTargets<A>,
    // Of no records until feedback toggles a target.
    changes: RecordLists<'s, A>,
    // The record whose changes are apart, if one's are.
    apart: Option<usize>,
    set: Vec<u32, A>,
    // A buffer.
    spare: Vec<u32, A>,
}

impl<'s, A: Allocator + Copy> Model for ChangingLists<'s, A> {
    ghost use Rattle.std.specs.Prelude.{List, Bool};
    ghost use Rattle.record_targets.specs.private.Apart.{with_apart, with_changes, IsChanged};

    ghost Value = { List (List Bool) };

    ghost view = { λ c. with_changes c.listed (with_apart c.targets c.changes c.apart c.set.items) };

    ghost invariant = { λ c. IsChanged c.targets c.listed c.changes c.apart c.set.items };
}

impl<'s, A: Allocator + Copy> ChangingLists<'s, A> {
    /// The sets of a program after its last step: each target is in those of the records that it lists an odd number
    /// of times.
    pub fn new<'a>(alloc: &'s A, program: &Program<'a, A>) -> Result<Self, AllocError>
        ensures { IfOk result (λ lists. lists ≡ listing_sets program.now.listing []) }
    {
        let listed = ListedTargets::new(*alloc, program)?;
        Ok(ChangingLists {
            targets: target_count(program),
            listed,
            changes: RecordLists::none(alloc),
            apart: None,
            set: Vec::new(*alloc),
            spare: Vec::new(*alloc),
        })
    }

    /// The targets in the set of a record, ascending, where they stand so in the program's own list: most do.
    #[inline(always)]
    pub fn lent(&self, rec: usize) -> Option<&[u32]>
        requires { rec < length self.now }
        ensures { IfSome result (λ list. list.now ≡ members (slice_index_or self.now rec [])) }
    {
        if is_changed(&self.changes, self.apart, rec) {
            return None;
        }
        let listed = self.listed.get(rec);
        if ascends(listed) { Some(listed) } else { None }
    }

    /// Puts the targets in the set of a record into `into`, ascending, in place of what it held.
    pub fn list<B: Allocator + Copy>(
        &mut self,
        rec: usize,
        into: &mut Vec<u32, B>,
    ) -> Result<(), AllocError>
        requires rec { rec < length self.old }
        requires long { length (slice_index_or self.old rec []) ≤ 2 ^ 32 }
        ensures list { OnOk result (into.new.items ≡ members (slice_index_or self.old rec [])) }
        ensures same { OnOk result (self.new ≡ self.old) }
    {
        if self.changes.len() == 0 {
            into.clear();
            append(into, self.listed.get(rec))?;
            make_ascend(into);
            return Ok(());
        }
        put_back(&mut self.changes, &mut self.apart, self.targets, &self.set)?;
        let listed = self.listed.get(rec);
        if listed.is_empty() {
            return self.changes.list(rec, into);
        }
        self.changes.list(rec, &mut self.spare)?;
        put_toggled(&self.spare, listed, into)?;
        make_ascend(into);
        Ok(())
    }

    /// Toggles each of these targets in the set of a record.
    pub fn toggle_each(&mut self, rec: usize, targets: &[u32]) -> Result<(), AllocError>
        requires rec { rec < length self.old }
        requires targets { All (λ t. t < length (slice_index_or self.old rec [])) targets.now }
        requires long { All (λ set. length set ≤ 2 ^ 32) self.old }
        ensures { OnOk result
            (self.new
            ≡ slice_set self.old rec
            (toggled_each targets.now (slice_index_or self.old rec []))) }
    {
        self.changes.open(self.listed.len(), self.targets)?;
        toggle_apart(
            &mut self.changes,
            &mut self.apart,
            self.targets,
            &mut self.set,
            &mut self.spare,
            rec,
            targets,
        )
    }

    /// Lets the set of a record go, which isn't asked for any more, nor are those of later records. Takes no memory.
    pub fn let_go(&mut self, rec: usize)
        requires { rec < length self.old }
        ensures kept { take rec self.new ≡ take rec self.old }
        ensures len { length self.new ≡ length self.old }
        ensures long { (n : ℕ)
            → All (λ set. length set ≡ n) self.old
            → All (λ set. length set ≡ n) self.new }
    {
        if rec < self.changes.len() {
            self.changes.empty(rec);
        }
    }
}

// Whether feedback may have changed the set of a record. There are no changes of any until it does.
#[inline(always)]
fn is_changed<'s, A: Allocator + Copy>(
    changes: &RecordLists<'s, A>,
    apart: Option<usize>,
    rec: usize,
) -> bool
    ensures { result ≡ false → IsUnchanged rec changes.now apart }
{
    rec < changes.len() && (apart == Some(rec) || !changes.is_empty(rec))
}

// Appends these targets, which are few mostly.
#[inline(always)]
fn append<A: Allocator + Copy>(into: &mut Vec<u32, A>, targets: &[u32]) -> Result<(), AllocError>
    ensures { OnOk result (into.new.items ≡ into.old.items ++ targets.now) }
{
    for target in targets {
        into.push(*target)?;
    }
    Ok(())
}

// Toggles each of these targets in the changes of a record.
fn toggle_apart<'s, A: Allocator + Copy>(
    changes: &mut RecordLists<'s, A>,
    apart: &mut Option<usize>,
    count: usize,
    set: &mut Vec<u32, A>,
    spare: &mut Vec<u32, A>,
    rec: usize,
    targets: &[u32],
) -> Result<(), AllocError>
    requires apart { IsApart count changes.old apart.old set.old.items }
    requires rec { rec < length changes.old }
    requires targets { All (λ t. t < count) targets.now }
    ensures rows { OnOk result
        (with_apart count changes.new apart.new set.new.items
        ≡ toggled_at rec targets.now (with_apart count changes.old apart.old set.old.items)) }
    ensures apart { IsApart count changes.new apart.new set.new.items }
    ensures len { length changes.new ≡ length changes.old }
{
    if targets.len() < MANY {
        put_back(changes, apart, count, set)?;
        return changes.toggle_each(rec, targets);
    }
    take_out(changes, apart, count, set, spare, rec)?;
    put_toggled(set, targets, spare)?;
    mem::swap(set, spare);
    Ok(())
}

// Puts the set that is apart back into the lists.
fn put_back<'s, A: Allocator + Copy>(
    lists: &mut RecordLists<'s, A>,
    apart: &mut Option<usize>,
    targets: usize,
    set: &[u32],
) -> Result<(), AllocError>
    requires { IsApart targets lists.old apart.old set.now }
    ensures lists { OnOk result (lists.new ≡ with_apart targets lists.old apart.old set.now) }
    ensures none { OnOk result (apart.new ≡ None) }
    ensures apart { IsApart targets lists.new apart.new set.now }
    ensures len { length lists.new ≡ length lists.old }
{
    if let Some(rec) = *apart {
        lists.empty(rec);
        lists.toggle_each(rec, set)?;
        *apart = None;
    }
    Ok(())
}

// Takes the set of a record out of the lists, where it isn't apart yet.
fn take_out<'s, A: Allocator + Copy>(
    lists: &mut RecordLists<'s, A>,
    apart: &mut Option<usize>,
    targets: usize,
    set: &mut Vec<u32, A>,
    spare: &mut Vec<u32, A>,
    rec: usize,
) -> Result<(), AllocError>
    requires apart { IsApart targets lists.old apart.old set.old.items }
    requires rec { rec < length lists.old }
    ensures rows { OnOk result
        (with_apart targets lists.new apart.new set.new.items
        ≡ with_apart targets lists.old apart.old set.old.items) }
    ensures some { OnOk result (apart.new ≡ Some rec) }
    ensures apart { IsApart targets lists.new apart.new set.new.items }
    ensures len { length lists.new ≡ length lists.old }
{
    if *apart == Some(rec) {
        return Ok(());
    }
    put_back(lists, apart, targets, set)?;
    lists.list(rec, spare)?;
    mem::swap(set, spare);
    *apart = Some(rec);
    Ok(())
}

// Puts the targets that are in just one of two lists into `into`, where both ascend.
fn put_toggled<A: Allocator + Copy>(
    set: &[u32],
    targets: &[u32],
    into: &mut Vec<u32, A>,
) -> Result<(), AllocError>
    ensures { OnOk result (AreToggled targets.now set.now into.new.items) }
{
    into.clear();
    let mut i = 0;
    let mut j = 0;
    while i < set.len() && j < targets.len() {
        let x = set[i];
        let y = targets[j];
        if x < y {
            into.push(x)?;
            i += 1;
        } else if y < x {
            into.push(y)?;
            j += 1;
        } else {
            i += 1;
            j += 1;
        }
    }
    append(into, &set[i..])?;
    append(into, &targets[j..])?;
    Ok(())
}
