//! For each record the targets that list it, as the program has them.
ghost use Rattle.std.specs.Prelude.{◌≡◌, ◌<◌, ◌^◌, ℕ, List, [], length, slice_index_or, All, IfOk, OnOk};
ghost use Rattle.record_targets.specs.private.ListedTargets.{start_of, AreCounts, AreStarts};
ghost use Rattle.record_targets.specs.ListingSets.{listing_sets};
ghost use Rattle.step_model.specs.TargetSets.{row_of_set};

use crate::counting::counts_of;
use crate::putting::{MarkedLists, put_all};
use crate::targets::target_count;
use circuit_walk::Program;
use flat_lists::FlatLists;
use std::alloc::{AllocError, Allocator};
use std::marker::Model;

/// For each record the set of the targets that list it an odd number of times.
///
/// The targets of a record stand one after another, each as often as it lists the record. They ascend but where observables
/// are declared out of order.
#[derive(Drop)]
pub(crate) struct ListedTargets<A: Allocator + Copy> {
    targets: usize,
    lists: FlatLists<u32, A>,
}

impl<A: Allocator + Copy> Model for ListedTargets<A> {
    ghost use Rattle.std.specs.Prelude.{◌<◌, All, Bool, List, map};
    ghost use Rattle.step_model.specs.TargetSets.{row_of_set};

    ghost Value = { List (List Bool) };

    ghost view = { λ listed. map (row_of_set listed.targets) listed.lists };

    ghost invariant = { λ listed. All (All (λ t. t < listed.targets)) listed.lists };
}

impl<A: Allocator + Copy> ListedTargets<A> {
    /// Those of a program. It fails only where memory runs out.
    pub(crate) fn new<'a>(alloc: A, program: &Program<'a, A>) -> Result<Self, AllocError>
        ensures { IfOk result (λ listed. listed ≡ listing_sets program.now.listing []) }
    {
        let mut marks = counts_of(alloc, program)?;
        let count = set_starts(&mut marks)?;
        let numbers = Vec::from_elem(alloc, 0, count)?;
        let MarkedLists { marks, numbers } = put_all(MarkedLists { marks, numbers }, program);
        Ok(ListedTargets {
            targets: target_count(program),
            lists: FlatLists::cut(numbers, marks),
        })
    }

    /// How many records there are.
    #[inline(always)]
    pub(crate) fn len(&self) -> usize
        ensures { result ≡ length self.now }
    {
        self.lists.len()
    }

    /// The targets that list a record.
    #[inline(always)]
    pub(crate) fn get(&self, rec: usize) -> &[u32]
        requires { rec < length self.now }
        ensures set { row_of_set (length (slice_index_or self.now rec [])) result.now
            ≡ slice_index_or self.now rec [] }
        ensures below { All (λ t. t < length (slice_index_or self.now rec [])) result.now }
    {
        self.lists.get(rec)
    }
}

// Puts for each count the sum of those before it, and answers the sum of all.
fn set_starts<A: Allocator + Copy>(counts: &mut Vec<usize, A>) -> Result<usize, AllocError>
    ensures starts { OnOk result
        ((whole : List ℕ)
        → AreCounts whole counts.old.items
        → AreStarts whole counts.new.items) }
    ensures sum { IfOk result (λ sum. (whole : List ℕ)
        → AreCounts whole counts.old.items
        → sum ≡ start_of whole (length counts.old.items)) }
    ensures few { IfOk result (λ sum. sum < 2 ^ 64) }
    ensures len { length counts.new.items ≡ length counts.old.items }
{
    let mut start: usize = 0;
    for r in 0..counts.len() {
        let count = counts[r];
        if count > usize::MAX - start {
            return Err(AllocError);
        }
        counts[r] = start;
        start += count;
    }
    Ok(start)
}
