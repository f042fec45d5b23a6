//! How often each record is listed, counted in a pass over what a program declares.
ghost use Rattle.std.specs.Prelude.{◌≡◌, ◌<◌, ◌+◌, ℕ, false, length, slice_index_or, All, IfOk, OnOk};
ghost use Rattle.circuit_walk.specs.NamedRecords.{records_in};
ghost use Rattle.record_targets.specs.private.ListedTargets.{left_from, times_in, AreCounts};

use circuit_walk::{DeclarationTaker, NamedRecords, Program, take_declarations};
use std::alloc::{AllocError, Allocator};

// How often each record was named so far. Once a count has no room it has failed, and counts no more.
#[derive(Drop)]
struct Counting<A: Allocator + Copy> {
    counts: Vec<usize, A>,
    failed: bool,
}

impl<A: Allocator + Copy> Counting<A> {
    // Counts these records too.
    #[inline(always)]
    fn count(&mut self, records: NamedRecords<'_>)
        requires { All (λ r. r < length self.old.counts.items) (records_in records) }
        ensures counts { self.new.failed ≡ false
            → (self.old.failed ≡ false)
            × ((r : ℕ)
            → r < length self.old.counts.items
            → slice_index_or self.new.counts.items r 0
            ≡ slice_index_or self.old.counts.items r 0
            + times_in r (records_in records.entry)) }
        ensures len { length self.new.counts.items ≡ length self.old.counts.items }
    {
        if self.failed {
            return;
        }
        match count_each(self.counts.as_mut_slice(), records) {
            Ok(()) => {}
            Err(_) => self.failed = true,
        }
    }
}

impl<A: Allocator + Copy> DeclarationTaker<A> for Counting<A> {
    ghost use Rattle.record_targets.specs.private.ListedTargets.{AreCounted};

    ghost stands = { λ program begun done counting. AreCounted program.listing done counting.failed counting.counts.items };

    #[inline(always)]
    fn detector(&mut self, program: &Program<'_, A>, records: NamedRecords<'_>) {
        program.well_formed();
        self.count(records);
    }

    #[inline(always)]
    fn inclusion(
        &mut self,
        program: &Program<'_, A>,
        _observable: usize,
        records: NamedRecords<'_>,
    ) {
        program.well_formed();
        self.count(records);
    }
}

// Counts these records too.
#[inline(always)]
fn count_each(counts: &mut [usize], named: NamedRecords<'_>) -> Result<(), AllocError>
    requires { All (λ r. r < length counts.old) (records_in named) }
    ensures counts { OnOk result
        ((r : ℕ)
        → r < length counts.old
        → slice_index_or counts.new r 0
        ≡ slice_index_or counts.old r 0 + times_in r (records_in named.entry)) }
    ensures len { length counts.new ≡ length counts.old }
{
    let mut left = named;
    while let Some((rec, rest)) = left.split_first() {
        let count = counts[rec as usize];
        if count == usize::MAX {
            return Err(AllocError);
        }
        counts[rec as usize] = count + 1;
        left = rest;
    }
    Ok(())
}

/// How often each record is listed. It fails only where memory runs out: a record that is listed 2^64
/// times has no room.
pub(crate) fn counts_of<A: Allocator + Copy>(
    alloc: A,
    program: &Program<'_, A>,
) -> Result<Vec<usize, A>, AllocError>
    ensures counts { IfOk result (λ counts. AreCounts (left_from program.now.listing 0) counts.items) }
    ensures len { IfOk result (λ counts. length counts.items ≡ program.now.listing.records) }
{
    let mut counting = Counting {
        counts: Vec::from_elem(alloc, 0, program.record_count() as usize)?,
        failed: false,
    };
    take_declarations(program, &mut counting);
    let Counting { counts, failed } = counting;
    if failed {
        return Err(AllocError);
    }
    Ok(counts)
}
