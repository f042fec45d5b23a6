// The bounds of a program's faults, in the form by which they are drawn fastest.
ghost use Rattle.std.specs.Prelude.{◌≡◌, IfOk, IfSome};
ghost use Rattle.forward_sim.specs.private.BoundRuns.{bounds_above, bounds_in};
ghost use Rattle.forward_sim.specs.Drawn.{bounds_of};

use crate::runs::{BoundRun, are_short, bound_runs, word_below};
use crate::sieve::Sieve;
use circuit_walk::{FaultTaker, FoundFault, Program, take_faults};
use std::alloc::{AllocError, Allocator};
use std::marker::Model;

/// The bounds of a program's faults: as runs of equal ones, or where these are short fault by fault. The other list is empty.
#[derive(Drop)]
pub(crate) struct FaultBounds<A: Allocator + Copy> {
    pub(crate) runs: Vec<BoundRun, A>,
    /// For each fault behind those of the runs, the greatest word with which it happens.
    pub(crate) greatest: Vec<u64, A>,
    /// For the runs.
    pub(crate) sieve: Sieve,
}

impl<A: Allocator + Copy> Model for FaultBounds<A> {
    ghost use Rattle.std.specs.Prelude.{ℕ, List, ◌++◌};
    ghost use Rattle.forward_sim.specs.private.BoundRuns.{bounds_above, bounds_in};

    ghost Value = { List ℕ };

    ghost view = { λ b. bounds_in b.runs.items ++ bounds_above b.greatest.items };
}

// Half a megabyte of runs. Where so many are short, no more are made.
const FEW: usize = 1 << 14;

impl<A: Allocator + Copy> FaultBounds<A> {
    pub(crate) fn new(alloc: A, program: &Program<'_, A>) -> Result<Self, AllocError>
        ensures { IfOk result (λ bounds. bounds ≡ bounds_of program.now.listing) }
    {
        if let Some(runs) = bound_runs(alloc, program, FEW)? {
            if !are_short(runs.len(), program.fault_count()) {
                return Ok(Self::of_runs(alloc, runs));
            }
        }
        if let Some(greatest) = greatest_words(alloc, program)? {
            return Ok(FaultBounds {
                runs: Vec::new(alloc),
                greatest,
                sieve: Sieve::new(),
            });
        }
        // There are never more runs than that.
        let runs = bound_runs(alloc, program, usize::MAX)?.unwrap();
        Ok(Self::of_runs(alloc, runs))
    }

    fn of_runs(alloc: A, runs: Vec<BoundRun, A>) -> Self
        ensures { result ≡ bounds_in runs.items }
    {
        FaultBounds {
            runs,
            greatest: Vec::new(alloc),
            sieve: Sieve::new(),
        }
    }
}

// The greatest words with which faults happen, one after another, unless one never does. (No bound is above 2^64, since no
// probability is above 1.)
#[derive(Drop)]
struct GreatestWords<A: Allocator + Copy> {
    words: Vec<u64, A>,
    one_never_does: bool,
}

impl<A: Allocator + Copy> FaultTaker<A> for GreatestWords<A> {
    ghost use Rattle.std.specs.Prelude.{◌≡◌, false, vec_capacity};
    ghost use Rattle.forward_sim.specs.private.BoundRuns.{bounds_above};
    ghost use Rattle.forward_sim.specs.private.BoundTakers.{AreListed};

    ghost stands = { λ program begun n all. all.one_never_does ≡ false → AreListed program.listing n (vec_capacity all.words) (bounds_above all.words.items) };

    #[inline(always)]
    fn take(&mut self, program: &Program<'_, A>, fault: FoundFault<'_>) {
        if self.one_never_does {
            return;
        }
        let bound = program.chance_bound(fault.chance);
        if bound == 0 || 1 << 64 < bound {
            self.one_never_does = true;
            return;
        }
        self.words.push_reserved(word_below(bound));
    }
}

// For each fault the greatest word with which it happens, unless one never does.
fn greatest_words<A: Allocator + Copy>(
    alloc: A,
    program: &Program<'_, A>,
) -> Result<Option<Vec<u64, A>>, AllocError>
    ensures { IfOk result (λ found. IfSome found (λ words. bounds_above words.items
        ≡ bounds_of program.now.listing)) }
{
    let words = Vec::with_capacity(alloc, program.fault_count() as usize)?;
    let mut all = GreatestWords {
        words,
        one_never_does: false,
    };
    take_faults(program, &mut all);
    let GreatestWords {
        words,
        one_never_does,
    } = all;
    if one_never_does {
        return Ok(None);
    }
    Ok(Some(words))
}
