// The bounds of a program's faults, as runs of equal ones: a noise instruction makes many faults of one bound.
ghost use Rattle.std.specs.Prelude.{◌≡◌, ◌+◌, ◌^◌, ◌<◌, ◌≤◌, ◌∷◌, ◌++◌, ◌/◌, ◌↔◌, [], IfOk, IfSome, IfNone, OnOk, IsTrue};
ghost use Rattle.forward_sim.specs.private.BoundRuns.{IsGreatestBelow, bounds_in, bounds_of_run};
ghost use Rattle.forward_sim.specs.Drawn.{bounds_of};

use circuit_walk::{FaultTaker, FoundFault, Program, take_faults};
use std::alloc::{AllocError, Allocator};

// A run of so many faults is drawn into all lanes before the next one is. So many words stay in the first-level cache.
pub(crate) const LONGEST: usize = 4096;

/// Faults one after another that have one bound.
#[derive(Clone, Copy)]
pub(crate) struct BoundRun {
    pub(crate) bound: u128,
    pub(crate) count: usize,
}

// Runs one after another, and the last one, which may go on. Once there are more than `few` and these are short, or memory has run
// out, no fault is taken any more.
#[derive(Drop)]
struct BoundRuns<A: Allocator + Copy> {
    runs: Vec<BoundRun, A>,
    last: BoundRun,
    few: usize,
    are_many: bool,
    failed: bool,
}

impl<A: Allocator + Copy> FaultTaker<A> for BoundRuns<A> {
    ghost use Rattle.forward_sim.specs.private.BoundTakers.{AreRuns};

    ghost stands = { λ program begun n all. AreRuns program.listing n all.few begun.few all.are_many all.failed all.runs.items all.last };

    #[inline(always)]
    fn take(&mut self, program: &Program<'_, A>, fault: FoundFault<'_>) {
        // The proof takes the range of the fault's number from this.
        let _count = program.fault_count();
        if self.are_many || self.failed {
            return;
        }
        if self.few < self.runs.len() && are_short(self.runs.len(), fault.number) {
            self.are_many = true;
            return;
        }
        let bound = program.chance_bound(fault.chance);
        match count_fault(&mut self.runs, &mut self.last, bound) {
            Ok(()) => {}
            Err(_) => self.failed = true,
        }
    }
}

/// The runs, or none where there are more than `few` and these are short.
pub(crate) fn bound_runs<A: Allocator + Copy>(
    alloc: A,
    program: &Program<'_, A>,
    few: usize,
) -> Result<Option<Vec<BoundRun, A>>, AllocError>
    ensures runs { IfOk result (λ found. IfSome found (λ runs. bounds_in runs.items
        ≡ bounds_of program.now.listing)) }
    ensures none { IfOk result (λ found. IfNone found (few < usize.MAX)) }
{
    let mut all = BoundRuns {
        runs: Vec::new(alloc),
        // Any bound will do for a run of no faults, but not 0, which no word is below.
        last: BoundRun { bound: 1, count: 0 },
        few,
        are_many: false,
        failed: false,
    };
    take_faults(program, &mut all);
    let BoundRuns {
        mut runs,
        last,
        are_many,
        failed,
        ..
    } = all;
    if failed {
        return Err(AllocError);
    }
    if are_many {
        return Ok(None);
    }
    runs.push(last)?;
    Ok(Some(runs))
}

/// Whether so many runs of so many faults are short. A run takes the memory of four words, and the call that draws it the time of
/// some two faults.
pub(crate) fn are_short(runs: usize, faults: u32) -> bool
    ensures { IsTrue result ↔ faults / 4 < runs }
{
    faults as usize / 4 < runs
}

// A fault of this bound goes on with the last run, or it begins one.
#[inline(always)]
fn count_fault<A: Allocator + Copy>(
    runs: &mut Vec<BoundRun, A>,
    last: &mut BoundRun,
    bound: u128,
) -> Result<(), AllocError>
    requires { last.old.count + 1 < 2 ^ 64 }
    ensures { OnOk result
        (bounds_in runs.new.items ++ bounds_of_run last.new
        ≡ (bounds_in runs.old.items ++ bounds_of_run last.old) ++ bound ∷ []) }
{
    if bound == last.bound && last.count < LONGEST {
        last.count += 1;
        return Ok(());
    }
    runs.push(*last)?;
    *last = BoundRun { bound, count: 1 };
    Ok(())
}

/// The greatest word that is below a bound: comparing two words is faster than comparing a word with a bound of 128 bits.
pub(crate) fn word_below(bound: u128) -> u64
    requires { 0 < bound }
    ensures greatest { IsGreatestBelow bound result }
    ensures below { result < bound }
    ensures next { bound ≤ 2 ^ 64 → bound ≡ result + 1 }
{
    if bound < 1 << 64 {
        (bound - 1) as u64
    } else {
        u64::MAX
    }
}
