//! Faults, drawn into all lanes: those of runs of equal bounds, and then the others, piece by piece.
ghost use Rattle.std.specs.Prelude.{◌≡◌, ◌≤◌, length};
ghost use Rattle.forward_sim.specs.private.AllLanes.{AllDrawn, DrawnUpTo, fault_hits};
ghost use Rattle.forward_sim.specs.private.BoundRuns.{bounds_in, bounds_of_run};

use crate::all_lanes::{draw_into_all, draw_pieces, pass_over};
use crate::fault_bounds::FaultBounds;
use crate::runs::{BoundRun, word_below};
use crate::sieve::{Sieve, SievedDraw};
use crate::word_draw::{EachDraw, EqualDraw};
use rand_pcg::Pcg64;
use std::alloc::Allocator;

/// The faults: each happens where its word is below its bound.
pub(crate) fn draw_faults<A: Allocator + Copy>(
    faults: &mut [u64],
    bounds: &FaultBounds<A>,
    generators: &mut [Pcg64],
)
    requires fits { length faults.old ≡ length bounds.now }
    requires few { length generators.old ≤ 64 }
    ensures { AllDrawn (length bounds.now) (fault_hits bounds.now) generators.old faults.new
        generators.new }
{
    let start = draw_runs(faults, bounds.runs.as_slice(), &bounds.sieve, generators);
    let each = EachDraw {
        greatest: bounds.greatest.as_slice(),
    };
    draw_pieces(&mut faults[start..], &each, generators);
}

// Those of some runs, which are the first ones. Returns how many there are.
fn draw_runs(
    faults: &mut [u64],
    runs: &[BoundRun],
    sieve: &Sieve,
    generators: &mut [Pcg64],
) -> usize
    requires fits { length (bounds_in runs.now) ≤ length faults.old }
    requires few { length generators.old ≤ 64 }
    ensures count { result ≡ length (bounds_in runs.now) }
    ensures drawn { DrawnUpTo result (length faults.old) (fault_hits (bounds_in runs.now))
        generators.old faults.new generators.new }
{
    let mut start = 0;
    for r in 0..runs.len() {
        let run = runs[r];
        let end = start + run.count;
        draw_run(&mut faults[start..end], run, sieve, generators);
        start = end;
    }
    start
}

// Those of one run.
fn draw_run(faults: &mut [u64], run: BoundRun, sieve: &Sieve, generators: &mut [Pcg64])
    requires fits { length faults.old ≡ run.count }
    requires few { length generators.old ≤ 64 }
    ensures { AllDrawn run.count (fault_hits (bounds_of_run run)) generators.old faults.new
        generators.new }
{
    if run.bound == 0 {
        pass_over(faults, generators);
        return;
    }
    let equal = EqualDraw {
        bound: run.bound,
        most: word_below(run.bound),
    };
    if run.bound <= 1 << 55 {
        draw_into_all(faults, &SievedDraw { equal, sieve }, generators);
    } else {
        draw_into_all(faults, &equal, generators);
    }
}
