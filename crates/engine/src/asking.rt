//! Whether some target of a program is random, where that is soon known.
ghost use Rattle.std.specs.Prelude.{◌≡◌, ℕ, IfOk, IfErr};
ghost use Rattle.backward.specs.Places.{IsLowestRandom, NoneIsRandom};
ghost use Rattle.engine.specs.declared.asking.Randomness.TheVariants.{Absent, Present};
ghost use Rattle.step_model.specs.Faults.{memory_fault};
ghost use Rattle.step_model.specs.declared.step.Place.{Place};

use crate::analysis::fresh_words;
use crate::limited::Limited;
use backward::first_random;
use circuit_walk::{Program, Walk};
use std::alloc::Allocator;
use step_model::Fault;

/// How many letters may be gone over in any program.
const LEAST_READ: usize = 1 << 18;

/// How many more for each step that is no fault.
const READ_A_STEP: usize = 16;

/// What is known of a program's targets.
#[derive(Clone, Copy)]
pub(crate) enum Randomness {
    /// None is random.
    Absent,
    /// One is.
    Present,
    /// Their words have so many letters that it wasn't found out.
    Unknown,
}

/// Whether some target is random, where few letters show it. All memory that the question takes is let go of. Too many letters are
/// no want of memory, and want of memory is answered as such.
pub(crate) fn randomness_of<A: Allocator + Copy>(
    alloc: A,
    program: &Program<'_, A>,
) -> Result<Randomness, Fault>
    ensures absent { IfOk result (λ known. known ≡ Absent → NoneIsRandom program.now.listing) }
    ensures present { IfOk result (λ known. known ≡ Present
        → (which : ℕ) × (place : Place) × IsLowestRandom program.now.listing which place) }
    ensures err { IfErr result (λ e. e ≡ memory_fault) }
{
    let mut is_reached = false;
    let most = most_read(program);
    let words = Limited::new(fresh_words(&alloc, program)?, most, &mut is_reached);
    match first_random(alloc, program, words) {
        Ok(None) => Ok(Randomness::Absent),
        Ok(Some(_)) => Ok(Randomness::Present),
        Err(_) if is_reached => Ok(Randomness::Unknown),
        Err(fault) => Err(fault),
    }
}

/// How many letters may be gone over, which takes about the time of a reference run: for each step some, which take the time of a gate,
/// and for each collapse one more for each machine word of a bit a qubit, as a run reads in a row.
fn most_read<A: Allocator + Copy>(program: &Program<'_, A>) -> usize {
    let faults = program.fault_count() as usize;
    let steps = Walk::end(program).place().saturating_sub(faults);
    let bits = (program.collapse_count() as usize).saturating_mul(program.qubits() as usize);
    steps
        .saturating_mul(READ_A_STEP)
        .saturating_add(bits / 64)
        .saturating_add(LEAST_READ)
}
