//! An identity word for each target of a program, by both trackers.
ghost use Rattle.std.specs.Prelude.{◌≡◌, length, IfOk};
ghost use Rattle.step_model.specs.Targets.{targets_of};
ghost use Rattle.trackers.specs.Tracked.{fresh};

use backward::{DenseWords, QubitSets};
use circuit_walk::Program;
use std::alloc::{AllocError, Allocator};

pub(super) fn dense_words<A: Allocator + Copy>(
    alloc: A,
    program: &Program<'_, A>,
) -> Result<DenseWords<A>, AllocError>
    ensures { IfOk result (λ words. words
        ≡ fresh program.now.listing.qubits (length (targets_of program.now.listing))) }
{
    program.well_formed();
    DenseWords::new(alloc, program.qubits() as usize, program.target_count())
}

pub(super) fn sparse_words<'s, A: Allocator + Copy>(
    alloc: &'s A,
    program: &Program<'_, A>,
) -> Result<QubitSets<'s, A>, AllocError>
    ensures { IfOk result (λ words. words
        ≡ fresh program.now.listing.qubits (length (targets_of program.now.listing))) }
{
    program.well_formed();
    QubitSets::new(alloc, program.qubits() as usize, program.target_count())
}
