//! The flips of a Pauli frame from the place where it begins.
ghost use Rattle.std.specs.Prelude.{◌≡◌, length, IfOk, IfErr};
ghost use Rattle.step_model.specs.Faults.{memory_fault};
ghost use Rattle.step_model.specs.Frames.{flips_of};

use crate::lone_frame::flips_at;
use circuit_walk::Program;
use pauli_word::Word;
use std::alloc::{AllocError, Allocator};
use step_model::{Cause, Fault, Place};

/// The flips of a Pauli frame, which begins as this word at this place: for each collapse whether the frame flips its
/// outcome. A collapse is the projective measurement inside a measurement or a reset; those up to and with the place's
/// own are not flipped, and none is where the program has no such collapse. The word's sign plays no part, and no fault
/// happens. It fails only where memory runs out.
pub fn flips<A: Allocator + Copy>(
    alloc: A,
    program: &Program<'_, A>,
    place: Place,
    word: &Word<A>,
) -> Result<Vec<bool, A>, Fault>
    requires { length word.now.letters ≡ program.now.listing.qubits }
    ensures ok { IfOk result (λ flips. flips.items
        ≡ flips_of program.now.listing place word.now.letters) }
    ensures err { IfErr result (λ e. e ≡ memory_fault) }
{
    match flips_of_copy(alloc, program, place, word) {
        Ok(flips) => Ok(flips),
        Err(_) => Err(Fault {
            cause: Cause::Memory,
            line: 0,
        }),
    }
}

fn flips_of_copy<A: Allocator + Copy>(
    alloc: A,
    program: &Program<'_, A>,
    place: Place,
    word: &Word<A>,
) -> Result<Vec<bool, A>, AllocError>
    requires { length word.now.letters ≡ program.now.listing.qubits }
    ensures { IfOk result (λ flips. flips.items
        ≡ flips_of program.now.listing place word.now.letters) }
{
    let word = word.copy()?;
    flips_at(alloc, program, place, word, false)
}
