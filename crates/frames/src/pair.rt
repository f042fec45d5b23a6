//! The coin pair of a place: two coin lists that show a target to be random.
ghost use Rattle.std.specs.Prelude.{◌≡◌, ℕ, true, Some, length, IfOk, IfErr};
ghost use Rattle.step_model.specs.Faults.{memory_fault};
ghost use Rattle.step_model.specs.Frames.{first_word, zero_coins, pair_coins};
ghost use Rattle.step_model.specs.Sensitivities.{place_of};
ghost use Rattle.frames.specs.Pairs.{PairDiffers};
ghost use Rattle.frames.specs.private.LoneFrames.{begins_as, begins_behind};

use crate::lone_frame::flips_at;
use crate::words::lone_word;
use circuit_walk::Program;
use pauli_word::{Letter, Word};
use run_laws::shift::pair_disagrees;
use std::alloc::{AllocError, Allocator};
use step_model::{Cause, Fault, Place};

/// The two coin lists of a place of the program, a coin for each collapse. The first is all zeros. The second is the
/// flips of the frame that begins at the place: as the word that the place's collapse measures, or as Z at the place's
/// qubit of the start. Runs without faults under the two lists give different parities to each target that has this
/// place. It fails only where memory runs out.
pub fn coin_pair<A: Allocator + Copy>(
    alloc: A,
    program: &Program<'_, A>,
    place: Place,
) -> Result<(Vec<bool, A>, Vec<bool, A>), Fault>
    ensures first { IfOk result (λ pair. pair.0.items ≡ zero_coins program.now.listing) }
    ensures second { IfOk result (λ pair. pair.1.items ≡ pair_coins program.now.listing place) }
    ensures differ { IfOk result (λ pair. (d : ℕ)
        → place_of program.now.listing d ≡ Some place
        → PairDiffers program.now.listing d pair.0.items pair.1.items) }
    ensures err { IfErr result (λ e. e ≡ memory_fault) }
{
    program.well_formed();
    pair_disagrees();
    match pair_at(alloc, program, place) {
        Ok(pair) => Ok(pair),
        Err(_) => Err(Fault {
            cause: Cause::Memory,
            line: 0,
        }),
    }
}

fn pair_at<A: Allocator + Copy>(
    alloc: A,
    program: &Program<'_, A>,
    place: Place,
) -> Result<(Vec<bool, A>, Vec<bool, A>), AllocError>
    ensures first { IfOk result (λ pair. pair.0.items ≡ zero_coins program.now.listing) }
    ensures second { IfOk result (λ pair. pair.1.items ≡ pair_coins program.now.listing place) }
{
    let flips = place_flips(alloc, program, place)?;
    let mut zeros = Vec::new(alloc);
    zeros.resize(program.collapse_count() as usize, false)?;
    Ok((zeros, flips))
}

// The flips of the frame that begins at a place: as the word that is collapsed there, or as Z at the place's qubit.
fn place_flips<A: Allocator + Copy>(
    alloc: A,
    program: &Program<'_, A>,
    place: Place,
) -> Result<Vec<bool, A>, AllocError>
    ensures { IfOk result (λ flips. flips.items ≡ pair_coins program.now.listing place) }
{
    let word = word_at(alloc, program, place)?;
    flips_at(alloc, program, place, word, true)
}

// Z at the place's qubit of the start; the identity behind a collapse, and where there is no such qubit.
fn word_at<A: Allocator + Copy>(
    alloc: A,
    program: &Program<'_, A>,
    place: Place,
) -> Result<Word<A>, AllocError>
    ensures word { IfOk result (λ word. begins_as program.now.listing true (begins_behind place) word.letters
        ≡ first_word program.now.listing place) }
    ensures size { IfOk result (λ word. length word.letters ≡ program.now.listing.qubits) }
{
    let qubits = program.qubits() as usize;
    match place {
        Place::Start(qubit) => {
            if qubit < program.qubits() {
                lone_word(alloc, qubits, qubit as usize, Letter::Z)
            } else {
                Word::identity(alloc, qubits)
            }
        }
        Place::After(_) => Word::identity(alloc, qubits),
    }
}
