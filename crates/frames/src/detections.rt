//! Which targets of a program differ in each of 64 runs, a word for each: the parity of the flips of its records. Targets are
//! detectors, and then observables.
ghost use Rattle.std.specs.Prelude.{◌≡◌, ℕ, length};
ghost use Rattle.bit_rows.specs.Lanes.{lane};
ghost use Rattle.step_model.specs.Targets.{parities, targets_of};

use crate::frames::Frames;
use bit_rows::lanes::xor;
use circuit_walk::{DeclarationTaker, NamedRecords, Program, take_declarations};
use std::alloc::Allocator;

/// The words of the targets so far. Those of observables are 0 at first.
#[derive(Drop)]
struct Detecting<'r, A: Allocator + Copy> {
    frames: &'r Frames<A>,
    words: &'r mut [u64],
    // How many detectors there are, and the number of the next one.
    detectors: usize,
    next: usize,
}

impl<'r, A: Allocator + Copy> DeclarationTaker<A> for Detecting<'r, A> {
    ghost use Rattle.std.specs.Prelude.{◌≡◌, length};
    ghost use Rattle.circuit_walk.specs.Declarations.{detectors_in};
    ghost use Rattle.frames.specs.private.Detected.{AreDetected};

    ghost stands = { λ program begun done detecting. (detecting.words.ghost_name ≡ begun.words.ghost_name)
        × (detecting.detectors ≡ length program.listing.detectors)
        × (detecting.next ≡ length (detectors_in done))
        × AreDetected program.listing begun.frames.now.flips done detecting.frames.now.flips detecting.words.now };

    #[inline(always)]
    fn detector(&mut self, program: &Program<'_, A>, records: NamedRecords<'_>) {
        program.well_formed();
        self.words[self.next] = self.frames.parity(records);
        self.next += 1;
    }

    #[inline(always)]
    fn inclusion(
        &mut self,
        program: &Program<'_, A>,
        observable: usize,
        records: NamedRecords<'_>,
    ) {
        program.well_formed();
        let number = self.detectors + observable;
        self.words[number] = xor(self.words[number], self.frames.parity(records));
    }
}

/// Fills the word of each target: bit j says whether the parity of its records is changed by the flips of run j.
#[tactic(auto, using(crate::proofs::Detected::detected_all))]
pub(crate) fn detect<A: Allocator + Copy>(
    frames: &Frames<A>,
    program: &Program<'_, A>,
    words: &mut [u64],
)
    requires { length words.old ≡ length (targets_of program.now.listing) }
    ensures size { length words.new ≡ length words.old }
    ensures lanes { (j : ℕ) → lane j words.new ≡ parities program.now.listing (lane j frames.now.flips) }
{
    words.fill(0);
    let mut detecting = Detecting {
        frames,
        words,
        detectors: program.detector_count(),
        next: 0,
    };
    take_declarations(program, &mut detecting);
}
