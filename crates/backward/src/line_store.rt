//! Where a pass puts the error lines that it finds, the last fault's first.
ghost use Rattle.std.specs.Prelude.{◌≡◌, ◌<◌, ◌∷◌, [], List, length, reverse, All, OnOk};
ghost use Rattle.step_model.specs.ErrorModels.{ErrorLine};
ghost use Rattle.circuit_walk.specs.Programs.{KeptProgram};
ghost use Rattle.step_model.specs.Chances.{chance_at};
ghost use Rattle.step_model.specs.Targets.{targets_of};
ghost use Rattle.backward.specs.private.Stretches.{Gives};

use circuit_walk::Program;
use error_models::Model;
use std::alloc::{AllocError, Allocator};

/// A store that lines are given to, one after another. After an error nothing is promised about what it holds.
pub(crate) trait LineStore {
    // The program whose faults the lines are of.
    ghost program: { Self → KeptProgram };

    // These lines were given to it, in this order.
    ghost holds: { Self → List ErrorLine → Type 0 };

    /// Takes the line of a fault with this probability, by its number, which flips these targets.
    fn give(&mut self, chance: u32, targets: &[u32]) -> Result<(), AllocError>
        requires chance { chance < length (program self.old).chances }
        requires named { All (λ t. t < length (targets_of (program self.old).listing)) targets.now }
        ensures program { program self.new ≡ program self.old }
        ensures holds { OnOk result
            (Gives (holds self.old) (holds self.new)
            (record {
              text = (chance_at (program self.old).chances chance).text;
              targets = targets.now;
            } ∷ [])) };

    /// The same with targets that come from the last to the first.
    fn give_reversed(&mut self, chance: u32, targets: &[u32]) -> Result<(), AllocError>
        requires chance { chance < length (program self.old).chances }
        requires named { All (λ t. t < length (targets_of (program self.old).listing)) targets.now }
        ensures program { program self.new ≡ program self.old }
        ensures holds { OnOk result
            (Gives (holds self.old) (holds self.new)
            (record {
              text = (chance_at (program self.old).chances chance).text;
              targets = reverse targets.now;
            } ∷ [])) };
}

/// A model of a program's lines.
#[derive(Drop)]
pub(crate) struct ModelStore<'p, 'a, A: Allocator + Copy> {
    pub(crate) alloc: A,
    pub(crate) program: &'p Program<'a, A>,
    pub(crate) model: Model<'a, A>,
}

impl<'p, 'a, A: Allocator + Copy> LineStore for ModelStore<'p, 'a, A> {
    ghost program = { λ store. store.program.now };

    ghost holds = { λ store lines. store.model.lines ≡ lines };

    fn give(&mut self, chance: u32, targets: &[u32]) -> Result<(), AllocError> {
        self.model
            .push_line(self.program.chance_text(chance), targets)
    }

    fn give_reversed(&mut self, chance: u32, targets: &[u32]) -> Result<(), AllocError> {
        let mut ordered = Vec::new(self.alloc);
        ordered.extend_from_slice(targets)?;
        ordered.reverse();
        self.give(chance, ordered.as_slice())
    }
}

/// No lines: what is given isn't kept.
#[derive(Drop)]
pub(crate) struct NoLines<'p, 'a, A: Allocator + Copy> {
    pub(crate) program: &'p Program<'a, A>,
}

impl<'p, 'a, A: Allocator + Copy> LineStore for NoLines<'p, 'a, A> {
    ghost use Rattle.std.specs.Prelude.{⊤};

    ghost program = { λ store. store.program.now };

    ghost holds = { λ store lines. ⊤ };

    fn give(&mut self, _chance: u32, _targets: &[u32]) -> Result<(), AllocError> {
        Ok(())
    }

    fn give_reversed(&mut self, _chance: u32, _targets: &[u32]) -> Result<(), AllocError> {
        Ok(())
    }
}
