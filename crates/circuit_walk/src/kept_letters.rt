//! Letters that are kept, to see whether later ones are the same.

ghost use Rattle.std.specs.Prelude.{◌≡◌, None, Some, true, if◌then◌else◌};
ghost use Rattle.circuit_walk.specs.Letters.{letters_in};

use crate::letters::Letters;
use std::marker::Model;
use stim_parser::{Target, TargetWord};

/// How many targets are kept at most. A circuit that is read from a text has no more qubits.
const ROOM: usize = 4096;

/// The targets of one product's letters, so many; none where no letters are kept. In contracts, the list of the letters.
#[derive(Drop)]
pub struct KeptLetters {
    targets: [TargetWord; ROOM],
    count: usize,
}

impl Model for KeptLetters {
    ghost use Rattle.std.specs.Prelude.{◌≤◌, ◌==◌, List, None, Option, Some, if◌then◌else◌, take};
    ghost use Rattle.circuit_walk.specs.Letters.{letters_named};
    ghost use Rattle.step_model.specs.declared.step.Term.{Term};

    ghost Value = { Option (List Term) };

    ghost view = { λ k. if k.count == 0 then None else Some (letters_named None (take k.count k.targets)) };

    ghost invariant = { λ k. k.count ≤ 4096 };
}

impl KeptLetters {
    /// No letters are kept yet.
    pub fn none() -> Self
        ensures { result ≡ None }
    {
        KeptLetters {
            targets: [TargetWord::new(Target::Star); ROOM],
            count: 0,
        }
    }

    /// Whether letters are those that are kept. Where there are as many, those that are the same
    /// are counted, so that several are compared at once.
    pub fn are(&self, letters: Letters<'_>) -> bool
        ensures { result ≡ true → self.now ≡ Some (letters_in letters.entry) }
    {
        let kept = &self.targets[..self.count];
        let others = letters.targets;
        if letters.letter.is_some() || kept.is_empty() || others.len() != kept.len() {
            return false;
        }
        let mut same = 0;
        for at in 0..kept.len() {
            same += kept[at].is(others[at]) as usize;
        }
        same == kept.len()
    }

    /// Keeps the letters of a product, where there is room for them. Answers whether there is.
    pub fn keep(&mut self, letters: Letters<'_>) -> bool
        ensures { self.new ≡ (if result then Some (letters_in letters.entry) else None) }
    {
        let others = letters.targets;
        if letters.letter.is_some() || others.is_empty() || others.len() > ROOM {
            self.forget();
            return false;
        }
        self.count = others.len();
        self.targets[..self.count].copy_from_slice(others);
        true
    }

    // Keeps no letters.
    fn forget(&mut self)
        ensures { self.new ≡ None }
    {
        self.count = 0;
    }
}
