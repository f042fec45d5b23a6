//! An undoer of the steps of small circuits, against lists that were written out by hand.

ghost use Rattle.circuit_walk.specs.Named.{IsStepOf};
ghost use Rattle.circuit_walk.specs.Programs.{KeptProgram};

use crate::tests::calls::step_words::is_step;
use circuit_walk::{FaultName, Letters, Program, Step, StepUndoer, Walk};
use gate_table::Gate;
use pauli_word::Letter;
use std::alloc::{AllocError, Global};
use std::iter::Rev;
use std::str::SplitWhitespace;

/// What compares each step that it undoes with the next of these words. It fails at a step where none is left that it undoes.
#[derive(Drop)]
struct Comparing<'w> {
    words: Rev<SplitWhitespace<'w>>,
    left: usize,
    same: bool,
}

impl<'w> Comparing<'w> {
    /// Takes the next word. It is to be that of this step.
    fn compare(&mut self, step: Step<'_>) -> Result<(), AllocError>
        requires { (program : KeptProgram) × IsStepOf program step }
    {
        self.same &= match self.words.next() {
            Some(word) => is_step(step, word.as_bytes()),
            None => false,
        };
        if self.left == 0 {
            return Err(AllocError);
        }
        self.left -= 1;
        Ok(())
    }
}

impl<'w> StepUndoer<Global> for Comparing<'w> {
    ghost use Rattle.std.specs.Prelude.{⊤};

    ghost stands = { λ program begun k comparing. ⊤ };

    ghost lasts = { λ program begun comparing. ⊤ };

    fn undo_one(
        &mut self,
        _program: &Program<'_, Global>,
        gate: Gate,
        q: u32,
    ) -> Result<(), AllocError> {
        self.compare(Step::One { gate, q })
    }

    fn undo_two(
        &mut self,
        _program: &Program<'_, Global>,
        gate: Gate,
        a: u32,
        b: u32,
    ) -> Result<(), AllocError> {
        self.compare(Step::Two { gate, a, b })
    }

    fn undo_feedback(
        &mut self,
        _program: &Program<'_, Global>,
        letter: Letter,
        q: u32,
        rec: u32,
    ) -> Result<(), AllocError> {
        self.compare(Step::Feedback { letter, q, rec })
    }

    fn undo_collapse(
        &mut self,
        _program: &Program<'_, Global>,
        letter: Letter,
        qubit: u32,
        rec: Option<u32>,
        reset: bool,
        inverted: bool,
        flip: Option<FaultName>,
    ) -> Result<(), AllocError> {
        self.compare(Step::Collapse {
            letter,
            qubit,
            rec,
            reset,
            inverted,
            flip,
        })
    }

    fn undo_collapse_word(
        &mut self,
        _program: &Program<'_, Global>,
        letters: Letters<'_>,
        rec: Option<u32>,
        inverted: bool,
        flip: Option<FaultName>,
    ) -> Result<(), AllocError> {
        self.compare(Step::CollapseWord {
            letters,
            rec,
            inverted,
            flip,
        })
    }

    fn undo_fault(
        &mut self,
        _program: &Program<'_, Global>,
        name: FaultName,
        letters: Letters<'_>,
    ) -> Result<(), AllocError> {
        self.compare(Step::Fault { name, letters })
    }
}

/// The place of a walk from the end whose steps are undone, so many at once at most, until this many are undone; none where they
/// aren't those of the words.
fn place_behind(
    program: &Program<'_, Global>,
    words: &str,
    most: usize,
    left: usize,
) -> Option<usize> {
    let mut walk = Walk::end(program);
    let mut comparing = Comparing {
        words: words.split_whitespace().rev(),
        left,
        same: true,
    };
    for _ in 0..walk.place() {
        if walk.place() == 0 {
            break;
        }
        let to = walk.place().saturating_sub(most.max(1));
        if walk.undo_some(to, &mut comparing).is_err() {
            break;
        }
    }
    if comparing.same {
        Some(walk.place())
    } else {
        None
    }
}

/// Whether an undoer undoes the steps that these words name, and a walk stands before the step at which it fails.
pub(super) fn undoes_steps(program: &Program<'_, Global>, words: &str) -> bool {
    let steps = Walk::end(program).place();
    let mut all = place_behind(program, words, usize::MAX, usize::MAX) == Some(0);
    all &= place_behind(program, words, 1, usize::MAX) == Some(0);
    all &= place_behind(program, words, 2, usize::MAX) == Some(0);
    for left in 0..steps.min(64) {
        all &= place_behind(program, words, usize::MAX, left) == Some(steps - left - 1);
    }
    all
}
