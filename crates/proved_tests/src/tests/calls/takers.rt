//! Takers of the steps and of the faults of small circuits, against lists that were written out by hand.

ghost use Rattle.circuit_walk.specs.Named.{IsStepOf};
ghost use Rattle.circuit_walk.specs.Programs.{KeptProgram};

use crate::tests::calls::step_words::{digit, is_found, is_kind, is_step, names_fault};
use crate::tests::tables::parts_of;
use circuit_walk::{
    FaultName, FaultTaker, FoundFault, Letters, Program, Step, StepTaker, take_all, take_faults,
};
use gate_table::Gate;
use pauli_word::Letter;
use std::alloc::Global;
use std::str::SplitWhitespace;
use step_model::Fault;
use test_support::text_of;
use unroll::read_program;

/// What compares each step that it takes with the next of these words. It goes over so many faults at once at most.
#[derive(Drop)]
struct Comparing<'w> {
    words: SplitWhitespace<'w>,
    most: usize,
    passed: usize,
    same: bool,
}

impl<'w> Comparing<'w> {
    /// Takes the next word. It is to be that of this step.
    fn compare(&mut self, step: Step<'_>)
        requires { (program : KeptProgram) × IsStepOf program step }
    {
        self.same &= match self.words.next() {
            Some(word) => is_step(step, word.as_bytes()),
            None => false,
        };
    }
}

impl<'w> StepTaker<Global> for Comparing<'w> {
    ghost use Rattle.std.specs.Prelude.{⊤};

    ghost stands = { λ program begun k comparing. ⊤ };

    fn apply_one(&mut self, _program: &Program<'_, Global>, gate: Gate, q: u32) {
        self.compare(Step::One { gate, q });
    }

    fn apply_two(&mut self, _program: &Program<'_, Global>, gate: Gate, a: u32, b: u32) {
        self.compare(Step::Two { gate, a, b });
    }

    fn feed_back(&mut self, _program: &Program<'_, Global>, letter: Letter, q: u32, rec: u32) {
        self.compare(Step::Feedback { letter, q, rec });
    }

    fn collapse(
        &mut self,
        _program: &Program<'_, Global>,
        letter: Letter,
        qubit: u32,
        rec: Option<u32>,
        reset: bool,
        inverted: bool,
        flip: Option<FaultName>,
    ) {
        self.compare(Step::Collapse {
            letter,
            qubit,
            rec,
            reset,
            inverted,
            flip,
        });
    }

    fn collapse_word(
        &mut self,
        _program: &Program<'_, Global>,
        letters: Letters<'_>,
        rec: Option<u32>,
        inverted: bool,
        flip: Option<FaultName>,
    ) {
        self.compare(Step::CollapseWord {
            letters,
            rec,
            inverted,
            flip,
        });
    }

    fn fault(&mut self, _program: &Program<'_, Global>, name: FaultName, letters: Letters<'_>) {
        self.compare(Step::Fault { name, letters });
    }

    fn pass_faults(&mut self, _program: &Program<'_, Global>, first: u32, count: usize) -> usize {
        let passed = count.min(self.most);
        self.same &= are_numbered(&mut self.words, first, passed);
        self.passed = self.passed.saturating_add(passed);
        passed
    }
}

/// Goes over so many words. Whether they are of faults, with the numbers from the first on.
fn are_numbered(words: &mut SplitWhitespace<'_>, first: u32, count: usize) -> bool {
    let mut number = first;
    let mut all = true;
    for _ in 0..count {
        all &= match words.next() {
            Some(word) => is_kind(word.as_bytes(), b'F')
                && digit(word.as_bytes(), 1) == Some(number),
            None => false,
        };
        number = number.saturating_add(1);
    }
    all
}

/// Over how many faults a taker goes that goes over so many at once at most; none where the steps aren't those of the words.
fn passed(program: &Program<'_, Global>, words: &str, most: usize) -> Option<usize> {
    let mut comparing = Comparing {
        words: words.split_whitespace(),
        most,
        passed: 0,
        same: true,
    };
    take_all(program, &mut comparing);
    // Of a circuit without steps the word is left that stands for none.
    let left = comparing.words.next().unwrap_or("-");
    if comparing.same && left == "-" {
        Some(comparing.passed)
    } else {
        None
    }
}

/// Whether takers take the steps that these words name, or go over those that are faults.
pub(super) fn takes_steps(program: &Program<'_, Global>, words: &str) -> bool {
    (passed(program, words, 0) == Some(0))
        & passed(program, words, 1).is_some()
        & passed(program, words, usize::MAX).is_some()
}

/// What compares each fault that it takes with the next that these words name.
#[derive(Drop)]
struct Finding<'w> {
    words: SplitWhitespace<'w>,
    same: bool,
}

impl<'w> FaultTaker<Global> for Finding<'w> {
    ghost use Rattle.std.specs.Prelude.{⊤};

    ghost stands = { λ program begun n finding. ⊤ };

    fn take(&mut self, _program: &Program<'_, Global>, fault: FoundFault<'_>) {
        self.same &= match next_named(&mut self.words) {
            Some(word) => is_found(fault, word.as_bytes()),
            None => false,
        };
    }
}

/// Takes the words up to the next that names a fault, and answers that.
fn next_named<'w>(words: &mut SplitWhitespace<'w>) -> Option<&'w str> {
    words.find(|word| names_fault(word.as_bytes()))
}

/// Whether a taker takes the faults that these words name, in their order, and no further one.
pub(super) fn takes_each_fault(program: &Program<'_, Global>, words: &str) -> bool {
    let mut finding = Finding {
        words: words.split_whitespace(),
        same: true,
    };
    take_faults(program, &mut finding);
    finding.same && next_named(&mut finding.words).is_none()
}

/// A row a circuit: its lines; over how many faults takers go that go over none, one, two and any number at once; and its steps
/// as words. What is gone over at once is of one instruction.
const PASSES: &str = "\
# the numbers go on over turns | X 0 | X_ERROR(1) 0 | REPEAT 2 { | X_ERROR(1) 1 2 | } | X 0 = 0355 = \
X F00X0 F10X1 F20X2 F30X1 F40X2 X
# and over the flip of a record, which is no fault of its own | X_ERROR(1) 0 1 2 3 4 | M(0.5) 0 | X_ERROR(1) 0 = 0456 = \
F00X0 F10X1 F20X2 F30X3 F40X4 M051 F60X0
# each letter, and instructions in a row | Z_ERROR(1) 0 1 | Y_ERROR(0.5) 1 | X_ERROR(1) 0 1 2 = 0456 = \
F00Z0 F10Z1 F21Y1 F30X0 F40X1 F50X2
REPEAT 3 { | X_ERROR(1) 0 | REPEAT 2 { | Z_ERROR(1) 0 | } | } = 0999 = \
F00X0 F10Z0 F20Z0 F30X0 F40Z0 F50Z0 F60X0 F70Z0 F80Z0
X 0 | X_ERROR(1) 0 = 0111 = X F00X0
X 0 = 0000 = X
";

/// Whether takers go over as many faults as these digits say.
fn pass_as_told(program: &Program<'_, Global>, told: &[u8], words: &str) -> bool {
    let mut all = true;
    for (place, most) in [0, 1, 2, usize::MAX].into_iter().enumerate() {
        let count = digit(told, place).map(|n| n as usize);
        all &= count.is_some() & (passed(program, words, most) == count);
    }
    all
}

fn pass_holds(alloc: Global, row: &str) -> Result<bool, Fault> {
    match parts_of(row) {
        Some((circuit, told, words)) => {
            let text = text_of(alloc, circuit)?;
            let program = read_program(alloc, text.as_slice())?;
            Ok(pass_as_told(&program, told.as_bytes(), words))
        }
        None => Ok(false),
    }
}

#[test]
fn takers_go_over_faults(rt: HostRuntime) {
    for row in PASSES.lines() {
        assert!(rt; matches!(pass_holds(rt.alloc(), row), Ok(true)), "{row}");
    }
    assert!(rt; PASSES.lines().count() == 6);
}
