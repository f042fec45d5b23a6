//! A Pauli frame carried over the steps of a program, from the place where it begins.
ghost use Rattle.std.specs.Prelude.{◌≡◌, ◌+◌, ℕ, Bool, true, false, ◌∷◌, List, length, IfOk, OnOk, None, Option, Some, slice_get};
ghost use Rattle.circuit_walk.specs.Named.{IsStepOf};
ghost use Rattle.circuit_walk.specs.Steps.{listed};
ghost use Rattle.step_model.specs.Frames.{flips_of};
ghost use Rattle.step_model.specs.Listing.{ListedStep};
ghost use Rattle.step_model.specs.Sensitivities.{collapse_word};
ghost use Rattle.step_model.specs.WellFormed.{step_fits};
ghost use Rattle.frames.specs.private.LoneFrames.{IsLone, IsOnWay, begins_as, begins_behind};
ghost use Rattle.pauli_word.specs.declared.letter.Letter.{Letter as LetterOf};

use crate::frame::Frame;
use crate::words::{lone_word, product_of};
use circuit_walk::{FaultName, Letters, Program, Step, StepTaker, take_all};
use gate_table::Gate;
use pauli_word::{Letter, Word};
use std::alloc::{AllocError, Allocator};
use step_model::Place;

/// A frame that begins behind a collapse, or at the start, and the flips of the collapses so far. A collapse is the projective
/// measurement inside a measurement or a reset. Once memory has run out it takes no step.
#[derive(Drop)]
struct LoneFrame<A: Allocator + Copy> {
    alloc: A,
    frame: Frame<A>,
    flips: Vec<bool, A>,
    // before it begins, how many collapses are ahead of that behind which it begins
    ahead: Option<u32>,
    // whether it begins as the word that is collapsed there, and not as its own
    collapsed: bool,
    failed: bool,
}

// The collapse behind which a place is, if it is behind one.
fn begins_behind(place: Place) -> Option<u32>
    ensures { result ≡ begins_behind place }
{
    match place {
        Place::Start(_) => None,
        Place::After(collapse) => Some(collapse),
    }
}

/// The flips of a Pauli frame that begins at a place: as this word, or, where `collapsed` and the place is behind a collapse, as the
/// word collapsed there.
pub(crate) fn flips_at<A: Allocator + Copy>(
    alloc: A,
    program: &Program<'_, A>,
    place: Place,
    word: Word<A>,
    collapsed: bool,
) -> Result<Vec<bool, A>, AllocError>
    requires { length word.letters ≡ program.now.listing.qubits }
    ensures { IfOk result (λ flips. flips.items
        ≡ flips_of program.now.listing place
        (begins_as program.now.listing collapsed (begins_behind place) word.letters)) }
{
    program.well_formed();
    let mut lone = LoneFrame {
        alloc,
        frame: Frame::begin(alloc, word),
        flips: Vec::new(alloc),
        ahead: begins_behind(place),
        collapsed,
        failed: false,
    };
    take_all(program, &mut lone);
    if lone.failed {
        return Err(AllocError);
    }
    Ok(lone.flips)
}

/// The word that a step collapses; the identity where the step is no collapse.
fn word_collapsed<A: Allocator + Copy>(
    alloc: A,
    program: &Program<'_, A>,
    step: Step<'_>,
) -> Result<Word<A>, AllocError>
    requires { IsStepOf program.now step }
    ensures word { IfOk result (λ word. word.letters
        ≡ collapse_word program.now.listing.qubits
        (listed program.now.listing.qubits step.entry)) }
    ensures size { IfOk result (λ word. length word.letters ≡ program.now.listing.qubits) }
{
    program.well_formed();
    let qubits = program.qubits() as usize;
    match step {
        Step::Collapse { letter, qubit, .. } => lone_word(alloc, qubits, qubit as usize, letter),
        Step::CollapseWord { letters, .. } => product_of(alloc, qubits, letters),
        _ => Word::identity(alloc, qubits),
    }
}

impl<A: Allocator + Copy> LoneFrame<A> {
    // Takes the next step.
    fn take(&mut self, program: &Program<'_, A>, step: Step<'_>)
        requires named { IsStepOf program.now step }
        requires next { (behind : Option ℕ) × (v : List LetterOf) × (collapsed : Bool) × (k : ℕ)
            × (self.old.failed ≡ false → IsLone program.now.listing behind v collapsed k
            self.old.collapsed self.old.ahead self.old.frame self.old.flips.items)
            × (slice_get program.now.listing.steps k
            ≡ Some (listed program.now.listing.qubits step)) }
        ensures { (behind : Option ℕ) (v : List LetterOf) (collapsed : Bool) (k : ℕ)
            → (self.old.failed ≡ false → IsLone program.now.listing behind v collapsed k
            self.old.collapsed self.old.ahead self.old.frame self.old.flips.items)
            → slice_get program.now.listing.steps k
            ≡ Some (listed program.now.listing.qubits step.entry)
            → self.new.failed ≡ false
            → IsLone program.now.listing behind v collapsed (k + 1)
            self.new.collapsed self.new.ahead self.new.frame self.new.flips.items }
    {
        program.well_formed();
        if self.failed {
            return;
        }
        match self.go_over(program, step) {
            Ok(()) => {}
            Err(_) => self.failed = true,
        }
    }

    fn go_over(&mut self, program: &Program<'_, A>, step: Step<'_>) -> Result<(), AllocError>
        requires named { IsStepOf program.now step }
        requires fits { step_fits program.now.listing
            (listed program.now.listing.qubits step)
            ≡ true }
        requires size { length self.old.frame.word ≡ program.now.listing.qubits }
        ensures way { OnOk result ((behind : Option ℕ) (v : List LetterOf) (steps : List ListedStep)
            → IsOnWay program.now.listing behind v self.old.collapsed
            (listed program.now.listing.qubits step.entry ∷ steps)
            self.old.ahead self.old.frame self.old.flips.items
            → IsOnWay program.now.listing behind v self.new.collapsed steps
            self.new.ahead self.new.frame self.new.flips.items) }
        ensures collapsed { self.new.collapsed ≡ self.old.collapsed }
        ensures size { OnOk result (length self.new.frame.word ≡ program.now.listing.qubits) }
    {
        match self.ahead {
            Some(ahead) => self.pass(program, step, ahead),
            None => self.carry(program, step),
        }
    }

    // Goes over a step before the frame begins, and has it begin where the step is the collapse behind which it does.
    fn pass(
        &mut self,
        program: &Program<'_, A>,
        step: Step<'_>,
        ahead: u32,
    ) -> Result<(), AllocError>
        requires named { IsStepOf program.now step }
        requires fits { step_fits program.now.listing
            (listed program.now.listing.qubits step)
            ≡ true }
        requires size { length self.old.frame.word ≡ program.now.listing.qubits }
        requires ahead { self.old.ahead ≡ Some ahead }
        ensures way { OnOk result ((behind : Option ℕ) (v : List LetterOf) (steps : List ListedStep)
            → IsOnWay program.now.listing behind v self.old.collapsed
            (listed program.now.listing.qubits step.entry ∷ steps)
            self.old.ahead self.old.frame self.old.flips.items
            → IsOnWay program.now.listing behind v self.new.collapsed steps
            self.new.ahead self.new.frame self.new.flips.items) }
        ensures collapsed { self.new.collapsed ≡ self.old.collapsed }
        ensures size { OnOk result (length self.new.frame.word ≡ program.now.listing.qubits) }
    {
        self.frame.pass(step)?;
        if !step.is_collapse() {
            return Ok(());
        }
        self.flips.push(false)?;
        if ahead > 0 {
            self.ahead = Some(ahead - 1);
            return Ok(());
        }
        self.ahead = None;
        if self.collapsed {
            let word = word_collapsed(self.alloc, program, step)?;
            self.frame.begin_as(word);
        }
        Ok(())
    }

    // Carries the frame over a step behind the place where it began.
    fn carry(&mut self, program: &Program<'_, A>, step: Step<'_>) -> Result<(), AllocError>
        requires named { IsStepOf program.now step }
        requires fits { step_fits program.now.listing
            (listed program.now.listing.qubits step)
            ≡ true }
        requires size { length self.old.frame.word ≡ program.now.listing.qubits }
        requires begun { self.old.ahead ≡ None }
        ensures way { OnOk result ((behind : Option ℕ) (v : List LetterOf) (steps : List ListedStep)
            → IsOnWay program.now.listing behind v self.old.collapsed
            (listed program.now.listing.qubits step.entry ∷ steps)
            self.old.ahead self.old.frame self.old.flips.items
            → IsOnWay program.now.listing behind v self.new.collapsed steps
            self.new.ahead self.new.frame self.new.flips.items) }
        ensures collapsed { self.new.collapsed ≡ self.old.collapsed }
        ensures size { OnOk result (length self.new.frame.word ≡ program.now.listing.qubits) }
    {
        if let Some(flip) = self.frame.carry(program, step)? {
            self.flips.push(flip)?;
        }
        Ok(())
    }
}

impl<A: Allocator + Copy> StepTaker<A> for LoneFrame<A> {
    ghost use Rattle.std.specs.Prelude.{◌≡◌, false};
    ghost use Rattle.frames.specs.private.LoneFrames.{IsLone};

    ghost stands = { λ program begun k lone. lone.failed ≡ false
        → IsLone program.listing begun.ahead begun.frame.word begun.collapsed k lone.collapsed lone.ahead lone.frame lone.flips.items };

    fn apply_one(&mut self, program: &Program<'_, A>, gate: Gate, q: u32) {
        self.take(program, Step::One { gate, q });
    }

    fn apply_two(&mut self, program: &Program<'_, A>, gate: Gate, a: u32, b: u32) {
        self.take(program, Step::Two { gate, a, b });
    }

    fn feed_back(&mut self, program: &Program<'_, A>, letter: Letter, q: u32, rec: u32) {
        self.take(program, Step::Feedback { letter, q, rec });
    }

    fn collapse(
        &mut self,
        program: &Program<'_, A>,
        letter: Letter,
        qubit: u32,
        rec: Option<u32>,
        reset: bool,
        inverted: bool,
        flip: Option<FaultName>,
    ) {
        let step = Step::Collapse {
            letter,
            qubit,
            rec,
            reset,
            inverted,
            flip,
        };
        self.take(program, step);
    }

    fn collapse_word(
        &mut self,
        program: &Program<'_, A>,
        letters: Letters<'_>,
        rec: Option<u32>,
        inverted: bool,
        flip: Option<FaultName>,
    ) {
        let step = Step::CollapseWord {
            letters,
            rec,
            inverted,
            flip,
        };
        self.take(program, step);
    }

    fn fault(&mut self, program: &Program<'_, A>, name: FaultName, letters: Letters<'_>) {
        self.take(program, Step::Fault { name, letters });
    }

    // Each is taken for itself: it changes nothing.
    fn pass_faults(&mut self, _program: &Program<'_, A>, _first: u32, _count: usize) -> usize {
        0
    }
}
