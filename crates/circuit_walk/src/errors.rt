//! The faults that are left of an instruction whose steps are errors, handed to a taker: over those that change nothing it goes at
//! once.

ghost use Rattle.std.specs.Prelude.{◌≡◌, ◌≢◌, ◌+◌, ◌≤◌, true};
ghost use Rattle.circuit_walk.specs.Makes.{makes_errors};
ghost use Rattle.circuit_walk.specs.private.Courses.{course_at};
ghost use Rattle.circuit_walk.specs.private.Taken.{IsTaken, error_at};
ghost use Rattle.circuit_walk.specs.private.Takings.{HasGoneOn, HasTakenSome, IsTakingAt};
ghost use Rattle.stim_parser.specs.declared.operation.Operation.TheVariants.{CorrelatedError, PauliError};

use crate::instruction_steps::InstructionSteps;
use crate::letters::Letters;
use crate::passes::Inside;
use crate::program::{Program, Text};
use crate::step::FaultName;
use crate::step_taker::StepTaker;
use cursor::Cursor;
use pauli_word::Letter;
use std::alloc::Allocator;

/// Errors of one letter.
#[inline(always)]
pub(crate) fn take_letter_errors<T: StepTaker<A>, A: Allocator + Copy>(
    program: &Program<'_, A>,
    text: Text<'_, '_, A>,
    cursor: &Cursor,
    taker: &mut T,
    inside: &mut Inside<'_>,
    letter: Letter,
)
    requires place { IsTakingAt T.stands program.now taker.old
        (course_at text cursor.now inside.old) }
    requires operation { inside.old.here.operation ≡ PauliError letter }
    ensures gone { HasGoneOn T.stands program.now taker.old taker.new
        (course_at text.entry cursor.now inside.old) (course_at text.entry cursor.now inside.new) }
    ensures done { inside.new.here.at ≡ inside.new.here.end }
{
    while inside.here.at != inside.here.end {
        pass_faults(program, text, cursor, taker, inside);
        if inside.here.at != inside.here.end {
            text.fits();
            let letters = inside.here.letter_error(letter, inside.counts);
            take_error(program, text, cursor, taker, inside, letters);
        }
    }
}

/// The one error of all targets.
#[inline(always)]
pub(crate) fn take_product_errors<T: StepTaker<A>, A: Allocator + Copy>(
    program: &Program<'_, A>,
    text: Text<'_, '_, A>,
    cursor: &Cursor,
    taker: &mut T,
    inside: &mut Inside<'_>,
)
    requires place { IsTakingAt T.stands program.now taker.old
        (course_at text cursor.now inside.old) }
    requires operation { inside.old.here.operation ≡ CorrelatedError }
    ensures gone { HasGoneOn T.stands program.now taker.old taker.new
        (course_at text.entry cursor.now inside.old) (course_at text.entry cursor.now inside.new) }
    ensures done { inside.new.here.at ≡ inside.new.here.end }
{
    while inside.here.at != inside.here.end {
        pass_faults(program, text, cursor, taker, inside);
        if inside.here.at != inside.here.end {
            text.fits();
            let letters = inside.here.product_error(inside.counts);
            take_error(program, text, cursor, taker, inside, letters);
        }
    }
}

/// Has the taker take the next step, an error of these letters.
#[inline(always)]
fn take_error<T: StepTaker<A>, A: Allocator + Copy>(
    program: &Program<'_, A>,
    text: Text<'_, '_, A>,
    cursor: &Cursor,
    taker: &mut T,
    inside: &mut Inside<'_>,
    letters: Letters<'_>,
)
    requires place { IsTakingAt T.stands program.now taker.old
        (course_at text cursor.now inside.old) }
    requires facing { inside.old.here.at ≢ inside.old.here.end }
    requires taken { IsTaken inside.old.here inside.old.counts (error_at inside.old letters) }
    ensures { HasTakenSome T.stands program.now taker.old taker.new
        (course_at text.entry cursor.now inside.old) (course_at text.entry cursor.now inside.new) }
{
    text.fits();
    let counts = inside.counts;
    let name = FaultName {
        number: counts.faults,
        chance: inside.here.chance,
    };
    let behind = InstructionSteps::behind_fault(counts);
    inside.go_on(1, behind);
    taker.fault(program, name, letters);
}

/// Has the taker go over the faults of the instruction that change nothing, to the first that may.
#[inline(always)]
fn pass_faults<T: StepTaker<A>, A: Allocator + Copy>(
    program: &Program<'_, A>,
    text: Text<'_, '_, A>,
    cursor: &Cursor,
    taker: &mut T,
    inside: &mut Inside<'_>,
)
    requires place { IsTakingAt T.stands program.now taker.old
        (course_at text cursor.now inside.old) }
    requires facing { inside.old.here.at ≢ inside.old.here.end }
    requires errors { makes_errors inside.old.here.operation ≡ true }
    ensures gone { HasGoneOn T.stands program.now taker.old taker.new
        (course_at text.entry cursor.now inside.old) (course_at text.entry cursor.now inside.new) }
    ensures on { inside.new.steps + inside.old.here.at ≡ inside.old.steps + inside.new.here.at }
    ensures further { inside.old.here.at ≤ inside.new.here.at }
    ensures same { inside.new.here.operation ≡ inside.old.here.operation }
    ensures end { inside.new.here.end ≡ inside.old.here.end }
{
    text.fits();
    let left = inside.here.end - inside.here.at;
    let passed = taker.pass_faults(program, inside.counts.faults, left);
    inside.here.at += passed;
    inside.counts.faults += passed as u32;
    inside.steps += passed;
}
