//! A pass over all steps of a program: instruction by instruction, and in each target by target. What an instruction does is
//! asked once, and each operation has a loop of its own.

ghost use Rattle.std.specs.Prelude.{◌≡◌, ◌+◌, ◌<◌, ◌≤◌, ◌^◌, false, length};
ghost use Rattle.circuit_walk.specs.private.Courses.{IsCourse, IsPassing, course_at};
ghost use Rattle.circuit_walk.specs.private.Takings.{HasGoneOn, IsTakingAt};
ghost use Rattle.circuit_walk.specs.private.Walks.{makes_steps};

use crate::choice::StepMakers;
use crate::errors::{take_letter_errors, take_product_errors};
use crate::instruction_steps::InstructionSteps;
use crate::operations::{take_measurements, take_pairs, take_products, take_resets, take_singles};
use crate::program::{Program, Text};
use crate::step::Counts;
use crate::step_taker::StepTaker;
use cursor::Cursor;
use std::alloc::Allocator;
use stim_parser::{Operation, TargetWord};

/// A place in the instruction that a cursor is before: its steps, of which some are behind, what came before the next one, and
/// how many steps of the program did.
#[derive(Drop)]
pub(crate) struct Inside<'c> {
    pub here: InstructionSteps<'c>,
    pub counts: Counts,
    pub steps: usize,
}

impl Inside<'_> {
    /// Goes over a step of so many targets, to these counts.
    #[inline(always)]
    pub(crate) fn go_on(&mut self, targets: usize, counts: Counts)
        requires few { self.old.steps + 1 < 2 ^ 32 }
        requires within { self.old.here.at + targets ≤ self.old.here.end }
        ensures { self.new ≡ record {
          here = record self.old.here { at = self.old.here.at + targets };
          counts = counts;
          steps = self.old.steps + 1;
        } }
    {
        // The proof takes the range from a read.
        let _end = self.here.end;
        self.here.at += targets;
        self.counts = counts;
        self.steps += 1;
    }
}

/// Has a taker take all steps of a program. It takes no memory of its own.
pub fn take_all<T: StepTaker<A>, A: Allocator + Copy>(program: &Program<'_, A>, taker: &mut T)
    requires { T.stands program.now taker.old 0 taker.old }
    ensures { T.stands program.now taker.old (length program.now.listing.steps) taker.new }
{
    let text = program.text();
    let mut cursor = Cursor::start::<StepMakers, Operation, TargetWord, A>(text.items);
    let mut counts = Counts {
        records: 0,
        collapses: 0,
        faults: 0,
    };
    let mut steps = 0;
    while let Some(i) = cursor.face::<StepMakers, Operation, TargetWord, A>(text.items) {
        let mut inside = Inside {
            here: text.steps_at(i),
            counts,
            steps,
        };
        take_instruction(program, text, &cursor, taker, &mut inside);
        counts = inside.counts;
        steps = inside.steps;
        cursor.pass::<StepMakers, Operation, TargetWord, A>(text.items);
    }
}

/// Has the taker take the steps that are left of an instruction.
#[inline(always)]
fn take_instruction<T: StepTaker<A>, A: Allocator + Copy>(
    program: &Program<'_, A>,
    text: Text<'_, '_, A>,
    cursor: &Cursor,
    taker: &mut T,
    inside: &mut Inside<'_>,
)
    requires place { IsTakingAt T.stands program.now taker.old
        (course_at text cursor.now inside.old) }
    ensures gone { HasGoneOn T.stands program.now taker.old taker.new
        (course_at text.entry cursor.now inside.old) (course_at text.entry cursor.now inside.new) }
    ensures done { inside.new.here.at ≡ inside.new.here.end }
{
    match inside.here.operation {
        Operation::Applies(gate) => {
            if gate.arity() == 1 {
                take_singles(program, text, cursor, taker, inside, gate)
            } else {
                take_pairs(program, text, cursor, taker, inside, gate)
            }
        }
        Operation::PauliError(letter) => {
            take_letter_errors(program, text, cursor, taker, inside, letter)
        }
        Operation::CorrelatedError => take_product_errors(program, text, cursor, taker, inside),
        Operation::Measurement(letter) => {
            take_measurements(program, text, cursor, taker, inside, letter, false)
        }
        Operation::MeasurementReset(letter) => {
            take_measurements(program, text, cursor, taker, inside, letter, true)
        }
        Operation::QubitReset(letter) => take_resets(program, text, cursor, taker, inside, letter),
        Operation::ProductMeasurement => take_products(program, text, cursor, taker, inside),
        Operation::DetectorDeclaration
        | Operation::ObservableInclude
        | Operation::Tick
        | Operation::QubitCoordinates
        | Operation::CoordinateShift => has_none(program, text, cursor, inside),
    }
}

/// Does nothing: instructions of other operations make no steps, so none is left.
#[inline(always)]
fn has_none<A: Allocator + Copy>(
    program: &Program<'_, A>,
    text: Text<'_, '_, A>,
    cursor: &Cursor,
    inside: &Inside<'_>,
)
    requires course { IsCourse program.now (course_at text cursor.now inside.now) }
    requires none { makes_steps inside.now.here.operation ≡ false }
    ensures done { inside.now.here.at ≡ inside.now.here.end }
{}
