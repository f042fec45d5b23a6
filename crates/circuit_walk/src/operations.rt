//! The steps that are left of an instruction that is a gate, a measurement or a reset, handed to a taker one by one: each operation
//! has a loop of its own.

ghost use Rattle.std.specs.Prelude.{◌≡◌};
ghost use Rattle.circuit_walk.specs.private.Courses.{course_at};
ghost use Rattle.circuit_walk.specs.private.Taken.{measuring};
ghost use Rattle.circuit_walk.specs.private.Takings.{HasGoneOn, IsTakingAt};
ghost use Rattle.gate_table.specs.Images.{arity_of};
ghost use Rattle.stim_parser.specs.declared.operation.Operation.TheVariants.{Applies, ProductMeasurement, QubitReset};

use crate::instruction_steps::InstructionSteps;
use crate::pairs::PairStep;
use crate::passes::Inside;
use crate::program::{Program, Text};
use crate::step_taker::StepTaker;
use cursor::Cursor;
use gate_table::Gate;
use pauli_word::Letter;
use std::alloc::Allocator;

/// Gates of one qubit.
#[inline(always)]
pub(crate) fn take_singles<T: StepTaker<A>, A: Allocator + Copy>(
    program: &Program<'_, A>,
    text: Text<'_, '_, A>,
    cursor: &Cursor,
    taker: &mut T,
    inside: &mut Inside<'_>,
    gate: Gate,
)
    requires place { IsTakingAt T.stands program.now taker.old
        (course_at text cursor.now inside.old) }
    requires operation { inside.old.here.operation ≡ Applies gate }
    requires arity { arity_of gate ≡ 1 }
    ensures gone { HasGoneOn T.stands program.now taker.old taker.new
        (course_at text.entry cursor.now inside.old) (course_at text.entry cursor.now inside.new) }
    ensures done { inside.new.here.at ≡ inside.new.here.end }
{
    while inside.here.at != inside.here.end {
        text.fits();
        let q = inside.here.single(gate, inside.counts);
        inside.go_on(1, inside.counts);
        taker.apply_one(program, gate, q);
    }
}

/// Gates of two qubits, or feedback where one of the two targets is a record.
#[inline(always)]
pub(crate) fn take_pairs<T: StepTaker<A>, A: Allocator + Copy>(
    program: &Program<'_, A>,
    text: Text<'_, '_, A>,
    cursor: &Cursor,
    taker: &mut T,
    inside: &mut Inside<'_>,
    gate: Gate,
)
    requires place { IsTakingAt T.stands program.now taker.old
        (course_at text cursor.now inside.old) }
    requires operation { inside.old.here.operation ≡ Applies gate }
    requires arity { arity_of gate ≡ 2 }
    ensures gone { HasGoneOn T.stands program.now taker.old taker.new
        (course_at text.entry cursor.now inside.old) (course_at text.entry cursor.now inside.new) }
    ensures done { inside.new.here.at ≡ inside.new.here.end }
{
    while inside.here.at != inside.here.end {
        text.fits();
        let pair = inside.here.pair(gate, inside.counts);
        inside.go_on(2, inside.counts);
        match pair {
            PairStep::Qubits { a, b } => taker.apply_two(program, gate, a, b),
            PairStep::Fed { letter, q, rec } => taker.feed_back(program, letter, q, rec),
        }
    }
}

/// Measurements of a letter, which reset the qubit where `reset`.
#[inline(always)]
pub(crate) fn take_measurements<T: StepTaker<A>, A: Allocator + Copy>(
    program: &Program<'_, A>,
    text: Text<'_, '_, A>,
    cursor: &Cursor,
    taker: &mut T,
    inside: &mut Inside<'_>,
    letter: Letter,
    reset: bool,
)
    requires place { IsTakingAt T.stands program.now taker.old
        (course_at text cursor.now inside.old) }
    requires operation { inside.old.here.operation ≡ measuring reset letter }
    ensures gone { HasGoneOn T.stands program.now taker.old taker.new
        (course_at text.entry cursor.now inside.old) (course_at text.entry cursor.now inside.new) }
    ensures done { inside.new.here.at ≡ inside.new.here.end }
{
    while inside.here.at != inside.here.end {
        text.fits();
        let counts = inside.counts;
        let seen = inside.here.measured(letter, reset, counts);
        let behind = inside.here.behind_record(counts);
        inside.go_on(1, behind);
        taker.collapse(
            program,
            letter,
            seen.qubit,
            Some(counts.records),
            reset,
            seen.inverted,
            seen.flip,
        );
    }
}

/// Resets.
#[inline(always)]
pub(crate) fn take_resets<T: StepTaker<A>, A: Allocator + Copy>(
    program: &Program<'_, A>,
    text: Text<'_, '_, A>,
    cursor: &Cursor,
    taker: &mut T,
    inside: &mut Inside<'_>,
    letter: Letter,
)
    requires place { IsTakingAt T.stands program.now taker.old
        (course_at text cursor.now inside.old) }
    requires operation { inside.old.here.operation ≡ QubitReset letter }
    ensures gone { HasGoneOn T.stands program.now taker.old taker.new
        (course_at text.entry cursor.now inside.old) (course_at text.entry cursor.now inside.new) }
    ensures done { inside.new.here.at ≡ inside.new.here.end }
{
    while inside.here.at != inside.here.end {
        text.fits();
        let counts = inside.counts;
        let q = inside.here.reset(letter, counts);
        let behind = InstructionSteps::behind_reset(counts);
        inside.go_on(1, behind);
        taker.collapse(program, letter, q, None, true, false, None);
    }
}

/// Measurements of products.
#[inline(always)]
pub(crate) fn take_products<T: StepTaker<A>, A: Allocator + Copy>(
    program: &Program<'_, A>,
    text: Text<'_, '_, A>,
    cursor: &Cursor,
    taker: &mut T,
    inside: &mut Inside<'_>,
)
    requires place { IsTakingAt T.stands program.now taker.old
        (course_at text cursor.now inside.old) }
    requires operation { inside.old.here.operation ≡ ProductMeasurement }
    ensures gone { HasGoneOn T.stands program.now taker.old taker.new
        (course_at text.entry cursor.now inside.old) (course_at text.entry cursor.now inside.new) }
    ensures done { inside.new.here.at ≡ inside.new.here.end }
{
    while inside.here.at != inside.here.end {
        text.fits();
        let counts = inside.counts;
        let seen = inside.here.product(counts);
        let behind = inside.here.behind_record(counts);
        inside.go_on(seen.targets, behind);
        taker.collapse_word(
            program,
            seen.letters,
            Some(counts.records),
            seen.inverted,
            seen.flip,
        );
    }
}
