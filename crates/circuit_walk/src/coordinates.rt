//! A pass over the coordinates of a program's detectors. On the way it keeps by how much shifts have moved each axis.

ghost use Rattle.std.specs.Prelude.{◌≡◌, [], ◌∷◌, ◌++◌, List, length, unwrap_or};
ghost use Rattle.stim_parser.specs.Coordinates.{coordinates_in};
ghost use Rattle.stim_parser.specs.Kept.{instruction_in};
ghost use Rattle.stim_parser.specs.Verdicts as verdicts;
ghost use Rattle.circuit_walk.specs.private.Placing.{AreRoomy, IsPlaced, added, coordinates_from, offset_at};

use crate::coordinate_taker::CoordinateTaker;
use crate::placing::Placing;
use crate::program::Program;
use arrayvec::ArrayVec;
use cursor::Cursor;
use std::alloc::Allocator;
use stim_parser::{Instruction, Operation, TargetWord, put_coordinates};

/// How many coordinates a detector or a shift has at most.
const AXES: usize = 16;

/// Has a taker take the coordinates of all detectors of a program. It takes no memory of its own.
pub fn take_coordinates<T: CoordinateTaker<A>, A: Allocator + Copy>(
    program: &Program<'_, A>,
    taker: &mut T,
)
    requires { T.stands program.now taker.old 0 taker.old }
    ensures { T.stands program.now taker.old (length program.now.listing.coordinates) taker.new }
{
    program.accepted();
    let text = program.text();
    let mut cursor = Cursor::start::<Placing, Operation, TargetWord, A>(text.items);
    let mut offset = [0; AXES];
    let mut numbers = ArrayVec::new();
    while let Some(i) = cursor.face::<Placing, Operation, TargetWord, A>(text.items) {
        let instruction = text.instruction_at(i);
        take_or_shift(program, taker, &mut offset, &mut numbers, instruction);
        cursor.pass::<Placing, Operation, TargetWord, A>(text.items);
    }
}

/// Has the taker take the coordinates of a detector, or takes the offset past a shift. What the instruction states is gathered
/// in `numbers`, in place of what was there.
#[inline(always)]
fn take_or_shift<T: CoordinateTaker<A>, A: Allocator + Copy>(
    program: &Program<'_, A>,
    taker: &mut T,
    offset: &mut [i64; AXES],
    numbers: &mut ArrayVec<i64, AXES>,
    instruction: Instruction<'_, '_>,
)
    requires next { (begun : T) × (before : List verdicts.Instruction)
        × IsPlaced program.now.circuit before (instruction_in instruction) offset.old
        × T.stands program.now begun (length (coordinates_from [] before)) taker.old }
    ensures offset { (before : List verdicts.Instruction)
        → IsPlaced program.now.circuit before (instruction_in instruction.entry) offset.old
        → offset.new ≡ offset_at (before ++ instruction_in instruction.entry ∷ []) }
    ensures stands { (begun : T) (before : List verdicts.Instruction)
        → IsPlaced program.now.circuit before (instruction_in instruction.entry) offset.old
        → T.stands program.now begun (length (coordinates_from [] before)) taker.old
        → T.stands program.now begun
        (length (coordinates_from [] (before ++ instruction_in instruction.entry ∷ []))) taker.new }
{
    program.accepted();
    read_stated(numbers, instruction);
    match instruction.operation {
        Operation::DetectorDeclaration => {
            add(numbers.as_mut_slice(), offset);
            taker.take(program, numbers.as_slice());
        }
        _ => add(offset, numbers.as_slice()),
    }
}

/// Puts an instruction's arguments as coordinates into `numbers`, in place of what was there; none where they aren't any.
#[inline(always)]
fn read_stated(numbers: &mut ArrayVec<i64, AXES>, instruction: Instruction<'_, '_>)
    ensures { numbers.new.items
        ≡ unwrap_or (coordinates_in (instruction_in instruction.entry).arguments) [] }
{
    if put_coordinates(numbers, instruction.arguments) {
        return;
    }
    numbers.clear();
}

/// Adds to numbers, place by place. Where there is no more for a place, its number stays as it is.
#[inline(always)]
fn add(numbers: &mut [i64], more: &[i64])
    requires room { AreRoomy numbers.old }
    requires more { AreRoomy more.now }
    ensures added { numbers.new ≡ added numbers.old more.now }
    ensures long { length numbers.new ≡ length numbers.old }
{
    for j in 0..more.len().min(numbers.len()) {
        numbers[j] += more[j];
    }
}
