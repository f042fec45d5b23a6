//! The walk over whole turns of a block: which place is one turn earlier, and over how many turns it goes back from there.
use crate::tests::tables::parts_of;
use circuit_walk::{Program, Walk};
use std::alloc::Global;
use step_model::Fault;
use test_support::text_of;
use unroll::read_program;

/// A row a circuit: its lines; a place, and a bound; and the place one turn before that with the records and the collapses before
/// it, over how many turns it is gone back from there to the bound, and the place then with the records before it. `-` stands for
/// no such place.
const TURNS: &str = "\
REPEAT 5 { | X 0 | M 0 | } = 80 = 633300
REPEAT 5 { | X 0 | M 0 | } = 83 = 633142
# in the first turn, before a block, and behind one | X 0 | REPEAT 2 { | X 0 | X 0 | } | X 0 = 20 = -
X 0 | X 0 | REPEAT 2 { | X 0 | } = 10 = -
REPEAT 3 { | X 0 | } | M 0 | X 0 = 40 = -
# behind a block in a turn, and in it | REPEAT 3 { | REPEAT 2 { | X 0 | } | M 0 | } = 80 = 511120
REPEAT 3 { | REPEAT 2 { | X 0 | } | M 0 | } = 70 = -
# feedback by a record of the turn before | M 0 | REPEAT 4 { | CX rec[-1] 0 | M 0 | } = 70 = -
# and of the turn | M 0 | REPEAT 4 { | CX rec[-1] 0 | M 0 | } = 80 = 633221
# a reset is a collapse without a record | REPEAT 4 { | R 0 | M 0 | } = 60 = 424200
REPEAT 3 { | X_ERROR(1) 0 1 | M 0 | } = 60 = 311100
";

/// A walk at a place, from the end.
fn walk_at<'a, 'p>(program: &'a Program<'p, Global>, place: usize) -> Walk<'a, 'p, Global> {
    let mut walk = Walk::end(program);
    for _ in place..walk.place() {
        let _ = walk.previous_step();
    }
    walk
}

// What a row says of a place, to this bound.
fn turns_before(later: &Walk<'_, '_, Global>, bound: usize) -> Option<[usize; 6]> {
    let mut walk = later.turn_before(true)?;
    let place = walk.place();
    if place < bound {
        return None;
    }
    let (records, collapses) = (walk.records(), walk.collapses() as usize);
    let turns = walk.pass_turns_back(later, bound);
    Some([
        place,
        records,
        collapses,
        turns,
        walk.place(),
        walk.records(),
    ])
}

fn is_digit(number: usize, digit: u8) -> bool {
    number < 10 && number as u8 + b'0' == digit
}

fn are_told(numbers: &[usize], told: &[u8]) -> bool {
    let mut all = numbers.len() == told.len();
    for (number, digit) in numbers.iter().zip(told.iter()) {
        all &= is_digit(*number, *digit);
    }
    all
}

fn row_holds(alloc: Global, row: &str) -> Result<bool, Fault> {
    let Some((circuit, places, told)) = parts_of(row) else {
        return Ok(false);
    };
    let &[place, bound] = places.as_bytes() else {
        return Ok(false);
    };
    let text = text_of(alloc, circuit)?;
    let program = read_program(alloc, text.as_slice())?;
    let later = walk_at(&program, place.saturating_sub(b'0') as usize);
    Ok(
        match turns_before(&later, bound.saturating_sub(b'0') as usize) {
            Some(numbers) => are_told(&numbers, told.as_bytes()),
            None => told == "-",
        },
    )
}

#[test]
fn turns_are_passed(rt: HostRuntime) {
    for row in TURNS.lines() {
        assert!(rt; matches!(row_holds(rt.alloc(), row), Ok(true)), "{row}");
    }
    assert!(rt; TURNS.lines().count() == 11);
}
