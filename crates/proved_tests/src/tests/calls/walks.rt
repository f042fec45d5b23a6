//! Walks over small circuits, step by step against lists that were written out by hand; takers take the same steps, and undoers
//! undo them.

use crate::tests::calls::step_words::{digit, is_step};
use crate::tests::calls::takers::{takes_each_fault, takes_steps};
use crate::tests::calls::undoers::undoes_steps;
use crate::tests::tables::parts_of;
use circuit_walk::{Program, Walk};
use std::alloc::{AllocError, Global};
use std::test::Fail;
use step_model::Fault;
use test_support::text_of;
use unroll::laws::texts_stand_for_trees;
use unroll::read_program;

/// A row a circuit: its lines, how many records and how many faults it has, and its steps as words.
const ROWS: &str = "\
REPEAT 2 { | REPEAT 2 { | X 0 | M 0 | } | X 0 | } = 40 = X M0 X M1 X X M2 X M3 X
REPEAT 1 { | M 0 | } = 10 = M0
REPEAT 2 { | M 0 | } | REPEAT 3 { | X 0 | } = 20 = M0 M1 X X X
REPEAT 2 { | X 0 | } | M 0 | REPEAT 2 { | X 0 | } = 10 = X X M0 X X
# no step = 00 = -
REPEAT 64000000 { | } = 00 = -
REPEAT 2 { | REPEAT 1000000 { | REPEAT 7 { | } | } | M 0 | REPEAT 9 { | } | } = 20 = M0 M1
# a fault's number, and that of its probability, at each turn of the inner block | REPEAT 2 { | M(0.5) 0 | REPEAT 2 { | \
X_ERROR(1) 0 | } | } = 26 = M000 F11X0 F21X0 M130 F41X0 F51X0
# the second turn's feedback is by the record of the first | M 0 | REPEAT 2 { | M 0 | CX rec[-2] 0 | } = 30 = M0 M1 B0 M2 B1
REPEAT 2 { | MPP !X0*Z1 | } = 20 = N0X0Z1 N1X0Z1
# in a block's first turn the last record is of the turn before of the block around it | M 0 | REPEAT 2 { | REPEAT 2 { | \
CX rec[-1] 0 | M 0 | } | } = 50 = M0 B0 M1 B1 M2 B2 M3 B3 M4
# a reset has no record; the fault behind the product has the number after its flip's | REPEAT 2 { | R 0 | CX 0 1 | \
MPP(0.25) X0*Z1 | X_ERROR(1) 0 | } = 24 = R C P000X0Z1 F11X0 R C P120X0Z1 F31X0
# letters in the order of their targets, a qubit twice | E(0.5) Z2 X0 Y2 | MPP X0*Y1 !Z0 = 21 = F00Z2X0Y2 P0X0Y1 N1Z0
";

/// Goes over the next step. Whether it is the one that a word names.
fn is_next(walk: &mut Walk<'_, '_, Global>, word: &[u8]) -> bool {
    match walk.next_step() {
        Some(step) => is_step(step, word),
        None => word == b"-".as_slice(),
    }
}

/// Goes back over the step before. Whether it is the one that a word names.
fn is_previous(walk: &mut Walk<'_, '_, Global>, word: &[u8]) -> bool {
    match walk.previous_step() {
        Some(step) => is_step(step, word),
        None => word == b"-".as_slice(),
    }
}

// Goes over each step forth, back and forth again, and then back to the start.
fn walks_over(program: &Program<'_, Global>, words: &str) -> bool {
    let mut walk = Walk::start(program);
    let mut all = true;
    for word in words.split_whitespace() {
        all &= is_next(&mut walk, word.as_bytes());
        all &= is_previous(&mut walk, word.as_bytes());
        all &= is_next(&mut walk, word.as_bytes());
    }
    all &= walk.next_step().is_none();
    for word in words.split_whitespace().rev() {
        all &= is_previous(&mut walk, word.as_bytes());
    }
    all & walk.previous_step().is_none()
}

// The same from the end.
fn walks_back_over(program: &Program<'_, Global>, words: &str) -> bool {
    let mut walk = Walk::end(program);
    let mut all = walk.next_step().is_none();
    for word in words.split_whitespace().rev() {
        all &= is_previous(&mut walk, word.as_bytes());
        all &= is_next(&mut walk, word.as_bytes());
        all &= is_previous(&mut walk, word.as_bytes());
    }
    all &= walk.previous_step().is_none();
    for word in words.split_whitespace() {
        all &= is_next(&mut walk, word.as_bytes());
    }
    all & walk.next_step().is_none()
}

/// Whether a program has as many records and faults as these two digits say, and the steps.
fn is_of_row(program: &Program<'_, Global>, counts: &str, words: &str) -> bool {
    (Some(program.record_count()) == digit(counts.as_bytes(), 0))
        & (Some(program.fault_count()) == digit(counts.as_bytes(), 1))
        & walks_over(program, words)
        & walks_back_over(program, words)
        & takes_steps(program, words)
        & undoes_steps(program, words)
        & takes_each_fault(program, words)
}

fn text_holds(alloc: Global, text: &[u8], (counts, words): (&str, &str)) -> Result<bool, Fault> {
    texts_stand_for_trees();
    let program = read_program(alloc, text)?;
    Ok(is_of_row(&program, counts, words))
}

/// Whether a circuit, of which `|` ends each line, has these counts and steps.
fn circuit_holds(alloc: Global, circuit: &str, told: (&str, &str)) -> Result<bool, Fault> {
    let text = text_of(alloc, circuit)?;
    text_holds(alloc, text.as_slice(), told)
}

fn row_holds(alloc: Global, row: &str) -> Result<bool, Fault> {
    match parts_of(row) {
        Some((circuit, counts, words)) => circuit_holds(alloc, circuit, (counts, words)),
        None => Ok(false),
    }
}

#[test]
fn rows_of_the_table(rt: HostRuntime) {
    for row in ROWS.lines() {
        assert!(rt; matches!(row_holds(rt.alloc(), row), Ok(true)), "{row}");
    }
    assert!(rt; ROWS.lines().count() == 13);
}

/// A row a circuit: its lines; a bound, and the place where a walk from the end is that passes over faults to that bound; and
/// the step after this place.
const PASSES: &str = "\
# over the turns of a block, to the gate | X 0 | X_ERROR(1) 0 | REPEAT 2 { | X_ERROR(1) 1 2 | } | X_ERROR(1) 3 = 01 = F00X0
# to the bound | X 0 | X_ERROR(1) 0 | REPEAT 2 { | X_ERROR(1) 1 2 | } | X_ERROR(1) 3 = 44 = F30X1
X_ERROR(1) 0 | REPEAT 2 { | X_ERROR(1) 0 | } = 00 = F00X0
# the flip of a record is no fault of its own | REPEAT 3 { | M(0.5) 0 | X_ERROR(1) 0 | } = 05 = F51X0
X_ERROR(1) 0 | X 0 = 02 = -
X_ERROR(1) 0 1 2 = 33 = -
";

// Whether a walk from the end passes over faults to this place, and the step after it is this one.
fn passes_to(program: &Program<'_, Global>, places: &[u8], word: &[u8]) -> bool {
    let (Some(from), Some(place)) = (digit(places, 0), digit(places, 1)) else {
        return false;
    };
    let mut walk = Walk::end(program);
    if walk.place() < from as usize {
        return false;
    }
    walk.pass_faults_back(from as usize);
    walk.place() == place as usize && is_next(&mut walk, word)
}

fn pass_holds(alloc: Global, row: &str) -> Result<bool, Fault> {
    match parts_of(row) {
        Some((circuit, places, word)) => {
            let text = text_of(alloc, circuit)?;
            let program = read_program(alloc, text.as_slice())?;
            Ok(passes_to(&program, places.as_bytes(), word.as_bytes()))
        }
        None => Ok(false),
    }
}

#[test]
fn passes_over_faults(rt: HostRuntime) {
    for row in PASSES.lines() {
        assert!(rt; matches!(pass_holds(rt.alloc(), row), Ok(true)), "{row}");
    }
    assert!(rt; PASSES.lines().count() == 6);
}

/// A measurement in three blocks of two turns inside 29 of one.
fn nested(alloc: Global) -> Result<String, AllocError> {
    let mut text = String::new(alloc);
    for level in 0..32 {
        text.push_str(if level < 29 {
            "REPEAT 1 {|"
        } else {
            "REPEAT 2 {|"
        })?;
    }
    text.push_str("M 0|")?;
    for _ in 0..32 {
        text.push_str("}|")?;
    }
    Ok(text)
}

#[test]
fn blocks_of_thirty_two_levels(rt: HostRuntime) -> Result<(), Fail> {
    let circuit = nested(rt.alloc())?;
    let told = ("80", "M0 M1 M2 M3 M4 M5 M6 M7");
    assert!(rt; circuit_holds(rt.alloc(), circuit.as_str(), told)?);
    Ok(())
}
