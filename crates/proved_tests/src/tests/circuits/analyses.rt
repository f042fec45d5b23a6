//! Circuits worked by hand, whose error models are written in parts of several sizes, by both trackers.
ghost use Rattle.std.specs.Prelude.{◌≡◌, length};
ghost use Rattle.step_model.specs.Targets.{targets_of};
ghost use Rattle.trackers.specs.Tracked.{fresh};

mod rows;

use crate::tests::words::{dense_words, sparse_words};
use backward::write_in_parts;
use circuit_walk::Program;
use rows::ROWS;
use std::alloc::{AllocError, Global};
use step_model::{Fault, MemorySink, Place};
use test_support::text_of;
use trackers::Tracker;
use unroll::read_program;

/// How much text of error lines is held at once: none, so that each step with a line is a cut; a line or two; a few; and all.
const ROOMS: [usize; 4] = [0, 30, 100, 10_000];

/// The lowest random target with its place, where there is one.
type Random = Option<(u32, Place)>;

/// Whether the analysis with these words, the identity for each target, writes the answer.
fn holds<T: Tracker + Drop>(
    alloc: Global,
    program: &Program<'_, Global>,
    words: T,
    room: usize,
    answer: &str,
) -> Result<bool, Fault>
    requires { T.tracked words
        ≡ fresh program.now.listing.qubits (length (targets_of program.now.listing)) }
{
    let mut sink = MemorySink::new(alloc);
    let random = write_in_parts(alloc, program, words, room, &mut sink)?;
    Ok(is_answer(alloc, random, sink.bytes(), answer)?)
}

/// Whether this text is the answer; or nothing is written, and this target is named with its place.
fn is_answer(
    alloc: Global,
    random: Random,
    written: &[u8],
    answer: &str,
) -> Result<bool, AllocError> {
    match random {
        None => {
            let text = text_of(alloc, answer)?;
            Ok(written == text.as_slice())
        }
        Some((which, place)) => {
            let named = name_of(alloc, which, place)?;
            Ok(written.is_empty() && named.as_str() == answer)
        }
    }
}

/// How a row names a target and its place.
fn name_of(alloc: Global, which: u32, place: Place) -> Result<String, AllocError> {
    match place {
        Place::Start(qubit) => format!(in alloc; "random {which} start {qubit}"),
        Place::After(collapse) => format!(in alloc; "random {which} after {collapse}"),
    }
}

fn all_hold(alloc: Global, program: &Program<'_, Global>, answer: &str) -> Result<bool, Fault> {
    for room in ROOMS {
        if !holds(alloc, program, sparse_words(&alloc, program)?, room, answer)? {
            return Ok(false);
        }
        if !holds(alloc, program, dense_words(alloc, program)?, room, answer)? {
            return Ok(false);
        }
    }
    Ok(true)
}

fn text_holds(alloc: Global, text: &[u8], answer: &str) -> Result<bool, Fault> {
    let program = read_program(alloc, text)?;
    all_hold(alloc, &program, answer)
}

fn row_holds(alloc: Global, row: &str) -> Result<bool, Fault> {
    let Some((circuit, answer)) = row.split_once(" = ") else {
        return Ok(false);
    };
    let text = text_of(alloc, circuit)?;
    text_holds(alloc, text.as_slice(), answer)
}

#[test]
fn circuits_of_the_table(rt: HostRuntime) {
    for row in ROWS.lines() {
        assert!(rt; matches!(row_holds(rt.alloc(), row), Ok(true)), "{row}");
    }
    assert!(rt; ROWS.lines().count() == 25);
}
