//! Whole orders, of which one growth is refused: the first, the second and so on, until none is.
use super::rows::{Row, rows};
use engine::{Status, serve};
use std::alloc::Global;
use step_model::{Fault, MemorySink, MemorySource};
use test_support::Scarce;

/// No row takes so many growths.
const MOST: u64 = 10_000;

/// How a row ends, and whether nothing is written or all of it.
#[derive(Clone, Copy)]
struct Outcome {
    end: Result<Status, Fault>,
    is_empty: bool,
    is_whole: bool,
}

/// What comes of a row of which one growth is refused: that growth is never asked for, or memory is told to have run out. That all
/// is done without it is wrong.
#[derive(Clone, Copy)]
enum Growth {
    Unasked,
    Told,
    Wrong,
}

/// Where this memory serves a row.
fn outcome_of(alloc: Global, memory: &Scarce<Global>, row: &Row) -> Outcome {
    let mut sink = MemorySink::new(alloc);
    let mut source = MemorySource::new(row.text.as_bytes());
    let end = serve(memory, &row.order, &mut source, &mut sink);
    Outcome {
        end,
        is_empty: sink.bytes().is_empty(),
        is_whole: row.is_written_as(sink.bytes()),
    }
}

/// Serves a row with one growth refused. All memory is had before the first byte goes out, and given back.
fn growth_of(alloc: Global, memory: &Scarce<Global>, row: &Row, growth: u64) -> Growth {
    memory.refuse(growth);
    let outcome = outcome_of(alloc, memory, row);
    let refused = memory.refusals() == 1;
    let done = outcome.end == Ok(row.status) && outcome.is_whole;
    let told = outcome.end == Err(Fault::MEMORY) && outcome.is_empty;
    if memory.held() != 0 {
        Growth::Wrong
    } else if refused && told {
        Growth::Told
    } else if !refused && done {
        Growth::Unasked
    } else {
        Growth::Wrong
    }
}

/// The first growth at which a row goes wrong, each being refused in turn; behind the last, where there are too few.
fn wrong_growth(alloc: Global, row: &Row) -> Option<u64> {
    let memory = Scarce::new(alloc);
    wrong_growth_in(alloc, &memory, row)
}

fn wrong_growth_in(alloc: Global, memory: &Scarce<Global>, row: &Row) -> Option<u64> {
    for growth in 1..MOST {
        match growth_of(alloc, memory, row, growth) {
            // The text is read, and something is made of it.
            Growth::Unasked => return if 2 < growth { None } else { Some(growth) },
            Growth::Told => {}
            Growth::Wrong => return Some(growth),
        }
    }
    Some(MOST)
}

#[test]
fn every_growth_is_refused_once(rt: HostRuntime) {
    for row in rows() {
        let growth = wrong_growth(rt.alloc(), row);
        assert!(rt; growth.is_none(), "growth {growth:?} of {}", row.output);
    }
}
