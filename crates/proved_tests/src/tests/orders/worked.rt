//! Whole orders over memory, worked by hand: what is asked of a text, what is written, and the exit status.
mod alike;
mod both_trackers;
mod drawn;
mod nested;
mod rows;

use engine::{Order, exit_status, serve};
use rows::{BLOCKS, COLLAPSES, FAULTS, FEEDBACK, LISTS, PREDICTIONS, PRODUCTS, REFUSALS, SHOTS};
use std::alloc::{AllocError, Global};
use std::process::Abort;
use std::test::Fail;
use step_model::{MemorySink, MemorySource};
use test_support::text_of;

/// The texts of rows, and how many each has.
const TABLES: [(&str, u64); 9] = [
    (BLOCKS, 10),
    (COLLAPSES, 30),
    (FAULTS, 23),
    (FEEDBACK, 7),
    (PRODUCTS, 11),
    (LISTS, 12),
    (PREDICTIONS, 53),
    (REFUSALS, 55),
    (SHOTS, 29),
];

#[test]
fn rows_of_the_tables(rt: HostRuntime) -> Result<(), Fail> {
    for (rows, count) in TABLES {
        check_rows(&rt, rt.alloc(), rows, count)?;
    }
    Ok(())
}

/// Each of so many rows holds. A line that begins with `#` is none.
fn check_rows(rt: &impl Abort, alloc: Global, rows: &str, count: u64) -> Result<(), Fail> {
    let mut read = 0u64;
    for row in rows.lines() {
        if !row.starts_with('#') {
            assert!(rt; row_holds(alloc, row)?, "{row}");
            read = read.saturating_add(1);
        }
    }
    assert!(rt; read == count);
    Ok(())
}

fn row_holds(alloc: Global, row: &str) -> Result<bool, AllocError> {
    match parts_of(row) {
        Some((orders, text, written)) => orders_hold(alloc, orders, text, written),
        None => Ok(false),
    }
}

/// A row's orders, its text, and what is written with the exit status.
fn parts_of(row: &str) -> Option<(&str, &str, (&str, &str))> {
    let (orders, rest) = row.split_once(" = ")?;
    let (text, rest) = rest.split_once(" = ")?;
    let written = rest.split_once(" = ")?;
    Some((orders, text, written))
}

fn orders_hold(
    alloc: Global,
    orders: &str,
    text: &str,
    written: (&str, &str),
) -> Result<bool, AllocError> {
    let text = text_of(alloc, text)?;
    Ok(all_hold(alloc, orders, text.as_slice(), written))
}

/// Whether each of these orders on a text writes this.
fn all_hold(alloc: Global, orders: &str, text: &[u8], written: (&str, &str)) -> bool {
    for words in orders.split(", ") {
        if !words_hold(alloc, words, text, written) {
            return false;
        }
    }
    true
}

fn words_hold(alloc: Global, words: &str, text: &[u8], (lines, status): (&str, &str)) -> bool {
    match (order_of(words), status.parse().ok()) {
        (Some(order), Some(status)) => writes(alloc, &order, text, (lines, 1)) == Some(status),
        _ => false,
    }
}

/// The exit status of an order, where it writes these lines so many times over.
fn writes(alloc: Global, order: &Order<'_>, text: &[u8], written: (&str, usize)) -> Option<u8> {
    let mut sink = MemorySink::new(alloc);
    let mut source = MemorySource::new(text);
    let end = serve(alloc, order, &mut source, &mut sink);
    is_repeated(sink.bytes(), written).then_some(exit_status(end))
}

/// Whether these bytes are lines, each ended by `|`, so many times over.
fn is_repeated(bytes: &[u8], (lines, times): (&str, usize)) -> bool {
    let lines = lines.as_bytes();
    for (place, byte) in bytes.iter().enumerate() {
        let shown = if *byte == b'\n' { b'|' } else { *byte };
        if byte_at(lines, place) != Some(shown) {
            return false;
        }
    }
    lines.len().checked_mul(times) == Some(bytes.len())
}

/// The byte at a place of a piece that is repeated.
fn byte_at(piece: &[u8], place: usize) -> Option<u8> {
    let place = place.checked_rem(piece.len())?;
    piece.get(place).copied()
}

/// The order of the words of a command line.
fn order_of(words: &str) -> Option<Order<'_>> {
    if words == "analyze" {
        Some(Order::Analyze)
    } else if words == "faults" {
        Some(Order::Faults)
    } else if words.starts_with("run") {
        Some(run_of(words))
    } else if words.starts_with("predict") {
        let lines = value_of(words, " --lines ").unwrap_or("").as_bytes();
        Some(Order::Predict { lines })
    } else {
        shots_of(words)
    }
}

fn run_of(words: &str) -> Order<'_> {
    let coins = value_of(words, " --coins ").map(|coins| coins.as_bytes());
    let faults = value_of(words, " --faults ").unwrap_or("").as_bytes();
    Order::Run { coins, faults }
}

fn shots_of(words: &str) -> Option<Order<'_>> {
    let shots = value_of(words, " --shots ")?.parse().ok()?;
    let seed = value_of(words, " --seed ")?.parse().ok()?;
    if words.starts_with("sample") {
        Some(Order::Sample { shots, seed })
    } else if words.starts_with("detect") {
        Some(Order::Detect { shots, seed })
    } else {
        None
    }
}

/// What stands behind an option, up to the next one.
fn value_of<'w>(words: &'w str, option: &str) -> Option<&'w str> {
    let (_, rest) = words.split_once(option)?;
    match rest.split_once(" --") {
        Some((value, _)) => Some(value),
        None => Some(rest),
    }
}
