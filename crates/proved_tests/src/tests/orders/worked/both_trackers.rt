//! The rows that are analysed, by both trackers, which find the same: a model where the row has one, and else a random target.
use super::{TABLES, parts_of};
use crate::tests::findings::{Finding, found_by_both};
use std::alloc::Global;
use std::process::Abort;
use step_model::Fault;
use test_support::text_of;
use unroll::read_program;

/// What a row says that both trackers find, where its order is an analysis and its text is accepted.
fn told_of(orders: &str, status: &str) -> Option<Finding> {
    match (orders, status) {
        ("analyze", "0") => Some(Finding::Model),
        ("analyze", "3") => Some(Finding::Random),
        _ => None,
    }
}

fn is_found(alloc: Global, text: &[u8], told: Finding) -> Result<bool, Fault> {
    let program = read_program(alloc, text)?;
    Ok(found_by_both(alloc, &program)? == told)
}

fn text_holds(alloc: Global, text: &str, told: Finding) -> Result<bool, Fault> {
    let text = text_of(alloc, text)?;
    is_found(alloc, text.as_slice(), told)
}

/// Whether both trackers find what a row says; none where it is of another order, or refused.
fn row_holds(alloc: Global, row: &str) -> Option<bool> {
    let (orders, text, (_, status)) = parts_of(row)?;
    let told = told_of(orders, status)?;
    Some(matches!(text_holds(alloc, text, told), Ok(true)))
}

/// How many of the rows are analysed. Each of these holds.
fn check_rows(rt: &impl Abort, alloc: Global, rows: &str) -> u64 {
    let mut analysed = 0u64;
    for row in rows.lines() {
        if let Some(holds) = row_holds(alloc, row) {
            assert!(rt; holds, "{row}");
            analysed = analysed.saturating_add(1);
        }
    }
    analysed
}

#[test]
fn analysed_rows(rt: HostRuntime) {
    let mut analysed = 0u64;
    for (rows, _) in TABLES {
        analysed = analysed.saturating_add(check_rows(&rt, rt.alloc(), rows));
    }
    assert!(rt; analysed == 42);
}

/// A thousand turns, in each of which a fault flips that turn's detector alone.
const TURNS: &[u8] = b"REPEAT 1000 {\nX_ERROR(0.001) 0\nMR 0\nDETECTOR rec[-1]\n}\n";

#[test]
fn a_thousand_turns(rt: HostRuntime) {
    assert!(rt; matches!(is_found(rt.alloc(), TURNS, Finding::Model), Ok(true)));
}
