//! Shots that all write one line, whatever is drawn: as many as go side by side, and one less or more.
use super::writes;
use engine::Order;
use std::alloc::{AllocError, Global};
use std::test::Fail;
use test_support::text_of;

/// A text, the line of each shot that is sampled, and that of its detections, with ` = ` between them. As in `rows.rt`,
/// `|` ends a line, and a line that begins with `#` is no row.
const ROWS: &str = "\
X 0|M 0|DETECTOR rec[-1]| = 1| = 0|
 = | = |
X_ERROR(1) 0|X_ERROR(0) 1|M 0 1| = 10| = |
X_ERROR(1) 0|M 0|DETECTOR rec[-1]| = 1| = 1|
R 0 1|REPEAT 2 {|X_ERROR(1) 0|CX 0 1|MR 1|DETECTOR(0, 0) rec[-1]|SHIFT_COORDS(0, 1)|}|M 0|\
    OBSERVABLE_INCLUDE(0) rec[-1]| = 100| = 100|
# The letters of an error come together, each at a state that it turns.
RX 2|E(1) X0 Y1 Z2|M 0 !1|MX 2|DETECTOR rec[-1]|DETECTOR rec[-2] rec[-3]| = 101| = 10|
# A reset goes by what was measured, and neither by what is inverted nor by a flip.
RY 0|Z_ERROR(1) 0|MRY !0|MY 0|MRY(1) 0|MY 0| = 0010| = |
RX 1|MR(1) !0|MRX(0) 1|M 0|MX 1|DETECTOR rec[-4]| = 0000| = 1|
# A Bell pair, in which X0*X1 and Z0*Z1 are 0, and Y0*Y1 is 1.
H 0|CX 0 1|MPP(1) X0*X1 !Z0*Z1|MPP Y0*Y1|DETECTOR rec[-1] rec[-2]| = 101| = 1|
# Records are fed back flipped.
X 0|M(1) 0|CX rec[-1] 1 rec[-1] 0|M 0 1|DETECTOR rec[-2]|DETECTOR rec[-1]| = 010| = 11|
# A detector and observables without records.
OBSERVABLE_INCLUDE(2)|M(1) 0|DETECTOR| = 1| = 0000|";

/// Numbers of shots about those that go side by side.
const COUNTS: [usize; 9] = [0, 1, 2, 63, 64, 65, 127, 128, 130];

/// As many shots as an order may ask for.
const MOST: usize = 1_000_000;

#[test]
fn shots_that_are_alike(rt: HostRuntime) -> Result<(), Fail> {
    let mut read = 0u64;
    for row in ROWS.lines() {
        if !row.starts_with('#') {
            assert!(rt; row_holds(rt.alloc(), row)?, "{row}");
            read = read.saturating_add(1);
        }
    }
    assert!(rt; read == 11);
    Ok(())
}

#[test]
fn a_million_shots(rt: HostRuntime) {
    assert!(rt; shots_hold(rt.alloc(), MOST, b"", ("|", "|")));
}

fn row_holds(alloc: Global, row: &str) -> Result<bool, AllocError> {
    match parts_of(row) {
        Some((text, lines)) => text_holds(alloc, text, lines),
        None => Ok(false),
    }
}

/// A row's text, and its two lines.
fn parts_of(row: &str) -> Option<(&str, (&str, &str))> {
    let (text, rest) = row.split_once(" = ")?;
    let lines = rest.split_once(" = ")?;
    Some((text, lines))
}

fn text_holds(alloc: Global, text: &str, lines: (&str, &str)) -> Result<bool, AllocError> {
    let text = text_of(alloc, text)?;
    Ok(all_hold(alloc, text.as_slice(), lines))
}

/// Whether each number of shots writes these lines.
fn all_hold(alloc: Global, text: &[u8], lines: (&str, &str)) -> bool {
    for shots in COUNTS {
        if !shots_hold(alloc, shots, text, lines) {
            return false;
        }
    }
    true
}

/// Whether so many shots of a text write these lines, sampled and detected.
fn shots_hold(alloc: Global, count: usize, text: &[u8], (sample, detect): (&str, &str)) -> bool {
    let (shots, seed) = (count as u64, 0);
    let sampled = writes(alloc, &Order::Sample { shots, seed }, text, (sample, count));
    let detected = writes(alloc, &Order::Detect { shots, seed }, text, (detect, count));
    sampled == Some(0) && detected == Some(0)
}
