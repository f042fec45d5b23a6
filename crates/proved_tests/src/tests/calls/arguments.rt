//! Whether there is an argument between the parentheses of an instruction, and which is the first.
use super::texts::arguments_of;
use std::alloc::Global;
use std::process::Abort;
use std::test::Fail;
use stim_parser::{Circuit, first_argument, parse};

/// Lines, and whether each has an argument.
const LINES: &[u8] = b"M 0\nM() 0\nM( \t) 0\nM(0.5) 0\nM( 0) 0\nDETECTOR(1, 2)\n";

const THERE: [bool; 6] = [false, false, false, true, true, true];

/// What stands between parentheses, and the first argument there, where there is one.
const FIRST: [(&[u8], Option<&[u8]>); 6] = [
    (b"0.5", Some(b"0.5")),
    (b" 1\t, 2", Some(b"1")),
    (b"1 2 ,", Some(b"1 2")),
    (b" ,2", Some(b"")),
    (b"", None),
    (b" \t", None),
];

fn has_argument(circuit: &Circuit<'_, Global>, place: usize) -> Option<bool> {
    let arguments = arguments_of(circuit, place)?;
    Some(stim_parser::has_argument(arguments))
}

fn are_told(circuit: &Circuit<'_, Global>) -> bool {
    let mut all = circuit.len() == THERE.len();
    for (place, there) in THERE.iter().enumerate() {
        all &= has_argument(circuit, place) == Some(*there);
    }
    all
}

#[test]
fn arguments_are_told(rt: HostRuntime) -> Result<(), Fail> {
    let circuit = parse(rt.alloc(), LINES)?;
    assert!(rt; are_told(&circuit));
    Ok(())
}

#[test]
fn first_arguments_are_found(rt: HostRuntime) {
    for (text, first) in FIRST {
        assert!(rt; first_argument(text) == first);
    }
}
