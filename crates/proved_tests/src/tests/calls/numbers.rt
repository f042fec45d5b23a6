//! The probabilities of a circuit by their numbers.
use std::alloc::Global;
use std::test::Fail;
use step_model::ChanceText;
use stim_parser::{Item, Numbered, Operation, TargetWord, parse};

/// A circuit with three texts of probabilities, of which the first comes again with blanks.
const CIRCUIT: &[u8] = b"\
X_ERROR(0.25) 0
M(0.5) 0
REPEAT 2 {
X_ERROR( 0.25 ) 1
}
H 0
E(.25) X0
M 0
M(.25) 0
";

/// The texts that are kept, with their bounds.
const TEXTS: [(&[u8], u128); 3] = [(b"0.25", 1 << 62), (b"0.5", 1 << 63), (b".25", 1 << 62)];

/// The number of each item's probability, where it has one.
const NUMBERS: [Option<u32>; 9] = [
    Some(0),
    Some(1),
    None,
    Some(0),
    None,
    None,
    Some(2),
    None,
    Some(2),
];

fn is_told(chance: ChanceText<'_>, told: (&[u8], u128)) -> bool {
    chance.text == told.0 && chance.bound == told.1
}

fn mark_is(item: Item<'_, '_>, number: Option<u32>) -> bool {
    match (item, number) {
        (Item::InstructionLine(instruction), Some(number)) => instruction.mark == number,
        (_, number) => number.is_none(),
    }
}

/// Whether the texts and the numbers are those of the circuit.
fn are_told(read: &Numbered<'_, Operation, TargetWord, Global>) -> bool {
    if read.texts.len() != TEXTS.len() || read.items.len() != NUMBERS.len() {
        return false;
    }
    let mut all = true;
    for i in 0..3 {
        all &= is_told(read.texts[i], TEXTS[i]);
    }
    for i in 0..9 {
        all &= mark_is(read.items.get(i), NUMBERS[i]);
    }
    all
}

#[test]
fn probabilities_are_numbered(rt: HostRuntime) -> Result<(), Fail> {
    let read = parse(rt.alloc(), CIRCUIT)?.numbered();
    assert!(rt; are_told(&read));
    Ok(())
}
