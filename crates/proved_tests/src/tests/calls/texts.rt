//! Whole texts: their items.
use std::alloc::{AllocError, Global};
use std::test::Fail;
use step_model::Fault;
use stim_parser::{
    Circuit, Item, Target, TargetWord, first_argument, first_number, laws, parse, read_coordinates,
};

/// A text, and its items, in order: of an instruction its line, its operation, its arguments and its targets, of the start of a
/// block its line and its turns. `<` is in front of a record so far back, and `;` ends the targets.
const WRITTEN: &[(&[u8], &str)] = &[
    (b"", ""),
    (b"# nothing\n\n \t\r\n#", ""),
    (b"H 0", "1 Applies(H) [] 0;"),
    (
        b"\r\n\tH 0 1\r\n\n# two\nM(0.1) !2\r",
        "2 Applies(H) [] 0 1; 5 Measurement(Z) [0.1] !2;",
    ),
    (b"REPEAT 2 {\n}", "1 x 2; end;"),
    (
        b"H 3\nREPEAT 2 {\n  M 3\n  REPEAT 005{ # five\n    H 4\n  }\n\n} # both\nTICK",
        "1 Applies(H) [] 3; 2 x 2; 3 Measurement(Z) [] 3; 4 x 5; 5 Applies(H) [] 4; end; end; 9 Tick [];",
    ),
    (
        b"REPEAT 1 {\n REPEAT 2 {\n }\n REPEAT 3 {\n }\n}\nREPEAT 999999999999999999 {\n}\n",
        "1 x 1; 2 x 2; end; 4 x 3; end; end; 7 x 999999999999999999; end;",
    ),
    (
        b"H[a # b { } [] 0\nM[}](0.2)1",
        "1 Applies(H) [] 0; 2 Measurement(Z) [0.2] 1;",
    ),
    (
        b"DETECTOR( 1 , -2,007 ) rec[-1] rec[-03]",
        "1 DetectorDeclaration [ 1 , -2,007 ] <1 <3;",
    ),
    (
        b"OBSERVABLE_INCLUDE(01023)\nE(0.1) X1 z2\nMPP X0*Y1",
        "1 ObservableInclude [01023]; 2 CorrelatedError [0.1] X1 Z2; 3 ProductMeasurement [] X0 * Y1;",
    ),
    (b"CX[x] () rec[-2] 3 # x", "1 Applies(CX) [] <2 3;"),
    (b"cx rec[-1] 2 0 1", "1 Applies(CX) [] <1 2 0 1;"),
    (
        b"X_ERROR(1) 4\nRY 1\nMRX 2\nQUBIT_COORDS(1.5) 0\nSHIFT_COORDS(1)",
        "1 PauliError(X) [1] 4; 2 QubitReset(Y) [] 1; 3 MeasurementReset(X) [] 2; 4 QubitCoordinates [1.5] 0; \
         5 CoordinateShift [1];",
    ),
    (
        b"M 0 !1 4095 !4095\nE(0.1) X4095 y0\nMPP !Z4095*X1 !Y2*Z3",
        "1 Measurement(Z) [] 0 !1 4095 !4095; 2 CorrelatedError [0.1] X4095 Y0; \
         3 ProductMeasurement [] !Z4095 * X1 !Y2 * Z3;",
    ),
    (
        b"DETECTOR rec[-65535] rec[-65536]\nCX rec[-70000] 1\nDETECTOR rec[-1]",
        "1 DetectorDeclaration [] <65535 <65536; 2 Applies(CX) [] <70000 1; 3 DetectorDeclaration [] <1;",
    ),
    (
        b"CX 5 6 rec[-65536] 7 rec[-2] 8\nCZ 9 rec[-4294967296]\n\
            DETECTOR rec[-3] rec[-999999999999999999] rec[-65536] rec[-4]",
        "1 Applies(CX) [] 5 6 <65536 7 <2 8; 2 Applies(CZ) [] 9 <4294967296; \
         3 DetectorDeclaration [] <3 <999999999999999999 <65536 <4;",
    ),
];

fn target_words(alloc: Global, target: Target) -> Result<String, AllocError> {
    match target {
        Target::Plain(number) => format!(in alloc; " {}", number),
        Target::Inverted(qubit) => format!(in alloc; " !{}", qubit),
        Target::Back(back) => format!(in alloc; " <{}", back),
        Target::Pauli(inverted, letter, qubit) => {
            let sign = if inverted { "!" } else { "" };
            format!(in alloc; " {sign}{letter:?}{}", qubit)
        }
        Target::Star => String::from_str(alloc, " *"),
    }
}

fn put_target(alloc: Global, text: &mut String, target: Target) -> Result<(), AllocError> {
    let words = target_words(alloc, target)?;
    text.push_str(words.as_str())
}

/// Puts the targets.
fn put_targets(alloc: Global, text: &mut String, targets: &[TargetWord]) -> Result<(), AllocError> {
    for target in targets {
        put_target(alloc, text, target.get())?;
    }
    text.push_str(";")
}

/// What stands in front of an item's targets.
fn item_words(alloc: Global, item: Item<'_, '_>) -> Result<String, AllocError> {
    match item {
        Item::InstructionLine(found) => {
            let arguments = str::from_utf8(found.arguments).unwrap_or("no text");
            format!(in alloc; "{} {:?} [{arguments}]", found.line, found.operation)
        }
        Item::BlockStart { line, turns } => format!(in alloc; "{line} x {turns};"),
        Item::BlockEnd => String::from_str(alloc, "end;"),
    }
}

fn put_item(alloc: Global, text: &mut String, item: Item<'_, '_>) -> Result<(), AllocError> {
    let words = item_words(alloc, item)?;
    text.push_str(words.as_str())?;
    match item {
        Item::InstructionLine(found) => put_targets(alloc, text, found.targets),
        _ => Ok(()),
    }
}

/// Puts the items, with a blank between them.
fn put_items(
    alloc: Global,
    text: &mut String,
    circuit: &Circuit<'_, Global>,
) -> Result<(), AllocError> {
    for i in 0..circuit.len() {
        if 0 < i {
            text.push_str(" ")?;
        }
        put_item(alloc, text, circuit.item(i))?;
    }
    Ok(())
}

fn says(alloc: Global, circuit: &Circuit<'_, Global>, wanted: &str) -> Result<bool, AllocError> {
    let mut text = String::new(alloc);
    put_items(alloc, &mut text, circuit)?;
    Ok(text.as_str() == wanted && circuit.is_empty() == wanted.is_empty())
}

fn is_written(alloc: Global, text: &[u8], wanted: &str) -> Result<bool, Fault> {
    laws::texts_are_judged_once();
    laws::texts_write_circuits();
    laws::trees_are_told_apart();
    laws::circuits_are_written();
    let circuit = parse(alloc, text)?;
    circuit.fits();
    Ok(says(alloc, &circuit, wanted)?)
}

#[test]
fn texts_write_their_items(rt: HostRuntime) {
    for (text, wanted) in WRITTEN {
        assert!(rt;
            matches!(is_written(rt.alloc(), text, wanted), Ok(true)),
            "{wanted}"
        );
    }
}

/// The arguments of the instruction at a place, where there is one.
pub(super) fn arguments_of<'a>(circuit: &Circuit<'a, Global>, place: usize) -> Option<&'a [u8]> {
    match circuit.get(place) {
        Some(Item::InstructionLine(instruction)) => Some(instruction.arguments),
        _ => None,
    }
}

const ARGUMENTS: &[u8] =
    b"DETECTOR( 1 , -2,-0,007)\nOBSERVABLE_INCLUDE( 01023 )\nQUBIT_COORDS(1.5)\nDETECTOR()";

/// The first argument of each of these, the number that it is, and the coordinates, which have to be whole.
const TOLD: [(Option<&[u8]>, Option<u64>, Option<&[i64]>); 4] = [
    (Some(b"1"), Some(1), Some(&[1, -2, 0, 7])),
    (Some(b"01023"), Some(1023), Some(&[1023])),
    (Some(b"1.5"), None, None),
    (None, None, Some(&[])),
];

fn coordinates_are(arguments: &[u8], wanted: Option<&[i64]>) -> bool {
    match (read_coordinates(arguments), wanted) {
        (Some(coordinates), Some(wanted)) => coordinates.as_slice() == wanted,
        (None, None) => true,
        _ => false,
    }
}

fn are_read(circuit: &Circuit<'_, Global>) -> bool {
    let mut all = circuit.len() == TOLD.len();
    for (place, (first, number, coordinates)) in TOLD.iter().enumerate() {
        let arguments = arguments_of(circuit, place).unwrap_or(b"not there");
        all &= first_argument(arguments) == *first;
        all &= first_number(arguments) == *number;
        all &= coordinates_are(arguments, *coordinates);
    }
    all
}

#[test]
fn arguments_are_read(rt: HostRuntime) -> Result<(), Fail> {
    let circuit = parse(rt.alloc(), ARGUMENTS)?;
    assert!(rt; are_read(&circuit));
    Ok(())
}
