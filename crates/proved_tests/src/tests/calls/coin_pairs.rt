//! Circuits small enough to carry their frames by hand.
ghost use Rattle.std.specs.Prelude.{◌≡◌, length, IfOk};

use crate::tests::tables::{are_coins, are_digits};
use circuit_walk::Program;
use frames::{coin_pair, flips};
use pauli_word::{Letter, Word};
use run_laws::shift;
use std::alloc::{AllocError, Global};
use step_model::{Fault, Place};
use test_support::text_of;
use unroll::read_program;

/// A circuit, a place of it, and the second coin list of the place's pair. The first is as many zeros.
const PAIRS: &[(&str, Place, &str)] = &[
    ("H 0 | M 0", Place::Start(0), "1"),
    // The frame flips the reset, and is cleared there.
    ("H 0 | CX 0 1 | R 0 | M 1 0", Place::Start(0), "110"),
    // The frame begins behind the collapse and its reset, which doesn't clear it.
    ("MX 0 | M 0", Place::After(0), "01"),
    ("RX 0 | M 0", Place::After(0), "01"),
    // From the second qubit.
    ("H 0 1 | M 0 1", Place::Start(1), "01"),
    // A block of two turns and a last measurement.
    ("REPEAT 2 { | M 0 | H 0 | } | M 0", Place::After(1), "001"),
    ("REPEAT 2 { | M 0 | H 0 | } | M 0", Place::After(0), "010"),
    // The flipped record takes X at qubit 1 into the frame.
    ("H 0 | M 0 | CX rec[-1] 1 | M 1", Place::Start(0), "11"),
];

fn has_pair(
    alloc: Global,
    program: &Program<'_, Global>,
    place: Place,
    coins: &str,
) -> Result<bool, Fault> {
    let (zeros, second) = coin_pair(alloc, program, place)?;
    Ok(are_coins((zeros.as_slice(), second.as_slice()), coins))
}

fn text_has_pair(alloc: Global, text: &[u8], place: Place, coins: &str) -> Result<bool, Fault> {
    let program = read_program(alloc, text)?;
    has_pair(alloc, &program, place, coins)
}

fn is_pair(alloc: Global, row: (&str, Place, &str)) -> Result<bool, Fault> {
    let text = text_of(alloc, row.0)?;
    text_has_pair(alloc, text.as_slice(), row.1, row.2)
}

fn call_laws() {
    shift::frames_shift_runs();
    shift::words_of_states_shift_runs();
    shift::frames_multiply();
    shift::pair_disagrees();
    shift::place_makes_random();
    shift::random_exactly_with_place();
}

#[test]
fn pairs_of_the_table(rt: HostRuntime) {
    call_laws();
    for row in PAIRS {
        assert!(rt;
            matches!(is_pair(rt.alloc(), *row), Ok(true)),
            "of {}",
            row.0
        );
    }
}

/// A circuit, and the flips of the frame that begins at a place as a letter at qubit 0, with sign minus.
const FLIPS: &[(&str, Place, Letter, &str)] = &[
    // Behind that record there is none that the frame flips.
    (
        "H 0 | M 0 | CX rec[-1] 1 | M 1",
        Place::After(0),
        Letter::X,
        "00",
    ),
    // By the gate and not its inverse: X becomes Y, Y becomes Z, Z becomes X.
    ("C_XYZ 0 | M 0", Place::Start(0), Letter::X, "1"),
    ("C_XYZ 0 | M 0", Place::Start(0), Letter::Y, "0"),
    ("C_XYZ 0 | M 0", Place::Start(0), Letter::Z, "1"),
];

// A letter at qubit 0, with sign minus.
fn lone(
    alloc: Global,
    program: &Program<'_, Global>,
    letter: Letter,
) -> Result<Word<Global>, AllocError>
    ensures { IfOk result (λ word. length word.letters ≡ program.now.listing.qubits) }
{
    let mut word = Word::identity(alloc, program.qubits() as usize)?;
    if 0 < program.qubits() {
        word.set_letter(0, letter);
    }
    word.set_sign(true);
    Ok(word)
}

fn word_has_flips(
    alloc: Global,
    program: &Program<'_, Global>,
    word: &Word<Global>,
    place: Place,
    digits: &str,
) -> Result<bool, Fault>
    requires { length word.now.letters ≡ program.now.listing.qubits }
{
    let flips = flips(alloc, program, place, word)?;
    Ok(are_digits(flips.as_slice(), digits))
}

fn has_flips(
    alloc: Global,
    program: &Program<'_, Global>,
    (place, letter): (Place, Letter),
    digits: &str,
) -> Result<bool, Fault> {
    let word = lone(alloc, program, letter)?;
    word_has_flips(alloc, program, &word, place, digits)
}

fn text_has_flips(
    alloc: Global,
    text: &[u8],
    frame: (Place, Letter),
    digits: &str,
) -> Result<bool, Fault> {
    let program = read_program(alloc, text)?;
    has_flips(alloc, &program, frame, digits)
}

fn are_flips(alloc: Global, row: (&str, Place, Letter, &str)) -> Result<bool, Fault> {
    let text = text_of(alloc, row.0)?;
    text_has_flips(alloc, text.as_slice(), (row.1, row.2), row.3)
}

#[test]
fn flips_of_the_table(rt: HostRuntime) {
    for row in FLIPS {
        assert!(rt;
            matches!(are_flips(rt.alloc(), *row), Ok(true)),
            "of {}",
            row.0
        );
    }
}
