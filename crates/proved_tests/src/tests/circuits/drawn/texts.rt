//! Circuits that are drawn from a generator.
//!
//! Each qubit begins with a letter of its own, which the state holds with some sign. A turn undoes its gates, among which faults
//! stand, so that products of these letters are decided: checks measure them, and their detectors aren't random. Before each block
//! a qubit is measured in any letter, which is fed back to it, and reset to its own. In a loose circuit it may stay as it is, and
//! another qubit is fed: there detectors may be random.
use super::words::{below, inversion, one_of, put, word_at};
use rand_core::SeedableRng;
use rand_core::utils::NextWord;
use rand_pcg::Pcg64;
use std::alloc::{AllocError, Global};

const LETTERS: &str = "X Y Z";

const NUMBERS: &str = "0 1 2 3 4 5 6 7 8";

const CHANCES: &str = "0 0.001 .25 0.5 1e-3 0.125";

/// Names of gates, by how many qubits they act on.
struct Names {
    one: &'static str,
    two: &'static str,
}

const GATES: Names = Names {
    one: "I X Y Z H H_XY H_YZ S S_DAG SQRT_X SQRT_X_DAG SQRT_Y SQRT_Y_DAG C_XYZ C_ZYX h_xz Sqrt_Z",
    two: "CX CY CZ XCX XCY XCZ YCX YCY YCZ SWAP ISWAP ISWAP_DAG SQRT_XX SQRT_XX_DAG SQRT_YY SQRT_YY_DAG SQRT_ZZ SQRT_ZZ_DAG CNOT",
};

/// Those that undo them, in the same order.
const INVERSES: Names = Names {
    one: "I X Y Z H H_XY H_YZ S_DAG S SQRT_X_DAG SQRT_X SQRT_Y_DAG SQRT_Y C_ZYX C_XYZ H SQRT_Z_DAG",
    two: "zcx ZCY ZCZ XCX XCY XCZ YCX YCY YCZ SWAP ISWAP_DAG ISWAP SQRT_XX_DAG SQRT_XX SQRT_YY_DAG SQRT_YY SQRT_ZZ_DAG SQRT_ZZ CX",
};

/// What stays the same throughout a circuit.
#[derive(Clone, Copy)]
struct Plan {
    qubits: u64,
    /// How many checks are made together, each a measurement.
    checks: u64,
    /// The seed of the qubits' letters and of the checks.
    seed: u64,
    is_loose: bool,
}

/// The names of two different qubits.
fn pair(plan: Plan, draws: &mut Pcg64) -> (&'static str, &'static str) {
    let first = below(draws, plan.qubits);
    let further = below(draws, plan.qubits.saturating_sub(1)).saturating_add(1);
    let second = first.saturating_add(further).checked_rem(plan.qubits);
    (
        word_at(NUMBERS, first),
        word_at(NUMBERS, second.unwrap_or(0)),
    )
}

/// The gate of a seed, or the one that undoes it.
fn put_gate(
    text: &mut String<Global>,
    plan: Plan,
    seed: u64,
    names: &Names,
) -> Result<(), AllocError> {
    let mut draws = Pcg64::seed_from_u64(seed);
    let (first, second) = pair(plan, &mut draws);
    if below(&mut draws, 3) == 0 {
        put(text, &[one_of(&mut draws, names.one), " ", first, "\n"])
    } else {
        put(
            text,
            &[one_of(&mut draws, names.two), " ", first, " ", second, "\n"],
        )
    }
}

/// A fault of each of two qubits, or one of both.
fn put_fault(text: &mut String<Global>, plan: Plan, draws: &mut Pcg64) -> Result<(), AllocError> {
    let chance = one_of(draws, CHANCES);
    let (first, second) = pair(plan, draws);
    if below(draws, 3) == 0 {
        let (one, other) = (one_of(draws, LETTERS), one_of(draws, LETTERS));
        put(
            text,
            &["E(", chance, ") ", one, first, " ", other, second, "\n"],
        )
    } else {
        let name = one_of(draws, "X_ERROR Y_ERROR Z_ERROR");
        put(text, &[name, "(", chance, ") ", first, " ", second, "\n"])
    }
}

/// The gate of a seed, or the one that undoes it, and then a fault or none.
fn put_gate_and_fault(
    text: &mut String<Global>,
    plan: Plan,
    draws: &mut Pcg64,
    seed: u64,
    names: &Names,
) -> Result<(), AllocError> {
    put_gate(text, plan, seed, names)?;
    if below(draws, 2) == 0 {
        put_fault(text, plan, draws)?;
    }
    Ok(())
}

/// So many gates, with faults among them.
fn put_gates(
    text: &mut String<Global>,
    plan: Plan,
    draws: &mut Pcg64,
    seed: u64,
    depth: u64,
) -> Result<(), AllocError> {
    for place in 0..depth {
        put_gate_and_fault(text, plan, draws, seed.wrapping_add(place), &GATES)?;
    }
    Ok(())
}

/// Undoes them, from the last to the first.
fn put_inverses(
    text: &mut String<Global>,
    plan: Plan,
    draws: &mut Pcg64,
    seed: u64,
    depth: u64,
) -> Result<(), AllocError> {
    for place in (0..depth).rev() {
        put_gate_and_fault(text, plan, draws, seed.wrapping_add(place), &INVERSES)?;
    }
    Ok(())
}

/// The letter with which a qubit begins.
fn letter_of(plan: Plan, qubit: u64) -> &'static str {
    one_of(
        &mut Pcg64::seed_from_u64(plan.seed.wrapping_add(qubit)),
        LETTERS,
    )
}

/// Resets each qubit to its letter.
fn put_resets(text: &mut String<Global>, plan: Plan) -> Result<(), AllocError> {
    for qubit in 0..plan.qubits {
        put(
            text,
            &[
                "R",
                letter_of(plan, qubit),
                " ",
                word_at(NUMBERS, qubit),
                "\n",
            ],
        )?;
    }
    Ok(())
}

/// Measures the product of the letters of up to three qubits.
fn put_product(
    text: &mut String<Global>,
    plan: Plan,
    draws: &mut Pcg64,
    first: u64,
) -> Result<(), AllocError> {
    put(text, &[one_of(draws, "MPP mpp(.0625) MPP(0.125)")])?;
    for place in 0..=below(draws, plan.qubits.min(3)) {
        let qubit = first
            .saturating_add(place)
            .checked_rem(plan.qubits)
            .unwrap_or(0);
        let joint = if place == 0 { " " } else { "*" };
        let (letter, number) = (letter_of(plan, qubit), word_at(NUMBERS, qubit));
        put(text, &[joint, inversion(draws), letter, number])?;
    }
    put(text, &["\n"])
}

/// Measures a letter of a qubit, and may reset it.
fn put_measurement(
    text: &mut String<Global>,
    draws: &mut Pcg64,
    letter: &'static str,
    qubit: &'static str,
) -> Result<(), AllocError> {
    let (name, chance) = (one_of(draws, "M MR"), one_of(draws, "() (0.5) (.25)"));
    put(
        text,
        &[name, letter, chance, " ", inversion(draws), qubit, "\n"],
    )
}

/// The check of a seed: a product, or the letter of one qubit.
fn put_check(text: &mut String<Global>, plan: Plan, seed: u64) -> Result<(), AllocError> {
    let mut draws = Pcg64::seed_from_u64(seed);
    let qubit = below(&mut draws, plan.qubits);
    if below(&mut draws, 3) == 0 {
        let letter = letter_of(plan, qubit);
        put_measurement(text, &mut draws, letter, word_at(NUMBERS, qubit))
    } else {
        put_product(text, plan, &mut draws, qubit)
    }
}

/// The same checks each time.
fn put_checks(text: &mut String<Global>, plan: Plan) -> Result<(), AllocError> {
    for check in 0..plan.checks {
        put_check(text, plan, plan.seed.wrapping_sub(check))?;
    }
    Ok(())
}

/// Lists some records of the last two times that the checks were made.
fn put_target(
    text: &mut String<Global>,
    plan: Plan,
    draws: &mut Pcg64,
    target: &str,
) -> Result<(), AllocError> {
    put(text, &[target])?;
    for back in 1..=plan.checks.saturating_mul(2) {
        if below(draws, 2) == 0 {
            put(text, &[" rec[-", word_at(NUMBERS, back), "]"])?;
        }
    }
    put(text, &["\n"])
}

/// Feeds a record back to a qubit.
fn put_feedback(
    text: &mut String<Global>,
    draws: &mut Pcg64,
    back: &'static str,
    qubit: &'static str,
) -> Result<(), AllocError> {
    if below(draws, 4) == 0 {
        put(text, &["CZ ", qubit, " rec[-", back, "]\n"])
    } else {
        put(
            text,
            &[
                one_of(draws, "CX CY CZ cnot ZCY"),
                " rec[-",
                back,
                "] ",
                qubit,
                "\n",
            ],
        )
    }
}

/// Measures a qubit in any letter, feeds the record back, and resets it; but not always in a loose circuit.
fn put_stray(text: &mut String<Global>, plan: Plan, draws: &mut Pcg64) -> Result<(), AllocError> {
    let place = below(draws, plan.qubits);
    let (letter, qubit) = (one_of(draws, LETTERS), word_at(NUMBERS, place));
    put_measurement(text, draws, letter, qubit)?;
    let (other, _) = pair(plan, draws);
    put_feedback(text, draws, "1", if plan.is_loose { other } else { qubit })?;
    if plan.is_loose && below(draws, 2) == 0 {
        return Ok(());
    }
    put(text, &["R", letter_of(plan, place), " ", qubit, "\n"])
}

/// The checks are made once or twice, each time after a fault and before detectors.
fn put_rounds(text: &mut String<Global>, plan: Plan, draws: &mut Pcg64) -> Result<(), AllocError> {
    put(text, &["REPEAT ", one_of(draws, "1 2"), " {\n"])?;
    put_fault(text, plan, draws)?;
    put_checks(text, plan)?;
    for _ in 0..plan.checks {
        let target = one_of(draws, "DETECTOR DETECTOR(1) DETECTOR(-2,30) DETECTOR()");
        put_target(text, plan, draws, target)?;
    }
    put(text, &["}\n"])
}

/// A block of turns, in which the checks are made again and one of their records is fed back.
fn put_turns(text: &mut String<Global>, plan: Plan, draws: &mut Pcg64) -> Result<(), AllocError> {
    put_checks(text, plan)?;
    put(text, &["REPEAT ", one_of(draws, "1 2 3 4"), " {\n"])?;
    let (seed, depth) = (draws.next_word(), below(draws, 6));
    put_gates(text, plan, draws, seed, depth)?;
    put_inverses(text, plan, draws, seed, depth)?;
    put_rounds(text, plan, draws)?;
    let back = below(draws, plan.checks).saturating_add(1);
    let (qubit, _) = pair(plan, draws);
    put_feedback(text, draws, word_at(NUMBERS, back), qubit)?;
    put(text, &["TICK\nSHIFT_COORDS(0, 1)\n}\n"])
}

/// Some blocks, each after a measurement of one qubit, and then observables.
fn put_blocks(text: &mut String<Global>, plan: Plan, draws: &mut Pcg64) -> Result<(), AllocError> {
    for _ in 0..=below(draws, 3) {
        put_stray(text, plan, draws)?;
        put_turns(text, plan, draws)?;
    }
    put_target(text, plan, draws, "OBSERVABLE_INCLUDE(2)")?;
    put_target(text, plan, draws, "OBSERVABLE_INCLUDE(0)")
}

/// The circuit of a seed.
pub(super) fn circuit(alloc: Global, seed: u64) -> Result<String<Global>, AllocError> {
    let mut draws = Pcg64::seed_from_u64(seed);
    let plan = Plan {
        qubits: below(&mut draws, 7).saturating_add(2),
        checks: below(&mut draws, 4).saturating_add(1),
        seed: draws.next_word(),
        is_loose: below(&mut draws, 2) == 0,
    };
    let mut text = String::new(alloc);
    put_resets(&mut text, plan)?;
    put_blocks(&mut text, plan, &mut draws)?;
    Ok(text)
}
