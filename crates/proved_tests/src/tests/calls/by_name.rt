//! Calls that others stand before elsewhere, each by its name, on values worked by hand.
ghost use Rattle.std.specs.Prelude.{◌≡◌, length};
ghost use Rattle.tableau.specs.Rows.{row_count};

use backward::{DenseWords, QubitSets, Tracker};
use bit_rows::BitRow;
use circuit_walk::Program;
use forward_sim::{detections, read_coins, read_numbers, run};
use gate_table::Gate;
use pauli_word::Letter;
use std::alloc::{AllocError, Global};
use step_model::{Fault, Term};
use stim_parser::{Probability, parse};
use tableau::Tableau;
use unroll::{read_program, unroll};

/// Whether a row of which one bit is flipped and another row are exchanged.
fn flips_and_exchanges(alloc: Global) -> Result<bool, AllocError> {
    let mut row = BitRow::zeros(alloc, 70)?;
    let mut other = BitRow::zeros(alloc, 70)?;
    row.flip(65);
    let flipped = row.first_one() == Some(65);
    row.swap(&mut other);
    Ok(flipped && row.first_one().is_none() && other.get(65))
}

/// Whether CX is found by another name in lower case, and takes X at its control on to its target.
fn finds_controlled_x() -> bool {
    match Gate::named(b"cnot") {
        Some(gate) if gate.arity() == 2 => {
            gate.image2(Letter::X, Letter::I) == (Letter::X, Letter::X, false)
        }
        _ => false,
    }
}

/// Whether S takes Y to -X, and its inverse is another.
fn finds_s() -> bool {
    match Gate::named(b"S") {
        Some(gate) if gate.arity() == 1 => {
            gate.image1(Letter::Y) == (Letter::X, true) && gate.inverse() == Gate::SDag
        }
        _ => false,
    }
}

#[test]
fn rows_and_gates(rt: HostRuntime) {
    assert!(rt; matches!(flips_and_exchanges(rt.alloc()), Ok(true)));
    assert!(rt; finds_controlled_x());
    assert!(rt; finds_s());
    assert!(rt; Gate::named(b"CNOT2").is_none());
}

/// Whether a qubit that was found to be 1 is 0 after its reset.
fn resets(tableau: &mut Tableau<Global>) -> bool
    requires { row_count tableau.old ≡ 1 }
{
    tableau.apply(Gate::H, 0, 0);
    let (outcome, _) = tableau.collapse(Letter::Z, 0, true);
    tableau.reset_after(Letter::Z, 0, outcome);
    let (after, row) = tableau.collapse(Letter::Z, 0, true);
    outcome && !after && row.is_none()
}

fn starts_and_resets(alloc: Global) -> Result<bool, AllocError> {
    let mut tableau = Tableau::start(alloc, 1)?;
    Ok(resets(&mut tableau))
}

#[test]
fn a_reset(rt: HostRuntime) {
    assert!(rt; matches!(starts_and_resets(rt.alloc()), Ok(true)));
}

/// Whether a word Z at the second of two qubits, taken back over CX and then over H at the first, and with I put at the second,
/// anticommutes with Z at the first and X at the second.
fn takes_back<T: Tracker>(tracker: &mut T, hit: &mut Vec<u32, Global>) -> Result<bool, AllocError>
    requires qubits { (T.tracked tracker.old).qubits ≡ 2 }
    requires words { length (T.tracked tracker.old).words ≡ 1 }
{
    tracker.add(&[0], Letter::Z, 1)?;
    tracker.undo2(Gate::CX, 0, 1)?;
    tracker.undo1(Gate::H, 0)?;
    tracker.clear(1);
    let terms = [
        Term {
            qubit: 0,
            letter: Letter::Z,
        },
        Term {
            qubit: 1,
            letter: Letter::X,
        },
    ];
    tracker.hit(&terms, hit)?;
    Ok(hit.as_slice() == [0].as_slice())
}

fn dense_takes_back(alloc: Global) -> Result<bool, AllocError> {
    let mut hit = Vec::new(alloc);
    takes_back(&mut DenseWords::new(alloc, 2, 1)?, &mut hit)
}

fn sparse_takes_back(alloc: Global) -> Result<bool, AllocError> {
    let mut hit = Vec::new(alloc);
    takes_back(&mut QubitSets::new(&alloc, 2, 1)?, &mut hit)
}

#[test]
fn trackers(rt: HostRuntime) {
    assert!(rt; matches!(dense_takes_back(rt.alloc()), Ok(true)));
    assert!(rt; matches!(sparse_takes_back(rt.alloc()), Ok(true)));
}

/// Whether a text is 3/8, of which the bound is 3 * 2^61.
fn is_three_eighths(text: &[u8]) -> bool {
    match Probability::read(text) {
        Some(probability) => probability.bound() == 3 << 61,
        None => false,
    }
}

#[test]
fn probabilities(rt: HostRuntime) {
    assert!(rt; is_three_eighths(b"0.375"));
    assert!(rt; is_three_eighths(b"3.75e-1"));
    assert!(rt; Probability::read(b"1.5").is_none());
}

const CIRCUIT: &[u8] = b"\
H 0
M 0
X_ERROR(0.5) 1
M 1
DETECTOR rec[-1]
OBSERVABLE_INCLUDE(0) rec[-2]
";

/// Whether the fault and the first coin change the detector and the observable.
fn changes_both(alloc: Global, program: &Program<'_, Global>) -> Result<bool, Fault> {
    let coins = read_coins(alloc, program, b"10")?;
    let faults = read_numbers(alloc, 1, b"0")?;
    let reference = run(alloc, program, &[], &[])?;
    let records = run(alloc, program, faults.as_slice(), coins.as_slice())?;
    let changed = detections(alloc, program, &records, &reference)?;
    Ok(changed.as_slice() == [true, true].as_slice())
}

fn reads_and_changes(alloc: Global) -> Result<bool, Fault> {
    let program = unroll(parse(alloc, CIRCUIT)?)?;
    changes_both(alloc, &program)
}

#[test]
fn a_run_and_its_detections(rt: HostRuntime) {
    assert!(rt; matches!(reads_and_changes(rt.alloc()), Ok(true)));
}

const TARGETS: &[u8] = b"M 0\nDETECTOR(3) rec[-1]\nOBSERVABLE_INCLUDE(1) rec[-1]\n";

/// Whether a program counts its detector and its two observables.
fn counts_targets(program: &Program<'_, Global>) -> bool {
    (program.detector_count() == 1)
        & (program.observable_count() == 2)
        & (program.target_count() == 3)
        & (program.record_count() == 1)
}

fn reads_and_counts(alloc: Global) -> Result<bool, Fault> {
    let program = read_program(alloc, TARGETS)?;
    Ok(counts_targets(&program))
}

#[test]
fn targets_that_are_counted(rt: HostRuntime) {
    assert!(rt; matches!(reads_and_counts(rt.alloc()), Ok(true)));
}
