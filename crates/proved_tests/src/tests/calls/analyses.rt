//! What the analysis of a circuit finds, by both trackers, part by part.
use crate::tests::findings::{by_dense, by_sparse};
use crate::tests::words::sparse_words;
use backward::{Analysed, first_random};
use circuit_walk::Program;
use error_models::Model;
use run_laws::constancy;
use std::alloc::Global;
use std::test::Fail;
use step_model::{Fault, Place};
use unroll::read_program;

/// The second fault flips nothing.
const CIRCUIT: &[u8] = b"\
X_ERROR(0.1) 0
Z_ERROR(0.2) 0
M 0
DETECTOR(5, -1) rec[-1]
OBSERVABLE_INCLUDE(1) rec[-1]
";

fn are_parts(model: &Model<'_, Global>) -> bool {
    if model.line_count() != 1 || model.detector_count() != 1 {
        return false;
    }
    (model.text(0) == b"0.1".as_slice())
        & (model.targets(0) == [0, 2].as_slice())
        & (model.coordinates(0) == [5, -1].as_slice())
        & (model.observable_count() == 2)
}

fn is_model(analysed: &Analysed<'_, Global>) -> bool {
    match analysed {
        Analysed::Model(model) => are_parts(model),
        Analysed::Random { .. } => false,
    }
}

fn call_laws() {
    constancy::sensitivities_stay();
    constancy::parity_is_constant();
    constancy::faults_add_up();
    constancy::one_fault_flips_what_it_hits();
    constancy::hits_make_exact_model();
    constancy::at_most_one_model_is_exact();
}

fn have_model(alloc: Global, program: &Program<'_, Global>) -> Result<bool, Fault> {
    let found = by_dense(alloc, program)?;
    Ok(is_model(&found) && is_model(&by_sparse(&alloc, program)?))
}

#[test]
fn models_of_a_circuit(rt: HostRuntime) -> Result<(), Fail> {
    call_laws();
    let program = read_program(rt.alloc(), CIRCUIT)?;
    assert!(rt; have_model(rt.alloc(), &program)?);
    Ok(())
}

/// The first detector is 0, and the second is the outcome of the last collapse.
const RANDOM: &[u8] = b"R 0\nH 0\nM 0\nMX 0\nDETECTOR\nDETECTOR rec[-1]\n";

fn is_random(analysed: &Analysed<'_, Global>) -> bool {
    matches!(
        analysed,
        Analysed::Random {
            which: 1,
            place: Place::After(1)
        }
    )
}

fn are_random(alloc: Global, program: &Program<'_, Global>) -> Result<bool, Fault> {
    Ok(is_random(&by_dense(alloc, program)?) && is_random(&by_sparse(&alloc, program)?))
}

/// Whether it is found where that alone is asked.
fn is_found(alloc: Global, program: &Program<'_, Global>) -> Result<bool, Fault> {
    match sparse_words(&alloc, program) {
        Ok(words) => {
            let random = first_random(alloc, program, words)?;
            Ok(matches!(random, Some((1, Place::After(1)))))
        }
        Err(_) => Err(Fault::MEMORY),
    }
}

#[test]
fn places_of_a_random_target(rt: HostRuntime) -> Result<(), Fail> {
    let program = read_program(rt.alloc(), RANDOM)?;
    assert!(rt; are_random(rt.alloc(), &program)?);
    assert!(rt; is_found(rt.alloc(), &program)?);
    Ok(())
}
