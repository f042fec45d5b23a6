//! What the analysis of a circuit finds, by both trackers: part by part the same, or not.
use crate::tests::words::{dense_words, sparse_words};
use backward::{Analysed, analyse};
use circuit_walk::Program;
use error_models::Model;
use std::alloc::Global;
use step_model::Fault;

/// The analysis by rows of bits.
pub(super) fn by_dense<'p>(
    alloc: Global,
    program: &Program<'p, Global>,
) -> Result<Analysed<'p, Global>, Fault> {
    match dense_words(alloc, program) {
        Ok(words) => analyse(alloc, program, words),
        Err(_) => Err(Fault::MEMORY),
    }
}

/// The analysis by lists of targets.
pub(super) fn by_sparse<'p>(
    alloc: &Global,
    program: &Program<'p, Global>,
) -> Result<Analysed<'p, Global>, Fault> {
    match sparse_words(alloc, program) {
        Ok(words) => analyse(*alloc, program, words),
        Err(_) => Err(Fault::MEMORY),
    }
}

/// What both trackers find: one model, one random target at one place, or not the same.
#[derive(Clone, Copy, PartialEq, Eq)]
pub(super) enum Finding {
    Model,
    Random,
    Different,
}

/// What both trackers find in a program.
pub(super) fn found_by_both(
    alloc: Global,
    program: &Program<'_, Global>,
) -> Result<Finding, Fault> {
    let dense = by_dense(alloc, program)?;
    compare_with(alloc, program, &dense)
}

fn compare_with(
    alloc: Global,
    program: &Program<'_, Global>,
    dense: &Analysed<'_, Global>,
) -> Result<Finding, Fault> {
    let sparse = by_sparse(&alloc, program)?;
    Ok(compare(dense, &sparse))
}

fn compare(dense: &Analysed<'_, Global>, sparse: &Analysed<'_, Global>) -> Finding {
    match (dense, sparse) {
        (Analysed::Model(first), Analysed::Model(second)) if are_same(first, second) => {
            Finding::Model
        }
        (
            Analysed::Random { which, place },
            Analysed::Random {
                which: named,
                place: found,
            },
        ) if which == named && place == found => Finding::Random,
        _ => Finding::Different,
    }
}

fn are_same(first: &Model<'_, Global>, second: &Model<'_, Global>) -> bool {
    have_same_lines(first, second)
        && have_same_detectors(first, second)
        && first.observable_count() == second.observable_count()
}

fn have_same_lines(first: &Model<'_, Global>, second: &Model<'_, Global>) -> bool {
    if first.line_count() != second.line_count() {
        return false;
    }
    for line in 0..first.line_count() {
        if first.text(line) != second.text(line) || first.targets(line) != second.targets(line) {
            return false;
        }
    }
    true
}

fn have_same_detectors(first: &Model<'_, Global>, second: &Model<'_, Global>) -> bool {
    if first.detector_count() != second.detector_count() {
        return false;
    }
    for detector in 0..first.detector_count() {
        if first.coordinates(detector) != second.coordinates(detector) {
            return false;
        }
    }
    true
}
