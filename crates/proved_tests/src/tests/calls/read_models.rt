//! Error models that are read: the coordinates of their detectors, and what named lines flip.
use dem_text::{Model, Prediction, laws, predict, read, symptom};
use std::alloc::{AllocError, Global};
use step_model::{Cause, Fault, MemorySource};

/// Whether a model has these coordinates, of each detector how many and which.
fn has_coordinates(
    alloc: Global,
    model: &Model<'_, Global>,
    wanted: &[i64],
) -> Result<bool, AllocError> {
    let mut found = Vec::new(alloc);
    for detector in 0..model.detector_count() {
        let coordinates = model.coordinates(detector);
        found.push(coordinates.len() as i64)?;
        found.extend_from_slice(coordinates)?;
    }
    Ok(found.as_slice() == wanted)
}

/// Lines that give a detector coordinates twice, and errors that flip a target together.
const MODEL: &[u8] =
    b"detector(1, 2) D0 D1\ndetector D0\nerror(0.1) D1 D0 L0\nshift_detectors(0, 5) 1\ndetector(-1, 1, 3) D0\nerror(0.2) D0 L0 ^ D0\n";

/// The second detector's are those of the last line that gives it any.
const COORDINATES: &[i64] = &[2, 1, 2, 3, -1, 6, 3];

/// Both errors together flip the detectors, and the observable twice.
const SYMPTOM: &[bool] = &[true, true, false];

fn has_symptom(alloc: Global, model: &Model<'_, Global>) -> Result<bool, Fault> {
    let flipped = symptom(alloc, model, &[true, true])?;
    Ok(flipped.as_slice() == SYMPTOM)
}

fn is_model(alloc: Global, model: &Model<'_, Global>) -> Result<bool, Fault> {
    if !has_coordinates(alloc, model, COORDINATES)? {
        return Ok(false);
    }
    has_symptom(alloc, model)
}

fn has_model(alloc: Global) -> Result<bool, Fault> {
    laws::texts_are_judged_once();
    laws::texts_write_accepted_trees();
    laws::texts_stand_for_trees();
    laws::texts_read_back();
    laws::models_of_programs_read_back();
    laws::models_of_texts_read_back();
    let model = read(alloc, MODEL)?;
    Ok(is_model(alloc, &model)?)
}

#[test]
fn models_are_read(rt: HostRuntime) {
    assert!(rt; matches!(has_model(rt.alloc()), Ok(true)));
}

/// Error lines of which two are named, a line that names a detector that no other does, and lines of a block that shifts.
const PREDICTED: &[u8] =
    b"error(0.1) D0\nerror(0.2) D1 L0\ndetector D2\nrepeat 2 {\nshift_detectors 1\nerror(0.3) D0 D1\n}\n";

/// What the second and the fourth line flip: detectors 0 to 3, and the observable.
const PREDICTED_SYMPTOM: &[bool] = &[false, true, true, true, true];

fn predicts(alloc: Global) -> Result<bool, Fault> {
    let numbers = [1, 3];
    let mut source = MemorySource::new(PREDICTED);
    match predict(alloc, &numbers, &mut source)? {
        Prediction::Symptom(flipped) => Ok(flipped.as_slice() == PREDICTED_SYMPTOM),
        _ => Ok(false),
    }
}

#[test]
fn symptoms_are_predicted(rt: HostRuntime) {
    assert!(rt; matches!(predicts(rt.alloc()), Ok(true)));
}

/// A number that isn't below the count of the error lines.
fn has_no_line(alloc: Global) -> Result<bool, Fault> {
    let numbers = [4];
    let mut source = MemorySource::new(PREDICTED);
    Ok(matches!(
        predict(alloc, &numbers, &mut source)?,
        Prediction::NoSuchLine
    ))
}

#[test]
fn lines_that_are_not_there_have_no_symptom(rt: HostRuntime) {
    assert!(rt; matches!(has_no_line(rt.alloc()), Ok(true)));
}

/// A text that ends in an open block.
fn has_refused(alloc: Global) -> Result<bool, Fault> {
    let mut source = MemorySource::new(b"error(0.1) D0\nrepeat 2 {\n");
    match predict(alloc, &[], &mut source)? {
        Prediction::Refused(fault) => Ok(fault.cause == Cause::DemBlock && fault.line == 2),
        _ => Ok(false),
    }
}

#[test]
fn refusals_are_predicted(rt: HostRuntime) {
    assert!(rt; matches!(has_refused(rt.alloc()), Ok(true)));
}
