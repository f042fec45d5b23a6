use gate_table::Gate;
use pauli_word::Letter;

/// What an instruction does.
#[derive(Clone, Copy, Debug)]
pub enum Operation {
    /// Applies a gate.
    Applies(Gate),
    /// Measures this letter at each target.
    Measurement(Letter),
    /// Resets each target to the +1 eigenstate of this letter.
    QubitReset(Letter),
    /// Measures this letter at each target and then resets the target to the letter's +1 eigenstate.
    MeasurementReset(Letter),
    /// Measures products of letters.
    ProductMeasurement,
    /// Makes one fault for each target, of this letter.
    PauliError(Letter),
    /// Makes one fault, which applies the product of its targets.
    CorrelatedError,
    /// Declares a detector.
    DetectorDeclaration,
    /// Adds records to an observable.
    ObservableInclude,
    /// Marks the time, and does nothing.
    Tick,
    /// States the coordinates of qubits, and does nothing.
    QubitCoordinates,
    /// Shifts the coordinates of later detectors.
    CoordinateShift,
}
