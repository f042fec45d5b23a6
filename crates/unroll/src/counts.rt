ghost use Rattle.std.specs.Prelude.{◌≡◌, ◌+◌};
ghost use Rattle.unroll.specs.private.MadeTotals.{faults_counted, steps_made, records_made, collapses_made, detectors_made};

use stim_parser::Operation;

/// How many records an operation makes of this many targets, a product being one.
#[inline(always)]
pub(crate) fn records_made(operation: Operation, targets: usize) -> usize
    ensures { result ≡ records_made operation targets }
{
    match operation {
        Operation::Measurement(_)
        | Operation::MeasurementReset(_)
        | Operation::ProductMeasurement => targets,
        _ => 0,
    }
}

/// How many collapses an operation makes of this many targets.
#[inline(always)]
pub(crate) fn collapses_made(operation: Operation, targets: usize) -> usize
    ensures { result ≡ collapses_made operation targets }
{
    match operation {
        Operation::QubitReset(_) => targets,
        _ => records_made(operation, targets),
    }
}

/// How many detectors an operation makes.
#[inline(always)]
pub(crate) fn detectors_made(operation: Operation) -> usize
    ensures { result ≡ detectors_made operation }
{
    match operation {
        Operation::DetectorDeclaration => 1,
        _ => 0,
    }
}

/// How many faults an operation makes of this many targets; `flips` says whether its records may be flipped.
#[inline(always)]
pub(crate) fn faults_counted(operation: Operation, flips: bool, targets: usize) -> usize
    ensures { result ≡ faults_counted operation flips targets }
{
    match operation {
        Operation::PauliError(_) => targets,
        Operation::CorrelatedError => 1,
        _ => {
            if flips {
                records_made(operation, targets)
            } else {
                0
            }
        }
    }
}

/// How many steps of a program an operation makes of this many targets.
#[inline(always)]
pub(crate) fn steps_made(operation: Operation, targets: usize) -> usize
    ensures { result ≡ steps_made operation targets }
{
    match operation {
        Operation::Applies(gate) => {
            if gate.arity() == 1 {
                targets
            } else {
                targets / 2
            }
        }
        Operation::PauliError(_) => targets,
        Operation::CorrelatedError => 1,
        _ => collapses_made(operation, targets),
    }
}
