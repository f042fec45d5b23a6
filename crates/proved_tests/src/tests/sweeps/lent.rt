//! What calls are lent.
ghost use Rattle.std.specs.Prelude.{◌≡◌, length, IfOk};

use super::growths::Memory;
use circuit_walk::Program;
use pauli_word::Word;
use std::alloc::AllocError;

/// Every kind of step, on five qubits: 11 collapses, 8 records, 10 faults, 2 detectors and 2 observables. In the run without
/// faults, with all coins 0, the records are 10010000: the first of each turn is inverted, and its feedback makes qubit 4 1 and
/// then 0 again.
pub(super) const CIRCUIT: &str = "\
R 0 1
RX 2
H 3
CX 3 4
SQRT_XX 0 1
SQRT_XX_DAG 0 1
CX 3 4
H 3
REPEAT 2 {
    X_ERROR(0.25) 0
    E(0.5) X0 Z1
    CX 0 1
    MR(1) !1
    CX rec[-1] 4
    MPP(0) Z0*Z1 X2
    DETECTOR(5, 0) rec[-1] rec[-3]
    SHIFT_COORDS(0, 1)
}
M 0 4
OBSERVABLE_INCLUDE(1) rec[-1]
";

/// Ten error lines, five detectors and two observables, with blocks and shifts. The first line flips D0 and L0, the second D1 and
/// D2.
pub(super) const MODEL: &str = "\
error(0.1) D0 L0
repeat 3 {
    error(0.2) D1 ^ D2
    shift_detectors(1) 1
    detector(5) D0
    repeat 2 {
        error(0.5) L1
    }
}
";

/// The identity on a program's qubits.
pub(super) fn identity_of<'m>(
    memory: Memory<'m>,
    program: &Program<'_, Memory<'m>>,
) -> Result<Word<Memory<'m>>, AllocError>
    ensures { IfOk result (λ word. length word.letters ≡ program.now.listing.qubits) }
{
    Word::identity(memory, program.qubits() as usize)
}

/// So many truth values, none of which is true.
pub(super) fn are_false(values: &[bool], count: usize) -> bool {
    values.len() == count && !values.contains(&true)
}
