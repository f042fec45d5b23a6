/// Which arguments an instruction takes.
#[derive(Clone, Copy, PartialEq, Eq)]
pub enum ArgumentForm {
    NoArguments,
    /// None or one.
    ProbabilityAtWill,
    OneProbability,
    /// Up to 16 of them.
    WholeNumbers,
    /// Up to 16 of them, with or without points and exponents.
    Decimals,
    /// One number in digits.
    OneNumber,
}

/// Which targets an instruction takes.
#[derive(Clone, Copy)]
pub enum TargetForm {
    NoTargets,
    Qubits,
    QubitsInvertedAtWill,
    /// Pairs of qubits, from the left.
    QubitPairs,
    /// Pairs from the left, of which the first of each may be a record.
    PairsRecordFirst,
    /// Pairs from the left, of which either one may be a record, and not both.
    PairsOneRecord,
    Paulis,
    /// Pauli targets joined by stars.
    Products,
    Records,
    /// How often a block is repeated.
    Turns,
}
