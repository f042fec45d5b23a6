//! The step at a place of an instruction, by its operation: what it is made of, and where it leads.

ghost use Rattle.std.specs.Prelude.{◌≡◌, ◌+◌, ◌<◌, ◌^◌, None, Some, false, true};
ghost use Rattle.circuit_walk.specs.declared.step.Counts.{Counts};
ghost use Rattle.circuit_walk.specs.declared.step.Step.TheVariants.{Collapse, CollapseWord, Fault, One};
ghost use Rattle.circuit_walk.specs.private.InstructionSteps.{counts_behind};
ghost use Rattle.circuit_walk.specs.private.Taken.{IsFacing, IsTaken, error_of, measuring, pair_in};
ghost use Rattle.gate_table.specs.Images.{arity_of};
ghost use Rattle.stim_parser.specs.declared.operation.Operation.TheVariants.{Applies, CorrelatedError, PauliError, ProductMeasurement, QubitReset};

use crate::instruction_steps::InstructionSteps;
use crate::letters::{Letters, own_qubit};
use crate::pairs::{PairStep, pair_step};
use crate::products::{is_product_inverted, product_behind};
use crate::step::{Counts, FaultName, Step};
use gate_table::Gate;
use pauli_word::Letter;
use stim_parser::Operation;

/// A step, the place behind it among the targets, and the counts behind it.
#[derive(Clone, Copy)]
pub(crate) struct Taken<'c> {
    pub step: Step<'c>,
    pub at: usize,
    pub counts: Counts,
}

/// What is measured at a qubit beside its letter: whether the outcome is inverted, and the fault that flips it, if one does.
#[derive(Clone, Copy)]
pub(crate) struct QubitOutcome {
    pub qubit: u32,
    pub inverted: bool,
    pub flip: Option<FaultName>,
}

/// The same of a product, and how many targets it has with its stars.
#[derive(Clone, Copy)]
pub(crate) struct ProductOutcome<'c> {
    pub letters: Letters<'c>,
    pub inverted: bool,
    pub flip: Option<FaultName>,
    pub targets: usize,
}

impl<'c> InstructionSteps<'c> {
    /// The qubit of a gate of one qubit.
    #[inline(always)]
    pub(crate) fn single(&self, gate: Gate, counts: Counts) -> u32
        requires facing { IsFacing self.now counts }
        requires operation { self.now.operation ≡ Applies gate }
        requires arity { arity_of gate ≡ 1 }
        ensures { IsTaken self.now counts
            (record { step = One gate result; at = self.now.at + 1; counts = counts }) }
    {
        // The counts are only spoken of.
        let _counts = counts;
        own_qubit(self.target(self.at)).0
    }

    /// The step of a pair of a gate of two qubits.
    #[inline(always)]
    pub(crate) fn pair(&self, gate: Gate, counts: Counts) -> PairStep
        requires facing { IsFacing self.now counts }
        requires operation { self.now.operation ≡ Applies gate }
        requires arity { arity_of gate ≡ 2 }
        ensures { IsTaken self.now counts
            (record { step = pair_in gate result; at = self.now.at + 2; counts = counts }) }
    {
        let first = self.target(self.at);
        let second = self.target(self.at + 1);
        pair_step(gate, first, second, counts.records)
    }

    /// What a measurement of a letter sees, which resets the qubit where `reset`.
    #[inline(always)]
    pub(crate) fn measured(&self, letter: Letter, reset: bool, counts: Counts) -> QubitOutcome
        requires facing { IsFacing self.now counts }
        requires operation { self.now.operation ≡ measuring reset letter }
        ensures { IsTaken self.now counts
            (record {
              step = Collapse letter result.qubit (Some counts.records) reset result.inverted result.flip;
              at = self.now.at + 1;
              counts = counts_behind ProductMeasurement self.now.flips counts;
            }) }
    {
        let (qubit, inverted) = own_qubit(self.target(self.at));
        QubitOutcome {
            qubit,
            inverted,
            flip: self.flip(counts),
        }
    }

    /// The qubit of a reset.
    #[inline(always)]
    pub(crate) fn reset(&self, letter: Letter, counts: Counts) -> u32
        requires facing { IsFacing self.now counts }
        requires operation { self.now.operation ≡ QubitReset letter }
        ensures { IsTaken self.now counts
            (record {
              step = Collapse letter result None true false None;
              at = self.now.at + 1;
              counts = record counts { collapses = counts.collapses + 1 };
            }) }
    {
        own_qubit(self.target(self.at)).0
    }

    /// What the measurement of a product sees.
    #[inline(always)]
    pub(crate) fn product(&self, counts: Counts) -> ProductOutcome<'c>
        requires facing { IsFacing self.now counts }
        requires operation { self.now.operation ≡ ProductMeasurement }
        ensures { IsTaken self.now counts
            (record {
              step = CollapseWord result.letters (Some counts.records) result.inverted result.flip;
              at = self.now.at + result.targets;
              counts = counts_behind ProductMeasurement self.now.flips counts;
            }) }
    {
        let behind = product_behind(self.targets, self.at);
        let product = &self.targets[self.at..behind];
        ProductOutcome {
            letters: Letters {
                letter: None,
                targets: product,
            },
            inverted: is_product_inverted(product),
            flip: self.flip(counts),
            targets: behind - self.at,
        }
    }

    /// The letter of an error at its qubit.
    #[inline(always)]
    pub(crate) fn letter_error(&self, letter: Letter, counts: Counts) -> Letters<'c>
        requires facing { IsFacing self.now counts }
        requires operation { self.now.operation ≡ PauliError letter }
        ensures { IsTaken self.now counts (error_of self.now counts result) }
    {
        Letters {
            letter: Some(letter),
            targets: &self.targets[self.at..self.at + 1],
        }
    }

    /// The letters of the one error of all targets.
    #[inline(always)]
    pub(crate) fn product_error(&self, counts: Counts) -> Letters<'c>
        requires facing { IsFacing self.now counts }
        requires operation { self.now.operation ≡ CorrelatedError }
        ensures { IsTaken self.now counts (error_of self.now counts result) }
    {
        Letters {
            letter: None,
            targets: self.targets,
        }
    }

    /// The step behind the place, and where it leads.
    #[inline(always)]
    pub(crate) fn next(&self, counts: Counts) -> Taken<'c>
        requires { IsFacing self.now counts }
        ensures { IsTaken self.now counts result }
    {
        let next = self.at + 1;
        match self.operation {
            Operation::Applies(gate) => {
                if gate.arity() == 1 {
                    let q = self.single(gate, counts);
                    Taken {
                        step: Step::One { gate, q },
                        at: next,
                        counts,
                    }
                } else {
                    let pair = self.pair(gate, counts);
                    Taken {
                        step: pair.of(gate),
                        at: next + 1,
                        counts,
                    }
                }
            }
            Operation::PauliError(letter) => {
                let letters = self.letter_error(letter, counts);
                self.behind_error(letters, counts)
            }
            Operation::CorrelatedError => {
                let letters = self.product_error(counts);
                self.behind_error(letters, counts)
            }
            Operation::Measurement(letter) => self.behind_measured(letter, false, counts),
            Operation::MeasurementReset(letter) => self.behind_measured(letter, true, counts),
            Operation::QubitReset(letter) => Taken {
                step: Step::Collapse {
                    letter,
                    qubit: self.reset(letter, counts),
                    rec: None,
                    reset: true,
                    inverted: false,
                    flip: None,
                },
                at: next,
                counts: InstructionSteps::behind_reset(counts),
            },
            Operation::ProductMeasurement => {
                let seen = self.product(counts);
                Taken {
                    step: Step::CollapseWord {
                        letters: seen.letters,
                        rec: Some(counts.records),
                        inverted: seen.inverted,
                        flip: seen.flip,
                    },
                    at: self.at + seen.targets,
                    counts: self.behind_record(counts),
                }
            }
            Operation::DetectorDeclaration
            | Operation::ObservableInclude
            | Operation::Tick
            | Operation::QubitCoordinates
            | Operation::CoordinateShift => unreachable!(),
        }
    }

    // The fault of these letters at the place, and where it leads.
    #[inline(always)]
    fn behind_error(&self, letters: Letters<'c>, counts: Counts) -> Taken<'c>
        requires few { counts.faults + 1 < 2 ^ 32 }
        requires there { self.now.at < self.now.end }
        ensures { result ≡ error_of self.now counts letters.entry }
    {
        Taken {
            step: Step::Fault {
                name: self.fault_name(counts),
                letters,
            },
            at: self.at + 1,
            counts: InstructionSteps::behind_fault(counts),
        }
    }

    // The measurement of a letter at the place, and where it leads.
    #[inline(always)]
    fn behind_measured(&self, letter: Letter, reset: bool, counts: Counts) -> Taken<'c>
        requires facing { IsFacing self.now counts }
        requires operation { self.now.operation ≡ measuring reset letter }
        ensures { IsTaken self.now counts result }
    {
        let seen = self.measured(letter, reset, counts);
        Taken {
            step: Step::Collapse {
                letter,
                qubit: seen.qubit,
                rec: Some(counts.records),
                reset,
                inverted: seen.inverted,
                flip: seen.flip,
            },
            at: self.at + 1,
            counts: self.behind_record(counts),
        }
    }
}
