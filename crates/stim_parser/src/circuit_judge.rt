ghost use Rattle.std.specs.Prelude.{◌≡◌, ◌&&◌, ◌||◌, ◌∷◌, List, not};
ghost use Rattle.stim_lexer.specs.Bytes.{after_blanks, is_empty};
ghost use Rattle.stim_parser.specs.Circuits as circuits;
ghost use Rattle.stim_parser.specs.Instructions.{gate_targets};
ghost use Rattle.stim_parser.specs.Limits.{has_wrong_count};
ghost use Rattle.stim_parser.specs.Verdicts.{circuit_table, takes_none, turns_of};

use crate::forms::{ArgumentForm, TargetForm};
use crate::last::Last;
use crate::names::is_left_out;
use crate::near_targets::are_right;
use crate::numbers::GREATEST_COORDINATE;
use crate::operation::Operation;
use crate::table::{Causes, Judge, Keyword};
use crate::target::{Target, read_targets};
use crate::target_checks::{are_of_form, has_same_qubit, has_wrong_count, is_target_beyond};
use crate::target_word::TargetWord;
use gate_table::Gate;
use std::alloc::AllocError;
use step_model::Cause;
use stim_lexer::{LineTargets, after_blanks};

fn takes_none(form: TargetForm) -> bool
    ensures { result ≡ takes_none form }
{
    matches!(form, TargetForm::NoTargets)
}

/// Whether there are targets where none is taken, or another number of them than is taken.
fn has_wrong_number(form: TargetForm, text: &[u8], targets: &[TargetWord]) -> bool
    ensures { result
        ≡ ((takes_none form && not (is_empty (after_blanks text.now)))
        || has_wrong_count form targets.now) }
{
    (takes_none(form) && !after_blanks(text).is_empty()) || has_wrong_count(form, targets)
}

/// The targets that a gate takes.
fn gate_targets(gate: Gate) -> TargetForm
    ensures { result ≡ gate_targets gate }
{
    match gate {
        Gate::CX | Gate::CY => TargetForm::PairsRecordFirst,
        Gate::CZ => TargetForm::PairsOneRecord,
        _ => {
            if gate.arity() == 1 {
                TargetForm::Qubits
            } else {
                TargetForm::QubitPairs
            }
        }
    }
}

/// The number of a target that is a number alone, and 0 for any other.
#[inline(always)]
fn number_alone(target: Target) -> u64
    ensures { (rest : List Target) → result ≡ turns_of (target ∷ rest) }
{
    match target {
        Target::Plain(number) => number,
        _ => 0,
    }
}

/// The judge of a circuit's lines.
pub struct CircuitJudge;

impl Judge<Operation, TargetWord, TargetForm> for CircuitJudge {
    ghost table = { circuit_table };

    ghost Fits = { circuits.Fits };

    #[inline(always)]
    fn keyword_named<'a>(last: &mut Last<'a>, name: &'a [u8]) -> Option<Keyword<Operation>> {
        last.name.keyword(name)
    }

    fn refusal_of_name(name: &[u8]) -> Cause {
        if is_left_out(name) {
            Cause::LeftOut
        } else {
            Cause::Name
        }
    }

    fn argument_form(keyword: Keyword<Operation>) -> ArgumentForm
        ensures { result ≡ circuit_table.argument_form keyword }
    {
        let Keyword::Does(operation) = keyword else {
            return ArgumentForm::NoArguments;
        };
        match operation {
            Operation::Measurement(_)
            | Operation::MeasurementReset(_)
            | Operation::ProductMeasurement => ArgumentForm::ProbabilityAtWill,
            Operation::PauliError(_) | Operation::CorrelatedError => ArgumentForm::OneProbability,
            Operation::DetectorDeclaration | Operation::CoordinateShift =>
                ArgumentForm::WholeNumbers,
            Operation::ObservableInclude => ArgumentForm::OneNumber,
            Operation::QubitCoordinates => ArgumentForm::Decimals,
            Operation::Applies(_) | Operation::QubitReset(_) | Operation::Tick => {
                ArgumentForm::NoArguments
            }
        }
    }

    #[inline(always)]
    fn greatest_coordinate() -> u64 {
        GREATEST_COORDINATE
    }

    fn target_form(keyword: Keyword<Operation>) -> TargetForm
        ensures { result ≡ circuit_table.target_form keyword }
    {
        let Keyword::Does(operation) = keyword else {
            return TargetForm::Turns;
        };
        match operation {
            Operation::Applies(gate) => gate_targets(gate),
            Operation::Measurement(_) | Operation::MeasurementReset(_) => {
                TargetForm::QubitsInvertedAtWill
            }
            Operation::ProductMeasurement => TargetForm::Products,
            Operation::QubitReset(_) | Operation::PauliError(_) | Operation::QubitCoordinates =>
                TargetForm::Qubits,
            Operation::CorrelatedError => TargetForm::Paulis,
            Operation::DetectorDeclaration | Operation::ObservableInclude => TargetForm::Records,
            Operation::Tick | Operation::CoordinateShift => TargetForm::NoTargets,
        }
    }

    fn read_targets<L: LineTargets<TargetWord>>(
        targets: &mut L,
        form: TargetForm,
        text: &[u8],
    ) -> Result<bool, AllocError> {
        if takes_none(form) {
            targets.clear();
            return Ok(true);
        }
        read_targets(targets, text)
    }

    #[inline(always)]
    fn are_right(form: TargetForm, text: &[u8], targets: &[TargetWord]) -> bool {
        are_right(form, text, targets)
    }

    #[inline(always)]
    fn are_of_form(form: TargetForm, targets: &[TargetWord]) -> bool {
        are_of_form(form, targets)
    }

    #[tactic(auto, unfolding(crate::specs::Limits::has_target_beyond))]
    fn has_target_beyond(form: TargetForm, targets: &[TargetWord]) -> bool {
        targets.iter().any(|target| is_target_beyond(form, *target))
    }

    fn refusal_of_targets(form: TargetForm, text: &[u8], targets: &[TargetWord]) -> Option<Cause> {
        if has_wrong_number(form, text, targets) {
            return Some(Cause::Count);
        }
        if has_same_qubit(form, targets) {
            return Some(Cause::SameQubit);
        }
        None
    }

    #[inline(always)]
    fn turns_of(targets: &[TargetWord]) -> u64 {
        match targets {
            [first, ..] => number_alone(first.get()),
            [] => 0,
        }
    }

    #[inline(always)]
    fn causes() -> Causes {
        Causes {
            block: Cause::Block,
            arguments: Cause::Arguments,
            probability: Cause::Probability,
            target: Cause::Target,
            number: Cause::Number,
            repeat_zero: Cause::RepeatZero,
            depth: Cause::Depth,
        }
    }
}
