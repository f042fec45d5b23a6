//! A look at the targets of a line: with most nothing is wrong, and one pass over them shows it.
ghost use Rattle.std.specs.Prelude.{◌≡◌, ◌&&◌, not, true};
ghost use Rattle.std.specs.List.{list_all};
ghost use Rattle.stim_parser.specs.declared.forms.TargetForm.TheVariants.{QubitPairs};
ghost use Rattle.stim_parser.specs.Limits.{is_same_qubit};
ghost use Rattle.stim_parser.specs.private.Right.{AreRight};
ghost use Rattle.stim_parser.specs.Verdicts.{circuit_table};
ghost use Rattle.stim_parser.specs.private.NearTargets.{are_near_pairs, is_near, is_of_kind};

use crate::forms::TargetForm;
use crate::pairs::{is_back, is_plain, is_same_qubit};
use crate::target_checks::{is_pauli, is_plain_or_inverted, is_target_beyond};
use crate::target_word::TargetWord;
use stim_lexer::after_blanks;

/// Whether a target is of the kind that most lines of a form have.
#[inline(always)]
fn is_of_kind(form: TargetForm, target: TargetWord) -> bool
    ensures { result ≡ is_of_kind form target }
{
    match form {
        TargetForm::QubitsInvertedAtWill => is_plain_or_inverted(target),
        TargetForm::Paulis => is_pauli(target),
        TargetForm::Records => is_back(target),
        _ => is_plain(target),
    }
}

/// Whether a target is of that kind, and within its limit.
#[inline(always)]
fn is_near(form: TargetForm, target: TargetWord) -> bool
    ensures { result ≡ is_near form target }
{
    is_of_kind(form, target) && !is_target_beyond(form, target)
}

/// Whether all targets are. Callers name the form, so that it is tested at no target.
#[inline(always)]
fn are_near(form: TargetForm, targets: &[TargetWord]) -> bool
    ensures { result ≡ list_all (is_near form) targets.now }
{
    targets.iter().all(|target| is_near(form, *target))
}

/// Whether two targets are such qubits, and not the same.
#[inline(always)]
fn are_near_pair(first: TargetWord, second: TargetWord) -> bool
    ensures { result
        ≡ ((is_near QubitPairs first && is_near QubitPairs second)
        && not (is_same_qubit first second)) }
{
    let near = is_near(TargetForm::QubitPairs, first) && is_near(TargetForm::QubitPairs, second);
    near && !is_same_qubit(first, second)
}

/// Whether targets are pairs of such qubits, in none of which a qubit is named twice.
#[inline(always)]
fn are_near_pairs(targets: &[TargetWord]) -> bool
    ensures { result ≡ are_near_pairs targets.now }
{
    let mut rest = targets;
    while let [first, second, after @ ..] = rest {
        if !are_near_pair(*first, *second) {
            return false;
        }
        rest = after;
    }
    rest.is_empty()
}

/// Whether it is seen at once that nothing is wrong with the targets of a line. Of products, of records
/// in pairs and of how often a block is repeated it isn't asked.
#[inline(always)]
pub(crate) fn are_right(form: TargetForm, text: &[u8], targets: &[TargetWord]) -> bool
    ensures { result ≡ true → AreRight circuit_table form text.now targets.now }
{
    match form {
        TargetForm::NoTargets => targets.is_empty() && after_blanks(text).is_empty(),
        TargetForm::Qubits => are_near(TargetForm::Qubits, targets),
        TargetForm::QubitsInvertedAtWill => are_near(TargetForm::QubitsInvertedAtWill, targets),
        TargetForm::QubitPairs | TargetForm::PairsRecordFirst | TargetForm::PairsOneRecord => {
            are_near_pairs(targets)
        }
        TargetForm::Paulis => are_near(TargetForm::Paulis, targets),
        TargetForm::Records => are_near(TargetForm::Records, targets),
        TargetForm::Products | TargetForm::Turns => false,
    }
}
