ghost use Rattle.std.specs.Prelude.{◌≡◌, false};
ghost use Rattle.std.specs.List.{list_all};
ghost use Rattle.stim_parser.specs.Limits.{are_of_form, has_same_qubit, has_target_beyond, has_wrong_count, is_back, is_pauli, is_plain, is_plain_or_back, is_plain_or_inverted, takes_pairs, is_target_beyond};

use crate::forms::TargetForm;
use crate::numbers::{is_number_beyond, is_qubit_beyond};
use crate::pairs::{
    has_pair_of_one, has_pair_of_records, has_record_second, is_back, is_plain, is_plain_or_back,
};
use crate::products::{are_products, has_product_of_one};
use crate::target::Target;
use crate::target_word::TargetWord;

/// Whether a target is a number, with a `!` before it or not.
pub(crate) fn is_plain_or_inverted(target: TargetWord) -> bool
    ensures { result ≡ is_plain_or_inverted target }
{
    matches!(target.get(), Target::Plain(_) | Target::Inverted(_))
}

/// Whether a target is a letter at a qubit, without a `!`.
pub(crate) fn is_pauli(target: TargetWord) -> bool
    ensures { result ≡ is_pauli target }
{
    matches!(target.get(), Target::Pauli(false, _, _))
}

fn are_plain(targets: &[TargetWord]) -> bool
    ensures { result ≡ list_all is_plain targets.now }
{
    targets.iter().all(|target| is_plain(*target))
}

fn are_plain_or_inverted(targets: &[TargetWord]) -> bool
    ensures { result ≡ list_all is_plain_or_inverted targets.now }
{
    targets.iter().all(|target| is_plain_or_inverted(*target))
}

fn are_plain_or_back(targets: &[TargetWord]) -> bool
    ensures { result ≡ list_all is_plain_or_back targets.now }
{
    targets.iter().all(|target| is_plain_or_back(*target))
}

fn are_paulis(targets: &[TargetWord]) -> bool
    ensures { result ≡ list_all is_pauli targets.now }
{
    targets.iter().all(|target| is_pauli(*target))
}

fn are_back(targets: &[TargetWord]) -> bool
    ensures { result ≡ list_all is_back targets.now }
{
    targets.iter().all(|target| is_back(*target))
}

/// Whether targets are of a form. Their number isn't asked.
#[tactic(auto, unfolding(crate::specs::Limits::are_of_form))]
pub(crate) fn are_of_form(form: TargetForm, targets: &[TargetWord]) -> bool
    ensures { result ≡ are_of_form form targets.now }
{
    match form {
        TargetForm::NoTargets => true,
        TargetForm::Qubits | TargetForm::QubitPairs | TargetForm::Turns => are_plain(targets),
        TargetForm::QubitsInvertedAtWill => are_plain_or_inverted(targets),
        TargetForm::PairsRecordFirst => {
            are_plain_or_back(targets) && !has_record_second(targets)
        }
        TargetForm::PairsOneRecord => {
            are_plain_or_back(targets) && !has_pair_of_records(targets)
        }
        TargetForm::Paulis => are_paulis(targets),
        TargetForm::Products => are_products(targets),
        TargetForm::Records => are_back(targets),
    }
}

/// Whether a number alone, a qubit or how often a block is repeated, is beyond its limit.
fn is_plain_beyond(form: TargetForm, number: u64) -> bool
    ensures { result ≡ is_target_beyond form (Target.Plain number) }
{
    match form {
        TargetForm::Turns => is_number_beyond(number),
        _ => is_qubit_beyond(number),
    }
}

/// Whether a target's number is beyond its limit.
pub(crate) fn is_target_beyond(form: TargetForm, target: TargetWord) -> bool
    ensures { result ≡ is_target_beyond form target }
{
    match target.get() {
        Target::Plain(number) => is_plain_beyond(form, number),
        Target::Back(back) => is_number_beyond(back),
        Target::Inverted(qubit) => is_qubit_beyond(qubit),
        Target::Pauli(_, _, qubit) => is_qubit_beyond(qubit),
        Target::Star => false,
    }
}

/// Whether targets stand in pairs.
fn takes_pairs(form: TargetForm) -> bool
    ensures { result ≡ takes_pairs form }
{
    matches!(
        form,
        TargetForm::QubitPairs | TargetForm::PairsRecordFirst | TargetForm::PairsOneRecord
    )
}

/// Whether this is a number of targets that the form doesn't take. A form without targets is judged elsewhere.
#[tactic(auto, unfolding(crate::specs::Limits::has_wrong_count))]
pub(crate) fn has_wrong_count(form: TargetForm, targets: &[TargetWord]) -> bool
    ensures { result ≡ has_wrong_count form targets.now }
{
    match form {
        TargetForm::Turns => targets.len() != 1,
        _ => takes_pairs(form) && targets.len() % 2 == 1,
    }
}

/// Whether a pair or a product names one qubit twice.
#[tactic(auto, unfolding(crate::specs::Limits::has_same_qubit))]
pub(crate) fn has_same_qubit(form: TargetForm, targets: &[TargetWord]) -> bool
    requires { has_target_beyond form targets.now ≡ false }
    ensures { result ≡ has_same_qubit form targets.now }
{
    match form {
        TargetForm::Products => has_product_of_one(targets),
        _ => takes_pairs(form) && has_pair_of_one(targets),
    }
}
