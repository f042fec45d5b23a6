ghost use Rattle.std.specs.Prelude.{◌≡◌, ◌≢◌, ℕ, option_map};
ghost use Rattle.std.specs.List.{list_all, list_any};
ghost use Rattle.step_model.specs.Chances.{chance_of};
ghost use Rattle.stim_parser.specs.Limits.{has_argument_beyond, has_wrong_arguments, has_wrong_probability, is_argument, is_probability, is_wrong_count, takes_probability};
ghost use Rattle.stim_parser.specs.declared.forms.ArgumentForm.TheVariants.{WholeNumbers};
ghost use Rattle.stim_parser.specs.Rows.{texts_of};
ghost use Rattle.stim_parser.specs.Numbers.{is_number_beyond, value_of};
ghost use Rattle.stim_parser.specs.Probabilities.{chance_in};

use crate::arguments::MOST_ARGUMENTS;
use crate::digits::{is_number, value_of};
use crate::forms::ArgumentForm;
use crate::last::LastProbability;
use crate::numbers::{is_decimal, is_number_beyond, is_whole_number};
use step_model::ChanceText;

/// Whether this is a number of arguments that the form doesn't take.
fn is_wrong_count(form: ArgumentForm, count: usize) -> bool
    ensures { result ≡ is_wrong_count form count }
{
    match form {
        ArgumentForm::NoArguments => count != 0,
        ArgumentForm::ProbabilityAtWill => count > 1,
        ArgumentForm::OneProbability | ArgumentForm::OneNumber => count != 1,
        ArgumentForm::WholeNumbers | ArgumentForm::Decimals => count > MOST_ARGUMENTS,
    }
}

/// Whether an argument is of a form. Of a probability it is only asked here that it isn't empty.
fn is_argument(form: ArgumentForm, text: &[u8]) -> bool
    ensures { result ≡ is_argument form text.now }
{
    match form {
        ArgumentForm::WholeNumbers => is_whole_number(text),
        ArgumentForm::Decimals => is_decimal(text),
        ArgumentForm::OneNumber => is_number(text),
        _ => !text.is_empty(),
    }
}

/// Whether each argument is of a form.
fn are_arguments(form: ArgumentForm, arguments: &[&[u8]]) -> bool
    ensures { result ≡ list_all (λ argument. is_argument form argument.now) arguments.now }
{
    arguments
        .iter()
        .all(|argument| is_argument(form, *argument))
}

/// Whether the arguments are of a wrong number or of a wrong form.
pub fn has_wrong_arguments(form: ArgumentForm, arguments: &[&[u8]]) -> bool
    ensures { result ≡ has_wrong_arguments form (texts_of arguments.now) }
{
    is_wrong_count(form, arguments.len()) || !are_arguments(form, arguments)
}

/// Whether the arguments of a form are probabilities.
pub(crate) fn takes_probability(form: ArgumentForm) -> bool
    ensures { result ≡ takes_probability form }
{
    matches!(
        form,
        ArgumentForm::ProbabilityAtWill | ArgumentForm::OneProbability
    )
}

/// Whether each argument is a probability that is accepted.
fn are_probabilities<'a>(last: &mut LastProbability<'a>, arguments: &[&'a [u8]]) -> bool
    ensures { result ≡ list_all (λ argument. is_probability argument.now) arguments.now }
{
    for argument in arguments {
        if last.bound(*argument).is_none() {
            return false;
        }
    }
    true
}

/// Whether an argument has to be a probability and isn't an accepted one.
pub fn has_wrong_probability<'a>(
    last: &mut LastProbability<'a>,
    form: ArgumentForm,
    arguments: &[&'a [u8]],
) -> bool
    ensures { result ≡ has_wrong_probability form (texts_of arguments.now) }
{
    takes_probability(form) && !are_probabilities(last, arguments)
}

/// The first argument with its bound, where it is a probability.
pub(crate) fn chance_of<'a>(
    last: &mut LastProbability<'a>,
    arguments: &[&'a [u8]],
) -> Option<ChanceText<'a>>
    ensures { option_map chance_of result ≡ chance_in (texts_of arguments.now) }
{
    match arguments {
        [] => None,
        [text, ..] => match last.bound(*text) {
            Some(bound) => Some(ChanceText { text: *text, bound }),
            None => None,
        },
    }
}

/// Whether one of the numbers is beyond the limit of all that have none of their own.
fn are_numbers_beyond(arguments: &[&[u8]]) -> bool
    ensures { result
        ≡ list_any (λ argument. is_number_beyond (value_of argument.now)) arguments.now }
{
    arguments
        .iter()
        .any(|argument| is_number_beyond(value_of(*argument)))
}

/// Whether one of the arguments is beyond its limit. Whole numbers are asked elsewhere.
pub(crate) fn has_number_beyond(form: ArgumentForm, arguments: &[&[u8]]) -> bool
    requires { form ≢ WholeNumbers }
    ensures { (greatest : ℕ) → result ≡ has_argument_beyond greatest form (texts_of arguments.now) }
{
    match form {
        ArgumentForm::OneNumber => are_numbers_beyond(arguments),
        _ => false,
    }
}
