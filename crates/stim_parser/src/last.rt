//! What was found last: the lines of a text have few names, and those that follow one another often the same in their
//! parentheses.
ghost use Rattle.std.specs.Prelude.{◌≡◌, ◌≢◌, ◌<◌, [], false, true, option_map, MatchBool};
ghost use Rattle.step_model.specs.Probabilities.{probability_bound};
ghost use Rattle.step_model.specs.Chances.{chance_of};
ghost use Rattle.stim_parser.specs.declared.forms.ArgumentForm.TheVariants.{ProbabilityAtWill};
ghost use Rattle.stim_parser.specs.Arguments.{arguments_in};
ghost use Rattle.stim_parser.specs.Instructions.{keyword_named};
ghost use Rattle.stim_parser.specs.Probabilities.{chance_in, AreProbabilities};
ghost use Rattle.stim_parser.specs.private.Remembered.{IsAccepted, parentheses_in};

use crate::forms::ArgumentForm;
use crate::names::keyword_named;
use crate::operation::Operation;
use crate::probability::Probability;
use crate::table::Keyword;
use std::marker::Model;
use step_model::ChanceText;

/// How many names are remembered.
const PLACES: usize = 32;

/// A name that was looked up, and what it names.
#[derive(Clone, Copy)]
struct Named<'a> {
    name: &'a [u8],
    keyword: Option<Keyword<Operation>>,
}

/// Names that were looked up, each at a place that its bytes tell: the last one that has this place. Lines beside one another
/// have different names, but a text has few. Contracts see none, as no answer depends on which are remembered.
#[derive(Drop)]
pub(crate) struct LastNames<'a> {
    names: [Named<'a>; PLACES],
}

impl<'a> Model for LastNames<'a> {
    ghost use Rattle.std.specs.Prelude.{◌≡◌, ℕ, List, [], length, All};
    ghost use Rattle.stim_parser.specs.Instructions.{keyword_named};

    ghost Value = { List ℕ };

    ghost view = { λ last. [] };

    ghost invariant = { λ last. (length last.names ≡ 32) × All (λ named. named.keyword ≡ keyword_named named.name.now) last.names };
}

/// The place of a name.
#[inline(always)]
fn place_of(name: &[u8]) -> usize
    ensures { result < PLACES }
{
    match name {
        [] => 0,
        [first, ..] => {
            let last = name[name.len() - 1];
            (2 * *first as usize + last as usize + 4 * (name.len() % 8)) % PLACES
        }
    }
}

impl<'a> LastNames<'a> {
    /// No name but the empty one.
    pub(crate) fn new() -> Self
        ensures { result ≡ [] }
    {
        let none = Named {
            name: &[],
            keyword: keyword_named(&[]),
        };
        LastNames {
            names: [none; PLACES],
        }
    }

    /// The keyword that a name names, in any case.
    pub(crate) fn keyword(&mut self, name: &'a [u8]) -> Option<Keyword<Operation>>
        ensures { result ≡ keyword_named name.now }
    {
        let place = place_of(name);
        let named = &self.names[place];
        if named.name == name {
            return named.keyword;
        }
        let keyword = keyword_named(name);
        self.names[place] = Named { name, keyword };
        keyword
    }
}

/// The text that was read last as a probability, and floor of that times 2^64, where it is one. Contracts see the text.
#[derive(Drop)]
pub struct LastProbability<'a> {
    text: &'a [u8],
    bound: Option<u128>,
}

impl<'a> Model for LastProbability<'a> {
    ghost use Rattle.std.specs.Prelude.{◌≡◌, ℕ, List};
    ghost use Rattle.step_model.specs.Probabilities.{probability_bound};

    ghost Value = { List ℕ };

    ghost view = { λ last. last.text.now };

    ghost invariant = { λ last. last.bound ≡ probability_bound last.text.now };
}

/// Floor of a probability times 2^64, where the text is one.
fn bound_of(text: &[u8]) -> Option<u128>
    ensures { result ≡ probability_bound text.now }
{
    match Probability::read(text) {
        Some(probability) => Some(probability.bound()),
        None => None,
    }
}

impl<'a> LastProbability<'a> {
    /// That of the empty text.
    pub fn new() -> Self
        ensures { result ≡ [] }
    {
        LastProbability {
            text: &[],
            bound: bound_of(&[]),
        }
    }

    /// Floor of the probability that a text writes times 2^64, where `Probability::read` reads one.
    pub fn bound(&mut self, text: &'a [u8]) -> Option<u128>
        ensures value { result ≡ probability_bound text.now }
        ensures last { self.new ≡ text.now }
    {
        if self.text == text {
            return self.bound;
        }
        let bound = bound_of(text);
        *self = LastProbability { text, bound };
        bound
    }
}

/// Accepted probabilities: what stood between some parentheses, and the form that was asked of it.
#[derive(Clone, Copy)]
struct Accepted<'a> {
    form: ArgumentForm,
    text: &'a [u8],
    // The probability, where there is one.
    chance: Option<ChanceText<'a>>,
}

impl<'a> Accepted<'a> {
    /// No probability, of an instruction that may have one.
    fn none() -> Self
        ensures form { result.form ≡ ProbabilityAtWill }
        ensures text { result.text.now ≡ [] }
        ensures accepted { IsAccepted result }
    {
        Accepted {
            form: ArgumentForm::ProbabilityAtWill,
            text: &[],
            chance: None,
        }
    }

    /// Whether these are a text of which the same form is asked.
    #[inline(always)]
    fn are(&self, form: ArgumentForm, text: &[u8]) -> bool
        ensures { MatchBool result
            (parentheses_in self.now ≡ record { form = form; text = text.now })
            (parentheses_in self.now ≢ record { form = form; text = text.now }) }
    {
        self.form == form && self.text == text
    }
}

/// How many texts of parentheses are remembered.
const TEXTS: usize = 8;

/// The place of a text among those that are remembered.
#[inline(always)]
fn place_of_text(text: &[u8]) -> usize
    ensures { result < TEXTS }
{
    match text {
        [] => 0,
        [.., last] => (*last as usize + 3 * (text.len() % TEXTS)) % TEXTS,
    }
}

/// What stood between the parentheses of the last line with accepted probabilities, and the form that was asked of it. Others are
/// remembered, each at a place that its text tells, since lines beside one another differ, but a text has few probabilities:
/// contracts see the last one alone.
#[derive(Drop)]
pub struct LastParentheses<'a> {
    last: Accepted<'a>,
    others: [Accepted<'a>; TEXTS],
}

impl<'a> Model for LastParentheses<'a> {
    ghost use Rattle.std.specs.Prelude.{◌≡◌, length, All};
    ghost use Rattle.stim_parser.specs.Parentheses.{Parentheses};
    ghost use Rattle.stim_parser.specs.private.Remembered.{IsAccepted, parentheses_in};

    ghost Value = { Parentheses };

    ghost view = { λ p. parentheses_in p.last };

    ghost invariant = { λ p. IsAccepted p.last × (length p.others ≡ 8) × All IsAccepted p.others };
}

impl<'a> LastParentheses<'a> {
    /// Those of an instruction that may have a probability, and has none.
    pub fn new() -> Self
        ensures { result ≡ record { form = ProbabilityAtWill; text = [] } }
    {
        LastParentheses {
            last: Accepted::none(),
            others: [Accepted::none(); TEXTS],
        }
    }

    /// Whether a text is that of the last line, or of another that is remembered, and the same form is asked of it. Then nothing
    /// is wrong with it, and it is that of the last line.
    #[inline(always)]
    pub fn recall(&mut self, form: ArgumentForm, text: &[u8]) -> bool
        ensures same { MatchBool result
            (self.new ≡ record { form = form; text = text.now })
            (self.new ≡ self.old) }
        ensures differs { result ≡ false → self.old ≢ record { form = form; text = text.now } }
        ensures right { result ≡ true → AreProbabilities form (arguments_in text.now) }
    {
        self.last.are(form, text) || self.recall_other(form, text)
    }

    /// The same of those that were there before the last.
    fn recall_other(&mut self, form: ArgumentForm, text: &[u8]) -> bool
        ensures same { MatchBool result
            (self.new ≡ record { form = form; text = text.now })
            (self.new ≡ self.old) }
        ensures right { result ≡ true → AreProbabilities form (arguments_in text.now) }
    {
        let other = self.others[place_of_text(text)];
        if !other.are(form, text) {
            return false;
        }
        self.last = other;
        true
    }

    /// The probability that stood there, where there was one.
    pub(crate) fn chance(&self) -> Option<ChanceText<'a>>
        ensures { option_map chance_of result ≡ chance_in (arguments_in self.now.text) }
    {
        self.last.chance
    }

    /// Keeps the arguments of a line that are probabilities, with which nothing is wrong, and the first of them.
    pub(crate) fn keep(
        &mut self,
        form: ArgumentForm,
        text: &'a [u8],
        chance: Option<ChanceText<'a>>,
    )
        requires right { AreProbabilities form (arguments_in text.now) }
        requires chance { option_map chance_of chance ≡ chance_in (arguments_in text.now) }
        ensures { self.new ≡ record { form = form; text = text.now } }
    {
        let accepted = Accepted { form, text, chance };
        self.others[place_of_text(text)] = accepted;
        self.last = accepted;
    }
}

/// What was read last: names, what stood in parentheses, and a probability.
#[derive(Drop)]
pub struct Last<'a> {
    pub(crate) name: LastNames<'a>,
    pub parentheses: LastParentheses<'a>,
    pub probability: LastProbability<'a>,
}

impl<'a> Last<'a> {
    /// Those of an empty text.
    pub fn new() -> Self
        ensures name { result.name ≡ [] }
        ensures parentheses { result.parentheses ≡ record { form = ProbabilityAtWill; text = [] } }
        ensures probability { result.probability ≡ [] }
    {
        Last {
            name: LastNames::new(),
            parentheses: LastParentheses::new(),
            probability: LastProbability::new(),
        }
    }
}
