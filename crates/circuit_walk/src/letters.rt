//! Letters at qubits, lent from the targets of an instruction.

ghost use Rattle.std.specs.Prelude.{◌≡◌, [], ◌∷◌, true, All, IfSome, MatchOption};
ghost use Rattle.circuit_walk.specs.Letters.{AreSmall, behind_star, both_in, letters_in, named_letter};
ghost use Rattle.circuit_walk.specs.Small.{HasSmallQubit};
ghost use Rattle.circuit_walk.specs.Targets.{is_inverted, pauli_letter};
ghost use Rattle.stim_parser.specs.Limits.{is_plain_or_inverted, qubit_of};

use pauli_word::Letter;
use step_model::Term;
use stim_parser::{Target, TargetWord};

/// Letters at qubits: one letter at the qubit of each of the targets, or, where there is none, the factors of a product,
/// between which stars may stand. Contracts see the list of them by `letters_in`.
#[derive(Clone, Copy)]
pub struct Letters<'c> {
    pub(crate) letter: Option<Letter>,
    pub(crate) targets: &'c [TargetWord],
}

/// The qubit that a target names.
#[inline(always)]
pub(crate) fn qubit_of(target: TargetWord) -> u32
    requires { HasSmallQubit target }
    ensures { result ≡ qubit_of target }
{
    target.qubit() as u32
}

/// The qubit of a target that is one, and whether a `!` stands before it.
#[inline(always)]
pub(crate) fn own_qubit(target: TargetWord) -> (u32, bool)
    requires small { HasSmallQubit target }
    requires own { is_plain_or_inverted target ≡ true }
    ensures qubit { result.0 ≡ qubit_of target }
    ensures inverted { result.1 ≡ is_inverted target }
{
    (target.number() as u32, target.plain().is_none())
}

/// The letter of a target.
#[inline(always)]
fn pauli_letter(target: TargetWord) -> Letter
    ensures { result ≡ pauli_letter target }
{
    match target.get() {
        Target::Pauli(_, letter, _) => letter,
        _ => Letter::I,
    }
}

/// The letter given, or else that of a target, at the target's qubit.
#[inline(always)]
fn named_letter(letter: Option<Letter>, target: TargetWord) -> Term
    requires { HasSmallQubit target }
    ensures { result ≡ named_letter letter target }
{
    Term {
        qubit: qubit_of(target),
        letter: match letter {
            Some(letter) => letter,
            None => pauli_letter(target),
        },
    }
}

/// What follows a star that stands first, or else all.
#[inline(always)]
fn behind_star(targets: &[TargetWord]) -> &[TargetWord]
    ensures { result.now ≡ behind_star targets.now }
{
    match targets {
        [first, rest @ ..] => match first.get() {
            Target::Star => rest,
            _ => targets,
        },
        [] => targets,
    }
}

impl<'c> Letters<'c> {
    /// The two letters at their qubits, where these are the factors of a product of just two, with
    /// no star between them, as most errors of more than one letter are.
    #[inline(always)]
    pub fn both(self) -> Option<(Term, Term)>
        requires { AreSmall self }
        ensures both { result ≡ both_in self.entry }
        ensures letters { IfSome result (λ both. letters_in self.entry ≡ both.0 ∷ both.1 ∷ []) }
    {
        if self.letter.is_some() {
            return None;
        }
        match self.targets {
            [first, second] => match (first.get(), second.get()) {
                (Target::Pauli(_, a, p), Target::Pauli(_, b, q)) => Some((
                    Term {
                        qubit: p as u32,
                        letter: a,
                    },
                    Term {
                        qubit: q as u32,
                        letter: b,
                    },
                )),
                _ => None,
            },
            _ => None,
        }
    }

    /// The first letter at its qubit, and those behind it.
    #[inline(always)]
    pub fn split_first(self) -> Option<(Term, Letters<'c>)>
        requires { AreSmall self }
        ensures letters { MatchOption result (letters_in self.entry ≡ [])
            (λ parts. letters_in self.entry ≡ parts.0 ∷ letters_in parts.1) }
        ensures small { IfSome result (λ parts. AreSmall parts.1) }
    {
        match self.targets {
            [first, rest @ ..] => Some((
                named_letter(self.letter, *first),
                Letters {
                    letter: self.letter,
                    targets: behind_star(rest),
                },
            )),
            [] => None,
        }
    }
}
