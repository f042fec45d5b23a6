//! A target in one machine word.

ghost use Rattle.std.specs.Bool.{Decides};
ghost use Rattle.std.specs.Prelude.{◌≡◌, ◌<◌, false, true, MatchOption};
ghost use Rattle.stim_parser.specs.Limits.{is_plain, is_plain_or_inverted, qubit_of};
ghost use Rattle.stim_parser.specs.private.Words.{HasRoom, letter_code, letter_in, named, word_of};

use crate::target::Target;
use pauli_word::Letter;
use std::marker::Model;

/// A target in one word: what it is in the four lowest bits, and its number in the sixty above.
#[derive(Clone, Copy)]
pub struct TargetWord {
    word: u64,
}

const _: () = prove!(size_of::<TargetWord>() == 8);

impl Model for TargetWord {
    ghost use Rattle.stim_parser.specs.declared.target.Target.{Target};
    ghost use Rattle.stim_parser.specs.private.Words.{IsWord, target_in, word_of};

    ghost Value = { Target };

    ghost view = { λ t. target_in t.word };

    ghost invariant = { λ t. IsWord t.word };

    ghost use Rattle.std.proofs.Common.{ap, ℕ};
    ghost use Rattle.stim_parser.specs.declared.target_word.TargetWord.TheInside.{Inside};

    ghost inverse = { λ target. record { word = word_of target } };

    ghost inverse_ok = { λ t h. ap (λ (word : ℕ). let made : Inside = record { word = word } in made) h };
}

/// The number of a letter, below four.
#[inline(always)]
fn letter_code(letter: Letter) -> u64
    ensures is { result ≡ letter_code letter }
    ensures few { result < 4 }
{
    match letter {
        Letter::I => 0,
        Letter::X => 1,
        Letter::Y => 2,
        Letter::Z => 3,
    }
}

/// The letter of a number below four.
#[inline(always)]
fn letter_in(code: u64) -> Letter
    ensures { result ≡ letter_in code }
{
    match code {
        0 => Letter::I,
        1 => Letter::X,
        2 => Letter::Y,
        _ => Letter::Z,
    }
}

/// The word of a target.
#[inline(always)]
fn word_of(target: Target) -> u64
    requires { HasRoom target }
    ensures { result ≡ word_of target }
{
    match target {
        Target::Plain(number) => number * 16,
        Target::Inverted(qubit) => qubit * 16 + 1,
        Target::Back(back) => back * 16 + 2,
        Target::Star => 3,
        Target::Pauli(inverted, letter, qubit) => {
            let kind = if inverted { 12 } else { 8 };
            qubit * 16 + (kind + letter_code(letter))
        }
    }
}

/// The target of a kind with a number.
#[inline(always)]
fn named(kind: u64, number: u64) -> Target
    ensures { result ≡ named kind number }
{
    match kind {
        0 => Target::Plain(number),
        1 => Target::Inverted(number),
        2 => Target::Back(number),
        3 => Target::Star,
        _ => Target::Pauli(kind >= 12, letter_in(kind % 4), number),
    }
}

impl TargetWord {
    /// A target in a word.
    #[inline(always)]
    pub fn new(target: Target) -> Self
        requires { HasRoom target }
        ensures { result ≡ target }
    {
        TargetWord {
            word: word_of(target),
        }
    }

    /// The target of the word.
    #[inline(always)]
    pub fn get(self) -> Target
        ensures { result ≡ self }
    {
        named(self.word % 16, self.word / 16)
    }

    /// The number of a target that is a number alone: a loop over qubits asks for no more.
    #[inline(always)]
    pub fn plain(self) -> Option<u64>
        ensures { MatchOption result (is_plain self ≡ false) (λ number. self ≡ Target.Plain number) }
    {
        if self.word % 16 == 0 {
            Some(self.word / 16)
        } else {
            None
        }
    }

    /// The number in the word: the qubit of a target that is one, with a `!` before it or not.
    #[inline(always)]
    pub fn number(self) -> u64
        ensures { is_plain_or_inverted self ≡ true → result ≡ qubit_of self }
    {
        self.word / 16
    }

    /// The qubit that the target names; 0 where it names none.
    #[inline(always)]
    pub fn qubit(self) -> u64
        ensures { result ≡ qubit_of self }
    {
        match self.word % 16 {
            2 | 3 => 0,
            _ => self.word / 16,
        }
    }

    /// Whether this is the word of the same target as another.
    #[inline(always)]
    pub fn is(self, other: TargetWord) -> bool
        ensures { Decides result (self ≡ other) }
    {
        self.word == other.word
    }
}
