ghost use Rattle.std.specs.Prelude.{◌≡◌, ◌&&◌};
ghost use Rattle.stim_parser.specs.Limits.{is_back, is_plain, is_plain_or_back, is_same_qubit, some_pair};

use crate::target::Target;
use crate::target_word::TargetWord;

/// Whether a target is a number alone.
pub(crate) fn is_plain(target: TargetWord) -> bool
    ensures { result ≡ is_plain target }
{
    matches!(target.get(), Target::Plain(_))
}

/// Whether a target is a record.
pub(crate) fn is_back(target: TargetWord) -> bool
    ensures { result ≡ is_back target }
{
    matches!(target.get(), Target::Back(_))
}

/// Whether a target is a number alone or a record.
pub(crate) fn is_plain_or_back(target: TargetWord) -> bool
    ensures { result ≡ is_plain_or_back target }
{
    matches!(target.get(), Target::Plain(_) | Target::Back(_))
}

/// Whether the second of a pair from the left is a record.
pub(crate) fn has_record_second(targets: &[TargetWord]) -> bool
    ensures { result ≡ some_pair (λ a b. is_back b) targets.now }
{
    let mut rest = targets;
    while let [_, second, after @ ..] = rest {
        if is_back(*second) {
            return true;
        }
        rest = after;
    }
    false
}

/// Whether both of a pair from the left are records.
pub(crate) fn has_pair_of_records(targets: &[TargetWord]) -> bool
    ensures { result ≡ some_pair (λ a b. is_back a && is_back b) targets.now }
{
    let mut rest = targets;
    while let [first, second, after @ ..] = rest {
        if is_back(*first) && is_back(*second) {
            return true;
        }
        rest = after;
    }
    false
}

/// Whether two targets are the same qubit.
pub(crate) fn is_same_qubit(first: TargetWord, second: TargetWord) -> bool
    ensures { result ≡ is_same_qubit first second }
{
    first.is(second) && is_plain(first)
}

/// Whether a pair from the left names one qubit twice.
pub(crate) fn has_pair_of_one(targets: &[TargetWord]) -> bool
    ensures { result ≡ some_pair is_same_qubit targets.now }
{
    let mut rest = targets;
    while let [first, second, after @ ..] = rest {
        if is_same_qubit(*first, *second) {
            return true;
        }
        rest = after;
    }
    false
}
