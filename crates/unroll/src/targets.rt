ghost use Rattle.std.specs.Prelude.{◌≡◌, ◌≤◌, [], ◌∷◌, All, length, MatchOption};
ghost use Rattle.stim_parser.specs.Numbers.{most_qubits};
ghost use Rattle.stim_parser.specs.Products.{is_joining};
ghost use Rattle.stim_parser.specs.Limits.{products_of};
ghost use Rattle.unroll.specs.private.Pushed.{FollowsFactor};
ghost use Rattle.circuit_walk.specs.Refusals.{is_before_start, reaches_far};
ghost use Rattle.circuit_walk.specs.Totals.{qubits_to, target_count};
ghost use Rattle.unroll.specs.private.MadeTotals.{qubits_named};

use stim_parser::{Operation, Target, TargetWord};

/// The first of targets, and those behind it.
#[inline(always)]
fn split_first(targets: &[TargetWord]) -> Option<(Target, &[TargetWord])>
    ensures { MatchOption result (targets.now ≡ [])
        (λ first. targets.now ≡ first.0 ∷ first.1.now) }
{
    match targets {
        [first, rest @ ..] => Some((first.get(), rest)),
        [] => None,
    }
}

/// One more than the qubit that a target names, and 0 where it names none.
#[inline(always)]
fn qubits_to(target: Target) -> u32
    requires { qubits_to target ≤ most_qubits }
    ensures { result ≡ qubits_to target }
{
    match target {
        Target::Plain(q) | Target::Inverted(q) | Target::Pauli(_, _, q) => q as u32 + 1,
        Target::Back(_) | Target::Star => 0,
    }
}

/// Whether a target is a record that reaches back further than this many records.
#[inline(always)]
fn is_far(records: u64, target: Target) -> bool
    ensures { result ≡ is_before_start records target }
{
    match target {
        Target::Back(k) => records < k,
        _ => false,
    }
}

/// One more than the greatest qubit that targets name, 0 where they name none; and whether one of them is a record that
/// reaches back further than there are records.
#[derive(Clone, Copy)]
pub(crate) struct Reach {
    pub qubits: u32,
    pub is_far: bool,
}

/// How far targets reach after this many records. It stands apart, since most lines have numbers
/// alone.
#[inline(never)]
fn reach_of_any(records: u64, targets: &[TargetWord]) -> Reach
    requires { All (λ target. qubits_to target ≤ most_qubits) targets.now }
    ensures qubits { result.qubits ≡ qubits_named targets.now }
    ensures far { result.is_far ≡ reaches_far records targets.now }
{
    let mut qubits: u32 = 0;
    let mut far = false;
    let mut rest = targets;
    while let Some((first, after)) = split_first(rest) {
        qubits = qubits.max(qubits_to(first));
        let goes_far = is_far(records, first);
        far = far || goes_far;
        rest = after;
    }
    Reach {
        qubits,
        is_far: far,
    }
}

/// The same, where numbers alone are asked no more than which of them is the greatest.
#[inline(always)]
pub(crate) fn reach_of(records: u64, targets: &[TargetWord]) -> Reach
    requires { All (λ target. qubits_to target ≤ most_qubits) targets.now }
    ensures qubits { result.qubits ≡ qubits_named targets.now }
    ensures far { result.is_far ≡ reaches_far records targets.now }
{
    let mut qubits: u32 = 0;
    let mut rest = targets;
    while let [first, after @ ..] = rest {
        let Some(qubit) = first.plain() else {
            return reach_of_any(records, targets);
        };
        qubits = qubits.max(qubit as u32 + 1);
        rest = after;
    }
    Reach {
        qubits,
        is_far: false,
    }
}

#[inline(always)]
fn is_star(target: Target) -> bool
    ensures { result ≡ is_joining target }
{
    match target {
        Target::Star => true,
        _ => false,
    }
}

/// Whether a star joins a factor to the next one, and what follows the factor and the star.
#[inline(always)]
fn end_of_factor(after: &[TargetWord]) -> (bool, &[TargetWord])
    ensures { FollowsFactor after.now result.0 result.1.now }
{
    match split_first(after) {
        Some((star, behind)) => {
            if is_star(star) {
                (!behind.is_empty(), behind)
            } else {
                (false, after)
            }
        }
        None => (false, after),
    }
}

/// How many products targets make. It stands apart, since what it holds would be cleared at each line.
#[inline(never)]
fn product_count(targets: &[TargetWord]) -> usize
    ensures value { result ≡ length (products_of targets.now) }
    ensures few { result ≤ length targets.now }
{
    let mut count = 0;
    let mut rest = targets;
    while let Some((_, after)) = split_first(rest) {
        let (joined, behind) = end_of_factor(after);
        rest = behind;
        if joined {
            continue;
        }
        count += 1;
    }
    count
}

/// How many targets an operation has in these, a product being one.
#[inline(always)]
pub(crate) fn target_count(operation: Operation, targets: &[TargetWord]) -> usize
    ensures value { result ≡ target_count operation targets.now }
    ensures few { result ≤ length targets.now }
{
    match operation {
        Operation::ProductMeasurement => product_count(targets),
        _ => targets.len(),
    }
}
