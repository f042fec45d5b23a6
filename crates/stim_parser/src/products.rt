ghost use Rattle.std.specs.Prelude.{◌≡◌, ◌≤◌, ◌&&◌, ◌||◌, ℕ, false, length, not, true, IfSome, MatchOption};
ghost use Rattle.stim_parser.specs.declared.forms.TargetForm.TheVariants.{Products};
ghost use Rattle.stim_parser.specs.Limits.{are_products, has_target_beyond, is_target_beyond};
ghost use Rattle.stim_parser.specs.Products.{are_factors, begins_with_factor, goes_on_with, has_product_of_one, is_factor, is_factor_at, is_factor_within, is_joining, repeats_within};
ghost use Rattle.stim_parser.specs.private.QubitSets.{is_named};

use crate::qubit_set::QubitSet;
use crate::target::Target;
use crate::target_word::TargetWord;

/// Whether a target is a factor of a product, with a `!` or without.
fn is_factor(target: TargetWord) -> bool
    ensures { result ≡ is_factor target }
{
    matches!(target.get(), Target::Pauli(_, _, _))
}

/// Whether a target is the star that joins two factors.
fn is_joining(target: TargetWord) -> bool
    ensures { result ≡ is_joining target }
{
    matches!(target.get(), Target::Star)
}

/// Whether the first of targets is a factor.
fn begins_with_factor(targets: &[TargetWord]) -> bool
    ensures { result ≡ begins_with_factor targets.now }
{
    match targets {
        [first, ..] => is_factor(*first),
        [] => false,
    }
}

/// Whether a target is a factor, or a star before a factor.
fn goes_on(target: TargetWord, rest: &[TargetWord]) -> bool
    ensures { result ≡ (is_factor target || (is_joining target && begins_with_factor rest.now)) }
{
    match target.get() {
        Target::Pauli(_, _, _) => true,
        Target::Star => begins_with_factor(rest),
        Target::Plain(_) | Target::Inverted(_) | Target::Back(_) => false,
    }
}

/// Whether targets are factors and stars, each star before a factor.
fn are_factors(targets: &[TargetWord]) -> bool
    ensures { result ≡ are_factors targets.now }
{
    let mut left = targets;
    while let [target, rest @ ..] = left {
        if !goes_on(*target, rest) {
            return false;
        }
        left = rest;
    }
    true
}

/// Whether targets are factors and the stars that join them.
pub(crate) fn are_products(targets: &[TargetWord]) -> bool
    ensures { result ≡ are_products targets.now }
{
    match targets {
        [first, rest @ ..] => is_factor(*first) && are_factors(rest),
        [] => true,
    }
}

/// Whether a target is a factor at a qubit of a set.
fn is_factor_within(named: &QubitSet, target: TargetWord) -> bool
    requires { is_target_beyond Products target ≡ false }
    ensures { result ≡ is_factor_within (is_named named.now.words) target }
{
    match target.get() {
        Target::Pauli(_, _, qubit) => named.contains(qubit),
        _ => false,
    }
}

/// Puts a factor's qubit into a set.
fn put_in(named: &mut QubitSet, target: TargetWord)
    requires { is_target_beyond Products target ≡ false }
    ensures { (q : ℕ)
        → is_named named.new.words q ≡ (is_factor_at q target || is_named named.old.words q) }
{
    if let Target::Pauli(_, _, qubit) = target.get() {
        named.insert(qubit);
    }
}

/// Takes a factor's qubit out of a set.
fn take_out(named: &mut QubitSet, target: TargetWord)
    requires { is_target_beyond Products target ≡ false }
    ensures { (q : ℕ)
        → is_named named.new.words q ≡ (not (is_factor_at q target) && is_named named.old.words q) }
{
    if let Target::Pauli(_, _, qubit) = target.get() {
        named.remove(qubit);
    }
}

/// Goes over a product after its first factor and puts its qubits into a set. It answers what follows the product, or
/// none where the product names a qubit of the set or one qubit twice.
fn go_over<'a>(named: &mut QubitSet, targets: &'a [TargetWord]) -> Option<&'a [TargetWord]>
    requires { has_target_beyond Products targets.now ≡ false }
    ensures again { MatchOption result
        (repeats_within (is_named named.old.words) targets.now ≡ true)
        (λ after. repeats_within (is_named named.old.words) targets.now
        ≡ has_product_of_one after.now) }
    ensures named { IfSome result (λ after. (q : ℕ)
        → is_named named.new.words q ≡ (goes_on_with q targets.now || is_named named.old.words q)) }
    ensures within { IfSome result (λ after. has_target_beyond Products after.now ≡ false) }
    ensures less { IfSome result (λ after. length after.now ≤ length targets.now) }
{
    let mut left = targets;
    while let [first, second, rest @ ..] = left {
        if !is_joining(*first) {
            return Some(left);
        }
        if is_factor_within(named, *second) {
            return None;
        }
        put_in(named, *second);
        left = rest;
    }
    Some(left)
}

/// Goes over a product after its first factor and takes its qubits out of a set.
fn go_back(named: &mut QubitSet, targets: &[TargetWord])
    requires { has_target_beyond Products targets.now ≡ false }
    ensures { (q : ℕ)
        → is_named named.new.words q
        ≡ (not (goes_on_with q targets.now) && is_named named.old.words q) }
{
    let mut left = targets;
    while let [first, second, rest @ ..] = left {
        if !is_joining(*first) {
            return;
        }
        take_out(named, *second);
        left = rest;
    }
}

/// Whether a product names one qubit twice. Each target is gone over at most twice: one set serves all products, and
/// what a product put in is taken out after it. A new set for each would cost more, since most products are short.
pub(crate) fn has_product_of_one(targets: &[TargetWord]) -> bool
    requires { has_target_beyond Products targets.now ≡ false }
    ensures { result ≡ has_product_of_one targets.now }
{
    let mut named = QubitSet::new();
    let mut left = targets;
    while let [first, rest @ ..] = left {
        put_in(&mut named, *first);
        let Some(after) = go_over(&mut named, rest) else {
            return true;
        };
        go_back(&mut named, rest);
        take_out(&mut named, *first);
        left = after;
    }
    false
}
