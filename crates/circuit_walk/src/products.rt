//! Products among targets: factors, and a star between each two.

ghost use Rattle.std.specs.Prelude.{◌≡◌, ◌+◌, ◌<◌, ◌≤◌, ℕ, true, length, take};
ghost use Rattle.circuit_walk.specs.Targets.{is_inverted, is_product_inverted};
ghost use Rattle.circuit_walk.specs.private.InstructionSteps.{product_words, words_length};
ghost use Rattle.pauli_word.specs.Parity.{exclusive_or};
ghost use Rattle.stim_parser.specs.Limits.{are_products};
ghost use Rattle.stim_parser.specs.Products.{is_joining};

use stim_parser::{Target, TargetWord};

#[inline(always)]
fn is_star(target: TargetWord) -> bool
    ensures { result ≡ is_joining target }
{
    matches!(target.get(), Target::Star)
}

/// Whether a target has a `!`.
#[inline(always)]
fn is_inverted(target: TargetWord) -> bool
    ensures { result ≡ is_inverted target }
{
    match target.get() {
        Target::Inverted(_) => true,
        Target::Pauli(inverted, _, _) => inverted,
        Target::Plain(_) | Target::Back(_) | Target::Star => false,
    }
}

/// Whether just one of the two holds.
#[inline(always)]
fn exclusive_or(a: bool, b: bool) -> bool
    ensures { result ≡ exclusive_or a b }
{
    if a { !b } else { b }
}

/// Whether an odd number of targets has a `!`.
pub(crate) fn is_product_inverted(product: &[TargetWord]) -> bool
    ensures { result ≡ is_product_inverted product.now }
{
    let mut inverted = false;
    let mut rest = product;
    while let [first, after @ ..] = rest {
        inverted = exclusive_or(inverted, is_inverted(*first));
        rest = after;
    }
    inverted
}

/// The place behind the product that starts at a place.
pub(crate) fn product_behind(targets: &[TargetWord], at: usize) -> usize
    requires products { are_products targets.now ≡ true }
    requires there { at < length targets.now }
    ensures within { result ≤ length targets.now }
    ensures later { at < result }
    ensures place { (k : ℕ) → at ≡ words_length (take k (product_words targets.now))
        → result ≡ words_length (take (k + 1) (product_words targets.now)) }
{
    let mut end = at + 1;
    while end < targets.len() && is_star(targets[end]) {
        end += 2;
    }
    end
}

/// The place before the product that ends at a place.
pub(crate) fn product_before(targets: &[TargetWord], at: usize) -> usize
    requires products { are_products targets.now ≡ true }
    requires inside { 0 < at }
    requires within { at ≤ length targets.now }
    ensures earlier { result < at }
    ensures place { (k : ℕ) → k < length (product_words targets.now)
        → at ≡ words_length (take (k + 1) (product_words targets.now))
        → result ≡ words_length (take k (product_words targets.now)) }
{
    let mut start = at - 1;
    while start > 1 && is_star(targets[start - 1]) {
        start -= 2;
    }
    start
}
