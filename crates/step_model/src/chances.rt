ghost use Rattle.std.specs.Prelude.{◌≡◌, ◌<◌, ◌≤◌, ◌+◌, true, length, IfOk, IfSome, OnErr};
ghost use Rattle.step_model.specs.Chances.{chance_at, chance_of, KeepsChances};

use std::alloc::{AllocError, Allocator};

// How many of the latest texts are searched for one.
const LATEST: usize = 8;

/// The text of a probability, and the floor of that probability times 2^64.
#[derive(Clone, Copy, Drop)]
pub struct ChanceText<'a> {
    pub text: &'a [u8],
    pub bound: u128,
}

/// The number of a text with this bound, which is appended where it isn't among the latest. It fails only where memory
/// runs out. A circuit has few different probabilities, so few are kept; the same one may stand there twice.
pub fn number_of<'a, A: Allocator + Copy>(
    texts: &mut Vec<ChanceText<'a>, A>,
    text: &'a [u8],
    bound: u128,
) -> Result<usize, AllocError>
    ensures kept { KeepsChances texts.old.items texts.new.items }
    ensures few { length texts.new.items ≤ length texts.old.items + 1 }
    ensures within { IfOk result (λ n. n < length texts.new.items) }
    ensures named { IfOk result (λ n. chance_at texts.new.items n
        ≡ record { text = text.now; bound = bound }) }
    ensures err { OnErr result (texts.new.items ≡ texts.old.items) }
{
    if let Some(number) = latest(texts.as_slice(), text, bound) {
        return Ok(number);
    }
    let count = texts.len();
    texts.push(ChanceText { text, bound })?;
    Ok(count)
}

// Where this text stands with this bound, if it is among the latest.
fn latest(texts: &[ChanceText<'_>], text: &[u8], bound: u128) -> Option<usize>
    ensures within { IfSome result (λ n. n < length texts.now) }
    ensures named { IfSome result (λ n. chance_at texts.now n
        ≡ record { text = text.now; bound = bound }) }
{
    let mut left = texts.len();
    let last = left.saturating_sub(LATEST);
    while left > last {
        left -= 1;
        if is_same(texts[left], text, bound) {
            return Some(left);
        }
    }
    None
}

// Whether these are a text and its bound. Bounds are compared first, as most texts that differ do so there.
#[inline]
fn is_same(chance: ChanceText<'_>, text: &[u8], bound: u128) -> bool
    ensures { result ≡ true → chance_of chance.entry ≡ record { text = text.now; bound = bound } }
{
    chance.bound == bound && chance.text == text
}
