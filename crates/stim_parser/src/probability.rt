ghost use Rattle.std.specs.Prelude.{◌≡◌, ◌≤◌, ◌^◌, IfSome};
ghost use Rattle.step_model.specs.Probabilities.{decimal_bound, probability_bound, scaled_bound};
ghost use Rattle.stim_parser.specs.private.Decimals.{decimal_in, IsOfText};
ghost use Rattle.stim_parser.specs.private.Significant.{more_digits, nothing_read, IsWithin};

use crate::decimal::{Parts, decimal_of};
use crate::significant::{Significant, more_digits, nothing_read};
use std::marker::Model;

/// A probability, kept as floor of its value times 2^64.
#[derive(Clone, Copy)]
pub struct Probability {
    bound: u128,
}

impl Model for Probability {
    ghost use Rattle.std.specs.Prelude.{ℕ, ◌≤◌, ◌^◌};

    ghost Value = { ℕ };

    ghost view = { λ p. p.bound };

    ghost invariant = { λ p. p.bound ≤ 2 ^ 64 };

    ghost inverse = { λ n. record { bound = n } };
}

impl Probability {
    /// The probability that a text writes: digits, with or without a point and an exponent. There is none where the
    /// text isn't a number, its value is above 1, or it has more than 18 significant digits or 38 places after the
    /// point.
    pub fn read(text: &[u8]) -> Option<Probability>
        ensures { result ≡ probability_bound text.now }
    {
        let bound = decimal_bound(text.len(), decimal_of(text)?)?;
        Some(Probability { bound })
    }

    /// Floor of the probability times 2^64.
    pub fn bound(self) -> u128
        ensures value { result ≡ self }
        ensures small { result ≤ 2 ^ 64 }
    {
        self.bound
    }
}

/// What the digits of a number text say.
fn significant_of(bytes: usize, parts: Parts) -> Significant
    requires { IsOfText bytes parts }
    ensures value { result ≡ more_digits nothing_read (decimal_in parts.entry).digits }
    ensures within { IsWithin result }
{
    let whole = more_digits(nothing_read(), parts.whole);
    more_digits(whole, parts.fraction)
}

/// Floor of number * 10^up / 10^down times 2^64, where the value is at most 1 and has so few digits and places.
fn scaled_bound(digits: usize, number: u64, up: u128, down: u128) -> Option<u128>
    ensures value { result ≡ scaled_bound digits number up down }
    ensures small { IfSome result (λ bound. bound ≤ 2 ^ 64) }
{
    if digits > 18 || up > down || down - up > 38 {
        return None;
    }
    let power = 10u128.pow((down - up) as u32);
    if number as u128 > power {
        return None;
    }
    Some(number as u128 * (1 << 64) / power)
}

/// The bound of a number text of this many bytes, taken apart.
fn decimal_bound(bytes: usize, parts: Parts) -> Option<u128>
    requires { IsOfText bytes parts }
    ensures value { result ≡ decimal_bound (decimal_in parts.entry) }
    ensures small { IfSome result (λ bound. bound ≤ 2 ^ 64) }
{
    let read = significant_of(bytes, parts);
    if read.length == 0 {
        return Some(0);
    }
    let mut up = read.zeros as u128;
    let mut down = parts.fraction.len() as u128;
    if parts.negative {
        down += parts.exponent as u128;
    } else {
        up += parts.exponent as u128;
    }
    scaled_bound(read.length - read.zeros, read.number, up, down)
}
