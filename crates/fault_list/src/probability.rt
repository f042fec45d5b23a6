//! The text of a fault's probability, kept for the faults that follow: most have the same.
ghost use Rattle.std.specs.Prelude.{◌≡◌, ◌<◌, ◌≤◌, ◌+◌, true, IfSome, length};
ghost use Rattle.step_model.specs.Chances.{chance_at};
ghost use Rattle.fault_list.specs.private.KeptTexts.{HasProbability, probability_text};
ghost use Rattle.fault_list.specs.private.PutTexts.{Puts};

use crate::put::{put_byte, put_first, put_text};
use std::marker::Model;
use step_model::ChanceText;

/// How many bytes are kept for the text and the spaces round it.
const KEPT: usize = 32;

/// The text of a probability between spaces, at the start of a fixed number of bytes, so that all of them are copied at
/// once; and the probabilities of which it is one.
#[derive(Drop)]
pub(crate) struct Probability<'t, 'a> {
    chances: &'t [ChanceText<'a>],
    number: usize,
    text: [u8; KEPT],
    len: usize,
}

impl<'t, 'a> Model for Probability<'t, 'a> {
    ghost use Rattle.fault_list.specs.private.KeptTexts.{HasProbability, KeptProbability};

    ghost Value = { KeptProbability };

    ghost view = { λ p. record { chances = p.chances.now; number = p.number } };

    ghost invariant = { λ p. HasProbability p.chances.now p.number p.len p.text };
}

impl<'t, 'a> Probability<'t, 'a> {
    /// None is kept yet.
    pub(crate) fn none(chances: &'t [ChanceText<'a>]) -> Self
        ensures { result.chances ≡ chances.now }
    {
        Probability {
            chances,
            number: chances.len(),
            text: [b' '; KEPT],
            len: 0,
        }
    }

    /// Puts the text of the probability with a number between spaces at `at`, and answers where it ends; none where it is
    /// too long to be kept.
    #[inline(always)]
    pub(crate) fn put(&mut self, buffer: &mut [u8], at: usize, number: u32) -> Option<usize>
        requires room { at + KEPT ≤ length buffer.old }
        requires number { number < length self.old.chances }
        ensures same { self.new.chances ≡ self.old.chances }
        ensures from { IfSome result (λ end. at ≤ end) }
        ensures put { Puts KEPT at
            (probability_text (chance_at self.old.chances number).text)
            buffer.old buffer.new result }
    {
        if !self.turn_to(number as usize) {
            return None;
        }
        Some(put_first(buffer, at, self.text, self.len))
    }

    // Turns to the text with a number. Answers whether it is kept then.
    #[inline(always)]
    fn turn_to(&mut self, number: usize) -> bool
        requires { number < length self.old.chances }
        ensures same { self.new.chances ≡ self.old.chances }
        ensures number { result ≡ true → self.new.number ≡ number }
    {
        if number == self.number {
            return true;
        }
        self.keep(number)
    }

    // Keeps the text with a number, where it is short. Answers whether it is.
    #[inline(never)]
    fn keep(&mut self, number: usize) -> bool
        requires { number < length self.old.chances }
        ensures same { self.new.chances ≡ self.old.chances }
        ensures number { result ≡ true → self.new.number ≡ number }
    {
        let chances = self.chances;
        let text = chances[number].text;
        if text.len() > KEPT - 2 {
            return false;
        }
        let mut kept = [b' '; KEPT];
        let end = put_byte(&mut kept, 0, b' ');
        let end = put_text(&mut kept, end, text);
        self.len = put_byte(&mut kept, end, b' ');
        self.text = kept;
        self.number = number;
        true
    }
}
