//! What the next words of a generator decide, a truth value each, in one lane of a list of words.
ghost use Rattle.std.specs.Prelude.{◌≡◌, ℕ, Bool, ◌+◌, ◌-◌, ◌<◌, ◌≤◌, length};
ghost use Rattle.rand_pcg.specs.Pcg.{output_xsl_rr};
ghost use Rattle.forward_sim.specs.private.BoundRuns.{IsGreatestBelow};
ghost use Rattle.forward_sim.specs.private.LaneDraws.{DrawsInto};

use crate::lane_draws::{strike, toss};
use crate::pcg_words::word_of;

/// Draws, one after another, into words that are 0 in a lane.
pub(crate) trait WordDraw {
    // Whether it fits so many words.
    ghost fits: { Self → ℕ → Type 0 };
    // Whether the lane of a word becomes 1, by the word that was made for it.
    ghost hits: { Self → ℕ → ℕ → Bool };

    /// The draw into a part of the words.
    fn part(&self, start: usize, end: usize) -> Self
        requires order { start ≤ end }
        requires within { (room : ℕ) × fits self.now room × (end ≤ room) }
        ensures fits { fits result (end - start) }
        ensures hits { (k word : ℕ)
            → start + k < end
            → hits result k word ≡ hits self.now (start + k) word };

    /// Draws into a word, by the word that the generator made in this state.
    fn draw_one(&self, words: &mut [u64], k: usize, lane: u32, state: u128)
        requires fits { fits self.now (length words.old) }
        requires within { k < length words.old }
        requires lane { lane < 64 }
        ensures { DrawsInto lane k (k + 1) (λ _. hits self.now k (output_xsl_rr state))
            words.old words.new };
}

/// Faults of one bound: each happens where its word is below that.
#[derive(Clone, Copy)]
pub(crate) struct EqualDraw {
    pub(crate) bound: u128,
    pub(crate) most: u64,
    ghost greatest: { IsGreatestBelow bound most },
}

impl WordDraw for EqualDraw {
    ghost use Rattle.std.specs.Prelude.{⊤, nat_lt};

    ghost fits = { λ draw room. ⊤ };

    ghost hits = { λ draw k word. nat_lt word draw.bound };

    #[inline(always)]
    fn part(&self, _start: usize, _end: usize) -> Self {
        *self
    }

    #[inline(always)]
    fn draw_one(&self, words: &mut [u64], k: usize, lane: u32, state: u128) {
        strike(words, k, lane, word_of(state) <= self.most);
    }
}

/// Faults each of which has a greatest word of its own, with which it happens.
#[derive(Clone, Copy)]
pub(crate) struct EachDraw<'a> {
    pub(crate) greatest: &'a [u64],
}

impl<'a> WordDraw for EachDraw<'a> {
    ghost use Rattle.std.specs.Prelude.{◌≡◌, length, nat_lt, slice_index_or};
    ghost use Rattle.forward_sim.specs.private.BoundRuns.{bounds_above};

    ghost fits = { λ draw room. room ≡ length draw.greatest.now };

    ghost hits = { λ draw k word. nat_lt word (slice_index_or (bounds_above draw.greatest.now) k 0) };

    #[inline(always)]
    fn part(&self, start: usize, end: usize) -> Self {
        EachDraw {
            greatest: &self.greatest[start..end],
        }
    }

    #[inline(always)]
    fn draw_one(&self, words: &mut [u64], k: usize, lane: u32, state: u128) {
        strike(words, k, lane, word_of(state) <= self.greatest[k]);
    }
}

/// Coins: each is its word's lowest bit.
#[derive(Clone, Copy)]
pub(crate) struct CoinDraw;

impl WordDraw for CoinDraw {
    ghost use Rattle.std.specs.Prelude.{⊤, ◌%◌, ◌==◌};

    ghost fits = { λ draw room. ⊤ };

    ghost hits = { λ draw k word. word % 2 == 1 };

    #[inline(always)]
    fn part(&self, _start: usize, _end: usize) -> Self {
        *self
    }

    #[inline(always)]
    fn draw_one(&self, words: &mut [u64], k: usize, lane: u32, state: u128) {
        toss(words, k, lane, word_of(state) % 2 == 1);
    }
}
