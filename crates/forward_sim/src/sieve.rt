// Faults that seldom happen, struck without making most of the words.
ghost use Rattle.std.specs.Prelude.{◌+◌, ◌<◌, ◌≤◌, ◌↔◌, ◌^◌, nat_lt, length, IsTrue};
ghost use Rattle.rand_pcg.specs.Pcg.{output_xsl_rr};
ghost use Rattle.forward_sim.specs.private.BoundRuns.{IsGreatestBelow};
ghost use Rattle.forward_sim.specs.private.LaneDraws.{DrawsInto};
ghost use Rattle.forward_sim.specs.private.Sieves.{LetsSmallPass, Passes};

use crate::lane_draws::strike;
use crate::pcg_words::{unrotated, word_of};
use crate::word_draw::{EqualDraw, WordDraw};

// The nine highest bits. A word below 2^55 has none of them. With fewer of them more branches are mispredicted than it saves.
const HIGHEST: u64 = 0xff80_0000_0000_0000;

/// For each rotation of a word the bits that become the nine highest. One state in 512 has none of its own, and only its word is
/// made and compared.
#[derive(Drop)]
pub(crate) struct Sieve {
    masks: [u64; 64],
    ghost lets_pass: { LetsSmallPass masks },
}

impl Sieve {
    pub(crate) fn new() -> Self {
        let mut masks = [0; 64];
        for r in 0..64u32 {
            masks[r as usize] = HIGHEST.rotate_left(r);
        }
        Sieve { masks }
    }

    // Whether the word of a state may be below 2^55.
    #[inline(always)]
    fn passes(&self, state: u128) -> bool
        ensures { IsTrue result ↔ Passes self.now.masks state }
    {
        unrotated(state) & self.masks[(state >> 122) as usize] == 0
    }
}

/// Faults of one bound, which is 2^55 at most.
#[derive(Clone, Copy)]
pub(crate) struct SievedDraw<'a> {
    pub(crate) equal: EqualDraw,
    pub(crate) sieve: &'a Sieve,
    ghost seldom: { equal.bound ≤ 2 ^ 55 },
}

impl<'a> WordDraw for SievedDraw<'a> {
    ghost use Rattle.std.specs.Prelude.{⊤, nat_lt};

    ghost fits = { λ draw room. ⊤ };

    ghost hits = { λ draw k word. nat_lt word draw.equal.bound };

    #[inline(always)]
    fn part(&self, _start: usize, _end: usize) -> Self {
        *self
    }

    #[inline(always)]
    fn draw_one(&self, words: &mut [u64], k: usize, lane: u32, state: u128) {
        if self.sieve.passes(state) {
            strike_by_word(words, k, lane, self.equal, state);
        }
    }
}

// Not inlined: inside a loop it costs registers, though it is seldom called.
#[cold]
#[inline(never)]
fn strike_by_word(faults: &mut [u64], f: usize, lane: u32, equal: EqualDraw, state: u128)
    requires within { f < length faults.old }
    requires lane { lane < 64 }
    ensures { DrawsInto lane f (f + 1) (λ _. nat_lt (output_xsl_rr state) equal.bound) faults.old
        faults.new }
{
    equal.draw_one(faults, f, lane, state);
}
