// A lane of words, drawn by the next words of a generator.
ghost use Rattle.std.specs.Prelude.{◌≡◌, ◌==◌, ◌||◌, ℕ, ◌+◌, ◌<◌, if◌then◌else◌, length};
ghost use Rattle.rand_pcg.specs.Pcg.{output_xsl_rr};
ghost use Rattle.bit_rows.specs.Lanes.{lane_bit};
ghost use Rattle.forward_sim.specs.Drawn.{after_words, word_at};
ghost use Rattle.forward_sim.specs.private.LaneDraws.{DrawsInto};

use crate::copies::copy_of;
use crate::word_draw::WordDraw;
use bit_rows::lanes::with_bit;
use rand_pcg::Pcg64;

/// Draws into a lane of all words. Two words are made in one turn of the loop, each by a step of its own from the same state, so
/// that the second needn't wait for the first. Not inlined, so that the loop has the registers to itself.
#[inline(never)]
pub(crate) fn draw_lane<D: WordDraw + Copy>(words: &mut [u64], draw: &D, lane: u32, rng: &mut Pcg64)
    requires fits { D.fits draw.now (length words.old) }
    requires lane { lane < 64 }
    ensures drawn { DrawsInto lane 0 (length words.old)
        (λ k. D.hits draw.now k (word_at rng.old k)) words.old words.new }
    ensures taken { rng.new ≡ after_words (length words.old) rng.old }
{
    let count = words.len();
    // Copies stay in registers.
    let draw = *draw;
    let mut here = copy_of(rng);
    for pair in 0..count / 2 {
        draw.draw_one(words, 2 * pair, lane, state_behind(&here, 1));
        draw.draw_one(words, 2 * pair + 1, lane, state_behind(&here, 2));
        here.advance(2);
    }
    if count % 2 == 1 {
        draw.draw_one(words, count - 1, lane, state_behind(&here, 1));
        here.advance(1);
    }
    *rng = here;
}

// The state after so many words, in which the last of them is made.
#[inline(always)]
fn state_behind(rng: &Pcg64, words: u128) -> u128
    ensures { result ≡ (after_words words rng.now).state }
{
    let mut then = copy_of(rng);
    then.advance(words);
    then.state()
}

// Most faults do not happen, so a word is written only where one does.
#[inline(always)]
pub(crate) fn strike(faults: &mut [u64], f: usize, lane: u32, hit: bool)
    requires within { f < length faults.old }
    requires lane { lane < 64 }
    ensures { DrawsInto lane f (f + 1) (λ _. hit) faults.old faults.new }
{
    if hit {
        faults[f] = with_bit(faults[f], lane);
    }
}

#[inline(always)]
pub(crate) fn toss(coins: &mut [u64], c: usize, lane: u32, coin: bool)
    requires within { c < length coins.old }
    requires lane { lane < 64 }
    ensures { DrawsInto lane c (c + 1) (λ _. coin) coins.old coins.new }
{
    coins[c] = with_coin(coins[c], lane, coin);
}

// A coin is 1 half of the time, so no branch is taken on it.
#[inline(always)]
fn with_coin(word: u64, lane: u32, coin: bool) -> u64
    requires { lane < 64 }
    ensures { (j : ℕ)
        → lane_bit j result ≡ (if j == lane then (coin || lane_bit j word) else lane_bit j word) }
{
    let heads = with_bit(word, lane);
    if coin { heads } else { word }
}
