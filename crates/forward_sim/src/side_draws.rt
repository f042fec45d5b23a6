// Shots drawn side by side into the lanes of words.
ghost use Rattle.std.specs.Prelude.{◌≡◌, ◌+◌, ◌*◌, ◌<◌, ◌≤◌, ℕ, length};
ghost use Rattle.forward_sim.specs.Drawn.{after_shots, after_words};
ghost use Rattle.forward_sim.specs.Shots.{AreDrawn};
ghost use Rattle.forward_sim.specs.private.AllLanes.{generator_at};
ghost use Rattle.forward_sim.specs.private.LaneDraws.{HasRoom};

use crate::coin_draws::draw_coins;
use crate::copies::copy_of;
use crate::fault_bounds::FaultBounds;
use crate::fault_draws::draw_faults;
use crate::jump::Jump;
use crate::span::Span;
use rand_pcg::Pcg64;
use std::alloc::Allocator;

/// Draws shots into the first lanes. The words of the coins of a span are passed over. What it leaves of `generators` is of no
/// use. Not inlined, so that it takes no registers from loops of who calls it.
#[inline(never)]
pub(crate) fn draw_lanes<A: Allocator + Copy>(
    faults: &mut [u64],
    coins: &mut [u64],
    passed: Span,
    bounds: &FaultBounds<A>,
    generators: &mut [Pcg64],
    count: u32,
    rng: &mut Pcg64,
)
    requires room { HasRoom passed bounds.now faults.old coins.old }
    requires generators { length generators.old ≡ 64 }
    requires count { count ≤ 64 }
    ensures drawn { AreDrawn passed bounds.now (length coins.old) count rng.old faults.new
        coins.new }
    ensures taken { rng.new
        ≡ after_shots (length bounds.now) (length coins.old) count rng.old }
    ensures generators { length generators.new ≡ 64 }
{
    let (lanes, _) = generators.split_at_mut(count as usize);
    let words = faults.len() as u128 + coins.len() as u128;
    set_apart(lanes, words, rng);
    draw_faults(faults, bounds, lanes);
    draw_coins(coins, passed, lanes);
}

// Makes the generators those of shots of so many words, one after another, and leaves `rng` behind them.
fn set_apart(generators: &mut [Pcg64], words: u128, rng: &mut Pcg64)
    ensures size { length generators.new ≡ length generators.old }
    ensures each { (l : ℕ)
        → l < length generators.old
        → generator_at generators.new l ≡ after_words (l * words) rng.old }
    ensures taken { rng.new ≡ after_words (length generators.old * words) rng.old }
{
    let jump = Jump::of(rng.stream(), words);
    // A copy stays in registers.
    let mut next = copy_of(rng);
    for l in 0..generators.len() {
        generators[l] = copy_of(&next);
        jump.leap(&mut next);
    }
    *rng = next;
}
