//! Coins, drawn into all lanes.
ghost use Rattle.std.specs.Prelude.{◌≡◌, ◌≤◌, length};
ghost use Rattle.forward_sim.specs.private.AllLanes.{LanesDrawn, coin_hits};

use crate::all_lanes::{draw_pieces, pass_over};
use crate::span::Span;
use crate::word_draw::CoinDraw;
use rand_pcg::Pcg64;

/// The coins. Those of a span aren't tossed: the generators pass over their words, unless no coin is drawn behind them. What it
/// leaves of `generators` is of no use.
pub(crate) fn draw_coins(coins: &mut [u64], passed: Span, generators: &mut [Pcg64])
    requires order { passed.start ≤ passed.end }
    requires within { passed.end ≤ length coins.old }
    requires few { length generators.old ≤ 64 }
    ensures size { length coins.new ≡ length coins.old }
    ensures drawn { LanesDrawn (length coins.old) (coin_hits passed) generators.old coins.new }
{
    draw_pieces(&mut coins[..passed.start], &CoinDraw, generators);
    if passed.end == coins.len() {
        coins[passed.start..].fill(0);
        return;
    }
    pass_over(&mut coins[passed.start..passed.end], generators);
    draw_pieces(&mut coins[passed.end..], &CoinDraw, generators);
}
