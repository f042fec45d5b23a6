//! Words drawn into all their lanes, each lane by a generator of its own.
ghost use Rattle.std.specs.Prelude.{◌≤◌, false, length};
ghost use Rattle.forward_sim.specs.private.AllLanes.{AllDrawn};

use crate::lane_draws::draw_lane;
use crate::runs::LONGEST;
use crate::word_draw::WordDraw;
use rand_pcg::Pcg64;

/// Makes the words those that the generators draw, and 0 in lanes that have none.
pub(crate) fn draw_into_all<D: WordDraw + Copy>(
    words: &mut [u64],
    draw: &D,
    generators: &mut [Pcg64],
)
    requires fits { D.fits draw.now (length words.old) }
    requires few { length generators.old ≤ 64 }
    ensures { AllDrawn (length words.old) (D.hits draw.now) generators.old words.new
        generators.new }
{
    words.fill(0);
    for lane in 0..generators.len() {
        draw_lane(words, draw, lane as u32, &mut generators[lane]);
    }
}

/// The same, piece by piece: one is drawn into all lanes before the next one is, so that it stays in a near cache.
pub(crate) fn draw_pieces<D: WordDraw + Copy>(words: &mut [u64], draw: &D, generators: &mut [Pcg64])
    requires fits { D.fits draw.now (length words.old) }
    requires few { length generators.old ≤ 64 }
    ensures { AllDrawn (length words.old) (D.hits draw.now) generators.old words.new
        generators.new }
{
    let mut start = 0;
    while start < words.len() {
        let end = start + LONGEST.min(words.len() - start);
        let part = draw.part(start, end);
        draw_into_all(&mut words[start..end], &part, generators);
        start = end;
    }
}

/// Makes the words 0. The generators pass over a word for each.
pub(crate) fn pass_over(words: &mut [u64], generators: &mut [Pcg64])
    ensures { AllDrawn (length words.old) (λ _ _. false) generators.old words.new generators.new }
{
    words.fill(0);
    let count = words.len() as u128;
    for lane in 0..generators.len() {
        generators[lane].advance(count);
    }
}
