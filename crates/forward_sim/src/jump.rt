//! Jumps over words of a generator.
ghost use Rattle.std.specs.Prelude.{◌≡◌};
ghost use Rattle.rand_pcg.specs.Lcg.{increment_of, next_state, state_after};
ghost use Rattle.rand_pcg.specs.Pcg.{multiplier_128};
ghost use Rattle.forward_sim.specs.Drawn.{after_words};
ghost use Rattle.forward_sim.specs.private.Jumps.{IsJump};

use rand_pcg::Pcg64;

/// A jump over so many words, for the generators of one stream: an affine map of their states modulo 2^128. It is found once, where
/// a generator's own `advance` finds it each time.
#[derive(Clone, Copy)]
pub(crate) struct Jump {
    words: u128,
    stream: u128,
    times: u128,
    plus: u128,
    ghost one_step: { IsJump stream words times plus },
}

impl Jump {
    /// The jump over so many words of a stream. Where it takes the states 0 and 1 shows the map.
    pub(crate) fn of(stream: u128, words: u128) -> Self
        ensures { result.words ≡ words }
    {
        let plus = state_after(0, stream, words);
        let times = state_after(1, stream, words).wrapping_sub(plus);
        Jump {
            words,
            stream,
            times,
            plus,
        }
    }

    /// Jumps. A generator that isn't of the stream is advanced by itself.
    #[inline(always)]
    pub(crate) fn leap(&self, rng: &mut Pcg64)
        ensures { rng.new ≡ after_words self.now.words rng.old }
    {
        let state = rng.state();
        if *rng == Pcg64::from_state(state, self.stream) {
            *rng = Pcg64::from_state(self.jumped(state), self.stream);
        } else {
            rng.advance(self.words);
        }
    }

    // Where the map takes a state.
    #[inline(always)]
    fn jumped(&self, state: u128) -> u128
        ensures { result ≡ next_state 128 self.now.times self.now.plus state }
    {
        state.wrapping_mul(self.times).wrapping_add(self.plus)
    }
}

// The state that a generator of a stream has so many words after this one.
fn state_after(state: u128, stream: u128, words: u128) -> u128
    ensures { result ≡ state_after 128 multiplier_128 (increment_of 128 stream) words state }
{
    let mut rng = Pcg64::from_state(state, stream);
    rng.advance(words);
    rng.state()
}
