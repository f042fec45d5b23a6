// The words of a Pcg64, by the states that it makes them in.
ghost use Rattle.std.specs.Prelude.{◌≡◌};
ghost use Rattle.rand_pcg.specs.Pcg.{output_xsl_rr};
ghost use Rattle.forward_sim.specs.private.Sieves.{unrotated};

#[inline(always)]
pub(crate) fn word_of(state: u128) -> u64
    ensures { result ≡ output_xsl_rr state }
{
    unrotated(state).rotate_right((state >> 122) as u32)
}

/// The word of a state before it is rotated, by the state's six highest bits.
#[inline(always)]
pub(crate) fn unrotated(state: u128) -> u64
    ensures { result ≡ unrotated state }
{
    ((state >> 64) as u64) ^ ((state & u128::from(u64::MAX)) as u64)
}
