ghost use Rattle.std.specs.Prelude.{◌≡◌};

use rand_pcg::Pcg64;

/// A generator that gives the same words.
#[inline(always)]
pub(crate) fn copy_of(rng: &Pcg64) -> Pcg64
    ensures { result ≡ rng.now }
{
    rng.clone().unwrap()
}
