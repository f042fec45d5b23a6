//! Faults that don't happen: one run, or 64 side by side, pass over a stretch of them at once.
ghost use Rattle.std.specs.Prelude.{◌≡◌, ◌+◌, ◌<◌, ◌≤◌, ℕ, false, true, IfSome, slice_get};

/// What is said of a fault: whether it happens, of one run, or in which of 64 runs, a bit for each.
pub trait Happening: Copy + Drop {
    // It happens in no run.
    ghost nowhere: { Self → Type 0 };

    /// Whether it happens in a run.
    fn happens(self) -> bool
        ensures no { result ≡ false → nowhere self }
        ensures yes { result ≡ true → nowhere self → ⊥ };
}

impl Happening for bool {
    ghost use Rattle.std.specs.Prelude.{◌≡◌, false};

    ghost nowhere = { λ happens. happens ≡ false };

    #[inline(always)]
    fn happens(self) -> bool {
        self
    }
}

impl Happening for u64 {
    ghost use Rattle.std.specs.Prelude.{◌≡◌};

    ghost nowhere = { λ runs. runs ≡ 0 };

    #[inline(always)]
    fn happens(self) -> bool {
        self != 0
    }
}

/// How many of so many faults, numbered from one on, happen in no run before one that does. Past the end of the list none happens.
#[inline(always)]
pub fn quiet_count<H: Happening>(faults: &[H], first: u32, count: usize) -> usize
    ensures few { result ≤ count }
    ensures none { (f : ℕ)
        → first ≤ f
        → f < first + result
        → IfSome (slice_get faults.now f) H.nowhere }
    ensures next { result < count → IfSome (slice_get faults.now (first + result)) H.nowhere → ⊥ }
{
    let start = (first as usize).min(faults.len());
    let most = count.min(faults.len() - start);
    let mut passed = 0;
    while passed < most {
        if faults[start + passed].happens() {
            return passed;
        }
        passed += 1;
    }
    count
}
