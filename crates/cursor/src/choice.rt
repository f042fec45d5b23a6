//! Which instructions a cursor goes over.

ghost use Rattle.std.specs.Prelude.{◌≡◌, Bool, true};

/// Which instructions a cursor goes over, by their operations.
pub trait Choice<O: Copy> {
    ghost chosen: { O → Bool };

    /// Whether instructions of this operation are gone over.
    fn is_chosen(operation: O) -> bool
        ensures { result ≡ chosen operation };
}

/// All instructions.
pub struct AllInstructions;

impl<O: Copy> Choice<O> for AllInstructions {
    ghost chosen = { λ operation. true };

    #[inline(always)]
    fn is_chosen(_operation: O) -> bool {
        true
    }
}
