//! Where the targets of a line are read to.
ghost use Rattle.std.specs.Prelude.{◌≡◌, ℕ, List, [], ◌∷◌, ◌++◌, OnOk};

use std::alloc::{AllocError, Allocator};

/// A list of the targets of a line. It may be the end of a longer one, such as that of all targets of a text.
pub trait LineTargets<T: Copy> {
    ghost targets: { Self → List T };

    // All else that is kept beside these targets.
    ghost Others: { Type 0 };

    ghost others: { Self → Others };

    /// Takes the targets out.
    fn clear(&mut self)
        ensures targets { targets self.new ≡ [] }
        ensures others { others self.new ≡ others self.old };

    /// Appends a target. It fails only where memory runs out.
    fn push(&mut self, target: T) -> Result<(), AllocError>
        ensures targets { OnOk result (targets self.new ≡ targets self.old ++ target ∷ []) }
        ensures others { OnOk result (others self.new ≡ others self.old) };

    /// The targets.
    fn as_slice(&self) -> &[T]
        ensures { result.now ≡ targets self.now };
}

impl<T: Copy, A: Allocator> LineTargets<T> for Vec<T, A> {
    ghost targets = { λ v. v.items };

    // There is nothing else.
    ghost Others = { ℕ };

    ghost others = { λ v. 0 };

    #[inline(always)]
    fn clear(&mut self) {
        self.truncate(0);
    }

    #[inline(always)]
    fn push(&mut self, target: T) -> Result<(), AllocError> {
        Vec::push(self, target)?;
        Ok(())
    }

    #[inline(always)]
    fn as_slice(&self) -> &[T] {
        &self[..]
    }
}
