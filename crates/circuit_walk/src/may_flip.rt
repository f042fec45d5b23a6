//! Whether the records of an instruction may be flipped, asked of its text where that is needed: most instructions make none.

ghost use Rattle.std.specs.Prelude.{◌≡◌, is_some, slice_get};
ghost use Rattle.stim_parser.specs.Arguments.{arguments_in};

use std::marker::Model;

/// The text between the parentheses of an instruction. Contracts see whether an argument stands there.
#[derive(Drop)]
pub(crate) struct MayFlip<'c> {
    text: &'c [u8],
}

impl<'c> Model for MayFlip<'c> {
    ghost use Rattle.std.specs.Prelude.{Bool, is_some, slice_get};
    ghost use Rattle.stim_parser.specs.Arguments.{arguments_in};

    ghost Value = { Bool };

    ghost view = { λ m. is_some (slice_get (arguments_in m.text.now) 0) };
}

impl<'c> MayFlip<'c> {
    #[inline(always)]
    pub(crate) fn new(text: &'c [u8]) -> Self
        ensures { result ≡ is_some (slice_get (arguments_in text.now) 0) }
    {
        MayFlip { text }
    }

    /// Whether they may.
    #[inline(always)]
    pub(crate) fn get(&self) -> bool
        ensures { result ≡ self.now }
    {
        stim_parser::has_argument(self.text)
    }

    /// The same.
    #[inline(always)]
    pub(crate) fn copy(&self) -> Self
        ensures { result ≡ self.now }
    {
        MayFlip { text: self.text }
    }
}
