ghost use Rattle.std.specs.Prelude.{◌≡◌, ◌<◌, length, false, slice_index_or};

use std::alloc::Allocator;
use std::marker::Model;

/// The records of a run, in their order.
#[derive(Drop)]
pub struct Records<A: Allocator + Copy> {
    outcomes: Vec<bool, A>,
}

impl<A: Allocator + Copy> Model for Records<A> {
    ghost use Rattle.std.specs.Prelude.{Bool, List};

    ghost Value = { List Bool };

    ghost view = { λ records. records.outcomes.items };
}

impl<A: Allocator + Copy> Records<A> {
    /// The records with these outcomes.
    pub(crate) fn new(outcomes: Vec<bool, A>) -> Self
        ensures { result ≡ outcomes.items }
    {
        Records { outcomes }
    }

    /// The outcomes.
    pub fn outcomes(&self) -> &[bool]
        ensures { result.now ≡ self.now }
    {
        self.outcomes.as_slice()
    }

    /// How many records there are.
    pub fn len(&self) -> usize
        ensures { result ≡ length self.now }
    {
        self.outcomes.len()
    }

    /// The outcome of the record at an index.
    pub fn get(&self, index: usize) -> bool
        requires { index < length self.now }
        ensures { result ≡ slice_index_or self.now index false }
    {
        self.outcomes[index]
    }
}
