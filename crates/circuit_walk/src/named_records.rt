//! Records, lent from the targets of an instruction.

ghost use Rattle.std.specs.Prelude.{◌≡◌, [], ◌∷◌, length, MatchOption};
ghost use Rattle.circuit_walk.specs.NamedRecords.{records_in};
ghost use Rattle.circuit_walk.specs.TargetsMade.{record_named};

use stim_parser::{Target, TargetWord};

/// Records that the targets of an instruction name, lent. Contracts see the list of them by `records_in`.
#[derive(Clone, Copy)]
pub struct NamedRecords<'c> {
    /// How many records were made before the instruction.
    pub(crate) records: u32,
    pub(crate) targets: &'c [TargetWord],
}

/// The record that a target names after this many records; the first record where it reaches back before that.
#[inline(always)]
fn record_named(records: u32, target: Target) -> u32
    ensures { result ≡ record_named records target }
{
    match target {
        Target::Back(k) => (records as u64).saturating_sub(k) as u32,
        _ => 0,
    }
}

impl<'c> NamedRecords<'c> {
    /// The first record, and those behind it.
    #[inline(always)]
    pub fn split_first(self) -> Option<(u32, NamedRecords<'c>)>
        ensures { MatchOption result (records_in self.entry ≡ [])
            (λ parts. records_in self.entry ≡ parts.0 ∷ records_in parts.1) }
    {
        match self.targets {
            [first, rest @ ..] => Some((
                record_named(self.records, first.get()),
                NamedRecords {
                    records: self.records,
                    targets: rest,
                },
            )),
            [] => None,
        }
    }

    /// How many there are.
    #[inline(always)]
    pub fn len(self) -> usize
        ensures { result ≡ length (records_in self.entry) }
    {
        self.targets.len()
    }
}
