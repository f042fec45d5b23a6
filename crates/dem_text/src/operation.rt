//! What the lines of an error model do, by their names.
ghost use Rattle.std.specs.Prelude.{◌≡◌};
ghost use Rattle.dem_text.specs.Instructions.{keyword_named};

use stim_parser::{Keyword, look_up};

/// What a line of an error model says, where it opens no block.
#[derive(Clone, Copy)]
pub enum Operation {
    /// States an error, with what it flips.
    PauliError,
    /// Declares detectors, with or without coordinates.
    DetectorDeclaration,
    /// Declares observables.
    ObservableInclude,
    /// Shifts the numbers of later detectors, and their coordinates.
    Shifts,
}

/// Each name, in the case in which it is mostly written, and its keyword.
static NAMES: [(&'static [u8], Keyword<Operation>); 5] = [
    (b"error", Keyword::Does(Operation::PauliError)),
    (b"detector", Keyword::Does(Operation::DetectorDeclaration)),
    (
        b"logical_observable",
        Keyword::Does(Operation::ObservableInclude),
    ),
    (b"shift_detectors", Keyword::Does(Operation::Shifts)),
    (b"repeat", Keyword::Repeats),
];

/// The keyword that a name names, in any case.
pub(crate) fn keyword_named(name: &[u8]) -> Option<Keyword<Operation>>
    ensures { result ≡ keyword_named name.now }
{
    look_up(&NAMES, name)
}
