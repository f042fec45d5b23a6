//! What takes the declarations of a small circuit with a block, and the coordinates of its detectors, against lists that were
//! written out by hand.
use circuit_walk::{
    CoordinateTaker, DeclarationTaker, NamedRecords, Program, take_coordinates, take_declarations,
};
use std::alloc::Global;
use std::test::Fail;
use unroll::read_program;

/// A detector and an inclusion in each of two turns, a detector that lists a record twice, an observable that lists none, and
/// records of a product and behind a reset.
const CIRCUIT: &[u8] = b"M 0 1
REPEAT 2 {
M 0
DETECTOR(5, 0) rec[-1] rec[-2]
SHIFT_COORDS(0, 1)
OBSERVABLE_INCLUDE(1) rec[-1]
}
DETECTOR rec[-1] rec[-1]
MPP X0*Z1 Z0
R 0
SHIFT_COORDS(-7, 0, 1)
DETECTOR(1, 1, 1) rec[-1] rec[-2] rec[-6]
OBSERVABLE_INCLUDE(0)
";

/// The records of each declaration, those of observables behind the number of theirs.
const DECLARED: &[(Option<usize>, &[u32])] = &[
    (None, &[2, 1]),
    (Some(1), &[2]),
    (None, &[3, 2]),
    (Some(1), &[3]),
    (None, &[3, 3]),
    (None, &[5, 4, 0]),
    (Some(0), &[]),
];

const COORDINATES: &[&[i64]] = &[&[5, 0], &[5, 1], &[], &[-6, 3, 2]];

/// What compares each declaration that it takes with the next of the list.
#[derive(Drop)]
struct Comparing {
    taken: usize,
    same: bool,
}

impl Comparing {
    fn compare(&mut self, observable: Option<usize>, records: NamedRecords<'_>) {
        self.same &= match DECLARED.get(self.taken) {
            Some((named, listed)) => *named == observable && are_named(records, *listed),
            None => false,
        };
        self.taken = self.taken.saturating_add(1);
    }
}

/// Whether these are the records of a list.
fn are_named(records: NamedRecords<'_>, listed: &[u32]) -> bool {
    let mut all = records.len() == listed.len();
    let mut left = records;
    for record in listed {
        match left.split_first() {
            Some((first, rest)) => {
                all &= first == *record;
                left = rest;
            }
            None => return false,
        }
    }
    all
}

impl DeclarationTaker<Global> for Comparing {
    ghost use Rattle.std.specs.Prelude.{⊤};

    ghost stands = { λ program begun done comparing. ⊤ };

    fn detector(&mut self, _program: &Program<'_, Global>, records: NamedRecords<'_>) {
        self.compare(None, records);
    }

    fn inclusion(
        &mut self,
        _program: &Program<'_, Global>,
        observable: usize,
        records: NamedRecords<'_>,
    ) {
        self.compare(Some(observable), records);
    }
}

/// What compares the coordinates that it takes with the next of the list.
#[derive(Drop)]
struct Placing {
    taken: usize,
    same: bool,
}

impl CoordinateTaker<Global> for Placing {
    ghost use Rattle.std.specs.Prelude.{⊤};

    ghost stands = { λ program begun d placing. ⊤ };

    fn take(&mut self, _program: &Program<'_, Global>, coordinates: &[i64]) {
        self.same &= COORDINATES.get(self.taken).copied() == Some(coordinates);
        self.taken = self.taken.saturating_add(1);
    }
}

#[test]
fn declarations_and_coordinates(rt: HostRuntime) -> Result<(), Fail> {
    let program = read_program(rt.alloc(), CIRCUIT)?;
    let mut comparing = Comparing {
        taken: 0,
        same: true,
    };
    take_declarations(&program, &mut comparing);
    assert!(rt; comparing.same && comparing.taken == DECLARED.len());
    let mut placing = Placing {
        taken: 0,
        same: true,
    };
    take_coordinates(&program, &mut placing);
    assert!(rt; placing.same && placing.taken == COORDINATES.len());
    Ok(())
}
