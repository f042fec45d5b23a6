//! The probabilities that the faults of a text name. Each has the text that stands in the circuit, byte for byte, and its bound;
//! one whose text stands there again has the number of the first.
use circuit_walk::{FaultTaker, FoundFault, Program, take_faults};
use std::alloc::Global;
use std::test::Fail;
use unroll::read_program;

/// Letters, qubits and probabilities that are the same, and that aren't; and two texts of one number.
const CIRCUIT: &[u8] = b"X_ERROR(0.1) 0 0 1 0
Z_ERROR(0.1) 0
X_ERROR(0.2) 0
REPEAT 2 {
M(0.1) 0
X_ERROR(0.1) 1
}
MR(0.1) 0 1
M(0.20) 0
E(0.1) X0
";

/// The number of each fault's probability, worked by hand.
const NAMED: [u32; 14] = [0, 0, 0, 0, 0, 1, 0, 0, 0, 0, 0, 0, 2, 0];

/// The texts by their numbers, and the floors of those probabilities times 2^64.
const CHANCES: &[(&[u8], u128)] = &[
    (b"0.1", 1_844_674_407_370_955_161),
    (b"0.2", 3_689_348_814_741_910_323),
    (b"0.20", 3_689_348_814_741_910_323),
];

/// Whether the probability with this number has its text and its bound.
fn is_chance(program: &Program<'_, Global>, number: u32) -> bool {
    let Some((text, bound)) = CHANCES.get(number as usize) else {
        return false;
    };
    if program.chances().len() <= number as usize {
        return false;
    }
    (program.chance_text(number) == *text) & (program.chance_bound(number) == *bound)
}

fn are_chances(program: &Program<'_, Global>) -> bool {
    let mut all = program.chances().len() == CHANCES.len();
    for number in 0..3 {
        all &= is_chance(program, number);
    }
    all
}

/// What compares the number and the probability of each fault that it takes with those of the next one.
#[derive(Drop)]
struct Comparing {
    taken: usize,
    same: bool,
}

impl FaultTaker<Global> for Comparing {
    ghost use Rattle.std.specs.Prelude.{⊤};

    ghost stands = { λ program begun n comparing. ⊤ };

    fn take(&mut self, _program: &Program<'_, Global>, fault: FoundFault<'_>) {
        self.same &= (fault.number as usize == self.taken)
            & (NAMED.get(self.taken).copied() == Some(fault.chance));
        self.taken = self.taken.saturating_add(1);
    }
}

fn are_named(program: &Program<'_, Global>) -> bool {
    let mut comparing = Comparing {
        taken: 0,
        same: true,
    };
    take_faults(program, &mut comparing);
    comparing.same && comparing.taken == NAMED.len()
}

#[test]
fn faults_share_probabilities(rt: HostRuntime) -> Result<(), Fail> {
    let program = read_program(rt.alloc(), CIRCUIT)?;
    assert!(rt; are_chances(&program));
    assert!(rt; are_named(&program));
    Ok(())
}
