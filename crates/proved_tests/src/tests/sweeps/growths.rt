//! A call of which one growth is refused: the first, the second and so on, until none is. A refused call answers want of memory
//! and gives back what it took.
use super::calls::{ASKED, Asked};
use super::lent::CIRCUIT;
use circuit_walk::Program;
use std::alloc::Global;
use std::process::Abort;
use std::test::Fail;
use step_model::{Cause, Fault};
use test_support::Scarce;
use unroll::read_program;

/// No call takes so many growths.
const MOST: u64 = 10_000;

pub(super) type Memory<'m> = &'m Scarce<Global>;

/// Memory for a call, and the growth of the call that is refused.
#[derive(Clone, Copy)]
pub(super) struct Ration<'m> {
    pub alloc: Global,
    pub memory: Memory<'m>,
    pub growth: u64,
}

impl<'m> Ration<'m> {
    /// The memory, from here on with one growth refused. What was made before the call has all it asks for.
    pub fn begin(self) -> Memory<'m> {
        self.memory.refuse(self.growth);
        self.memory
    }
}

/// What comes of a call with one growth refused.
#[derive(Clone, Copy)]
enum Outcome {
    /// The call is right, and didn't come to that growth.
    Unrefused,
    /// The call answers want of memory.
    Wanted,
    Wrong,
}

fn outcome_of(answer: Result<bool, Fault>, refused: bool) -> Outcome {
    match answer {
        Ok(true) if !refused => Outcome::Unrefused,
        Err(fault) if refused && is_want(fault) => Outcome::Wanted,
        _ => Outcome::Wrong,
    }
}

/// Whether a fault is want of memory, which no line is blamed for.
fn is_want(fault: Fault) -> bool {
    matches!(fault.cause, Cause::Memory) && fault.line == 0
}

/// Calls with one growth refused. A call that doesn't give back what it took is wrong.
fn call_refused<'m>(
    ration: Ration<'m>,
    program: &Program<'static, Memory<'m>>,
    call: Asked,
) -> Outcome {
    let memory = ration.memory;
    let held = memory.held();
    memory.refuse(0);
    let answer = call.is_right(ration, program);
    let refused = memory.refusals() == 1;
    if memory.held() == held {
        outcome_of(answer, refused)
    } else {
        Outcome::Wrong
    }
}

/// The first growth at which a call goes wrong, each being refused in turn. Each call takes some.
fn wrong_growth<'m>(
    alloc: Global,
    memory: Memory<'m>,
    program: &Program<'static, Memory<'m>>,
    call: Asked,
) -> Option<u64> {
    for growth in 1..MOST {
        let ration = Ration {
            alloc,
            memory,
            growth,
        };
        match call_refused(ration, program, call) {
            Outcome::Unrefused => return if 1 < growth { None } else { Some(growth) },
            Outcome::Wanted => {}
            Outcome::Wrong => return Some(growth),
        }
    }
    Some(MOST)
}

/// Refuses each growth of each call once.
fn sweep<'m>(rt: &impl Abort, alloc: Global, memory: Memory<'m>) -> Result<(), Fault> {
    let program = read_program(memory, CIRCUIT.as_bytes())?;
    for (number, call) in ASKED.iter().enumerate() {
        let growth = wrong_growth(alloc, memory, &program, *call);
        assert!(rt; growth.is_none(), "growth {growth:?} of call {number}");
    }
    Ok(())
}

/// In memory that holds nothing afterwards.
#[test]
fn every_growth_is_refused_once(rt: HostRuntime) -> Result<(), Fail> {
    let memory = Scarce::new(rt.alloc());
    sweep(&rt, rt.alloc(), &memory)?;
    assert!(rt; memory.held() == 0);
    Ok(())
}
