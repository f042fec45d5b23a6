//! A fault of a program, as a taker of faults gets it.

ghost use Rattle.std.specs.Prelude.{◌≡◌, ℕ, IfSome, option_map};
ghost use Rattle.std.specs.Option.{option_to_list};
ghost use Rattle.circuit_walk.specs.Found.{IsFaultOf, number_in};
ghost use Rattle.circuit_walk.specs.Named.{IsFlip, IsStepOf};
ghost use Rattle.circuit_walk.specs.Programs.{KeptProgram};
ghost use Rattle.circuit_walk.specs.Steps.{listed};
ghost use Rattle.step_model.specs.WellFormed.{step_faults};

use crate::letters::Letters;
use crate::step::{FaultName, Step};

/// A fault of a program: its number, the number of its probability, and what it does where it happens: it flips a record, or it
/// applies letters at qubits.
#[derive(Clone, Copy)]
pub struct FoundFault<'c> {
    pub number: u32,
    pub chance: u32,
    /// The record that it flips, where it flips one.
    pub flips: Option<u32>,
    /// The letters that it applies; none where it flips a record.
    pub letters: Letters<'c>,
}

/// The fault of a step.
#[inline(always)]
pub(crate) fn fault_in<'c>(step: Step<'c>) -> Option<FoundFault<'c>>
    ensures number { (n : ℕ) → step_faults (listed n step.entry) ≡ option_to_list (option_map number_in result) }
    ensures found { (program : KeptProgram) → IsStepOf program step.entry → IfSome result (IsFaultOf program) }
{
    match step {
        Step::Fault { name, letters } => Some(FoundFault {
            number: name.number,
            chance: name.chance,
            flips: None,
            letters,
        }),
        Step::Collapse {
            rec: Some(r),
            flip: Some(name),
            ..
        } => Some(flip_of(name, r)),
        Step::CollapseWord {
            rec: Some(r),
            flip: Some(name),
            ..
        } => Some(flip_of(name, r)),
        _ => None,
    }
}

/// The fault that flips a record.
#[inline(always)]
fn flip_of<'c>(name: FaultName, r: u32) -> FoundFault<'c>
    ensures number { result.number ≡ name.number }
    ensures found { (program : KeptProgram) → IsFlip program r name → IsFaultOf program result }
{
    FoundFault {
        number: name.number,
        chance: name.chance,
        flips: Some(r),
        letters: Letters {
            letter: None,
            targets: &[],
        },
    }
}
