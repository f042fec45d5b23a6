//! What a user gives besides a circuit: a text of coins, and a list of numbers. A collapse is the projective measurement
//! inside a measurement or a reset; its coin is the outcome where that is random.
ghost use Rattle.std.specs.Prelude.{◌≡◌, ◌⊎◌, true, false, None, Some, IfOk, IfErr, length, map, nat_lt, replicate};
ghost use Rattle.std.specs.List.{list_all};
ghost use Rattle.step_model.specs.declared.fault.Cause.TheVariants.{CoinCount, FaultNumber};
ghost use Rattle.step_model.specs.Faults.{memory_fault, without_line};
ghost use Rattle.forward_sim.specs.Lists.{coins_of, is_one, is_zero_or_one, marks, numbers_of};

use crate::listed::listed_numbers;
use circuit_walk::Program;
use std::alloc::{AllocError, Allocator};
use step_model::{Cause, Fault};

const COIN_COUNT: Fault = Fault {
    cause: Cause::CoinCount,
    line: 0,
};

const FAULT_NUMBER: Fault = Fault {
    cause: Cause::FaultNumber,
    line: 0,
};

/// The coins that a text gives a run of the program: one digit 0 or 1 for each collapse, in the order of the steps.
pub fn read_coins<A: Allocator + Copy>(
    alloc: A,
    program: &Program<'_, A>,
    text: &[u8],
) -> Result<Vec<bool, A>, Fault>
    ensures ok { IfOk result (λ v. coins_of program.now.listing.collapses text.now ≡ Some v.items) }
    ensures err { IfErr result (λ e. (e ≡ memory_fault)
        ⊎ ((e ≡ without_line CoinCount)
        × (coins_of program.now.listing.collapses text.now ≡ None))) }
{
    let collapses = program.collapse_count() as usize;
    if text.len() != collapses || !are_zeros_and_ones(text) {
        return Err(COIN_COUNT);
    }
    Ok(ones(alloc, text)?)
}

fn are_zeros_and_ones(text: &[u8]) -> bool
    ensures { result ≡ list_all is_zero_or_one text.now }
{
    text.iter().all(|b| *b == b'0' || *b == b'1')
}

/// For each byte, whether it is a digit 1. Room for all of them is asked for once: `collect` would go on in smaller steps where
/// that is refused.
fn ones<A: Allocator + Copy>(alloc: A, text: &[u8]) -> Result<Vec<bool, A>, AllocError>
    ensures { IfOk result (λ v. v.items ≡ map is_one text.now) }
{
    let mut ones = Vec::with_capacity(alloc, text.len())?;
    for byte in text {
        ones.push(*byte == b'1')?;
    }
    Ok(ones)
}

fn are_below(numbers: &[usize], count: usize) -> bool
    ensures { result ≡ list_all (λ n. nat_lt n count) numbers.now }
{
    numbers.iter().all(|n| *n < count)
}

/// Marks these numbers; none is marked before.
fn mark_numbers(marked: &mut [bool], numbers: &[usize])
    requires fresh { marked.old ≡ replicate (length marked.old) false }
    requires below { list_all (λ n. nat_lt n (length marked.old)) numbers.now ≡ true }
    ensures { marked.new ≡ marks (length marked.old) numbers.now }
{
    for n in numbers {
        marked[*n] = true;
    }
}

/// For each number below a count, whether a list names it: decimal numbers joined by commas, or nothing.
pub fn read_numbers<A: Allocator + Copy>(
    alloc: A,
    count: usize,
    text: &[u8],
) -> Result<Vec<bool, A>, Fault>
    ensures ok { IfOk result (λ v. numbers_of count text.now ≡ Some v.items) }
    ensures err { IfErr result (λ e. (e ≡ memory_fault)
        ⊎ ((e ≡ without_line FaultNumber) × (numbers_of count text.now ≡ None))) }
{
    let Some(numbers) = listed_numbers(alloc, text)? else {
        return Err(FAULT_NUMBER);
    };
    if !are_below(numbers.as_slice(), count) {
        return Err(FAULT_NUMBER);
    }
    let mut marked = vec![in alloc; false; count]?;
    mark_numbers(marked.as_mut_slice(), numbers.as_slice());
    Ok(marked)
}
