//! What error lines flip: a line the detectors and observables that it names an odd number of times, and those of a model that are
//! named their symptom.
ghost use Rattle.std.specs.Prelude.{◌≡◌, ◌+◌, ◌^◌, ◌<◌, ◌≤◌, ◌++◌, [], ◌∷◌, ℕ, List, map, All, IfOk, IsPermutation, false, if◌then◌else◌, replicate, IfErr};
ghost use Rattle.std.specs.List.Sorted.{IsNonDecreasing};
ghost use Rattle.dem_text.specs.Meanings.{detectors_to, flipped, observables_to, numbered};
ghost use Rattle.stim_lexer.specs.Reached.{greatest_by};
ghost use Rattle.dem_text.specs.private.Numbered.{odd_below, numbers_of};
ghost use Rattle.dem_text.specs.Shifts.{shifted_target};
ghost use Rattle.step_model.specs.Faults.{memory_fault};
ghost use Rattle.dem_text.specs.Sums.{symptom_of};
ghost use Rattle.dem_text.specs.private.Turned.{turned, turned_at};

use crate::standing::LineCounts;
use crate::target::Target;
use error_models::Model;
use std::alloc::{AllocError, Allocator};
use step_model::Fault;

/// The number of a target, `number` after `first`.
fn number_at(first: u32, number: u64) -> u32
    requires { first + number < 2 ^ 32 }
    ensures { result ≡ first + number }
{
    (first as u64 + number) as u32
}

/// The number of a detector once shifted.
fn detector_at(shift: u128, detector: u64) -> u32
    requires { detector + shift < 2 ^ 32 }
    ensures { result ≡ detector + shift }
{
    (shift + detector as u128) as u32
}

/// Appends the number of a target, in a model with this many detectors, where detectors are shifted. A separator has
/// none.
fn push_number<A: Allocator + Copy>(
    numbers: &mut Vec<u32, A>,
    detectors: u32,
    shift: u128,
    target: Target,
) -> Result<(), AllocError>
    requires detector { detectors_to (shifted_target shift target) ≤ 2 ^ 32 }
    requires observable { detectors + observables_to (shifted_target shift target) ≤ 2 ^ 32 }
    ensures { IfOk result (λ _. numbers.new.items
        ≡ numbers.old.items ++ numbered detectors (shifted_target shift target)) }
{
    match target {
        Target::Detector(detector) => numbers.push(detector_at(shift, detector))?,
        Target::Observable(observable) => numbers.push(number_at(detectors, observable))?,
        _ => {}
    }
    Ok(())
}

/// Puts the numbers of targets into `numbers`, in place of what it held.
fn read_numbers<A: Allocator + Copy>(
    numbers: &mut Vec<u32, A>,
    detectors: u32,
    shift: u128,
    targets: &[Target],
) -> Result<(), AllocError>
    requires detectors { greatest_by detectors_to (map (shifted_target shift) targets.now)
        ≤ 2 ^ 32 }
    requires observables { detectors + greatest_by observables_to
        (map (shifted_target shift) targets.now)
        ≤ 2 ^ 32 }
    ensures { IfOk result (λ _. numbers.new.items
        ≡ numbers_of detectors (map (shifted_target shift) targets.now)) }
{
    numbers.clear();
    for target in targets {
        push_number(numbers, detectors, shift, *target)?;
    }
    Ok(())
}

/// Takes a number off the end, or puts it there where it isn't.
fn toggle<A: Allocator + Copy>(kept: &mut Vec<u32, A>, number: u32) -> Result<(), AllocError>
    ensures there { IfOk result (λ _. (before : List ℕ)
        → kept.old.items ≡ before ++ number ∷ []
        → kept.new.items ≡ before) }
    ensures absent { IfOk result (λ _. All (λ n. n < number) kept.old.items
        → kept.new.items ≡ kept.old.items ++ number ∷ []) }
{
    if let Some(last) = kept.pop() {
        if last == number {
            return Ok(());
        }
        kept.push(last)?;
    }
    kept.push(number)?;
    Ok(())
}

/// Puts into `kept`, in place of what it held, the numbers that these ascending ones have an odd number of times.
fn keep_odd<A: Allocator + Copy>(kept: &mut Vec<u32, A>, numbers: &[u32]) -> Result<(), AllocError>
    requires { IsNonDecreasing numbers.now }
    ensures { IfOk result (λ _. (n : ℕ)
        → All (λ m. m < n) numbers.now
        → kept.new.items ≡ odd_below n numbers.now) }
{
    kept.clear();
    for number in numbers {
        toggle(kept, *number)?;
    }
    Ok(())
}

/// Puts numbers in ascending order. Most are in order already, and take no memory.
fn put_in_order<A: Allocator + Copy>(numbers: &mut Vec<u32, A>) -> Result<(), AllocError>
    ensures ascending { IfOk result (λ _. IsNonDecreasing numbers.new.items) }
    ensures same { IfOk result (λ _. IsPermutation numbers.old.items numbers.new.items) }
{
    if numbers.as_slice().is_sorted() {
        return Ok(());
    }
    numbers.sort()?;
    Ok(())
}

/// Puts into `kept`, in place of what it held, the numbers of the detectors and observables that targets flip
/// where detectors are shifted.
pub(crate) fn read_flipped<A: Allocator + Copy>(
    numbers: &mut Vec<u32, A>,
    kept: &mut Vec<u32, A>,
    counts: LineCounts,
    shift: u128,
    targets: &[Target],
) -> Result<(), AllocError>
    requires detectors { greatest_by detectors_to (map (shifted_target shift) targets.now)
        ≤ counts.detectors }
    requires observables { greatest_by observables_to (map (shifted_target shift) targets.now)
        ≤ counts.observables }
    requires few { counts.detectors + counts.observables ≤ 2 ^ 32 }
    ensures { IfOk result (λ _. kept.new.items
        ≡ flipped counts.detectors counts.observables (map (shifted_target shift) targets.now)) }
{
    read_numbers(numbers, counts.detectors, shift, targets)?;
    put_in_order(numbers)?;
    keep_odd(kept, numbers.as_slice())?;
    Ok(())
}

/// Flips the truth value at this place, where there is one.
pub(crate) fn turn_at(bits: &mut [bool], target: u128)
    ensures { bits.new ≡ turned_at bits.old target }
{
    if target < bits.len() as u128 {
        let place = target as usize;
        bits[place] = !bits[place];
    }
}

/// Flips the truth values at these places, each as often as its place is listed.
fn turn(bits: &mut [bool], targets: &[u32])
    ensures { bits.new ≡ turned bits.old targets.now }
{
    for target in targets {
        turn_at(bits, *target as u128);
    }
}

/// The same if `named`; otherwise nothing.
fn turn_if(named: bool, bits: &mut [bool], targets: &[u32])
    ensures { bits.new ≡ (if named then turned bits.old targets.now else bits.old) }
{
    if named {
        turn(bits, targets);
    }
}

/// A truth value for each detector and each observable, none of them set.
pub(crate) fn no_bits<A: Allocator + Copy>(
    alloc: A,
    detectors: usize,
    observables: usize,
) -> Result<Vec<bool, A>, AllocError>
    ensures { IfOk result (λ bits. bits.items ≡ replicate (detectors + observables) false) }
{
    match detectors.checked_add(observables) {
        Some(count) => vec![in alloc; false; count],
        None => Err(AllocError),
    }
}

/// The symptom of the error lines of a model that are named: a truth value for each detector, then one for each
/// observable, which says whether these lines flip it an odd number of times in all. `named` has a truth value for each
/// error line, by its number from 0. It fails only where memory runs out.
pub fn symptom<A: Allocator + Copy>(
    alloc: A,
    model: &Model<'_, A>,
    named: &[bool],
) -> Result<Vec<bool, A>, Fault>
    ensures ok { IfOk result (λ bits. bits.items ≡ symptom_of model.now named.now) }
    ensures err { IfErr result (λ fault. fault ≡ memory_fault) }
{
    let mut bits = no_bits(alloc, model.detector_count(), model.observable_count())?;
    for line in 0..model.line_count().min(named.len()) {
        turn_if(named[line], &mut bits, model.targets(line));
    }
    Ok(bits)
}
