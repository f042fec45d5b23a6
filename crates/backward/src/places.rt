//! Where targets are random.
ghost use Rattle.std.specs.Prelude.{◌≡◌, ◌<◌, ◌≤◌, ◌^◌, ℕ, false, true, None, Some, length, All, IfOk, OnOk, IfSome, IfNone, slice_index_or};
ghost use Rattle.step_model.specs.Targets.{targets_of};
ghost use Rattle.backward.specs.private.Collapses.{noted, or_where};
ghost use Rattle.backward.specs.private.Passes.{IsPassed, tracked_before, lowest_below, opened};
ghost use Rattle.backward.specs.Places.{IsLowestRandom, NoneIsRandom, place_from};

use crate::found::Found;
use circuit_walk::Program;
use pauli_word::Letter;
use record_targets::target_count;
use std::alloc::{AllocError, Allocator};
use step_model::{Place, Term};
use trackers::Tracker;

/// Notes this number for those of these targets, of `targets`, that have none yet. The list is empty until one has.
pub(crate) fn note<A: Allocator + Copy>(
    alloc: A,
    found: &mut Vec<Option<u32>, A>,
    targets: usize,
    hit: &[u32],
    value: u32,
) -> Result<(), AllocError>
    requires long { length (opened targets found.old.items) ≡ targets }
    requires hit { All (λ t. t < targets) hit.now }
    ensures { OnOk result
        (opened targets found.new.items ≡ noted value hit.now (opened targets found.old.items)) }
{
    if hit.is_empty() {
        return Ok(());
    }
    open(alloc, found, targets)?;
    note_each(found, hit, value);
    Ok(())
}

// Gives a list that is empty its room.
fn open<A: Allocator + Copy>(
    alloc: A,
    found: &mut Vec<Option<u32>, A>,
    targets: usize,
) -> Result<(), AllocError>
    ensures { OnOk result (found.new.items ≡ opened targets found.old.items) }
{
    if found.is_empty() {
        *found = Vec::from_elem(alloc, None, targets)?;
    }
    Ok(())
}

fn note_each<A: Allocator + Copy>(found: &mut Vec<Option<u32>, A>, hit: &[u32], value: u32)
    requires { All (λ t. t < length found.old.items) hit.now }
    ensures { found.new.items ≡ noted value hit.now found.old.items }
{
    for t in hit {
        note_at(&mut found[*t as usize], value);
    }
}

fn note_at(found: &mut Option<u32>, value: u32)
    ensures { found.new ≡ or_where value true found.old }
{
    if found.is_none() {
        *found = Some(value);
    }
}

// For each target the lowest qubit at which its word at the start has X or Y, empty where none has.
fn lowest_at_start<'a, A: Allocator + Copy, T: Tracker>(
    alloc: A,
    program: &Program<'a, A>,
    tracker: &mut T,
    hit: &mut Vec<u32, A>,
) -> Result<Vec<Option<u32>, A>, AllocError>
    requires { T.tracked tracker.old
        ≡ tracked_before program.now.listing program.now.listing.steps }
    ensures lowest { IfOk result (λ lowest. opened (length (targets_of program.now.listing))
        lowest.items
        ≡ lowest_below program.now.listing program.now.listing.qubits) }
    ensures words { OnOk result (T.tracked tracker.new ≡ T.tracked tracker.old) }
{
    program.well_formed();
    let targets = target_count(program);
    let mut lowest = Vec::new(alloc);
    for qubit in 0..program.qubits() {
        let term = Term {
            qubit,
            letter: Letter::Z,
        };
        tracker.hit(&[term], hit)?;
        note(alloc, &mut lowest, targets, hit.as_slice(), qubit)?;
    }
    Ok(lowest)
}

/// The lowest target that is random, and its place, where a first pass has reached the start.
pub(crate) fn random_target<'s, 'a, A: Allocator + Copy, T: Tracker>(
    program: &Program<'a, A>,
    tracker: &mut T,
    found: &mut Found<'s, A>,
) -> Result<Option<(u32, Place)>, AllocError>
    requires first { found.old.settled ≡ false }
    requires passed { IsPassed program.now.listing 0 (T.tracked tracker.old) found.old }
    ensures none { IfOk result (λ random. IfNone random (NoneIsRandom program.now.listing)) }
    ensures lowest { IfOk result (λ random. IfSome random (λ random. IsLowestRandom
        program.now.listing random.0 random.1)) }
    ensures words { OnOk result (T.tracked tracker.new ≡ T.tracked tracker.old) }
    ensures lists { found.new.lists ≡ found.old.lists }
    ensures known { found.new.known ≡ found.old.known }
    ensures keeps { found.new.keeps ≡ found.old.keeps }
{
    program.well_formed();
    let targets = target_count(program);
    let lowest = lowest_at_start(*found.alloc, program, tracker, &mut found.hit)?;
    Ok(lowest_random(targets, found.latest.as_slice(), lowest.as_slice()))
}

// The lowest of some targets with a place, by the latest collapse of each and the lowest qubit of each at the start.
fn lowest_random(
    targets: usize,
    latest: &[Option<u32>],
    lowest: &[Option<u32>],
) -> Option<(u32, Place)>
    requires few { targets ≤ 2 ^ 32 }
    ensures none { IfNone result
        ((d : ℕ)
        → d < targets
        → place_from (slice_index_or latest.now d None) (slice_index_or lowest.now d None)
        ≡ None) }
    ensures in_range { IfSome result (λ r. r.0 < targets) }
    ensures place { IfSome result (λ r. place_from (slice_index_or latest.now r.0 None)
        (slice_index_or lowest.now r.0 None)
        ≡ Some r.1) }
    ensures before { IfSome result (λ r. (d : ℕ)
        → d < r.0
        → place_from (slice_index_or latest.now d None) (slice_index_or lowest.now d None) ≡ None) }
{
    // As it mostly is.
    if latest.is_empty() && lowest.is_empty() {
        return None;
    }
    for d in 0..targets {
        if let Some(place) = place_from(noted_for(latest, d), noted_for(lowest, d)) {
            return Some((d as u32, place));
        }
    }
    None
}

// What is noted for a target.
fn noted_for(found: &[Option<u32>], target: usize) -> Option<u32>
    ensures { result ≡ slice_index_or found.now target None }
{
    if target < found.len() {
        found[target]
    } else {
        None
    }
}

fn place_from(latest: Option<u32>, lowest: Option<u32>) -> Option<Place>
    ensures { result ≡ place_from latest lowest }
{
    match (latest, lowest) {
        (Some(collapse), _) => Some(Place::After(collapse)),
        (None, Some(qubit)) => Some(Place::Start(qubit)),
        (None, None) => None,
    }
}
