//! How far a model is read: by how much detectors are shifted and coordinates moved, the counts so far, and the first line with a
//! number that is beyond its limit.
ghost use Rattle.std.specs.Prelude.{◌≡◌, ◌+◌, ◌<◌, ◌≤◌, ◌^◌, All, ℤ, List, None, false, true, if◌then◌else◌, not, nat_abs, nat_lt, MatchOption, ◌+ℤ◌, [], length};
ghost use Rattle.stim_lexer.specs.Reached.{greatest_by};
ghost use Rattle.std.specs.List.{list_any};
ghost use Rattle.stim_parser.specs.Offsets.{moved, shifted};
ghost use Rattle.dem_text.specs.Meanings.{is_error};
ghost use Rattle.dem_text.specs.Models.{is_beyond, is_coordinate_beyond};
ghost use Rattle.dem_text.specs.Shifts.{no_shift, placed_at, shift_after};
ghost use Rattle.dem_text.specs.Verdicts.{Instruction};
ghost use Rattle.dem_text.specs.private.Briefs.{IsBrief, IsSomeBrief};
ghost use Rattle.dem_text.specs.private.Folds.{IsSound, counts_past, stand_after};
ghost use Rattle.dem_text.specs.private.Offsets.{AreSmall, HasRoom, beyond_stated, number_at, padded};
ghost use Rattle.dem_text.specs.private.Tables.{coordinates_from, count_at, most_detectors};

use crate::brief::{Brief, is_error};
use crate::operation::Operation;
use crate::target::{GREATEST_DETECTOR, GREATEST_NUMBER};
use arrayvec::ArrayVec;
use std::marker::Model;
use stim_parser::MOST_ARGUMENTS;

/// By how much the detectors of a line are shifted as it is reached, and its coordinates, axis by axis.
#[derive(Drop)]
pub(crate) struct Shift {
    pub detectors: u128,
    pub offset: ArrayVec<i128, MOST_ARGUMENTS>,
    // No axis is moved by more, in either direction.
    reach: u128,
}

impl Model for Shift {
    ghost use Rattle.std.specs.Prelude.{◌≤◌, All, nat_abs};
    ghost use Rattle.dem_text.specs.Shifts.{Shift};

    ghost Value = { Shift };

    ghost view = { λ s. record { detectors = s.detectors; offset = s.offset.items } };

    ghost invariant = { λ s. All (λ o. nat_abs o ≤ s.reach) s.offset.items };
}

/// The number at a place of an offset, 0 past its end.
fn offset_at(offset: &[i128], place: usize) -> i128
    ensures { result ≡ number_at offset.now place }
{
    if place < offset.len() {
        offset[place]
    } else {
        0
    }
}

/// The number at a place of those that a line states, 0 past their end.
fn stated_at(stated: &[i64], place: usize) -> i64
    ensures { result ≡ number_at stated.now place }
{
    if place < stated.len() {
        stated[place]
    } else {
        0
    }
}

/// The sum of the numbers at a place of an offset and of what a line states.
pub(crate) fn sum_at(offset: &[i128], stated: &[i64], place: usize) -> i128
    requires room { nat_abs (number_at offset.now place) + beyond_stated < 2 ^ 127 }
    requires small { nat_abs (number_at stated.now place) < beyond_stated }
    ensures { result ≡ number_at offset.now place +ℤ number_at stated.now place }
{
    offset_at(offset, place) + stated_at(stated, place) as i128
}

/// The sum of the numbers at a place where an offset and what a line states have one.
#[inline(always)]
fn sum_inside(offset: &[i128], stated: &[i64], place: usize) -> i128
    requires offset { place < length offset.now }
    requires stated { place < length stated.now }
    requires room { nat_abs (number_at offset.now place) + beyond_stated < 2 ^ 127 }
    requires small { nat_abs (number_at stated.now place) < beyond_stated }
    ensures { result ≡ number_at offset.now place +ℤ number_at stated.now place }
{
    offset[place] + stated[place] as i128
}

/// Lengthens an offset to at least so many axes.
fn lengthen(offset: &mut ArrayVec<i128, MOST_ARGUMENTS>, axes: usize)
    requires { axes ≤ MOST_ARGUMENTS }
    ensures { offset.new.items ≡ padded axes offset.old.items }
{
    while offset.len() < axes {
        offset.push(0);
    }
}

/// Adds the numbers that a line states to an offset that has as many axes.
fn add_all(offset: &mut [i128], stated: &[i64])
    requires few { length stated.now ≤ length offset.old }
    requires room { All (λ o. nat_abs o + beyond_stated < 2 ^ 127) offset.old }
    requires small { AreSmall stated.now }
    ensures added { offset.new ≡ shifted offset.old stated.now }
    ensures long { length offset.new ≡ length offset.old }
{
    for place in 0..stated.len() {
        offset[place] = sum_inside(offset, stated, place);
    }
}

/// Adds the numbers that a line states to an offset.
fn add_stated(offset: &mut ArrayVec<i128, MOST_ARGUMENTS>, stated: &[i64])
    requires few { length stated.now ≤ MOST_ARGUMENTS }
    requires room { All (λ o. nat_abs o + beyond_stated < 2 ^ 127) offset.old.items }
    requires small { AreSmall stated.now }
    ensures { offset.new.items ≡ shifted offset.old.items stated.now }
{
    lengthen(offset, stated.len());
    add_all(offset.as_mut_slice(), stated);
}

impl Shift {
    /// None.
    pub(crate) fn none() -> Self
        ensures { result ≡ no_shift }
    {
        Shift {
            detectors: 0,
            offset: ArrayVec::new(),
            reach: 0,
        }
    }

    /// Whether numbers of this magnitude at most are sure to be within the limit of coordinates once they are moved.
    #[inline(always)]
    fn keeps_near(&self, reach: u64) -> bool
        ensures { result ≡ true → (stated : List ℤ) → reach ≡ greatest_by nat_abs stated
            → list_any is_coordinate_beyond (moved self.now.offset stated) ≡ false }
    {
        self.reach.saturating_add(reach as u128) <= GREATEST_NUMBER as u128
    }

    /// Takes the shift past a line that states these numbers.
    #[inline(always)]
    pub(crate) fn pass(&mut self, line: &Brief, stated: &[i64])
        requires known { IsSomeBrief line.now stated.now }
        requires room { HasRoom self.old 1 }
        ensures { (i : Instruction) → IsBrief i line.now stated.now
            → self.new ≡ shift_after i self.old }
    {
        match line.operation {
            Operation::Shifts => {
                add_stated(&mut self.offset, stated);
                self.reach = self.reach.saturating_add(line.reach as u128);
                self.detectors += line.amount as u128;
            }
            _ => {}
        }
    }
}

/// How many detectors there may be.
pub(crate) const MOST_DETECTORS: u64 = GREATEST_DETECTOR + 1;

/// How many detectors and observables lines name, up to the greatest, and how many of them are error lines.
#[derive(Clone, Copy)]
pub(crate) struct LineCounts {
    pub detectors: u32,
    pub observables: u16,
    pub errors: usize,
}

/// What lines that were passed leave: the shift, their counts and number, and the first of them that names a detector or gives a
/// coordinate beyond its limit. Behind such a line nothing counts any more.
#[derive(Drop)]
pub(crate) struct Standing {
    pub shift: Shift,
    pub counts: LineCounts,
    pub passed: u64,
    pub beyond: Option<u64>,
}

/// How many detectors there are up to the greatest that is named, where these are shifted; none where it is then beyond
/// its limit.
#[inline(always)]
fn shifted(shift: u128, detectors: u32) -> Option<u32>
    ensures { MatchOption result (nat_lt most_detectors (count_at shift detectors) ≡ true)
        (λ found. (found ≡ count_at shift detectors)
        × (nat_lt most_detectors (count_at shift detectors) ≡ false)) }
{
    if detectors == 0 {
        return Some(0);
    }
    if shift > MOST_DETECTORS as u128 {
        return None;
    }
    let number = detectors as u64 + shift as u64;
    if number > MOST_DETECTORS {
        None
    } else {
        Some(number as u32)
    }
}

/// Whether all coordinates that are stated are within their limit, with the offset added.
fn are_near(offset: &[i128], stated: &[i64]) -> bool
    requires room { All (λ o. nat_abs o + beyond_stated < 2 ^ 127) offset.now }
    requires small { AreSmall stated.now }
    ensures { result ≡ not (list_any is_coordinate_beyond (moved offset.now stated.now)) }
{
    for place in 0..stated.len() {
        if sum_at(offset, stated, place).unsigned_abs() > GREATEST_NUMBER as u128 {
            return false;
        }
    }
    true
}

/// Whether all coordinates that a line gives, which states these, are within their limit once they are moved.
#[inline(always)]
fn gives_near(shift: &Shift, line: &Brief, stated: &[i64]) -> bool
    requires room { All (λ o. nat_abs o + beyond_stated < 2 ^ 127) shift.now.offset }
    requires small { AreSmall stated.now }
    requires reach { line.now.reach ≡ greatest_by nat_abs stated.now }
    ensures { result ≡ not (list_any is_coordinate_beyond
        (coordinates_from line.now.operation stated.now shift.now.offset)) }
{
    match line.operation {
        Operation::DetectorDeclaration => {
            // Coordinates are seldom near their limit.
            if shift.keeps_near(line.reach) {
                return true;
            }
            are_near(shift.offset.as_slice(), stated)
        }
        _ => true,
    }
}

/// How many error lines there are after a line of this kind.
#[inline(always)]
fn errors_past(errors: usize, operation: Operation) -> usize
    requires { errors + 1 < 2 ^ 64 }
    ensures { result ≡ (if is_error operation then errors + 1 else errors) }
{
    if is_error(operation) {
        errors + 1
    } else {
        errors
    }
}

impl LineCounts {
    /// With those of a line that is reached with this shift; none where a number of the line is beyond its limit.
    #[inline(always)]
    fn past(self, shift: &Shift, line: &Brief, stated: &[i64]) -> Option<LineCounts>
        requires known { IsSomeBrief line.now stated.now }
        requires room { HasRoom shift.now 1 }
        requires few { self.errors + 1 < 2 ^ 64 }
        ensures { (i : Instruction) → IsBrief i line.now stated.now
            → MatchOption result (is_beyond (placed_at shift.now i) ≡ true)
            (λ counts. (counts ≡ counts_past (placed_at shift.now i) self)
            × (is_beyond (placed_at shift.now i) ≡ false)) }
    {
        let Some(detectors) = shifted(shift.detectors, line.extent.detectors) else {
            return None;
        };
        if !gives_near(shift, line, stated) {
            return None;
        }
        Some(LineCounts {
            detectors: self.detectors.max(detectors),
            observables: self.observables.max(line.extent.observables),
            errors: errors_past(self.errors, line.operation),
        })
    }
}

impl Standing {
    /// Before the first line.
    pub(crate) fn start() -> Self
        ensures { result ≡ record {
          shift = no_shift;
          counts = record { detectors = 0; observables = 0; errors = 0 };
          passed = 0;
          beyond = None;
        } }
    {
        Standing {
            shift: Shift::none(),
            counts: LineCounts {
                detectors: 0,
                observables: 0,
                errors: 0,
            },
            passed: 0,
            beyond: None,
        }
    }

    /// Goes past a line that states these numbers.
    #[inline(always)]
    pub(crate) fn pass(&mut self, line: &Brief, stated: &[i64])
        requires known { IsSomeBrief line.now stated.now }
        requires sound { IsSound self.old }
        requires few { self.old.passed + 1 < 2 ^ 64 }
        ensures after { (i : Instruction) → IsBrief i line.now stated.now
            → self.new ≡ stand_after i self.old }
        ensures sound { IsSound self.new }
        ensures passed { self.new.passed ≤ self.old.passed + 1 }
    {
        if self.beyond.is_some() {
            return;
        }
        match self.counts.past(&self.shift, line, stated) {
            Some(counts) => {
                self.shift.pass(line, stated);
                self.counts = counts;
                self.passed += 1;
            }
            None => self.beyond = Some(line.line),
        }
    }
}
