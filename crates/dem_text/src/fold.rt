//! A model as a fold over its lines, in which some error lines are named: what lines that were passed leave, and the bits that
//! those of them flip that are named.
ghost use Rattle.std.specs.Prelude.{◌≡◌, ◌+◌, ◌<◌, ◌≤◌, ◌^◌, ◌&&◌, ◌==◌, ℕ, false, [], List, length, map, is_none, replicate, IfOk};
ghost use Rattle.std.specs.List.Sorted.{IsStrictlyIncreasing};
ghost use Rattle.dem_text.specs.declared.standing.Standing.{Standing};
ghost use Rattle.dem_text.specs.Meanings.{is_error, numbered};
ghost use Rattle.dem_text.specs.Shifts.{shifted_target};
ghost use Rattle.dem_text.specs.Verdicts.{Instruction};
ghost use Rattle.dem_text.specs.private.Briefs.{IsBrief, IsSomeBrief};
ghost use Rattle.dem_text.specs.private.Folds.{Folded, Follows, IsSound, fold_after, fold_start, is_asked, is_next, stand_after};
ghost use Rattle.dem_text.specs.private.Numbered.{numbers_of};
ghost use Rattle.dem_text.specs.private.Tables.{most_detectors};
ghost use Rattle.dem_text.specs.private.Turned.{turned, turned_at};

use crate::brief::{Brief, is_error};
use crate::operation::Operation;
use crate::standing::{MOST_DETECTORS, Standing};
use crate::target::Target;
use bit_rows::BitRow;
use std::alloc::{AllocError, Allocator};

/// What lines that were passed leave, the numbers of the error lines that are named and still to come, and the bits that those
/// that were passed flip: of as many detectors as there may be, and then of the observables.
#[derive(Drop)]
pub(crate) struct Fold<'n, A: Allocator + Copy> {
    pub standing: Standing,
    pub later: &'n [usize],
    pub bits: BitRow<A>,
}

/// Whether this number is the next of those that are to come.
#[inline(always)]
fn is_next(number: usize, later: &[usize]) -> bool
    ensures { result ≡ is_next number later.now }
{
    match later {
        [next, ..] => *next == number,
        [] => false,
    }
}

/// Whether the line of this number that was passed is an error line that is the next of those that are to come.
#[inline(always)]
fn is_asked(standing: &Standing, operation: Operation, number: usize, later: &[usize]) -> bool
    ensures { result ≡ (is_none standing.now.beyond
        && (is_error operation && is_next number later.now)) }
{
    standing.beyond.is_none() && is_error(operation) && is_next(number, later)
}

/// Flips the bit at this place, where there is one.
#[inline(always)]
fn turn_at<A: Allocator + Copy>(bits: &mut BitRow<A>, place: u128)
    ensures { bits.new ≡ turned_at bits.old place }
{
    if place < bits.len() as u128 {
        bits.flip(place as usize);
    }
}

/// Flips the bit of a target, where detectors are shifted. A separator has none.
#[inline(always)]
fn turn_target<A: Allocator + Copy>(bits: &mut BitRow<A>, shift: u128, target: Target)
    ensures { bits.new ≡ turned bits.old (numbered most_detectors (shifted_target shift target)) }
{
    match target {
        Target::Detector(detector) => {
            // Behind the last bit the sum might not fit.
            if shift < bits.len() as u128 {
                turn_at(bits, shift + detector as u128);
            }
        }
        Target::Observable(observable) => {
            turn_at(bits, MOST_DETECTORS as u128 + observable as u128)
        }
        _ => {}
    }
}

impl<'n, A: Allocator + Copy> Fold<'n, A> {
    /// Before the first line, where the error lines of these numbers are named, with so many bits.
    pub(crate) fn new(alloc: A, named: &'n [usize], places: usize) -> Result<Self, AllocError>
        requires { IsStrictlyIncreasing named.now }
        ensures follows { IfOk result (λ fold. Follows named.now (fold_start places) fold) }
        ensures sound { IfOk result (λ fold. IsSound fold.standing) }
        ensures passed { IfOk result (λ fold. fold.standing.passed ≡ 0) }
    {
        Ok(Fold {
            standing: Standing::start(),
            later: named,
            bits: BitRow::zeros(alloc, places)?,
        })
    }

    /// Goes past a line that states these numbers. Answers whether it is an error line that is named: then its targets are to
    /// be turned.
    #[inline(always)]
    pub(crate) fn pass(&mut self, line: &Brief, stated: &[i64]) -> bool
        requires known { IsSomeBrief line.now stated.now }
        requires sound { IsSound self.old.standing }
        requires few { self.old.standing.passed + 1 < 2 ^ 64 }
        ensures follows { (named : List ℕ) (f : Folded) (i : Instruction)
            → Follows named f self.old
            → IsBrief i line.now stated.now
            → (result ≡ is_asked named f.standing i)
            × Follows named (record { standing = stand_after i f.standing; bits = f.bits }) self.new }
        ensures sound { IsSound self.new.standing }
        ensures passed { self.new.standing.passed ≤ self.old.standing.passed + 1 }
    {
        let number = self.standing.counts.errors;
        self.standing.pass(line, stated);
        if !is_asked(&self.standing, line.operation, number, self.later) {
            return false;
        }
        self.later = &self.later[1..];
        true
    }

    /// Flips the bits of the targets of a line that was passed.
    pub(crate) fn turn(&mut self, targets: &[Target])
        ensures bits { self.new.bits
            ≡ turned self.old.bits
            (numbers_of most_detectors
            (map (shifted_target self.old.standing.shift.detectors) targets.now)) }
        ensures standing { self.new.standing ≡ self.old.standing }
        ensures later { self.new.later.now ≡ self.old.later.now }
    {
        let shift = self.standing.shift.detectors;
        for target in targets {
            turn_target(&mut self.bits, shift, *target);
        }
    }

    /// Goes past a line that states these numbers and has these targets.
    #[inline(always)]
    pub(crate) fn take(&mut self, line: &Brief, stated: &[i64], targets: &[Target])
        requires known { IsSomeBrief line.now stated.now }
        requires sound { IsSound self.old.standing }
        requires few { self.old.standing.passed + 1 < 2 ^ 64 }
        ensures follows { (named : List ℕ) (f : Folded) (i : Instruction)
            → Follows named f self.old
            → IsBrief i line.now stated.now
            → targets.now ≡ i.targets
            → Follows named (fold_after named f i) self.new }
        ensures sound { IsSound self.new.standing }
        ensures passed { self.new.standing.passed ≤ self.old.standing.passed + 1 }
    {
        if self.pass(line, stated) {
            self.turn(targets);
        }
    }
}
