//! Going back over a collapse, which is the projective measurement inside a measurement or a reset.
ghost use Rattle.std.specs.Prelude.{◌≡◌, ◌<◌, ◌+◌, None, length, All, OnOk, IfSome};
ghost use Rattle.std.specs.List.Sorted.{IsStrictlyIncreasing};
ghost use Rattle.circuit_walk.specs.Letters.{AreSmall, letters_in};
ghost use Rattle.backward.specs.private.Collapses.{times_terms, reset_at, undone_collapse};
ghost use Rattle.backward.specs.private.Passes.{FitsCollapse, IsCollapseAt, IsPassed};
ghost use Rattle.backward.specs.private.Steps.{IsGoneOver, IsTakenBack};

use crate::faults::note_flip;
use crate::found::Found;
use crate::letters::{FEW_LETTERS, NO_LETTER, terms_of};
use crate::line_store::LineStore;
use circuit_walk::{FaultName, Letters, Program};
use record_targets::target_count;
use std::alloc::{AllocError, Allocator};
use std::mem;
use step_model::Term;
use trackers::Tracker;

/// Goes back over a collapse of a product of letters: judges it, puts the line of the fault that flips its record, and
/// takes the words back.
#[inline(always)]
pub(crate) fn collapse<'s, 'a, A: Allocator + Copy, T: Tracker, L: LineStore>(
    program: &Program<'a, A>,
    terms: &[Term],
    reset: Option<u32>,
    rec: Option<u32>,
    flip: Option<FaultName>,
    place: usize,
    tracker: &mut T,
    found: &mut Found<'s, A>,
    lines: &mut L,
) -> Result<(), AllocError>
    requires step { IsCollapseAt program.now place terms.now reset rec flip }
    requires store { L.program lines.old ≡ program.now }
    requires passed { IsPassed program.now.listing (place + 1) (T.tracked tracker.old) found.old }
    ensures { IsGoneOver T.tracked L.program L.holds program.now.listing place tracker.new found.old
        found.new lines.old lines.new result }
{
    // The place is only spoken of.
    let _place = place;
    program.well_formed();
    let targets = target_count(program);
    found.judge(targets, terms, tracker)?;
    take_back(program, terms, reset, rec, flip, tracker, found, lines)?;
    found.let_go(rec);
    Ok(())
}

/// The same of a product that a step lends.
#[inline(never)]
pub(crate) fn collapse_word<'s, 'a, A: Allocator + Copy, T: Tracker, L: LineStore>(
    program: &Program<'a, A>,
    letters: Letters<'_>,
    rec: Option<u32>,
    flip: Option<FaultName>,
    place: usize,
    tracker: &mut T,
    found: &mut Found<'s, A>,
    lines: &mut L,
) -> Result<(), AllocError>
    requires small { AreSmall letters }
    requires step { IsCollapseAt program.now place (letters_in letters) None rec flip }
    requires store { L.program lines.old ≡ program.now }
    requires passed { IsPassed program.now.listing (place + 1) (T.tracked tracker.old) found.old }
    ensures { IsGoneOver T.tracked L.program L.holds program.now.listing place tracker.new found.old
        found.new lines.old lines.new result }
{
    let mut few = [NO_LETTER; FEW_LETTERS];
    // The list is taken out of what the collapse changes.
    let mut many = Vec::new(*found.alloc);
    mem::swap(&mut many, &mut found.terms);
    let terms = terms_of(letters, &mut few, &mut many)?;
    collapse(
        program, terms, None, rec, flip, place, tracker, found, lines,
    )?;
    found.terms = many;
    Ok(())
}

// Gives the line of the fault that flips the record of a collapse, and takes the words back. Mostly the targets that list
// the record are lent; else they are put into a buffer first.
#[inline(always)]
fn take_back<'s, 'a, A: Allocator + Copy, T: Tracker, L: LineStore>(
    program: &Program<'a, A>,
    terms: &[Term],
    reset: Option<u32>,
    rec: Option<u32>,
    flip: Option<FaultName>,
    tracker: &mut T,
    found: &mut Found<'s, A>,
    lines: &mut L,
) -> Result<(), AllocError>
    requires fits { FitsCollapse program.now (T.tracked tracker.old) found.old.lists terms.now reset
        rec flip }
    requires store { L.program lines.old ≡ program.now }
    ensures { IsTakenBack L.program L.holds program.now terms.now reset rec flip
        (T.tracked tracker.old) (T.tracked tracker.new) found.old found.new lines.old lines.new
        result }
{
    match found.lent_record(rec) {
        Some(listed) => {
            note_flip(program, flip, listed, lines)?;
            undo_collapse(tracker, listed, terms, reset)
        }
        // As after feedback.
        None => {
            found.list_record(rec)?;
            note_flip(program, flip, found.hit.as_slice(), lines)?;
            undo_collapse(tracker, found.hit.as_slice(), terms, reset)
        }
    }
}

// Puts I at the qubit that is reset, where one is, and then multiplies the words of the targets that list the record
// by the product that is measured.
#[inline(always)]
fn undo_collapse<T: Tracker>(
    tracker: &mut T,
    targets: &[u32],
    terms: &[Term],
    reset: Option<u32>,
) -> Result<(), AllocError>
    requires reset { IfSome reset (λ q. q < (T.tracked tracker.old).qubits) }
    requires terms { All (λ term. term.qubit < (T.tracked tracker.old).qubits) terms.now }
    requires ascending { IsStrictlyIncreasing targets.now }
    requires named { All (λ t. t < length (T.tracked tracker.old).words) targets.now }
    ensures { OnOk result
        (T.tracked tracker.new
        ≡ undone_collapse targets.now terms.now reset (T.tracked tracker.old)) }
{
    clear_reset(tracker, reset);
    // As at a reset that has no record.
    if targets.is_empty() {
        return Ok(());
    }
    multiply(tracker, targets, terms)
}

fn clear_reset<T: Tracker>(tracker: &mut T, reset: Option<u32>)
    requires { IfSome reset (λ q. q < (T.tracked tracker.old).qubits) }
    ensures { T.tracked tracker.new ≡ reset_at reset (T.tracked tracker.old) }
{
    if let Some(q) = reset {
        tracker.clear(q as usize);
    }
}

// Multiplies the words of these targets by each letter at its qubit.
fn multiply<T: Tracker>(tracker: &mut T, targets: &[u32], terms: &[Term]) -> Result<(), AllocError>
    requires terms { All (λ term. term.qubit < (T.tracked tracker.old).qubits) terms.now }
    requires ascending { IsStrictlyIncreasing targets.now }
    requires named { All (λ t. t < length (T.tracked tracker.old).words) targets.now }
    ensures { OnOk result
        (T.tracked tracker.new ≡ times_terms targets.now terms.now (T.tracked tracker.old)) }
{
    for term in terms {
        tracker.add(targets, term.letter, term.qubit as usize)?;
    }
    Ok(())
}
