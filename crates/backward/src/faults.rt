//! Going back over faults: the line of each.
ghost use Rattle.std.specs.Prelude.{◌≡◌, ◌<◌, ◌+◌, length, reverse, All, IfSome, OnOk};
ghost use Rattle.step_model.specs.Listing.{Fault};
ghost use Rattle.step_model.specs.Targets.{targets_of};
ghost use Rattle.step_model.specs.Chances.{chance_at};
ghost use Rattle.circuit_walk.specs.Letters.{AreSmall, letters_in};
ghost use Rattle.circuit_walk.specs.Named.{IsStepOf};
ghost use Rattle.circuit_walk.specs.declared.step.Step.TheVariants as step;
ghost use Rattle.backward.specs.private.Passes.{IsPassed, IsStepAt};
ghost use Rattle.backward.specs.private.Steps.{IsGoneOver};
ghost use Rattle.backward.specs.private.Stretches.{Gives, flip_line, line_for};
ghost use Rattle.trackers.specs.Tracked.{anticommuting};

use crate::found::Found;
use crate::letters::{FEW_LETTERS, NO_LETTER, lone_letter, terms_of};
use crate::line_store::LineStore;
use circuit_walk::{FaultName, Letters, Program};
use std::alloc::{AllocError, Allocator};
use step_model::Term;
use trackers::Tracker;

/// Gives the line of the fault that flips a record, where there is one.
pub(crate) fn note_flip<'a, A: Allocator + Copy, L: LineStore>(
    program: &Program<'a, A>,
    flip: Option<FaultName>,
    targets: &[u32],
    lines: &mut L,
) -> Result<(), AllocError>
    requires flip { IfSome flip (λ name. name.chance < length program.now.chances) }
    requires named { All (λ t. t < length (targets_of program.now.listing)) targets.now }
    requires store { L.program lines.old ≡ program.now }
    ensures lines { OnOk result
        (Gives (L.holds lines.old) (L.holds lines.new) (flip_line program.now flip targets.now)) }
    ensures store { L.program lines.new ≡ L.program lines.old }
{
    match flip {
        Some(name) => note_line(program, name.chance, targets, lines),
        None => Ok(()),
    }
}

// Gives the line of a fault that flips these targets, if there are any.
#[inline]
fn note_line<'a, A: Allocator + Copy, L: LineStore>(
    program: &Program<'a, A>,
    chance: u32,
    targets: &[u32],
    lines: &mut L,
) -> Result<(), AllocError>
    requires chance { chance < length program.now.chances }
    requires named { All (λ t. t < length (targets_of program.now.listing)) targets.now }
    requires store { L.program lines.old ≡ program.now }
    ensures lines { OnOk result
        (Gives (L.holds lines.old) (L.holds lines.new)
        (line_for (chance_at program.now.chances chance).text targets.now)) }
    ensures store { L.program lines.new ≡ L.program lines.old }
{
    if targets.is_empty() {
        Ok(())
    } else {
        lines.give(chance, targets)
    }
}

// The same with targets that come from the last to the first.
#[inline(always)]
fn note_reversed<L: LineStore>(
    chance: u32,
    targets: &[u32],
    lines: &mut L,
) -> Result<(), AllocError>
    requires chance { chance < length (L.program lines.old).chances }
    requires named { All (λ t. t < length (targets_of (L.program lines.old).listing)) targets.now }
    ensures lines { OnOk result
        (Gives (L.holds lines.old) (L.holds lines.new)
        (line_for (chance_at (L.program lines.old).chances chance).text (reverse targets.now))) }
    ensures store { L.program lines.new ≡ L.program lines.old }
{
    if targets.is_empty() {
        Ok(())
    } else {
        lines.give_reversed(chance, targets)
    }
}

// Gives the line of a fault of these letters: of the targets whose words anticommute with their product. Where the tracker keeps
// these targets in a list, none is copied.
#[inline(always)]
fn fault<'a, A: Allocator + Copy, T: Tracker, L: LineStore>(
    program: &Program<'a, A>,
    chance: u32,
    terms: &[Term],
    tracker: &mut T,
    hit: &mut Vec<u32, A>,
    lines: &mut L,
) -> Result<(), AllocError>
    requires chance { chance < length program.now.chances }
    requires terms { All (λ term. term.qubit < (T.tracked tracker.old).qubits) terms.now }
    requires words { length (T.tracked tracker.old).words
        ≡ length (targets_of program.now.listing) }
    requires store { L.program lines.old ≡ program.now }
    ensures words { T.tracked tracker.new ≡ T.tracked tracker.old }
    ensures lines { OnOk result
        (Gives (L.holds lines.old) (L.holds lines.new)
        (line_for (chance_at program.now.chances chance).text
        (anticommuting terms.now (T.tracked tracker.old)))) }
    ensures store { L.program lines.new ≡ L.program lines.old }
{
    if let Some(kept) = tracker.kept_hit(terms) {
        return note_reversed(chance, kept, lines);
    }
    note_listed(program, chance, terms, tracker, hit, lines)
}

// The same where the targets are put into a buffer. By a call, so that the loop over errors of one letter is short.
#[inline(never)]
fn note_listed<'a, A: Allocator + Copy, T: Tracker, L: LineStore>(
    program: &Program<'a, A>,
    chance: u32,
    terms: &[Term],
    tracker: &mut T,
    hit: &mut Vec<u32, A>,
    lines: &mut L,
) -> Result<(), AllocError>
    requires chance { chance < length program.now.chances }
    requires terms { All (λ term. term.qubit < (T.tracked tracker.old).qubits) terms.now }
    requires words { length (T.tracked tracker.old).words
        ≡ length (targets_of program.now.listing) }
    requires store { L.program lines.old ≡ program.now }
    ensures words { T.tracked tracker.new ≡ T.tracked tracker.old }
    ensures lines { OnOk result
        (Gives (L.holds lines.old) (L.holds lines.new)
        (line_for (chance_at program.now.chances chance).text
        (anticommuting terms.now (T.tracked tracker.old)))) }
    ensures store { L.program lines.new ≡ L.program lines.old }
{
    tracker.hit(terms, hit)?;
    note_line(program, chance, hit.as_slice(), lines)
}

// The same of letters that a step lends, which may be many.
#[inline(never)]
fn fault_of_many<'a, A: Allocator + Copy, T: Tracker, L: LineStore>(
    program: &Program<'a, A>,
    chance: u32,
    letters: Letters<'_>,
    tracker: &mut T,
    hit: &mut Vec<u32, A>,
    many: &mut Vec<Term, A>,
    lines: &mut L,
) -> Result<(), AllocError>
    requires chance { chance < length program.now.chances }
    requires small { AreSmall letters }
    requires terms { All (λ term. term.qubit < (T.tracked tracker.old).qubits)
        (letters_in letters) }
    requires words { length (T.tracked tracker.old).words
        ≡ length (targets_of program.now.listing) }
    requires store { L.program lines.old ≡ program.now }
    ensures words { T.tracked tracker.new ≡ T.tracked tracker.old }
    ensures lines { OnOk result
        (Gives (L.holds lines.old) (L.holds lines.new)
        (line_for (chance_at program.now.chances chance).text
        (anticommuting (letters_in letters.entry) (T.tracked tracker.old)))) }
    ensures store { L.program lines.new ≡ L.program lines.old }
{
    let mut few = [NO_LETTER; FEW_LETTERS];
    let terms = terms_of(letters, &mut few, many)?;
    fault(program, chance, terms, tracker, hit, lines)
}

/// Goes back over a fault: gives its line.
#[inline(always)]
pub(crate) fn fault_back<'s, 'a, A: Allocator + Copy, T: Tracker, L: LineStore>(
    program: &Program<'a, A>,
    name: FaultName,
    letters: Letters<'_>,
    place: usize,
    tracker: &mut T,
    found: &mut Found<'s, A>,
    lines: &mut L,
) -> Result<(), AllocError>
    requires step { IsStepAt program.now.listing place (Fault name.number) }
    requires named { IsStepOf program.now (step.Fault name letters) }
    requires store { L.program lines.old ≡ program.now }
    requires passed { IsPassed program.now.listing (place + 1) (T.tracked tracker.old) found.old }
    ensures { IsGoneOver T.tracked L.program L.holds program.now.listing place tracker.new found.old
        found.new lines.old lines.new result }
{
    match lone_letter(letters) {
        Some(term) => fault(
            program,
            name.chance,
            &[term],
            tracker,
            &mut found.hit,
            lines,
        ),
        None => fault_of_more(program, name, letters, place, tracker, found, lines),
    }
}

// The same of more letters than one: mostly of two. By a call, so that the loop over errors of one letter is short.
#[inline(never)]
fn fault_of_more<'s, 'a, A: Allocator + Copy, T: Tracker, L: LineStore>(
    program: &Program<'a, A>,
    name: FaultName,
    letters: Letters<'_>,
    place: usize,
    tracker: &mut T,
    found: &mut Found<'s, A>,
    lines: &mut L,
) -> Result<(), AllocError>
    requires step { IsStepAt program.now.listing place (Fault name.number) }
    requires named { IsStepOf program.now (step.Fault name letters) }
    requires store { L.program lines.old ≡ program.now }
    requires passed { IsPassed program.now.listing (place + 1) (T.tracked tracker.old) found.old }
    ensures { IsGoneOver T.tracked L.program L.holds program.now.listing place tracker.new found.old
        found.new lines.old lines.new result }
{
    // The place is only spoken of.
    let _place = place;
    let chance = name.chance;
    let hit = &mut found.hit;
    match letters.both() {
        Some((first, second)) => fault(program, chance, &[first, second], tracker, hit, lines),
        None => fault_of_many(
            program,
            chance,
            letters,
            tracker,
            hit,
            &mut found.terms,
            lines,
        ),
    }
}
