//! The model that a text writes, its lines unrolled.
ghost use Rattle.std.specs.Prelude.{◌≡◌, ◌⊎◌, ◌+◌, ◌^◌, ◌<◌, ◌≤◌, ◌++◌, [], ◌∷◌, Ok, Err, length, map, slice_index_or, IfOk, IfErr};
ghost use Rattle.cursor.specs.Places.{AreNested};
ghost use Rattle.step_model.specs.Faults.{memory_fault};
ghost use Rattle.stim_lexer.specs.Flat.{tree_of};
ghost use Rattle.stim_lexer.specs.Reached.{reached, greatest_by};
ghost use Rattle.stim_parser.specs.Arguments.{arguments_in};
ghost use Rattle.dem_text.specs.Meanings.{detectors_to, error_lines, meaning_of, observables_to};
ghost use Rattle.dem_text.specs.Models.{model_in, placed_lines};
ghost use Rattle.dem_text.specs.Shifts.{placed_at, shifted_target};
ghost use Rattle.dem_text.specs.Texts.{items_in};
ghost use Rattle.dem_text.specs.Verdicts.{Instruction};
ghost use Rattle.dem_text.specs.private.Briefs.{IsKeptLine};
ghost use Rattle.dem_text.specs.private.Counted.{AreCounts};
ghost use Rattle.dem_text.specs.private.Ended.{HasCounts, IsKeptModel};

use crate::brief::is_error;
use crate::coordinates::coordinates_of;
use crate::error_line::Recent;
use crate::flips::read_flipped;
use crate::front::Front;
use crate::kept::{Keep, Keeping, Kept, KeptLine, keep_lines};
use crate::standing::{LineCounts, Shift};
use error_models::Model;
use std::alloc::{AllocError, Allocator};
use step_model::Fault;
use stim_parser::first_argument;

/// Room for a line's targets, by their numbers.
#[derive(Drop)]
struct Room<A: Allocator + Copy> {
    numbers: Vec<u32, A>,
    kept: Vec<u32, A>,
}

/// The text of the first argument, empty where there is none.
fn first_text(arguments: &[u8]) -> &[u8]
    ensures { result.now ≡ slice_index_or (arguments_in arguments.now) 0 [] }
{
    match first_argument(arguments) {
        Some(text) => text,
        None => &[],
    }
}

/// Appends a line that is reached with this shift, if it is an error line.
fn push_error<'a, A: Allocator + Copy>(
    model: &mut Model<'a, A>,
    room: &mut Room<A>,
    counts: LineCounts,
    shift: &Shift,
    line: &KeptLine<'_, 'a>,
) -> Result<(), AllocError>
    requires detectors { greatest_by detectors_to
        (map (shifted_target shift.now.detectors) line.now.targets.now) ≤ counts.detectors }
    requires observables { greatest_by observables_to
        (map (shifted_target shift.now.detectors) line.now.targets.now) ≤ counts.observables }
    requires few { counts.detectors + counts.observables ≤ 2 ^ 32 }
    ensures { IfOk result
        (λ _. (i : Instruction) → IsKeptLine i line.now
        → model.new
        ≡ record model.old {
          lines = model.old.lines
              ++ error_lines counts.detectors counts.observables (placed_at shift.now i ∷ []);
        }) }
{
    if !is_error(line.brief.operation) {
        return Ok(());
    }
    read_flipped(
        &mut room.numbers,
        &mut room.kept,
        counts,
        shift.detectors,
        line.targets,
    )?;
    model.push_line(first_text(line.arguments), room.kept.as_slice())
}

/// Appends the error lines among the lines that are reached.
fn push_errors<'a, A: Allocator + Copy>(
    alloc: A,
    model: &mut Model<'a, A>,
    kept: &Kept<'a, A>,
    counts: LineCounts,
) -> Result<(), AllocError>
    requires nested { AreNested kept.now }
    requires counts { AreCounts (placed_lines (tree_of kept.now)) counts.detectors
        counts.observables counts.errors }
    requires few { counts.detectors + counts.observables ≤ 2 ^ 32 }
    requires short { length (reached (tree_of kept.now)) < 2 ^ 64 }
    ensures { IfOk result
        (λ _. model.new
        ≡ record model.old {
          lines = model.old.lines
              ++ error_lines counts.detectors counts.observables (placed_lines (tree_of kept.now));
        }) }
{
    let mut room = Room {
        numbers: Vec::new(alloc),
        kept: Vec::new(alloc),
    };
    let mut cursor = kept.start();
    let mut shift = Shift::none();
    while let Some(place) = kept.next(&mut cursor) {
        let line = kept.line(place);
        push_error(model, &mut room, counts, &shift, &line)?;
        shift.pass(&line.brief, line.stated);
    }
    Ok(())
}

/// The model of lines, unrolled.
fn model_of<'a, A: Allocator + Copy>(
    alloc: A,
    kept: &Kept<'a, A>,
    counts: LineCounts,
) -> Result<Model<'a, A>, AllocError>
    requires { IsKeptModel kept.now counts }
    ensures { IfOk result (λ model. model ≡ meaning_of (placed_lines (tree_of kept.now))) }
{
    let coordinates = coordinates_of(alloc, kept, counts.detectors as usize)?;
    let mut model = Model::new(alloc, coordinates, counts.observables as usize);
    push_errors(alloc, &mut model, kept, counts)?;
    Ok(model)
}

/// The counts of the model that a text writes, or its one refusal.
fn counts_in<A: Allocator + Copy>(alloc: A, text: &[u8]) -> Result<LineCounts, Fault>
    ensures ok { IfOk result (λ counts. HasCounts text.now counts) }
    ensures err { IfErr result (λ fault. (fault ≡ memory_fault) ⊎ (model_in text.now ≡ Err fault)) }
{
    let mut front = Front::new(alloc, &[], 0)?;
    let (_, ended) = front.take_lines(text)?;
    front.verdict(ended)
}

/// The lines of a text, or its refusal.
fn kept_in<'a, A: Allocator + Copy>(alloc: A, text: &'a [u8]) -> Result<Kept<'a, A>, Fault>
    ensures ok { IfOk result (λ kept. items_in text.now ≡ Ok kept) }
    ensures few { IfOk result (λ kept. length kept ≤ length text.now) }
    ensures err { IfErr result (λ fault. (fault ≡ memory_fault) ⊎ (items_in text.now ≡ Err fault)) }
{
    let mut recent = Recent::new();
    let mut targets = Vec::new(alloc);
    match keep_lines(
        Keeping::new(alloc),
        &mut recent,
        &mut targets,
        true,
        0,
        text,
    )? {
        Keep::Closed(kept, _, _) => Ok(kept),
        Keep::Open(fault) | Keep::Refused(fault) => Err(fault),
    }
}

/// The error model that a text writes, its lines unrolled, or its one refusal. The cause is `Memory` only where memory runs
/// out.
pub fn read<'a, A: Allocator + Copy>(alloc: A, text: &'a [u8]) -> Result<Model<'a, A>, Fault>
    ensures ok { IfOk result (λ model. model_in text.now ≡ Ok model) }
    ensures err { IfErr result (λ fault. (fault ≡ memory_fault) ⊎ (model_in text.now ≡ Err fault)) }
{
    let counts = counts_in(alloc, text)?;
    let kept = kept_in(alloc, text)?;
    Ok(model_of(alloc, &kept, counts)?)
}
