//! The coordinates of detectors: those of the last line that gives them any.
ghost use Rattle.std.specs.Prelude.{◌≡◌, ◌+◌, ◌<◌, ◌^◌, All, None, false, [], length, map, nat_abs, replicate, IfOk};
ghost use Rattle.std.specs.List.{list_any, range_with_len};
ghost use Rattle.cursor.specs.Places.{AreNested};
ghost use Rattle.stim_lexer.specs.Flat.{tree_of};
ghost use Rattle.stim_lexer.specs.Reached.{reached};
ghost use Rattle.stim_parser.specs.Offsets.{moved};
ghost use Rattle.dem_text.specs.Meanings.{last_coordinates};
ghost use Rattle.dem_text.specs.Models.{first_beyond, is_coordinate_beyond, placed_lines};
ghost use Rattle.dem_text.specs.Shifts.{placed_at, shifted_target};
ghost use Rattle.dem_text.specs.Verdicts.{Instruction};
ghost use Rattle.dem_text.specs.private.Briefs.{IsKeptLine};
ghost use Rattle.dem_text.specs.private.Marked.{HasMarked, IsMarking, list_numbered, marked, marked_at};
ghost use Rattle.dem_text.specs.private.Offsets.{AreSmall, HasRoom, beyond_stated};
ghost use Rattle.dem_text.specs.private.Tables.{coordinates_from};

use crate::kept::{Kept, KeptLine};
use crate::operation::Operation;
use crate::standing::{Shift, sum_at};
use crate::target::Target;
use flat_lists::FlatLists;
use std::alloc::{AllocError, Allocator};

/// Puts coordinates that are stated, with the offset added, into `found`, in place of what it held.
fn move_all<A: Allocator + Copy>(
    found: &mut Vec<i64, A>,
    offset: &[i128],
    stated: &[i64],
) -> Result<(), AllocError>
    requires room { All (λ o. nat_abs o + beyond_stated < 2 ^ 127) offset.now }
    requires small { AreSmall stated.now }
    requires near { list_any is_coordinate_beyond (moved offset.now stated.now) ≡ false }
    ensures { IfOk result (λ _. found.new.items ≡ moved offset.now stated.now) }
{
    found.clear();
    for place in 0..stated.len() {
        found.push(sum_at(offset, stated, place) as i64)?;
    }
    Ok(())
}

/// Puts the coordinates that a line of this kind gives into `found`, in place of what it held.
fn move_stated<A: Allocator + Copy>(
    found: &mut Vec<i64, A>,
    offset: &[i128],
    operation: Operation,
    stated: &[i64],
) -> Result<(), AllocError>
    requires room { All (λ o. nat_abs o + beyond_stated < 2 ^ 127) offset.now }
    requires small { AreSmall stated.now }
    requires near { list_any is_coordinate_beyond
        (coordinates_from operation stated.now offset.now) ≡ false }
    ensures { IfOk result (λ _. found.new.items ≡ coordinates_from operation stated.now offset.now) }
{
    match operation {
        Operation::DetectorDeclaration => move_all(found, offset, stated),
        _ => {
            found.clear();
            Ok(())
        }
    }
}

/// Marks a detector where detectors are shifted, if there is one of this number.
fn mark_at(marks: &mut [usize], mark: usize, shift: u128, target: Target)
    ensures { marks.new ≡ marked_at mark marks.old (shifted_target shift target) }
{
    if let Target::Detector(detector) = target {
        if let Some(number) = shift.checked_add(detector as u128) {
            if number < marks.len() as u128 {
                marks[number as usize] = mark;
            }
        }
    }
}

/// Marks the detectors that targets name.
fn mark_all(marks: &mut [usize], mark: usize, shift: u128, targets: &[Target])
    ensures { marks.new ≡ marked mark marks.old (map (shifted_target shift) targets.now) }
{
    for target in targets {
        mark_at(marks, mark, shift, *target);
    }
}

/// The list that a mark numbers from 1, and none at 0.
fn list_at<A: Allocator + Copy>(lists: &FlatLists<i64, A>, mark: usize) -> &[i64]
    ensures { result.now ≡ list_numbered lists.now mark }
{
    if mark == 0 || mark > lists.len() {
        return &[];
    }
    lists.get(mark - 1)
}

/// The lists of coordinates given so far, each detector's mark, which is the number from 1 of the last list that it was
/// given, or 0, and room for a line's coordinates.
#[derive(Drop)]
struct Marking<A: Allocator + Copy> {
    lists: FlatLists<i64, A>,
    marks: Vec<usize, A>,
    room: Vec<i64, A>,
}

impl<A: Allocator + Copy> Marking<A> {
    /// Marks the detectors to which a line gives coordinates that is reached with this shift.
    fn mark(&mut self, shift: &Shift, line: &KeptLine<'_, '_>) -> Result<(), AllocError>
        requires small { AreSmall line.now.stated.now }
        requires room { HasRoom shift.now 1 }
        requires near { list_any is_coordinate_beyond
            (coordinates_from line.now.brief.operation line.now.stated.now shift.now.offset) ≡ false }
        ensures { IfOk result (λ _. (i : Instruction) → IsKeptLine i line.now
            → HasMarked (placed_at shift.now i) self.old.lists self.old.marks.items
            self.new.lists self.new.marks.items) }
    {
        let offset = shift.offset.as_slice();
        move_stated(&mut self.room, offset, line.brief.operation, line.stated)?;
        if !self.room.is_empty() {
            self.lists.push(self.room.as_slice())?;
            mark_all(
                &mut self.marks,
                self.lists.len(),
                shift.detectors,
                line.targets,
            );
        }
        Ok(())
    }

    /// Marks the detectors to which the lines that are reached give coordinates.
    fn mark_lines(&mut self, kept: &Kept<'_, A>) -> Result<(), AllocError>
        requires nested { AreNested kept.now }
        requires near { first_beyond (placed_lines (tree_of kept.now)) ≡ None }
        requires few { length (reached (tree_of kept.now)) < 2 ^ 64 }
        requires marking { IsMarking (placed_lines (tree_of kept.now)) (placed_lines (tree_of kept.now))
            self.old.lists self.old.marks.items (length self.old.marks.items) }
        ensures { IfOk result (λ _. IsMarking (placed_lines (tree_of kept.now)) []
            self.new.lists self.new.marks.items (length self.old.marks.items)) }
    {
        let mut cursor = kept.start();
        let mut shift = Shift::none();
        while let Some(place) = kept.next(&mut cursor) {
            let line = kept.line(place);
            self.mark(&shift, &line)?;
            shift.pass(&line.brief, line.stated);
        }
        Ok(())
    }
}

/// No marks.
fn no_marks<A: Allocator + Copy>(alloc: A, detectors: usize) -> Result<Vec<usize, A>, AllocError>
    ensures { IfOk result (λ marks. marks.items ≡ replicate detectors 0) }
{
    vec![in alloc; 0; detectors]
}

/// The lists that marks stand for.
fn stood_for<A: Allocator + Copy>(
    alloc: A,
    lists: &FlatLists<i64, A>,
    marks: &[usize],
) -> Result<FlatLists<i64, A>, AllocError>
    ensures { IfOk result (λ found. found ≡ map (list_numbered lists.now) marks.now) }
{
    let mut found = FlatLists::new(alloc);
    for mark in marks {
        found.push(list_at(lists, *mark))?;
    }
    Ok(found)
}

/// The coordinates of each of this many detectors: those of the last line that is reached and gives it any.
pub(crate) fn coordinates_of<A: Allocator + Copy>(
    alloc: A,
    kept: &Kept<'_, A>,
    detectors: usize,
) -> Result<FlatLists<i64, A>, AllocError>
    requires nested { AreNested kept.now }
    requires near { first_beyond (placed_lines (tree_of kept.now)) ≡ None }
    requires few { length (reached (tree_of kept.now)) < 2 ^ 64 }
    ensures { IfOk result (λ found. found
        ≡ map (λ d. last_coordinates d [] (placed_lines (tree_of kept.now)))
        (range_with_len 0 detectors)) }
{
    let mut marking = Marking {
        lists: FlatLists::new(alloc),
        marks: no_marks(alloc, detectors)?,
        room: Vec::new(alloc),
    };
    marking.mark_lines(kept)?;
    stood_for(alloc, &marking.lists, marking.marks.as_slice())
}
