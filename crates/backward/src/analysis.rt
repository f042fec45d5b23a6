//! The error model of a program, or a random target.
ghost use Rattle.std.specs.Prelude.{◌≡◌, [], false, length, reverse, IfOk, IfErr, IfNone, IfSome, OnOk};
ghost use Rattle.step_model.specs.Faults.{memory_fault};
ghost use Rattle.step_model.specs.HitModels.{model_of};
ghost use Rattle.step_model.specs.Targets.{targets_of};
ghost use Rattle.backward.specs.Places.{IsAnalysed, IsLowestRandom, NoneIsRandom};
ghost use Rattle.trackers.specs.Tracked.{fresh};
ghost use Rattle.backward.specs.private.Passes.{IsPassed};

use crate::found::Found;
use crate::line_store::ModelStore;
use crate::pass::steps_back;
use crate::places::random_target;
use crate::point::Point;
use circuit_walk::{CoordinateTaker, Program, Walk, take_coordinates};
use error_models::Model;
use flat_lists::FlatLists;
use std::alloc::{AllocError, Allocator};
use step_model::{Fault, Place};
use trackers::Tracker;

/// What an analysis answers.
#[derive(Drop)]
pub enum Analysed<'a, A: Allocator + Copy> {
    /// No target is random: a line for each fault that flips some target.
    Model(Model<'a, A>),
    /// The lowest random target, observable k being the number of detectors and k more, and its place.
    Random { which: u32, place: Place },
}

/// The error model of a program, or the lowest target that is random. It fails only where memory runs out.
pub fn analyse<'a, A: Allocator + Copy, T: Tracker + Drop>(
    alloc: A,
    program: &Program<'a, A>,
    tracker: T,
) -> Result<Analysed<'a, A>, Fault>
    requires { T.tracked tracker
        ≡ fresh program.now.listing.qubits (length (targets_of program.now.listing)) }
    ensures ok { IfOk result (IsAnalysed program.now.listing) }
    ensures err { IfErr result (λ e. e ≡ memory_fault) }
{
    let mut found = Found::new(&alloc, program)?;
    let mut at = Point {
        walk: Walk::end(program),
        tracker,
    };
    Ok(find_from_end(alloc, program, &mut at, &mut found)?)
}

// The error model or the target, from behind the last step.
fn find_from_end<'s, 'p, 'a, A: Allocator + Copy, T: Tracker>(
    alloc: A,
    program: &Program<'a, A>,
    at: &mut Point<'p, 'a, A, T>,
    found: &mut Found<'s, A>,
) -> Result<Analysed<'a, A>, AllocError>
    requires program { at.old.walk.program ≡ program.now }
    requires place { at.old.walk.place ≡ length program.now.listing.steps }
    requires first { found.old.settled ≡ false }
    requires passed { IsPassed program.now.listing at.old.walk.place (T.tracked at.old.tracker)
        found.old }
    ensures { IfOk result (IsAnalysed program.now.listing) }
{
    let mut lines = ModelStore {
        alloc,
        program,
        model: Model::new(alloc, FlatLists::new(alloc), 0),
    };
    let random = go_back(program, at, found, &mut lines)?;
    answer(alloc, program, random, lines.model)
}

// Goes back over all steps, and answers the lowest random target.
fn go_back<'s, 'p, 'a, A: Allocator + Copy, T: Tracker>(
    program: &Program<'a, A>,
    at: &mut Point<'p, 'a, A, T>,
    found: &mut Found<'s, A>,
    lines: &mut ModelStore<'_, 'a, A>,
) -> Result<Option<(u32, Place)>, AllocError>
    requires program { at.old.walk.program ≡ program.now }
    requires place { at.old.walk.place ≡ length program.now.listing.steps }
    requires store { lines.old.program.now ≡ program.now }
    requires none { lines.old.model.lines ≡ [] }
    requires first { found.old.settled ≡ false }
    requires passed { IsPassed program.now.listing at.old.walk.place (T.tracked at.old.tracker)
        found.old }
    ensures none { IfOk result (λ random. IfNone random (NoneIsRandom program.now.listing)) }
    ensures lowest { IfOk result (λ random. IfSome random (λ random. IsLowestRandom
        program.now.listing random.0 random.1)) }
    ensures lines { OnOk result
        (lines.new.model.lines ≡ reverse (model_of program.now.listing).lines) }
{
    program.well_formed();
    while at.walk.place() > 0 {
        steps_back(program, 0, at, found, lines)?;
    }
    random_target(program, &mut at.tracker, found)
}

// The random target; where there is none, the model whose lines are these, which are in descending fault order. They are
// taken over, and not copied.
fn answer<'a, A: Allocator + Copy>(
    alloc: A,
    program: &Program<'a, A>,
    random: Option<(u32, Place)>,
    found: Model<'a, A>,
) -> Result<Analysed<'a, A>, AllocError>
    requires none { IfNone random (NoneIsRandom program.now.listing) }
    requires lowest { IfSome random (λ random. IsLowestRandom program.now.listing random.0
        random.1) }
    requires lines { found.lines ≡ reverse (model_of program.now.listing).lines }
    ensures { IfOk result (IsAnalysed program.now.listing) }
{
    match random {
        Some((which, place)) => Ok(Analysed::Random { which, place }),
        None => {
            let coordinates = coordinates_of(alloc, program)?;
            let model = Model::in_reverse(found, coordinates, program.observable_count());
            Ok(Analysed::Model(model))
        }
    }
}

// What takes the coordinates of a program's detectors into lists. Once memory has run out it takes none.
struct Gathering<A: Allocator + Copy> {
    lists: FlatLists<i64, A>,
    failed: bool,
}

impl<A: Allocator + Copy> CoordinateTaker<A> for Gathering<A> {
    ghost use Rattle.std.specs.Prelude.{◌≡◌, false, take};

    // As long as there is memory, the lists are the coordinates of so many detectors.
    ghost stands = { λ program begun d gathering.
        gathering.failed ≡ false → gathering.lists ≡ take d program.listing.coordinates };

    fn take(&mut self, _program: &Program<'_, A>, coordinates: &[i64]) {
        if self.failed {
            return;
        }
        match self.lists.push(coordinates) {
            Ok(()) => {}
            Err(_) => self.failed = true,
        }
    }
}

fn coordinates_of<'a, A: Allocator + Copy>(
    alloc: A,
    program: &Program<'a, A>,
) -> Result<FlatLists<i64, A>, AllocError>
    ensures ok { IfOk result (λ lists. lists ≡ program.now.listing.coordinates) }
    ensures each { length program.now.listing.coordinates ≡ length program.now.listing.detectors }
{
    program.well_formed();
    let mut gathering = Gathering {
        lists: FlatLists::new(alloc),
        failed: false,
    };
    take_coordinates(program, &mut gathering);
    let Gathering { lists, failed } = gathering;
    if failed {
        return Err(AllocError);
    }
    Ok(lists)
}
