//! Puts the targets that list each record into one list, in passes over what a program declares.
ghost use Rattle.std.specs.Prelude.{◌≡◌, ◌<◌, ◌++◌, ℕ, List, [], length, slice_set, All};
ghost use Rattle.circuit_walk.specs.NamedRecords.{records_in};
ghost use Rattle.record_targets.specs.private.ListedTargets.{ArePut, ArePutBut, HasRoom};
ghost use Rattle.step_model.specs.Targets.{targets_of};

use circuit_walk::{DeclarationTaker, NamedRecords, Program, take_declarations};
use std::alloc::Allocator;

/// The targets that list each record, one record's behind another's. Before a record's mark stands what was put for it.
#[derive(Drop)]
pub(crate) struct MarkedLists<A: Allocator + Copy> {
    pub(crate) marks: Vec<usize, A>,
    pub(crate) numbers: Vec<u32, A>,
}

impl<A: Allocator + Copy> MarkedLists<A> {
    // Puts a target behind what was put for each of these records.
    #[inline(always)]
    fn put(&mut self, target: u32, records: NamedRecords<'_>)
        requires there { All (λ r. r < length self.old.marks.items) (records_in records) }
        requires room { (whole : List ℕ) × (later : List ℕ)
            × HasRoom whole (records_in records ++ later) self.old.marks.items
            self.old.numbers.items }
        ensures { ArePutBut target (records_in records.entry) [] self.old.marks.items
            self.old.numbers.items self.new.marks.items self.new.numbers.items }
    {
        put_each(
            self.marks.as_mut_slice(),
            self.numbers.as_mut_slice(),
            target,
            records,
        );
    }
}

// Puts detectors, as they come.
#[derive(Drop)]
struct PuttingDetectors<A: Allocator + Copy> {
    lists: MarkedLists<A>,
    // The number of the next one.
    next: u32,
}

impl<A: Allocator + Copy> DeclarationTaker<A> for PuttingDetectors<A> {
    ghost use Rattle.std.specs.Prelude.{◌≡◌, length};
    ghost use Rattle.circuit_walk.specs.Declarations.{detectors_in};
    ghost use Rattle.record_targets.specs.private.ListedTargets.{ArePut};

    ghost stands = { λ program begun done putting. (putting.next ≡ length (detectors_in done))
        × ArePut program.listing (length (detectors_in done))
        putting.lists.marks.items putting.lists.numbers.items };

    #[inline(always)]
    fn detector(&mut self, program: &Program<'_, A>, records: NamedRecords<'_>) {
        program.well_formed();
        self.lists.put(self.next, records);
        self.next += 1;
    }

    #[inline(always)]
    fn inclusion(
        &mut self,
        _program: &Program<'_, A>,
        _observable: usize,
        _records: NamedRecords<'_>,
    ) {}
}

// Puts observables, one for each record that is added to it. They are numbered behind the detectors.
#[derive(Drop)]
struct PuttingInclusions<A: Allocator + Copy> {
    lists: MarkedLists<A>,
    detectors: usize,
}

impl<A: Allocator + Copy> DeclarationTaker<A> for PuttingInclusions<A> {
    ghost use Rattle.std.specs.Prelude.{◌≡◌, length};
    ghost use Rattle.record_targets.specs.private.ListedTargets.{AreIncluded};

    ghost stands = { λ program begun done putting. (putting.detectors ≡ length program.listing.detectors)
        × AreIncluded program.listing done
        putting.lists.marks.items putting.lists.numbers.items };

    #[inline(always)]
    fn detector(&mut self, _program: &Program<'_, A>, _records: NamedRecords<'_>) {}

    #[inline(always)]
    fn inclusion(
        &mut self,
        program: &Program<'_, A>,
        observable: usize,
        records: NamedRecords<'_>,
    ) {
        program.well_formed();
        self.lists
            .put((self.detectors + observable) as u32, records);
    }
}

// Puts a target at a place.
#[inline(always)]
fn put_at(numbers: &mut [u32], place: usize, target: u32)
    requires { place < length numbers.old }
    ensures { numbers.new ≡ slice_set numbers.old place target }
{
    numbers[place] = target;
}

// Puts a target behind what was put for each of these records.
#[inline(always)]
fn put_each(marks: &mut [usize], numbers: &mut [u32], target: u32, records: NamedRecords<'_>)
    requires there { All (λ r. r < length marks.old) (records_in records) }
    requires room { (whole : List ℕ) × (later : List ℕ)
        × HasRoom whole (records_in records ++ later) marks.old numbers.old }
    ensures { ArePutBut target (records_in records.entry) [] marks.old numbers.old marks.new
        numbers.new }
{
    let mut left = records;
    while let Some((rec, rest)) = left.split_first() {
        let mark = marks[rec as usize];
        put_at(numbers, mark, target);
        marks[rec as usize] = mark + 1;
        left = rest;
    }
}

/// Puts all targets. Detectors come first, so that the targets of a record ascend but where one comes twice, or where
/// observables are declared out of order.
pub(crate) fn put_all<A: Allocator + Copy>(
    lists: MarkedLists<A>,
    program: &Program<'_, A>,
) -> MarkedLists<A>
    requires { ArePut program.now.listing 0 lists.marks.items lists.numbers.items }
    ensures { ArePut program.now.listing (length (targets_of program.now.listing)) result.marks.items
        result.numbers.items }
{
    let mut detectors = PuttingDetectors { lists, next: 0 };
    take_declarations(program, &mut detectors);
    let PuttingDetectors { lists, next: _ } = detectors;
    let mut inclusions = PuttingInclusions {
        lists,
        detectors: program.detector_count(),
    };
    take_declarations(program, &mut inclusions);
    let PuttingInclusions {
        lists,
        detectors: _,
    } = inclusions;
    lists
}
