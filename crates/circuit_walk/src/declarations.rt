//! A pass over what a program declares: detectors, and the records that are added to observables. It counts the records that
//! are made on the way, by which these are named.

ghost use Rattle.std.specs.Prelude.{◌≡◌, ◌++◌, [], List, length, true};
ghost use Rattle.circuit_walk.specs.Declarations.{AreDeclarations, Declared};
ghost use Rattle.circuit_walk.specs.private.Declaring.{AreAhead, declared_by, record_count};
ghost use Rattle.stim_parser.specs.Circuits.{Fits};
ghost use Rattle.stim_parser.specs.Kept.{instruction_in};
ghost use Rattle.stim_parser.specs.Limits.{are_products, products_of};

use crate::declaration_taker::DeclarationTaker;
use crate::declaring::Declaring;
use crate::named_records::NamedRecords;
use crate::products::product_behind;
use crate::program::Program;
use cursor::Cursor;
use std::alloc::Allocator;
use stim_parser::{Instruction, Operation, TargetWord, first_number};

/// How many products targets make. It stands apart, since what it holds would be cleared at each instruction.
#[inline(never)]
fn product_count(targets: &[TargetWord]) -> usize
    requires { are_products targets.now ≡ true }
    ensures { result ≡ length (products_of targets.now) }
{
    let mut count = 0;
    let mut at = 0;
    while at < targets.len() {
        at = product_behind(targets, at);
        count += 1;
    }
    count
}

/// How many records an instruction makes.
#[inline(always)]
fn record_count(instruction: Instruction<'_, '_>) -> usize
    requires { Fits (instruction_in instruction) }
    ensures { result ≡ record_count (instruction_in instruction.entry) }
{
    match instruction.operation {
        Operation::Measurement(_) | Operation::MeasurementReset(_) => instruction.targets.len(),
        Operation::ProductMeasurement => product_count(instruction.targets),
        _ => 0,
    }
}

/// Has the taker take what an instruction declares after this many records.
#[inline(always)]
fn take_declared<T: DeclarationTaker<A>, A: Allocator + Copy>(
    program: &Program<'_, A>,
    taker: &mut T,
    records: u32,
    instruction: Instruction<'_, '_>,
)
    requires fits { Fits (instruction_in instruction) }
    requires stands { (begun : T) × (done : List Declared) × T.stands program.now begun done taker.old
        × AreAhead program.now.listing done (declared_by records (instruction_in instruction)) }
    ensures { (begun : T) (done : List Declared) → T.stands program.now begun done taker.old
        → AreAhead program.now.listing done
        (declared_by records (instruction_in instruction.entry))
        → T.stands program.now begun
        (done ++ declared_by records (instruction_in instruction.entry)) taker.new }
{
    let named = NamedRecords {
        records,
        targets: instruction.targets,
    };
    match instruction.operation {
        Operation::DetectorDeclaration => taker.detector(program, named),
        Operation::ObservableInclude => {
            let observable = first_number(instruction.arguments).unwrap_or(0);
            taker.inclusion(program, observable as usize, named)
        }
        _ => {}
    }
}

/// Has a taker take what a program declares, in order. It takes no memory of its own.
pub fn take_declarations<T: DeclarationTaker<A>, A: Allocator + Copy>(
    program: &Program<'_, A>,
    taker: &mut T,
)
    requires { T.stands program.now taker.old [] taker.old }
    ensures { (all : List Declared) × AreDeclarations program.now.listing all
        × T.stands program.now taker.old all taker.new }
{
    let text = program.text();
    let mut cursor = Cursor::start::<Declaring, Operation, TargetWord, A>(text.items);
    let mut records: u32 = 0;
    while let Some(i) = cursor.face::<Declaring, Operation, TargetWord, A>(text.items) {
        let instruction = text.instruction_at(i);
        take_declared(program, taker, records, instruction);
        records += record_count(instruction) as u32;
        cursor.pass::<Declaring, Operation, TargetWord, A>(text.items);
    }
}
