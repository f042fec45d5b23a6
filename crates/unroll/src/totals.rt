ghost use Rattle.std.specs.Prelude.{◌≡◌};
ghost use Rattle.arrayvec.specs.ArrayVec.{array_vec_len};
ghost use Rattle.stim_lexer.specs.Passes.{CanStand, Passes};
ghost use Rattle.stim_parser.specs.Circuits.{Fits};
ghost use Rattle.stim_parser.specs.Kept.{instruction_in, item_in};
ghost use Rattle.unroll.specs.private.Summed.{AreTotals, capped_sum, first_line, nothing_summed, repeated_sum, summing, totals_after, totals_repeated, SumsFit};
ghost use Rattle.unroll.specs.private.MadeTotals.{has_argument};

use crate::counts::{collapses_made, detectors_made, faults_counted, records_made, steps_made};
use crate::observables::{are_beyond_limit, named_to};
use crate::targets::{reach_of, target_count};
use arrayvec::ArrayVec;
use std::alloc::Allocator;
use stim_lexer::{LEVELS, OpenBlock};
use stim_parser::{Circuit, Instruction, Item, Operation};

/// What a circuit takes up to a place of its text, at the first turn of the blocks that are open there: what counts
/// towards its limits, its faults, the steps that its program has, its qubits and
/// observables, the first line that reaches back before the first record, and the first that names an observable beyond the
/// limit. A sum that doesn't fit stays at the greatest number that does.
#[derive(Clone, Copy, Default)]
pub(crate) struct Totals {
    pub records: u64,
    pub collapses: u64,
    pub detectors: u64,
    pub faults: u64,
    pub steps: u64,
    pub made: u64,
    pub qubits: u32,
    pub observables: u64,
    pub far_line: Option<u64>,
    pub beyond_line: Option<u64>,
}

/// The totals up to a place of a circuit, and the blocks that are open there.
#[derive(Drop)]
struct Summing {
    totals: Totals,
    blocks: ArrayVec<OpenBlock<Totals>, LEVELS>,
}

#[inline(always)]
fn capped_sum(sum: u64, more: usize) -> u64
    ensures { result ≡ capped_sum sum more }
{
    sum.saturating_add(more as u64)
}

/// The sum after all turns of a block, from the sums before it and after its first turn.
fn repeated_sum(turns: u64, before: u64, after: u64) -> u64
    ensures { result ≡ repeated_sum turns before after }
{
    let more = turns
        .saturating_sub(1)
        .saturating_mul(after.saturating_sub(before));
    after.saturating_add(more)
}

/// Keeps the line that was found before, or else this line where something holds of it. Mostly nothing is written.
#[inline(always)]
fn keep_first(found: &mut Option<u64>, holds: bool, line: u64)
    ensures { found.new ≡ first_line found.old holds line }
{
    if holds && found.is_none() {
        *found = Some(line);
    }
}

/// Whether an instruction has an argument.
fn has_argument(instruction: Instruction<'_, '_>) -> bool
    ensures { result ≡ has_argument (instruction_in instruction.entry) }
{
    stim_parser::has_argument(instruction.arguments)
}

impl Totals {
    /// The totals of no instruction.
    fn none() -> Totals
        ensures { result ≡ nothing_summed }
    {
        Totals {
            records: 0,
            collapses: 0,
            detectors: 0,
            faults: 0,
            steps: 0,
            made: 0,
            qubits: 0,
            observables: 0,
            far_line: None,
            beyond_line: None,
        }
    }

    /// Does nothing. Its contract says that each of the sums fits 64 bits.
    #[inline(always)]
    fn fits(&self)
        ensures { SumsFit self.now }
    {
        // The proof takes each range from a read.
        let _records = self.records;
        let _collapses = self.collapses;
        let _detectors = self.detectors;
        let _faults = self.faults;
    }

    /// Adds what one more instruction takes.
    #[inline(always)]
    fn add(&mut self, instruction: Instruction<'_, '_>)
        requires { Fits (instruction_in instruction) }
        ensures { self.new ≡ totals_after (instruction_in instruction.entry) self.old }
    {
        self.fits();
        let operation = instruction.operation;
        let line = instruction.line;
        let targets = target_count(operation, instruction.targets);
        let reach = reach_of(self.records, instruction.targets);
        self.steps = capped_sum(self.steps, 1 + targets);
        self.qubits = self.qubits.max(reach.qubits);
        keep_first(&mut self.far_line, reach.is_far, line);
        self.made = capped_sum(self.made, steps_made(operation, targets));
        match operation {
            // A gate adds to nothing else, and most lines are gates, errors or detectors.
            Operation::Applies(_) => {}
            Operation::PauliError(_) => self.faults = capped_sum(self.faults, targets),
            Operation::CorrelatedError => self.faults = capped_sum(self.faults, 1),
            Operation::DetectorDeclaration => {
                self.detectors = capped_sum(self.detectors, 1);
            }
            _ => {
                let flips = has_argument(instruction);
                let named = named_to(instruction);
                self.records = capped_sum(self.records, records_made(operation, targets));
                self.collapses = capped_sum(self.collapses, collapses_made(operation, targets));
                self.detectors = capped_sum(self.detectors, detectors_made(operation));
                self.faults = capped_sum(self.faults, faults_counted(operation, flips, targets));
                self.observables = self.observables.max(named);
                keep_first(&mut self.beyond_line, are_beyond_limit(named), line);
            }
        }
    }

    /// The totals after all turns of a block, from those before it and these, which are those after its first turn.
    fn repeated(self, turns: u64, before: Totals) -> Totals
        ensures { result ≡ totals_repeated turns before self }
    {
        Totals {
            records: repeated_sum(turns, before.records, self.records),
            collapses: repeated_sum(turns, before.collapses, self.collapses),
            detectors: repeated_sum(turns, before.detectors, self.detectors),
            faults: repeated_sum(turns, before.faults, self.faults),
            steps: repeated_sum(turns, before.steps, self.steps.saturating_add(1)),
            made: repeated_sum(turns, before.made, self.made),
            qubits: self.qubits,
            observables: self.observables,
            far_line: self.far_line,
            beyond_line: self.beyond_line,
        }
    }
}

impl Summing {
    /// Goes past an item.
    fn pass(&mut self, item: Item<'_, '_>)
        requires { CanStand Fits (item_in item) (array_vec_len self.old.blocks) }
        ensures { Passes summing (item_in item.entry) self.old.totals self.old.blocks.items
            self.new.totals self.new.blocks.items }
    {
        match item {
            Item::InstructionLine(instruction) => self.totals.add(instruction),
            Item::BlockStart { turns, .. } => self.blocks.push(OpenBlock {
                turns,
                before: self.totals,
            }),
            Item::BlockEnd => {
                let block = self.blocks.pop().unwrap();
                self.totals = self.totals.repeated(block.turns, block.before);
            }
        }
    }
}

/// The totals of a circuit.
pub(crate) fn totals_of<A: Allocator + Copy>(circuit: &Circuit<'_, A>) -> Totals
    ensures { AreTotals circuit.now result }
{
    circuit.fits();
    let mut summing = Summing {
        totals: Totals::none(),
        blocks: ArrayVec::new(),
    };
    for i in 0..circuit.len() {
        summing.pass(circuit.item(i));
    }
    summing.totals
}
