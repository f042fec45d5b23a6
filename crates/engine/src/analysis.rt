//! The error model of a circuit, or a random target.
ghost use Rattle.std.specs.Prelude.{◌≡◌, ℕ, List, length, IfOk, IfErr};
ghost use Rattle.step_model.specs.Ends.{Takes};
ghost use Rattle.step_model.specs.Faults.{memory_fault};
ghost use Rattle.step_model.specs.Targets.{targets_of};
ghost use Rattle.backward.specs.Places.{IsLowestRandom};
ghost use Rattle.trackers.specs.Tracked.{fresh};
ghost use Rattle.engine.specs.declared.order.Status.TheVariants.{Done, Random};
ghost use Rattle.engine.specs.Headline.{IsExactFor, IsExactIn, IsRandomFor, IsRandomIn};
ghost use Rattle.engine.specs.Output.{analysis_output, found_in, refused_or};
ghost use Rattle.engine.specs.Output as output;
ghost use Rattle.engine.specs.private.Answered.{Answers};

use crate::answering::write_answer;
use crate::lines::random_lines;
use crate::order::Status;
use crate::refusing::refuse;
use backward::{QubitSets, write_analysis};
use circuit_walk::Program;
use frames::coin_pair;
use std::alloc::Allocator;
use step_model::{Fault, Place, Sink};
use unroll::read_program;

/// Writes what is found of a text's circuit, or why it is refused.
pub(crate) fn answer_analysis<W: Sink, A: Allocator + Copy>(
    alloc: A,
    text: &[u8],
    sink: &mut W,
) -> Result<Status, Fault>
    ensures answered { Answers W.taken W.failures sink.old sink.new
        (refused_or (analysis_output text.now)) result }
    ensures exact { IfOk result (λ status. status ≡ Done →
        (bytes : List ℕ) × Takes (W.taken sink.old) (W.taken sink.new) bytes
        × IsExactFor text.now bytes) }
    ensures random { IfOk result (λ status. status ≡ Random →
        (bytes : List ℕ) × Takes (W.taken sink.old) (W.taken sink.new) bytes
        × IsRandomFor text.now bytes) }
{
    match read_program(alloc, text) {
        Ok(program) => write_finding(alloc, &program, sink),
        Err(fault) => refuse(alloc, fault, sink),
    }
}

/// Writes a program's error model, or the lowest target that is random and two coin lists that show it.
fn write_finding<W: Sink, A: Allocator + Copy>(
    alloc: A,
    program: &Program<'_, A>,
    sink: &mut W,
) -> Result<Status, Fault>
    ensures answered { Answers W.taken W.failures sink.old sink.new
        (found_in program.now.listing) result }
    ensures exact { IfOk result (λ status. status ≡ Done →
        (bytes : List ℕ) × Takes (W.taken sink.old) (W.taken sink.new) bytes
        × IsExactIn program.now.listing bytes) }
    ensures random { IfOk result (λ status. status ≡ Random →
        (bytes : List ℕ) × Takes (W.taken sink.old) (W.taken sink.new) bytes
        × IsRandomIn program.now.listing bytes) }
{
    program.well_formed();
    let words = fresh_words(&alloc, program)?;
    match write_analysis(alloc, program, words, sink)? {
        None => Ok(Status::Done),
        Some((which, place)) => write_random(alloc, program, which, place, sink),
    }
}

/// Writes the lowest target that is random and two coin lists that show it.
fn write_random<W: Sink, A: Allocator + Copy>(
    alloc: A,
    program: &Program<'_, A>,
    which: u32,
    place: Place,
    sink: &mut W,
) -> Result<Status, Fault>
    requires { IsLowestRandom program.now.listing which place }
    ensures answered { Answers W.taken W.failures sink.old sink.new
        (found_in program.now.listing) result }
    ensures random { IfOk result (λ status. (status ≡ Random)
        × ((bytes : List ℕ)
        × Takes (W.taken sink.old) (W.taken sink.new) bytes
        × IsRandomIn program.now.listing bytes)) }
{
    program.well_formed();
    let lines = random_text(alloc, program, which as usize, place)?;
    write_answer(sink, lines.as_slice(), Status::Random)
}

/// Words for the targets of a program, each the identity.
pub(crate) fn fresh_words<'s, A: Allocator + Copy>(
    alloc: &'s A,
    program: &Program<'_, A>,
) -> Result<QubitSets<'s, A>, Fault>
    ensures ok { IfOk result (λ words. words
        ≡ fresh program.now.listing.qubits (length (targets_of program.now.listing))) }
    ensures err { IfErr result (λ e. e ≡ memory_fault) }
{
    program.well_formed();
    Ok(QubitSets::new(alloc, program.qubits() as usize, program.target_count())?)
}

/// The lines of a random target with its place.
fn random_text<A: Allocator + Copy>(
    alloc: A,
    program: &Program<'_, A>,
    target: usize,
    place: Place,
) -> Result<Vec<u8, A>, Fault>
    ensures ok { IfOk result (λ lines. lines.items
        ≡ output.random_lines program.now.listing target place) }
    ensures err { IfErr result (λ e. e ≡ memory_fault) }
{
    let (first, second) = coin_pair(alloc, program, place)?;
    let detectors = program.detector_count();
    let lines = random_lines(
        alloc,
        detectors,
        target,
        first.as_slice(),
        second.as_slice(),
    )?;
    Ok(lines)
}
