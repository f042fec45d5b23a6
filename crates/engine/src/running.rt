//! The lines of a run.
ghost use Rattle.std.specs.Prelude.{◌≡◌, ◌⊎◌, ◌++◌, [], false, length, replicate, None, Some, Ok, Err, IfOk, IfErr};
ghost use Rattle.std.specs.List.{list_any};
ghost use Rattle.std.specs.Option.{option_copied};
ghost use Rattle.frames.specs.Lines.{line_of};
ghost use Rattle.step_model.specs.declared.fault.Cause.TheVariants.{CoinCount};
ghost use Rattle.step_model.specs.Faults.{memory_fault, without_line};
ghost use Rattle.step_model.specs.Frames.{zero_coins};
ghost use Rattle.step_model.specs.Runs.{records_of};
ghost use Rattle.engine.specs.Output.{done, program_output, refused_or, run_coins, run_output};
ghost use Rattle.engine.specs.Output as output;
ghost use Rattle.engine.specs.private.Answered.{Answers};

use crate::answering::write_answer;
use crate::lines::run_lines;
use crate::order::Status;
use crate::refusing::refuse;
use circuit_walk::Program;
use forward_sim::{Records, detections, read_coins, read_numbers, run};
use std::alloc::Allocator;
use step_model::{Fault, Sink};
use unroll::read_program;

/// Writes the lines of a run of a text's circuit, or why it is refused.
pub(crate) fn answer_run<W: Sink, A: Allocator + Copy>(
    alloc: A,
    coins: Option<&[u8]>,
    faults: &[u8],
    text: &[u8],
    sink: &mut W,
) -> Result<Status, Fault>
    ensures { Answers W.taken W.failures sink.old sink.new
        (refused_or (run_output (option_copied coins.entry) faults.now text.now)) result }
{
    match run_text(alloc, coins, faults, text) {
        Ok(lines) => write_answer(sink, lines.as_slice(), Status::Done),
        Err(fault) => refuse(alloc, fault, sink),
    }
}

/// What a run of a text's circuit writes, or why it is refused.
fn run_text<A: Allocator + Copy>(
    alloc: A,
    coins: Option<&[u8]>,
    faults: &[u8],
    text: &[u8],
) -> Result<Vec<u8, A>, Fault>
    ensures ok { IfOk result (λ lines. run_output (option_copied coins.entry) faults.now text.now
        ≡ Ok (done lines.items)) }
    ensures err { IfErr result (λ e. (e ≡ memory_fault)
        ⊎ (run_output (option_copied coins.entry) faults.now text.now ≡ Err e)) }
{
    let program = read_program(alloc, text)?;
    if coins.is_none() && faults.is_empty() {
        return noiseless_lines(alloc, program);
    }
    run_program(alloc, &program, coins, faults)
}

/// What a run of a program writes, or why it is refused.
fn run_program<A: Allocator + Copy>(
    alloc: A,
    program: &Program<'_, A>,
    coins: Option<&[u8]>,
    faults: &[u8],
) -> Result<Vec<u8, A>, Fault>
    ensures ok { IfOk result (λ lines. program_output (option_copied coins.entry) faults.now
        program.now.listing
        ≡ Ok (done lines.items)) }
    ensures err { IfErr result (λ e. (e ≡ memory_fault)
        ⊎ (program_output (option_copied coins.entry) faults.now program.now.listing ≡ Err e)) }
{
    let coins = coins_given(alloc, program, coins)?;
    let faults = read_numbers(alloc, program.fault_count() as usize, faults)?;
    lines_of_run(alloc, program, faults.as_slice(), coins.as_slice())
}

/// The coins that a text gives, or all 0 where there is no text.
fn coins_given<A: Allocator + Copy>(
    alloc: A,
    program: &Program<'_, A>,
    text: Option<&[u8]>,
) -> Result<Vec<bool, A>, Fault>
    ensures ok { IfOk result (λ coins. run_coins program.now.listing (option_copied text.entry)
        ≡ Some coins.items) }
    ensures err { IfErr result (λ e. (e ≡ memory_fault)
        ⊎ ((e ≡ without_line CoinCount)
        × (run_coins program.now.listing (option_copied text.entry) ≡ None))) }
{
    match text {
        Some(text) => read_coins(alloc, program, text),
        None => all_false(alloc, program.collapse_count() as usize),
    }
}

fn all_false<A: Allocator + Copy>(alloc: A, count: usize) -> Result<Vec<bool, A>, Fault>
    ensures ok { IfOk result (λ values. values.items ≡ replicate count false) }
    ensures err { IfErr result (λ e. e ≡ memory_fault) }
{
    Ok(vec![in alloc; false; count]?)
}

/// The lines of a run with these faults and coins. Where no fault happens and each coin is 0, it is also the run that
/// it is compared with, and is made once.
fn lines_of_run<A: Allocator + Copy>(
    alloc: A,
    program: &Program<'_, A>,
    faults: &[bool],
    coins: &[bool],
) -> Result<Vec<u8, A>, Fault>
    ensures ok { IfOk result (λ lines. lines.items
        ≡ output.run_lines program.now.listing faults.now coins.now) }
    ensures err { IfErr result (λ e. e ≡ memory_fault) }
{
    let reference = noiseless_records(alloc, program)?;
    if !has_true(faults) && !has_true(coins) {
        return lines_without_events(alloc, &reference, program.target_count());
    }
    let records = run(alloc, program, faults, coins)?;
    let detections = detections(alloc, program, &records, &reference)?;
    Ok(run_lines(alloc, &records, detections.as_slice())?)
}

/// What the run writes in which no fault happens and each coin is 0. No target differs from the run that it is compared with, so
/// what targets list isn't read; and the program is no longer held where the lines are made.
fn noiseless_lines<A: Allocator + Copy>(
    alloc: A,
    program: Program<'_, A>,
) -> Result<Vec<u8, A>, Fault>
    ensures ok { IfOk result (λ lines. program_output None [] program.entry.listing
        ≡ Ok (done lines.items)) }
    ensures err { IfErr result (λ e. e ≡ memory_fault) }
{
    let targets = program.target_count();
    let records = noiseless_records(alloc, &program)?;
    drop(program);
    lines_without_events(alloc, &records, targets)
}

/// The line of a run's records, and the line of no detections of so many targets: the run is the one that it is compared with.
fn lines_without_events<A: Allocator + Copy>(
    alloc: A,
    records: &Records<A>,
    targets: usize,
) -> Result<Vec<u8, A>, Fault>
    ensures ok { IfOk result (λ lines. lines.items
        ≡ line_of records.now ++ line_of (replicate targets false)) }
    ensures err { IfErr result (λ e. e ≡ memory_fault) }
{
    let events = all_false(alloc, targets)?;
    Ok(run_lines(alloc, records, events.as_slice())?)
}

fn has_true(values: &[bool]) -> bool
    ensures { result ≡ list_any (λ value. value) values.now }
{
    values.iter().any(|value| *value)
}

/// The records of the run in which no fault happens and every coin is 0.
fn noiseless_records<A: Allocator + Copy>(
    alloc: A,
    program: &Program<'_, A>,
) -> Result<Records<A>, Fault>
    ensures ok { IfOk result (λ records. records
        ≡ records_of program.now.listing [] (zero_coins program.now.listing)) }
    ensures count { IfOk result (λ records. length records ≡ program.now.listing.records) }
    ensures err { IfErr result (λ e. e ≡ memory_fault) }
{
    run(alloc, program, &[], &[])
}
