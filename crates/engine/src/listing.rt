//! The list of a circuit's faults.
ghost use Rattle.fault_list.specs.FaultLines.{list_text};
ghost use Rattle.engine.specs.Output.{done, faults_output, refused_or};
ghost use Rattle.engine.specs.private.Answered.{Answers};

use crate::order::Status;
use crate::refusing::refuse;
use circuit_walk::Program;
use std::alloc::Allocator;
use step_model::{Fault, Sink};
use unroll::read_program;

/// Writes the list of the faults of a text's circuit, or why it is refused.
pub(crate) fn answer_faults<W: Sink, A: Allocator + Copy>(
    alloc: A,
    text: &[u8],
    sink: &mut W,
) -> Result<Status, Fault>
    ensures { Answers W.taken W.failures sink.old sink.new
        (refused_or (faults_output text.now)) result }
{
    match read_program(alloc, text) {
        Ok(program) => write_faults(&program, sink),
        Err(fault) => refuse(alloc, fault, sink),
    }
}

/// Writes the list of a program's faults.
fn write_faults<W: Sink, A: Allocator + Copy>(
    program: &Program<'_, A>,
    sink: &mut W,
) -> Result<Status, Fault>
    ensures { Answers W.taken W.failures sink.old sink.new
        (done (list_text program.now.listing)) result }
{
    fault_list::write(program, sink)?;
    Ok(Status::Done)
}
