//! Refusals.
ghost use Rattle.std.specs.Prelude.{◌≡◌, ◌⊎◌, Result, Err, IfOk};
ghost use Rattle.step_model.specs.declared.fault.Fault.{Fault};
ghost use Rattle.step_model.specs.Faults.{memory_fault};
ghost use Rattle.engine.specs.declared.order.Status.TheVariants.{Refused};
ghost use Rattle.engine.specs.Output.{Output, refused_or};
ghost use Rattle.engine.specs.private.Answered.{Answers};

use crate::answering::write_answer;
use crate::lines::refusal_text;
use crate::order::Status;
use std::alloc::Allocator;
use step_model::{Cause, Fault, Sink};

/// Writes the line that says why an order is refused. Where memory ran out, nothing is written: that is an error, and
/// no refusal.
pub(crate) fn refuse<W: Sink, A: Allocator + Copy>(
    alloc: A,
    fault: Fault,
    sink: &mut W,
) -> Result<Status, Fault>
    // What was asked came to this fault, or there was no memory.
    ensures answered { (asked : Result Output Fault) → (fault ≡ memory_fault) ⊎ (asked ≡ Err fault)
        → Answers W.taken W.failures sink.old sink.new (refused_or asked) result }
    ensures status { IfOk result (λ status. status ≡ Refused) }
{
    if fault.cause == Cause::Memory {
        return Err(Fault::MEMORY);
    }
    let line = refusal_text(alloc, fault)?;
    write_answer(sink, line.as_slice(), Status::Refused)
}
