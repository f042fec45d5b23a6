//! Answers that are written at once.
ghost use Rattle.engine.specs.private.Answered.{Answers};

use crate::order::Status;
use step_model::{Fault, Sink, write_all};

/// Writes these bytes as all of an answer with this status.
pub(crate) fn write_answer<W: Sink>(
    sink: &mut W,
    bytes: &[u8],
    status: Status,
) -> Result<Status, Fault>
    ensures { Answers W.taken W.failures sink.old sink.new
        (record { bytes = bytes.now; status = status }) result }
{
    write_all(sink, bytes)?;
    Ok(status)
}
