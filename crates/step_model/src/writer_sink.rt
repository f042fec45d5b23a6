ghost use Rattle.std.specs.Prelude.{◌≡◌, ◌≢◌, ◌<◌, ◌≤◌, length, None, IfOk, IfErr, IfSome, IfNone};
ghost use Rattle.std.specs.Io.{WritesAtMost};
ghost use Rattle.std.specs.IoError.{error_kind};
ghost use Rattle.std.specs.Io.KnownBytes.{Keeps, WriteAppends};
ghost use Rattle.step_model.specs.Ends.{write_failures};
ghost use Rattle.step_model.specs.Faults.{write_fault};

use crate::ends::Sink;
use crate::fault::Fault;
use std::io::{self, ErrorKind, Write};

/// A sink whose bytes a writer takes. A call in which the writer takes none of at least one byte has failed.
#[derive(Drop)]
pub struct WriterSink<W: Write + Drop> {
    writer: W,
    failures: u64,
}

impl<W: Write + Drop> WriterSink<W> {
    /// A sink whose bytes this writer takes.
    pub fn new(writer: W) -> Self
        ensures { result ≡ record { writer = writer; failures = 0 } }
    {
        WriterSink {
            writer,
            failures: 0,
        }
    }

    /// How many calls failed; the count stays at 2^64 - 1 once it is there.
    pub fn failures(&self) -> u64
        ensures { result ≡ self.now.failures }
    {
        self.failures
    }

    /// The writer.
    pub fn writer(&self) -> &W
        ensures { result.now ≡ self.now.writer }
    {
        &self.writer
    }
}

impl<W: Write + Drop> Sink for WriterSink<W> {
    ghost taken = { λ _. None };

    ghost failures = { λ s. s.failures };

    // Where the writer's bytes are known, as of one over memory, it took just those that are counted, after what it had.
    fn write(&mut self, bytes: &[u8]) -> Result<usize, Fault>
        ensures within { IfOk result (λ n. n ≤ length bytes.now) }
        ensures some { IfOk result (λ n. 0 < length bytes.now → 0 < n) }
        ensures passed_on { WriteAppends (W.contents self.old.writer) (W.contents self.new.writer)
            result bytes.now }
        ensures fault { IfErr result (λ e. e ≡ write_fault) }
        ensures count { self.new.failures ≡ write_failures result self.old.failures }
    {
        match uninterrupted(&mut self.writer, bytes) {
            Some(Ok(n)) if 0 < n || bytes.is_empty() => return Ok(n),
            _ => {}
        }
        self.failures = self.failures.saturating_add(1);
        Err(Fault::WRITE)
    }
}

// What a writer answers, which is asked again after each interruption; nothing where 2^64 - 1 calls were interrupted.
fn uninterrupted<W: Write>(writer: &mut W, bytes: &[u8]) -> Option<io::Result<usize>>
    ensures bound { IfSome result (λ answer. WritesAtMost answer bytes.now) }
    ensures passed_on { IfSome result (λ answer. WriteAppends (W.contents writer.old)
        (W.contents writer.new) answer bytes.now) }
    ensures retried { IfSome result (λ answer. IfErr answer (λ e. error_kind e
        ≢ ErrorKind.Interrupted)) }
    ensures none { IfNone result (Keeps (W.contents writer.old) (W.contents writer.new)) }
{
    for _ in 0..u64::MAX {
        match writer.write(bytes) {
            Err(error) if error.kind() == ErrorKind::Interrupted => {}
            answer => return Some(answer),
        }
    }
    None
}
