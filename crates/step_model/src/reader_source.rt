ghost use Rattle.std.specs.Prelude.{◌≡◌, ◌≢◌, ◌<◌, ◌≤◌, take, length, None, IfOk, IfErr, IfSome, IfNone, OnErr};
ghost use Rattle.std.specs.Io.{ReadsAtMost};
ghost use Rattle.std.specs.IoError.{error_kind};
ghost use Rattle.std.specs.Io.KnownBytes.{Consumes, IsAtEnd, Keeps, ReadConsumes};
ghost use Rattle.step_model.specs.Ends.{read_failures};
ghost use Rattle.step_model.specs.Faults.{read_fault};

use crate::ends::Source;
use crate::fault::Fault;
use std::io::{self, ErrorKind, Read};

/// How many bytes a reader is asked for in one call, at most.
const PIECE: usize = 4096;

/// The bytes of a reader. It reads into an array of its own, so that a failed call leaves the caller's buffer alone.
#[derive(Drop)]
pub struct ReaderSource<R: Read + Drop> {
    reader: R,
    failures: u64,
}

impl<R: Read + Drop> ReaderSource<R> {
    /// A source of the bytes that this reader hands out.
    pub fn new(reader: R) -> Self
        ensures { result ≡ record { reader = reader; failures = 0 } }
    {
        ReaderSource {
            reader,
            failures: 0,
        }
    }

    /// How many calls failed; the count stays at 2^64 - 1 once it is there.
    pub fn failures(&self) -> u64
        ensures { result ≡ self.now.failures }
    {
        self.failures
    }

    /// The reader.
    pub fn reader(&self) -> &R
        ensures { result.now ≡ self.now.reader }
    {
        &self.reader
    }
}

impl<R: Read + Drop> Source for ReaderSource<R> {
    ghost left = { λ _. None };

    ghost failures = { λ s. s.failures };

    // Where the reader's bytes are known, as of one over memory, the next of them are handed out, and none is lost.
    fn read(&mut self, buffer: &mut [u8]) -> Result<usize, Fault>
        ensures within { IfOk result (λ n. n ≤ length buffer.new) }
        ensures passed_on { ReadConsumes (R.remaining self.old.reader) (R.remaining self.new.reader)
            result buffer.new }
        ensures fault { IfErr result (λ e. e ≡ read_fault) }
        ensures kept { OnErr result (buffer.new ≡ buffer.old) }
        ensures count { self.new.failures ≡ read_failures result self.old.failures }
    {
        let mut piece = [0u8; PIECE];
        let room = buffer.len().min(PIECE);
        if let Some(Ok(n)) = uninterrupted(&mut self.reader, &mut piece[..room]) {
            buffer[..n].copy_from_slice(&piece[..n]);
            return Ok(n);
        }
        self.failures = self.failures.saturating_add(1);
        Err(Fault::READ)
    }
}

// What a reader answers, which is asked again after each interruption; nothing where 2^64 - 1 calls were interrupted.
fn uninterrupted<R: Read>(reader: &mut R, piece: &mut [u8]) -> Option<io::Result<usize>>
    ensures bound { IfSome result (λ answer. ReadsAtMost answer piece.new) }
    ensures passed_on { IfSome result (λ answer. IfOk answer (λ n. Consumes (R.remaining reader.old)
        (R.remaining reader.new) (take n piece.new))) }
    ensures end { IfSome result (λ answer. IfOk answer (λ n. n ≡ 0
        → 0 < length piece.old
        → IsAtEnd (R.remaining reader.new))) }
    ensures failed { IfSome result (λ answer. OnErr answer (Keeps (R.remaining reader.old)
        (R.remaining reader.new))) }
    ensures retried { IfSome result (λ answer. IfErr answer (λ e. error_kind e
        ≢ ErrorKind.Interrupted)) }
    ensures none { IfNone result (Keeps (R.remaining reader.old) (R.remaining reader.new)) }
{
    for _ in 0..u64::MAX {
        match reader.read(piece) {
            Err(error) if error.kind() == ErrorKind::Interrupted => {}
            answer => return Some(answer),
        }
    }
    None
}
