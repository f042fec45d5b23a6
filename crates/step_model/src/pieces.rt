//! A buffer in front of a sink: bytes that are pushed in order go out in pieces.
ghost use Rattle.std.specs.Prelude.{◌≡◌, if◌then◌else◌, [], ◌++◌, false, true, Err, OnOk, OnErr, IfErr};
ghost use Rattle.step_model.specs.Ends.{Takes, TakesBeginning, write_failures};
ghost use Rattle.step_model.specs.Faults.{write_fault};
ghost use Rattle.step_model.specs.Pushed.{Pushes};

use crate::ends::{Sink, write_all};
use crate::fault::{Cause, Fault};
use std::marker::Model;

/// How many bytes are held back at most. The buffer is a local variable of its users, so it is small.
const PIECE: usize = 16384;

/// Bytes held back until they make a piece for a sink. All calls are to be given the same sink. Once the sink has failed
/// it is not called again: what is pushed after that is dropped, and `finish` answers the failure. Allocates nothing.
#[derive(Drop)]
pub struct Pieces {
    buffer: [u8; PIECE],
    len: usize,
    failed: bool,
}

impl Model for Pieces {
    ghost use Rattle.std.specs.Prelude.{◌≤◌, take};
    ghost use Rattle.step_model.specs.Held.{Held};

    ghost Value = { Held };

    ghost view = { λ p. record { bytes = take p.len p.buffer; failed = p.failed } };

    ghost invariant = { λ p. p.len ≤ 16384 };
}

impl Pieces {
    /// Nothing held back.
    pub fn new() -> Self
        ensures { result ≡ record { bytes = []; failed = false } }
    {
        Pieces {
            buffer: [0; PIECE],
            len: 0,
            failed: false,
        }
    }

    /// Whether the sink has failed: then a long computation of more output may stop.
    pub fn has_failed(&self) -> bool
        ensures { result ≡ self.now.failed }
    {
        self.failed
    }

    /// Appends bytes to those that go out.
    pub fn push<W: Sink>(&mut self, sink: &mut W, bytes: &[u8])
        ensures { Pushes W.taken W.failures sink.old sink.new self.old self.new bytes.now }
    {
        if self.failed || self.hold(bytes) {
            return;
        }
        self.send(sink);
        if self.failed || self.hold(bytes) {
            return;
        }
        self.send_past(sink, bytes);
    }

    /// Sends what is still held back. Fails where the sink has failed, now or before.
    pub fn finish<W: Sink>(mut self, sink: &mut W) -> Result<(), Fault>
        ensures after_failure { self.failed ≡ true
            → (result ≡ Err write_fault) × (sink.new ≡ sink.old) }
        ensures all { OnOk result (Takes (W.taken sink.old) (W.taken sink.new) self.bytes) }
        ensures fault { IfErr result (λ e. e ≡ write_fault) }
        ensures beginning { self.failed ≡ false
            → OnErr result (TakesBeginning (W.taken sink.old) (W.taken sink.new) self.bytes) }
        ensures count { self.failed ≡ false
            → W.failures sink.new ≡ write_failures result (W.failures sink.old) }
    {
        self.send(sink);
        if self.failed {
            return Err(Fault {
                cause: Cause::Write,
                line: 0,
            });
        }
        Ok(())
    }

    // Holds back these bytes too, where they fit, and says whether they do.
    fn hold(&mut self, bytes: &[u8]) -> bool
        ensures { self.new
            ≡ (if result then record self.old { bytes = self.old.bytes ++ bytes.now } else
            self.old) }
    {
        if bytes.len() > PIECE - self.len {
            return false;
        }
        let end = self.len + bytes.len();
        self.buffer[self.len..end].copy_from_slice(bytes);
        self.len = end;
        true
    }

    // Sends more bytes than a piece holds, without copying them.
    fn send_past<W: Sink>(&mut self, sink: &mut W, bytes: &[u8])
        requires sound { self.old.failed ≡ false }
        requires none_held { self.old.bytes ≡ [] }
        ensures { Pushes W.taken W.failures sink.old sink.new self.old self.new bytes.now }
    {
        self.failed = write_all(sink, bytes).is_err();
    }

    // Sends what is held back.
    fn send<W: Sink>(&mut self, sink: &mut W)
        ensures pushes { Pushes W.taken W.failures sink.old sink.new self.old self.new [] }
        ensures none_held { self.new.failed ≡ false → self.new.bytes ≡ [] }
        ensures stays { self.old.failed ≡ true → sink.new ≡ sink.old }
    {
        if self.failed {
            return;
        }
        self.failed = write_all(sink, &self.buffer[..self.len]).is_err();
        if !self.failed {
            self.len = 0;
        }
    }
}
