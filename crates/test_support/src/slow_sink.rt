ghost use Rattle.std.specs.Prelude.{◌≡◌, [], Some};

use std::alloc::Allocator;
use step_model::{Fault, Sink};

/// Takes one byte a call, and fails at the call with the number `fails_at`, counted from 1: at none where that is 0. It
/// takes bytes again after that call. It also fails where no memory can be had.
#[derive(Drop)]
pub struct SlowSink<A: Allocator + Copy> {
    bytes: Vec<u8, A>,
    calls: u64,
    fails_at: u64,
    failures: u64,
}

impl<A: Allocator + Copy> SlowSink<A> {
    /// A sink that has taken no byte.
    pub fn new(alloc: A, fails_at: u64) -> Self
        ensures bytes { result.bytes.items ≡ [] }
        ensures fails_at { result.fails_at ≡ fails_at }
        ensures calls { result.calls ≡ 0 }
        ensures failures { result.failures ≡ 0 }
    {
        SlowSink {
            bytes: Vec::new(alloc),
            calls: 0,
            fails_at,
            failures: 0,
        }
    }

    /// All the bytes taken so far.
    pub fn bytes(&self) -> &[u8]
        ensures { result.now ≡ self.now.bytes.items }
    {
        self.bytes.as_slice()
    }

    /// How often it was called.
    pub fn calls(&self) -> u64
        ensures { result ≡ self.now.calls }
    {
        self.calls
    }

    /// How many calls failed.
    pub fn failures(&self) -> u64
        ensures { result ≡ self.now.failures }
    {
        self.failures
    }
}

impl<A: Allocator + Copy> Sink for SlowSink<A> {
    ghost taken = { λ s. Some s.bytes.items };

    ghost failures = { λ s. s.failures };

    fn write(&mut self, bytes: &[u8]) -> Result<usize, Fault> {
        self.calls = self.calls.saturating_add(1);
        if bytes.is_empty() {
            return Ok(0);
        }
        if self.calls == self.fails_at || self.bytes.push(bytes[0]).is_err() {
            self.failures = self.failures.saturating_add(1);
            return Err(Fault::WRITE);
        }
        Ok(1)
    }
}
