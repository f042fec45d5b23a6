ghost use Rattle.std.specs.Prelude.{◌≡◌, Some};

use step_model::{Fault, Source};

/// Hands out one byte a call, and fails at the call with the number `fails_at`, counted from 1: at none where that is 0.
/// It hands out bytes again after that call.
#[derive(Drop)]
pub struct SlowSource<'a> {
    left: &'a [u8],
    calls: u64,
    fails_at: u64,
    failures: u64,
}

impl<'a> SlowSource<'a> {
    /// A source of these bytes.
    pub fn new(bytes: &'a [u8], fails_at: u64) -> Self
        ensures left { result.left.now ≡ bytes.now }
        ensures fails_at { result.fails_at ≡ fails_at }
        ensures calls { result.calls ≡ 0 }
        ensures failures { result.failures ≡ 0 }
    {
        SlowSource {
            left: bytes,
            calls: 0,
            fails_at,
            failures: 0,
        }
    }

    /// How often it was called.
    pub fn calls(&self) -> u64
        ensures { result ≡ self.now.calls }
    {
        self.calls
    }

    /// How many calls failed.
    pub fn failures(&self) -> u64
        ensures { result ≡ self.now.failures }
    {
        self.failures
    }
}

impl<'a> Source for SlowSource<'a> {
    ghost left = { λ s. Some s.left.now };

    ghost failures = { λ s. s.failures };

    fn read(&mut self, buffer: &mut [u8]) -> Result<usize, Fault> {
        self.calls = self.calls.saturating_add(1);
        if self.calls == self.fails_at {
            self.failures = self.failures.saturating_add(1);
            return Err(Fault::READ);
        }
        if self.left.is_empty() {
            return Ok(0);
        }
        buffer[0] = self.left[0];
        self.left = &self.left[1..];
        Ok(1)
    }
}
