//! A reader and writer whose calls go by a plan.
use std::alloc::Global;
use std::io::{Error, ErrorKind, Read, Result, Write};

/// What a device does at one of its calls.
#[derive(Clone, Copy)]
pub enum Event {
    /// It moves at most so many bytes.
    Moves(usize),
    /// It fails.
    Fails(ErrorKind),
}

/// What a device does at its calls, which are counted from 1.
#[derive(Clone, Copy)]
pub struct Plan<'p> {
    /// How many bytes a call moves at most.
    pub most: usize,
    /// The call of the first event: with one event and 0 here, it never comes.
    pub first: u64,
    /// An event a call. All other calls move what there is.
    pub events: &'p [Event],
}

/// Hands out bytes, and keeps what it takes.
#[derive(Drop)]
pub struct Device<'d> {
    plan: Plan<'d>,
    calls: u64,
    left: &'d [u8],
    taken: Vec<u8>,
}

impl<'d> Device<'d> {
    /// A device that hands out these bytes.
    pub fn new(alloc: Global, bytes: &'d [u8], plan: Plan<'d>) -> Self {
        Device {
            plan,
            calls: 0,
            left: bytes,
            taken: Vec::new(alloc),
        }
    }

    /// How often it was called.
    pub fn calls(&self) -> u64 {
        self.calls
    }

    /// All the bytes taken so far.
    pub fn taken(&self) -> &[u8] {
        self.taken.as_slice()
    }

    // The event of the last call, where it has one.
    fn event(&self) -> Option<Event> {
        let at = self.calls.checked_sub(self.plan.first)?;
        self.plan.events.get(at as usize).copied()
    }

    // Counts a call, and answers how many bytes it moves at most.
    fn next_call(&mut self) -> Result<usize> {
        self.calls = self.calls.saturating_add(1);
        match self.event() {
            Some(Event::Moves(n)) => Ok(n.min(self.plan.most)),
            Some(Event::Fails(kind)) => Err(Error::from(kind)),
            None => Ok(self.plan.most),
        }
    }
}

impl<'d> Read for Device<'d> {
    fn read(&mut self, buf: &mut [u8]) -> Result<usize> {
        // What a failed call leaves in the buffer is the device's own affair.
        buf.fill(b'?');
        let n = self.next_call()?.min(buf.len()).min(self.left.len());
        buf[..n].copy_from_slice(&self.left[..n]);
        self.left = &self.left[n..];
        Ok(n)
    }
}

impl<'d> Write for Device<'d> {
    fn write(&mut self, buf: &[u8]) -> Result<usize> {
        let n = self.next_call()?.min(buf.len());
        self.taken
            .extend_from_slice(&buf[..n])
            .map_err(|_| Error::from(ErrorKind::OutOfMemory))?;
        Ok(n)
    }

    fn flush(&mut self) -> Result<()> {
        Ok(())
    }
}
