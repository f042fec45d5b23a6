use crate::counts::{Counts, refuses, takes_back};
use std::alloc::{AllocError, Allocator};
use std::cell::Cell;

/// Passes each call on to another allocator, except one, which it refuses. Whoever allocates is given a `&` to it.
pub struct Scarce<B: Allocator> {
    inner: B,
    counts: Cell<Counts>,
}

impl<B: Allocator> Scarce<B> {
    /// An allocator that refuses no call.
    pub fn new(inner: B) -> Self {
        Scarce {
            inner,
            counts: Cell::new(Counts {
                calls: 0,
                refused_call: 0,
                refusals: 0,
                held: 0,
            }),
        }
    }

    /// Counts calls from 1 again, and refuses the one with this number: none where that is 0. All others are passed on,
    /// those after it too.
    pub fn refuse(&self, call: u64) {
        let mut counts = self.counts.get();
        counts.calls = 0;
        counts.refused_call = call;
        counts.refusals = 0;
        self.counts.set(counts);
    }

    /// How many calls were refused since `refuse` was last called.
    pub fn refusals(&self) -> u64 {
        self.counts.get().refusals
    }

    /// How many blocks it has handed out that are not freed yet.
    pub fn held(&self) -> u64 {
        self.counts.get().held
    }
}

impl<B: Allocator> Drop for Scarce<B> {
    fn drop(self) {
        let Self {
            inner: _,
            counts: _,
        } = self;
    }
}

unsafe impl<B: Allocator> Allocator for Scarce<B> {
    ghost dealloc_token = { λ heap ty ptr. B.dealloc_token heap.inner ty ptr };

    fn allocate(&self, size: usize, align: usize) -> Result<*mut u8, AllocError> {
        if refuses(&self.counts) {
            return Err(AllocError);
        }
        self.inner.allocate(size, align)
    }

    unsafe fn deallocate(&self, ptr: *mut u8, size: usize, align: usize) {
        takes_back(&self.counts);
        self.inner.deallocate(ptr, size, align);
    }
}
