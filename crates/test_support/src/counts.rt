//! The counts of an allocator's calls.
use std::cell::Cell;

/// How many calls asked for a block, which of them is refused (counted from 1, none where it is 0), how many were
/// refused, and how many blocks were handed out and not freed.
#[derive(Clone, Copy)]
pub(crate) struct Counts {
    pub calls: u64,
    pub refused_call: u64,
    pub refusals: u64,
    pub held: u64,
}

/// Counts a call that asks for a block, and answers whether it is refused.
pub(crate) fn refuses(counts: &Cell<Counts>) -> bool {
    let mut now = counts.get();
    now.calls = now.calls.wrapping_add(1);
    let refused = now.calls == now.refused_call;
    if refused {
        now.refusals = now.refusals.wrapping_add(1);
    } else {
        now.held = now.held.wrapping_add(1);
    }
    counts.set(now);
    refused
}

/// Counts a block that is freed.
pub(crate) fn takes_back(counts: &Cell<Counts>) {
    let mut now = counts.get();
    now.held = now.held.wrapping_sub(1);
    counts.set(now);
}
