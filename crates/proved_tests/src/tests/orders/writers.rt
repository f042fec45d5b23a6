//! Whole orders to a writer that takes at most a thousand bytes a call, and none at one of its calls: it has then failed.
use super::rows::{Row, rows};
use engine::{Status, serve};
use std::alloc::Global;
use step_model::{Fault, MemorySource, WriterSink};
use test_support::{Device, Event, Plan};

const TAKES_NONE: &[Event] = &[Event::Moves(0)];

/// Serves a row to a writer that takes none at this call.
fn served(
    alloc: Global,
    row: &Row,
    none_at: u64,
) -> (Result<Status, Fault>, WriterSink<Device<'static>>) {
    let plan = Plan {
        most: 1_000,
        first: none_at,
        events: TAKES_NONE,
    };
    let mut source = MemorySource::new(row.text.as_bytes());
    let mut sink = WriterSink::new(Device::new(alloc, b"", plan));
    let end = serve(alloc, &row.order, &mut source, &mut sink);
    (end, sink)
}

/// How many calls a row takes, where all of it goes out.
fn calls_of(alloc: Global, row: &Row) -> Option<u64> {
    let (end, sink) = served(alloc, row, 0);
    let writer = sink.writer();
    let is_whole = end == Ok(row.status) && row.is_written_as(writer.taken());
    is_whole.then_some(writer.calls())
}

/// Whether the failure is told, a beginning went out, and no call followed.
fn stops_at(alloc: Global, row: &Row, call: u64) -> bool {
    let (end, sink) = served(alloc, row, call);
    let writer = sink.writer();
    end == Err(Fault::WRITE) && writer.calls() == call && row.begins_with(writer.taken())
}

/// The first call at which a row doesn't stop; 0, where it doesn't go out with no such call.
fn unstopped(alloc: Global, row: &Row) -> Option<u64> {
    let Some(calls) = calls_of(alloc, row) else {
        return Some(0);
    };
    for call in 1..=calls {
        if !stops_at(alloc, row, call) {
            return Some(call);
        }
    }
    None
}

#[test]
fn every_call_takes_none_once(rt: HostRuntime) {
    for row in rows() {
        let call = unstopped(rt.alloc(), row);
        assert!(rt; call.is_none(), "call {call:?} of {}", row.output);
    }
}
