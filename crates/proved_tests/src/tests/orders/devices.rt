//! Whole orders, of which one read or one write fails, and the ends go on after it.
use super::rows::{Row, rows};
use engine::{Status, serve};
use std::alloc::Global;
use step_model::Fault;
use test_support::{SlowSink, SlowSource};

/// Serves a row byte by byte.
fn serve_row(
    alloc: Global,
    row: &Row,
    source: &mut SlowSource<'_>,
    sink: &mut SlowSink<Global>,
) -> Result<Status, Fault> {
    serve(alloc, &row.order, source, sink)
}

/// Whether a failed read is told, and nothing is read or written after it. Of a call behind the one that finds the end,
/// which would fail, whether it isn't made.
fn stops_at_read(alloc: Global, row: &Row, call: u64) -> bool {
    let mut source = SlowSource::new(row.text.as_bytes(), call);
    let mut sink = SlowSink::new(alloc, 0);
    let end = serve_row(alloc, row, &mut source, &mut sink);
    let last = row.text.len() as u64 + 1;
    if last < call {
        return source.calls() == last && is_stopped_at(row, 0, end, &sink);
    }
    end == Err(Fault::READ) && source.calls() == call && sink.calls() == 0
}

/// Whether a failed write is told, what went out is a beginning, and nothing is written after it. With no failure all goes out.
fn stops_at_write(alloc: Global, row: &Row, call: u64) -> bool {
    let mut sink = SlowSink::new(alloc, call);
    let mut source = SlowSource::new(row.text.as_bytes(), 0);
    let end = serve_row(alloc, row, &mut source, &mut sink);
    is_stopped_at(row, call, end, &sink)
}

/// Whether a sink that failed at this write took all that came before, and nothing after.
fn is_stopped_at(
    row: &Row,
    call: u64,
    end: Result<Status, Fault>,
    sink: &SlowSink<Global>,
) -> bool {
    let length = row.length();
    let (wanted, calls, taken) = if 0 < call && call <= length {
        (Err(Fault::WRITE), call, call - 1)
    } else {
        (Ok(row.status), length, length)
    };
    end == wanted
        && sink.calls() == calls
        && sink.bytes().len() as u64 == taken
        && row.begins_with(sink.bytes())
}

#[test]
fn every_read_fails_once(rt: HostRuntime) {
    for row in rows() {
        // The last call but two finds the end.
        for call in 1..=row.text.len() as u64 + 3 {
            let stops = stops_at_read(rt.alloc(), row, call);
            assert!(rt; stops, "read {call} of {}", row.output);
        }
    }
}

#[test]
fn every_write_fails_once(rt: HostRuntime) {
    for row in rows() {
        // Of the shots some forty calls, and the last.
        let length = row.length();
        let stride = if length < 1_000 { 1 } else { length / 40 };
        for call in 0..=length {
            let is_tried = call % stride == 0 || call == length;
            let stops = !is_tried || stops_at_write(rt.alloc(), row, call);
            assert!(rt; stops, "write {call} of {}", row.output);
        }
    }
}
