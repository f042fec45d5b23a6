//! Streams over devices that follow a script.
use Event::{Fails, Moves};
use std::alloc::Global;
use std::io::ErrorKind;
use std::process::Abort;
use step_model::{Fault, ReaderSource, Sink, Source, WriterSink, read_all, write_all};
use test_support::{Device, Event, Plan};

const INTERRUPTED: Event = Fails(ErrorKind::Interrupted);

/// Kinds of errors after which no call is made.
const KINDS: [ErrorKind; 5] = [
    ErrorKind::BrokenPipe,
    ErrorKind::WouldBlock,
    ErrorKind::UnexpectedEof,
    ErrorKind::PermissionDenied,
    ErrorKind::Other,
];

/// Hands out the bytes `abcdefgh`, and follows a script from its first call on.
fn make_device(alloc: Global, events: &[Event]) -> Device<'_> {
    let plan = Plan {
        most: usize::MAX,
        first: 1,
        events,
    };
    Device::new(alloc, b"abcdefgh", plan)
}

fn make_source(alloc: Global, script: &[Event]) -> ReaderSource<Device<'_>> {
    ReaderSource::new(make_device(alloc, script))
}

fn make_sink(alloc: Global, script: &[Event]) -> WriterSink<Device<'_>> {
    WriterSink::new(make_device(alloc, script))
}

/// Scripts by which a device hands out all it has.
const READS: [&[Event]; 4] = [
    &[],
    &[Moves(1), Moves(2), Moves(3)],
    &[INTERRUPTED, Moves(1), INTERRUPTED, INTERRUPTED, Moves(4)],
    &[Moves(8), INTERRUPTED],
];

fn reads_all_bytes(alloc: Global, source: &mut ReaderSource<Device<'_>>) -> Result<bool, Fault> {
    let bytes = read_all(alloc, source)?;
    Ok(bytes.as_slice() == b"abcdefgh".as_slice() && source.failures() == 0)
}

#[test]
fn reads_all_bytes_and_goes_on_where_interrupted(rt: HostRuntime) {
    for script in READS {
        let mut source = make_source(rt.alloc(), script);
        assert!(rt; matches!(reads_all_bytes(rt.alloc(), &mut source), Ok(true)));
    }
}

/// Reads two bytes, and then fails: whether the buffer is left as it was, and the failure counted.
fn fails_behind_two_bytes(source: &mut ReaderSource<Device<'_>>) -> bool {
    let mut buffer = *b"....";
    let reads = source.read(&mut buffer) == Ok(2) && buffer.as_slice() == b"ab..".as_slice();
    let fails = source.read(&mut buffer) == Err(Fault::READ)
        && buffer.as_slice() == b"ab..".as_slice();
    reads & fails & (source.failures() == 1) & (source.reader().calls() == 3)
}

fn fails_by_kind(alloc: Global, kind: ErrorKind) -> bool {
    let script = [Moves(2), INTERRUPTED, Fails(kind), Moves(1)];
    fails_behind_two_bytes(&mut make_source(alloc, &script))
}

#[test]
fn a_failed_read_is_counted_and_leaves_the_buffer(rt: HostRuntime) {
    for kind in KINDS {
        assert!(rt; fails_by_kind(rt.alloc(), kind));
    }
}

fn stops_reading(alloc: Global, source: &mut ReaderSource<Device<'_>>) -> bool {
    let fails = read_all(alloc, source).err() == Some(Fault::READ);
    fails & (source.failures() == 1) & (source.reader().calls() == 2)
}

fn stops_by_kind(alloc: Global, kind: ErrorKind) -> bool {
    let script = [Moves(3), Fails(kind)];
    stops_reading(alloc, &mut make_source(alloc, &script))
}

#[test]
fn reading_to_the_end_stops_at_a_failure(rt: HostRuntime) {
    for kind in KINDS {
        assert!(rt; stops_by_kind(rt.alloc(), kind));
    }
}

/// Scripts by which a device takes all that it is given.
const WRITES: [&[Event]; 3] = [
    &[],
    &[Moves(1), INTERRUPTED, Moves(2)],
    &[
        INTERRUPTED,
        INTERRUPTED,
        Moves(1),
        Moves(1),
        Moves(1),
        Moves(1),
    ],
];

fn writes_all_bytes(sink: &mut WriterSink<Device<'_>>) -> bool {
    let done = write_all(sink, b"wxyz") == Ok(());
    done & (sink.failures() == 0) & (sink.writer().taken() == b"wxyz".as_slice())
}

#[test]
fn writes_all_bytes_and_goes_on_where_interrupted(rt: HostRuntime) {
    for script in WRITES {
        assert!(rt; writes_all_bytes(&mut make_sink(rt.alloc(), script)));
    }
}

/// A writer fails by an error, and by taking none of some bytes.
const WRITE_FAILURES: [Event; 6] = [
    Fails(ErrorKind::BrokenPipe),
    Fails(ErrorKind::WouldBlock),
    Fails(ErrorKind::UnexpectedEof),
    Fails(ErrorKind::PermissionDenied),
    Fails(ErrorKind::Other),
    Moves(0),
];

fn stops_writing(sink: &mut WriterSink<Device<'_>>) -> bool {
    let fails = write_all(sink, b"wxyz") == Err(Fault::WRITE) && sink.failures() == 1;
    let writer = sink.writer();
    fails & (writer.taken() == b"w".as_slice()) & (writer.calls() == 3)
}

fn stops_behind_one_byte(alloc: Global, last: Event) -> bool {
    let script = [Moves(1), INTERRUPTED, last, Moves(1)];
    stops_writing(&mut make_sink(alloc, &script))
}

#[test]
fn a_failed_write_is_counted_and_no_call_follows(rt: HostRuntime) {
    for last in WRITE_FAILURES {
        assert!(rt; stops_behind_one_byte(rt.alloc(), last));
    }
}

fn takes_an_empty_piece(sink: &mut WriterSink<Device<'_>>) -> bool {
    sink.write(b"") == Ok(0) && sink.failures() == 0
}

#[test]
fn an_empty_piece_is_no_failure(rt: HostRuntime) {
    assert!(rt; takes_an_empty_piece(&mut make_sink(rt.alloc(), &[Moves(0)])));
}
