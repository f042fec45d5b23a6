//! The text of an error model, written in parts to a device that fails at one of its calls.
use crate::tests::words::sparse_words;
use backward::write_in_parts;
use circuit_walk::Program;
use std::alloc::{AllocError, Global};
use std::io::ErrorKind;
use std::test::Fail;
use step_model::{Fault, Place, WriterSink};
use test_support::{Device, Event, Plan};
use unroll::read_program;

/// Each turn has a fault, which flips the turn's detector alone.
const CIRCUIT: &[u8] = b"REPEAT 3000 {\nX_ERROR(0.1) 0\nMR 0\nDETECTOR rec[-1]\n}\n";

/// How much text is held at once: none, and some sixty lines.
const ROOMS: [usize; 2] = [0, 1_000];

/// Of 93,780 bytes, of which the error lines have 49,890: more than three pieces of 16 KiB.
fn whole_text(alloc: Global) -> Result<Vec<u8>, AllocError> {
    let mut text = Vec::new(alloc);
    for n in 0..3_000u32 {
        text.extend_from_slice(format!(in alloc; "error(0.1) D{n}\n")?.as_bytes())?;
    }
    for n in 0..3_000u32 {
        text.extend_from_slice(format!(in alloc; "detector D{n}\n")?.as_bytes())?;
    }
    Ok(text)
}

const FAILS: &[Event] = &[Event::Fails(ErrorKind::BrokenPipe)];

type Answer = Result<Option<(u32, Place)>, Fault>;

fn write_to(
    alloc: Global,
    program: &Program<'_, Global>,
    room: usize,
    sink: &mut WriterSink<Device<'_>>,
) -> Answer {
    match sparse_words(&alloc, program) {
        Ok(words) => write_in_parts(alloc, program, words, room, sink),
        Err(_) => Err(Fault::MEMORY),
    }
}

/// Writes to a device that fails at this call.
fn written(
    alloc: Global,
    program: &Program<'_, Global>,
    room: usize,
    fails_at: u64,
) -> (Answer, WriterSink<Device<'static>>) {
    let plan = Plan {
        most: usize::MAX,
        first: fails_at,
        events: FAILS,
    };
    let mut sink = WriterSink::new(Device::new(alloc, b"", plan));
    let answer = write_to(alloc, program, room, &mut sink);
    (answer, sink)
}

/// How many calls the text takes, where all of it goes out.
fn calls_of(alloc: Global, program: &Program<'_, Global>, room: usize, text: &[u8]) -> Option<u64> {
    let (answer, sink) = written(alloc, program, room, 0);
    let device = sink.writer();
    let is_whole = matches!(answer, Ok(None)) && device.taken() == text;
    is_whole.then_some(device.calls())
}

/// Whether the failure is told, a beginning went out, and no call followed.
fn stops_at(
    alloc: Global,
    program: &Program<'_, Global>,
    room: usize,
    text: &[u8],
    call: u64,
) -> bool {
    let (answer, sink) = written(alloc, program, room, call);
    let device = sink.writer();
    let told = matches!(answer, Err(fault) if fault == Fault::WRITE);
    told && device.calls() == call && text.starts_with(device.taken())
}

/// The first call at which it doesn't stop; 0, where the whole text doesn't go out in more than four calls. The first three calls
/// fail while error lines are written, and the later ones among the detectors.
fn unstopped(
    alloc: Global,
    program: &Program<'_, Global>,
    room: usize,
    text: &[u8],
) -> Option<u64> {
    let calls = calls_of(alloc, program, room, text).unwrap_or(0);
    if calls <= 4 {
        return Some(0);
    }
    for call in 1..=calls {
        if !stops_at(alloc, program, room, text, call) {
            return Some(call);
        }
    }
    None
}

#[test]
fn a_failed_call_is_the_last(rt: HostRuntime) -> Result<(), Fail> {
    let text = whole_text(rt.alloc())?;
    let program = read_program(rt.alloc(), CIRCUIT)?;
    for room in ROOMS {
        let call = unstopped(rt.alloc(), &program, room, text.as_slice());
        assert!(rt; call.is_none(), "call {call:?} with room {room}");
    }
    Ok(())
}
