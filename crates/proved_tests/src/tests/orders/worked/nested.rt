//! A million measurements in two blocks, one inside the other.
use circuit_walk::Program;
use engine::{Order, exit_status, serve};
use std::alloc::Global;
use step_model::{Cause, Fault, MemorySink, MemorySource};
use unroll::read_program;

/// An instruction counts as one step and one for each target, and a turn as one and its body: the inner block has 3,000 steps, and
/// the text 3,001,000.
const TURNS: &[u8] = b"REPEAT 1000 {\nREPEAT 1000 {\nM 0\n}\n}\n";

const MILLION: usize = 1_000_000;

/// Whether these bytes are so many zeros, the end of their line and an empty line.
fn are_zeros(bytes: &[u8], count: usize) -> bool {
    let Some(zeros) = bytes.strip_suffix(b"\n\n") else {
        return false;
    };
    for byte in zeros {
        if *byte != b'0' {
            return false;
        }
    }
    zeros.len() == count
}

fn writes_zeros(alloc: Global) -> bool {
    let mut sink = MemorySink::new(alloc);
    let mut source = MemorySource::new(TURNS);
    let order = Order::Run {
        coins: None,
        faults: b"",
    };
    let end = serve(alloc, &order, &mut source, &mut sink);
    exit_status(end) == 0 && are_zeros(sink.bytes(), MILLION)
}

#[test]
fn a_million_records(rt: HostRuntime) {
    assert!(rt; writes_zeros(rt.alloc()));
}

/// As many steps behind it as the limit of 64,000,000 leaves: 30,499,500 turns of two.
const FULL: &[u8] = b"REPEAT 1000 {\nREPEAT 1000 {\nM 0\n}\n}\nREPEAT 30499500 {\nTICK\n}\n";

/// One more.
const BEYOND: &[u8] =
    b"REPEAT 1000 {\nREPEAT 1000 {\nM 0\n}\n}\nREPEAT 30499500 {\nTICK\n}\nTICK\n";

/// Whether a text is accepted, and each of a million collapses has its record.
fn has_a_million(alloc: Global, text: &[u8]) -> Result<bool, Fault> {
    let program = read_program(alloc, text)?;
    Ok(counts_a_million(&program))
}

fn counts_a_million(program: &Program<'_, Global>) -> bool {
    (program.record_count() as usize == MILLION) & (program.collapse_count() as usize == MILLION)
}

/// Whether a text has too many steps.
fn is_too_long(alloc: Global, text: &[u8]) -> bool {
    match read_program(alloc, text) {
        Ok(_) => false,
        Err(fault) => {
            fault
                == Fault {
                    cause: Cause::Steps,
                    line: 0,
                }
        }
    }
}

#[test]
fn steps_up_to_the_limit(rt: HostRuntime) {
    assert!(rt; matches!(has_a_million(rt.alloc(), TURNS), Ok(true)));
    assert!(rt; matches!(has_a_million(rt.alloc(), FULL), Ok(true)));
    assert!(rt; is_too_long(rt.alloc(), BEYOND));
}
