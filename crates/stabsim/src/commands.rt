//! What a command line asks for, done from a runtime's standard input to its standard output.
use command_line::{Asked, asked_by};
use engine::{Order, exit_status, serve};
use std::alloc::{AllocError, Global};
use std::env::Args;
use std::rt::Env;
use std::{env, io};
use step_model::{ReaderSource, WriterSink};

const DONE: u8 = 0;

const FAILED: u8 = 1;

const REFUSED: u8 = 2;

/// Reads a circuit or an error model from standard input, does what the command line asks, and writes to standard output.
/// Answers the exit status: 0 where that is done or help was asked for, 1 where memory ran out or a stream failed, 2 where
/// the input, what was given beside it or the command line is refused, and 3 where an analysis names a random detector or
/// observable.
pub fn respond<R: Env + Input + Print + AllocGlobal>(rt: &R) -> u8 {
    let words: Vec<String> = match env::args(rt) {
        Ok(words) => match listed(rt.alloc(), words) {
            Ok(words) => words,
            Err(_) => return FAILED,
        },
        Err(error) if error.kind() == io::ErrorKind::OutOfMemory => return FAILED,
        Err(_) => return refuse_line(rt),
    };
    obey(rt, &asked_by(rt.alloc(), words.as_slice()))
}

/// The words as a list. Each is pushed where there is room for all: `collect` would ask again where that is refused.
fn listed(alloc: Global, words: Args) -> Result<Vec<String>, AllocError> {
    let mut list = Vec::with_capacity(alloc, words.len())?;
    for word in words {
        list.push(word)?;
    }
    Ok(list)
}

fn obey<R: Input + Print + AllocGlobal>(rt: &R, asked: &Asked<'_>) -> u8 {
    match asked {
        Asked::Order(order) => respond_to(rt, order),
        Asked::Help(text) => show(rt, text),
        Asked::Usage => refuse_line(rt),
        Asked::NoMemory => FAILED,
    }
}

/// Serves the order from standard input to standard output.
fn respond_to<R: Input + Print + AllocGlobal>(rt: &R, order: &Order<'_>) -> u8 {
    let mut source = ReaderSource::new(rt.reader());
    let mut sink = WriterSink::new(io::writer(rt));
    exit_status(serve(rt.alloc(), order, &mut source, &mut sink))
}

fn show<R: Print>(rt: &R, help: &str) -> u8 {
    match rt.print(help) {
        Ok(()) => DONE,
        Err(_) => FAILED,
    }
}

fn refuse_line<R: Print>(rt: &R) -> u8 {
    match rt.println("usage") {
        Ok(()) => REFUSED,
        Err(_) => FAILED,
    }
}
