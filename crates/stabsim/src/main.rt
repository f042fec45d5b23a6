//! The program: does what its command line asks, and ends with the status that comes of it.
#![tactic(auto)]

mod commands;

use commands::respond;
use std::process::ExitCode;

fn main(rt: HostRuntime) -> ExitCode {
    ExitCode::from(respond(&rt))
}
