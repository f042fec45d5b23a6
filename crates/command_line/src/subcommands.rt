//! The subcommands of the command line, with their options and their help.
use crate::help::{
    ABOUT_ANALYSES, ABOUT_DETECTIONS, ABOUT_ENDS, ABOUT_FAULTS, ABOUT_PREDICTIONS, ABOUT_RUNS,
    ABOUT_SAMPLES,
};
use clap::{Arg, ArgAction, Command};
use std::alloc::{AllocError, Global};

/// The command with all of its subcommands.
pub(crate) fn whole_command<'a>(alloc: Global) -> Result<Command<'a>, AllocError> {
    let command = described(
        alloc,
        "stabsim",
        "Simulates stabilizer circuits in Stim's format, and writes their detector error models",
        ABOUT_ENDS,
    );
    let command = with_part(Ok(command.subcommand_required(true)), run_command(alloc));
    let command = with_part(command, sample_command(alloc));
    let command = with_part(command, detect_command(alloc));
    let command = with_part(command, Ok(analyze_command(alloc)));
    let command = with_part(command, Ok(faults_command(alloc)));
    with_part(command, predict_command(alloc))
}

/// The command with this subcommand, where there was memory for both.
fn with_part<'a>(
    command: Result<Command<'a>, AllocError>,
    part: Result<Command<'a>, AllocError>,
) -> Result<Command<'a>, AllocError> {
    command?.subcommand(part?)
}

fn run_command<'a>(alloc: Global) -> Result<Command<'a>, AllocError> {
    let command = described(
        alloc,
        "run",
        "Runs a circuit once, with the faults and the random outcomes that you choose",
        ABOUT_RUNS,
    );
    let coins = option(
        alloc,
        "coins",
        "A digit 0 or 1 for each measured or reset qubit or product, in\ncircuit order, as --coins 0101 [default: all 0]",
    );
    with_option(
        alloc,
        command.arg(coins),
        "faults",
        "Numbers of the faults that happen, as --faults 3,17, from the list\nof 'stabsim faults' [default: none]",
    )
}

fn sample_command<'a>(alloc: Global) -> Result<Command<'a>, AllocError> {
    let command = described(
        alloc,
        "sample",
        "Draws shots and writes the measurement records of each",
        ABOUT_SAMPLES,
    );
    with_draws(alloc, command)
}

fn detect_command<'a>(alloc: Global) -> Result<Command<'a>, AllocError> {
    let command = described(
        alloc,
        "detect",
        "Draws shots and writes the detection events and observables of each",
        ABOUT_DETECTIONS,
    );
    with_draws(alloc, command)
}

/// A subcommand with the options of one that draws shots.
fn with_draws<'a>(alloc: Global, command: Command<'a>) -> Result<Command<'a>, AllocError> {
    let shots = option(
        alloc,
        "shots",
        "How many shots, at most 1000000, as --shots 1000",
    );
    with_option(
        alloc,
        command.arg(shots.required(true)),
        "seed",
        "Seed of the random numbers, below 2^64, as --seed 7 [default: 0]",
    )
}

fn analyze_command<'a>(alloc: Global) -> Command<'a> {
    described(
        alloc,
        "analyze",
        "Writes the detector error model of a circuit, or shows that a detector is random",
        ABOUT_ANALYSES,
    )
}

fn faults_command<'a>(alloc: Global) -> Command<'a> {
    described(
        alloc,
        "faults",
        "Lists the faults of a circuit with their numbers and probabilities",
        ABOUT_FAULTS,
    )
}

fn predict_command<'a>(alloc: Global) -> Result<Command<'a>, AllocError> {
    let command = described(
        alloc,
        "predict",
        "Predicts what the chosen error lines of a detector error model flip together",
        ABOUT_PREDICTIONS,
    );
    command.arg(option(
        alloc,
        "lines",
        "Numbers of the error lines, as --lines 6,16 [default: none]",
    ))
}

/// A command without options, with what its help says first and last.
fn described<'a>(alloc: Global, name: &'a str, first: &'a str, last: &'a str) -> Command<'a> {
    Command::new(alloc, name).about(first).after_help(last)
}

/// The command with one more option, where there was memory for both.
fn with_option<'a>(
    alloc: Global,
    command: Result<Command<'a>, AllocError>,
    name: &'a str,
    help: &'a str,
) -> Result<Command<'a>, AllocError> {
    command?.arg(option(alloc, name, help))
}

/// An option that takes a text.
fn option<'a>(alloc: Global, name: &'a str, help: &'a str) -> Arg<'a> {
    Arg::new(alloc, name)
        .long(name)
        .action(ArgAction::Set)
        .help(help)
}
