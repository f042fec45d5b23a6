//! What the words of a command line ask for.
ghost use Rattle.std.specs.Prelude.{◌≡◌, ◌≢◌};
ghost use Rattle.clap.specs.Values.{kind_of};
ghost use Rattle.clap.specs.declared.error.kind.ErrorKind.TheVariants.{OutOfMemory, DisplayHelp};
ghost use Rattle.command_line.specs.declared.asked.Asked.TheVariants.{NoMemory, Usage};
ghost use Rattle.command_line.specs.private.Asked.{IsHelpOrNoMemory};

use crate::orders::order_of;
use crate::subcommands::whole_command;
use clap::error::ErrorKind;
use clap::{ArgMatches, Error};
use std::alloc::Global;
use step_model::Order;

/// What a command line asks for.
#[derive(Drop)]
pub enum Asked<'a> {
    /// An order, whose texts are those of the words.
    Order(Order<'a>),
    /// Help, which is this text.
    Help(String),
    /// Nothing that the program does: the words are wrong.
    Usage,
    /// There was no memory to read the words, or to make the help that they ask for.
    NoMemory,
}

/// What these words ask for, the first being the program's own name.
pub fn asked_by<'a>(alloc: Global, words: &'a [String]) -> Asked<'a> {
    match read_words(alloc, words) {
        Ok(matches) => asked_in(&matches),
        Err(error) => asked_without_matches(alloc, &error),
    }
}

/// The subcommand and options that these words name.
fn read_words<'a>(alloc: Global, words: &'a [String]) -> Result<ArgMatches<'a>, Error> {
    whole_command(alloc)?.try_get_matches_from(words)
}

fn asked_in<'a>(matches: &ArgMatches<'a>) -> Asked<'a> {
    match order_of(matches) {
        Some(order) => Asked::Order(order),
        None => Asked::Usage,
    }
}

/// What is asked for where the words name no subcommand with its options. Want of memory is no fault of the words, and a
/// request for help isn't either.
fn asked_without_matches<'a>(alloc: Global, error: &Error) -> Asked<'a>
    ensures memory { kind_of error.now ≡ OutOfMemory → result ≡ NoMemory }
    ensures help { kind_of error.now ≡ DisplayHelp → IsHelpOrNoMemory result }
    ensures others { kind_of error.now ≢ OutOfMemory → kind_of error.now ≢ DisplayHelp
        → result ≡ Usage }
{
    match error.kind() {
        ErrorKind::OutOfMemory => Asked::NoMemory,
        ErrorKind::DisplayHelp => help_in(alloc, error),
        _ => Asked::Usage,
    }
}

fn help_in<'a>(alloc: Global, error: &Error) -> Asked<'a>
    ensures { IsHelpOrNoMemory result }
{
    match format!(in alloc; "{error}") {
        Ok(text) => Asked::Help(text),
        Err(_) => Asked::NoMemory,
    }
}
