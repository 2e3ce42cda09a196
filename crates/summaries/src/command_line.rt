//! The arguments of the program.

mod rows;

use clap::error::ErrorKind;
use clap::{ArgGroup, ArgMatches, Command, Error};
use program_parts::{VERSION, arguments_of, key_of, rate_of};
use rows::{COMMANDS, CommandRow};
use std::alloc::{AllocError, Global};

// The commands' arguments by their ids.
pub const BITS: &str = "bits";

pub const HASHES: &str = "hashes";

pub const ITEMS: &str = "items";

pub const RATE: &str = "rate";

pub const WORKERS: &str = "workers";

pub const BLOCKED: &str = "blocked";

pub const JSON: &str = "json";

pub const MOST_HASHES: &str = "hashes-up-to";

pub const FILTER: &str = "FILTER";

pub const OTHER: &str = "OTHER";

pub const FILE: &str = "FILE";

pub const ZERO: &str = "zero";

pub const ABSENT: &str = "absent";

pub const KEY: &str = "key";

pub const OUTPUT: &str = "output";

// The arguments of which one has to be given, if there are any.
fn choice<'a>(alloc: Global, ids: &'static [&'static str]) -> Result<ArgGroup<'a>, AllocError> {
    ArgGroup::new(alloc, "size")
        .required(!ids.is_empty())
        .args(ids)
}

// A command that has no arguments yet.
fn named<'a>(
    alloc: Global,
    name: &'static str,
    about: &'static str,
    ids: &'static [&'static str],
) -> Result<Command<'a>, AllocError> {
    let group = choice(alloc, ids)?;
    Command::new(alloc, name).about(about).group(group)
}

// The command of this row.
fn command_of<'a>(alloc: Global, row: &CommandRow) -> Result<Command<'a>, AllocError> {
    let (name, about, rows, ids) = *row;
    let arguments = arguments_of(alloc, rows)?;
    named(alloc, name, about, ids)?.args(arguments)
}

// The commands of all rows.
fn commands<'a>(alloc: Global) -> Result<Vec<Command<'a>>, AllocError> {
    let mut commands: Vec<Command<'a>> = Vec::new(alloc);
    'commands: for row in &COMMANDS {
        commands.reserve(1)?;
        commands.push_reserved(command_of(alloc, row)?);
    }
    Ok(commands)
}

// The program's words but for its commands.
fn program<'a>(alloc: Global) -> Command<'a> {
    Command::new(alloc, "summaries")
        .about("Filters of the keys of shards")
        .version(VERSION)
        .subcommand_required(true)
        .arg_required_else_help(true)
}

// The program's command line.
fn command<'a>(alloc: Global) -> Result<Command<'a>, AllocError> {
    let commands = commands(alloc)?;
    program(alloc).subcommands(commands)
}

// What a value of a command's words should be that is none, if one is.
fn value_error(matches: &ArgMatches) -> Option<&'static str> {
    let (_name, words) = matches.subcommand()?;
    if let Some(text) = words.get_str(RATE) {
        if rate_of(text).is_none() {
            return Some("the rate is a fraction between 0 and 1, as 1/1000");
        }
    }
    if let Some(text) = words.get_str(KEY) {
        if key_of(text).is_none() {
            return Some("the key is 32 hexadecimal digits");
        }
    }
    None
}

// The error of this text, unless memory for it is refused.
fn error_of(alloc: Global, text: &str) -> Result<Error, AllocError> {
    command(alloc)?.error(ErrorKind::ValueValidation, text)
}

// The words as they match the program's, whatever the rate and the key are.
fn matched<'a>(alloc: Global, words: &'a [String]) -> Result<ArgMatches<'a>, Error> {
    command(alloc)?.try_get_matches_from(words)
}

/// What the words ask for, of which the first is the program's name.
///
/// # Errors
/// The text for the user: what is wrong with the words, or the help.
pub fn arguments<'a>(alloc: Global, words: &'a [String]) -> Result<ArgMatches<'a>, Error> {
    let matches = matched(alloc, words)?;
    match value_error(&matches) {
        Some(text) => Err(error_of(alloc, text)?),
        None => Ok(matches),
    }
}
