//! The task that asks a filter for keys.
ghost use Rattle.summaries_engine.specs.Answers.{IsKeyed};

use super::{disk_of, keys_of};
use crate::command_line::{ABSENT, FILE, FILTER, ZERO};
use crate::key_files::{STANDARD, called, called_inputs};
use clap::ArgMatches;
use program_parts::{Output, Writer, first_output};
use std::cell::Cell;
use std::io::{BufWriter, Write};
use std::rt::Files;
use summaries_engine::{AnyFilter, Shelf, Stop, Wanted, ask, is_output, twice, unsaid, written};

// Asks a filter for the keys of these inputs.
fn ask_for<R: Files + Input + Eprint + AllocGlobal, O: Write>(
    rt: &R,
    matches: &ArgMatches,
    is_on: bool,
    filter: &AnyFilter,
    names: &[&str],
    output: &mut O,
) -> Result<(), Stop>
    requires { IsKeyed filter.now }
{
    let wanted = if matches.get_flag(ABSENT) {
        Wanted::Absent
    } else {
        Wanted::Found
    };
    let keys = Cell::new(0);
    let files = keys_of(rt, matches, is_on, &keys);
    if matches.get_flag(ZERO) {
        ask::<0, _, _>(rt.alloc(), filter, wanted, &files, names, output)
    } else {
        ask::<10, _, _>(rt.alloc(), filter, wanted, &files, names, output)
    }
}

// Asks a filter for the keys of these inputs, and writes what it tells.
fn write_asked<R: Files + Input + Eprint + AllocGlobal, W: Write + Drop>(
    rt: &R,
    matches: &ArgMatches,
    is_on: bool,
    filter: &AnyFilter,
    names: &[&str],
    output: &mut W,
) -> Result<(), Stop>
    requires { IsKeyed filter.now }
{
    let Ok(mut output) = BufWriter::new(rt.alloc(), output) else {
        return Err(Stop::Memory);
    };
    let asked = ask_for(rt, matches, is_on, filter, names, &mut output);
    // A failed flush lost earlier keys, so it is reported first.
    let flushed = written(output.flush(), "the keys can't be written");
    drop(output);
    flushed?;
    asked
}

// Asks the filter that the words name for the keys of these inputs.
fn ask_of<R: Files + Input + Eprint + AllocGlobal, W: Write + Drop>(
    rt: &R,
    matches: &ArgMatches,
    is_on: bool,
    names: &[&str],
    output: &mut W,
) -> Result<(), Stop> {
    let Some(name) = matches.get_str(FILTER) else {
        return Err(unsaid(FILTER));
    };
    let name = called(name);
    if name == STANDARD && names.contains(&STANDARD) {
        return Err(twice(STANDARD));
    }
    match disk_of(rt, matches)?.load(name) {
        Ok(filter) => write_asked(rt, matches, is_on, &filter, names, output),
        Err(stop) => Err(stop),
    }
}

// Refuses these inputs where one is the file that the output is written to where it lies.
fn refuse_output<R: Files>(
    rt: &R,
    output: &Output<Writer<'_, R, R::File>>,
    words: &[&str],
) -> Result<(), Stop> {
    match first_output(rt, output, words) {
        Some(word) => Err(is_output(called(word))),
        None => Ok(()),
    }
}

/// Refuses an input that is the output, too. What is written there would be read as keys again,
/// without end.
pub(super) fn check_inputs<R: Files>(
    rt: &R,
    matches: &ArgMatches,
    output: &Output<Writer<'_, R, R::File>>,
) -> Result<(), Stop> {
    match matches.get_str(FILTER) {
        Some(filter) => refuse_output(rt, output, &[filter])?,
        None => {}
    }
    refuse_output(rt, output, matches.get_strs(FILE).unwrap_or(&["-"]))
}

// Asks a filter for the keys of the inputs that the words name.
pub(super) fn run_ask<R: Files + Input + Eprint + AllocGlobal, W: Write + Drop>(
    rt: &R,
    matches: &ArgMatches,
    is_on: bool,
    output: &mut W,
) -> Result<(), Stop> {
    let names = called_inputs(rt.alloc(), matches.get_strs(FILE).unwrap_or(&[]))?;
    ask_of(rt, matches, is_on, names.as_slice(), output)
}
