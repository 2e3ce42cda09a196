//! The tasks that write an output, which may be a file.

use super::asks::{check_inputs, run_ask};
use super::builds::run_build;
use super::run_unite;
use crate::command_line::OUTPUT;
use clap::ArgMatches;
use program_parts::{Output, Writer, close, open_output};
use std::io::Write;
use std::os::fd::AsFd;
use std::rt::Files;
use std::thread::Threads;
use summaries_engine::{Stop, unsaid, unwritten};

// Refuses an input that is the output, where the task writes while it reads.
fn check_output<R: Files>(
    rt: &R,
    name: &str,
    matches: &ArgMatches,
    output: &Output<Writer<'_, R, R::File>>,
) -> Result<(), Stop> {
    match name {
        "ask" => check_inputs(rt, matches, output),
        _ => Ok(()),
    }
}

// Carries a task out that may write much, where its output is open.
fn write_task<R: Files + Input + Eprint + AllocGlobal + Threads + Sync, W: Write + Drop>(
    rt: &R,
    name: &str,
    matches: &ArgMatches,
    is_on: bool,
    output: &mut W,
) -> Result<(), Stop> {
    match name {
        "build" => run_build(rt, matches, is_on, output),
        "unite" => run_unite(rt, matches, output),
        "ask" => run_ask(rt, matches, is_on, output),
        _ => Err(unsaid("command")),
    }
}

// The name of the output, as it is reported.
fn output_of<'a>(matches: &ArgMatches<'a>) -> &'a str {
    matches.get_str(OUTPUT).unwrap_or("-")
}

// Carries a task out with an output that is open. One that is a file takes its place if that ended
// well.
fn run_into<R: Files + Input + Print + Eprint + AllocGlobal + Threads + Sync>(
    rt: &R,
    name: &str,
    matches: &ArgMatches,
    is_on: bool,
    output: Output<Writer<'_, R, R::File>>,
) -> Result<(), Stop>
where
    R::File: AsFd,
{
    let mut output = output;
    check_output(rt, name, matches, &output)?;
    let ended = write_task(rt, name, matches, is_on, &mut output.writer);
    let closed = close(rt, output, ended.is_ok());
    ended?;
    closed.map_err(|error| unwritten(output_of(matches), error))
}

// Opens the output that the words ask for, and carries a task out.
pub(super) fn run_with_output<R: Files + Input + Print + Eprint + AllocGlobal + Threads + Sync>(
    rt: &R,
    name: &str,
    matches: &ArgMatches,
    is_on: bool,
) -> Result<(), Stop>
where
    R::File: AsFd,
{
    match open_output(rt, matches.get_str(OUTPUT)) {
        Ok(output) => run_into(rt, name, matches, is_on, output),
        Err(error) => Err(unwritten(output_of(matches), error)),
    }
}
