//! Filters of the keys of shards: builds them, unites them, asks them, and tells what they are.
//!
//! - `command_line`: the arguments, by `clap`.
//! - `tasks`: what each command does, by `summaries_engine`.
//! - `key_files`, `form`: files of keys, and filters in files.
//! - `progress`: inputs whose keys are counted, as a terminal is told.
//! - `telling`: what is reported, and the statuses.
#![tactic(auto)]

mod command_line;
mod form;
mod key_files;
mod progress;
mod tasks;
mod telling;

use clap::{ArgMatches, Error};
use command_line::arguments;
use std::io::IsTerminal;
use std::os::fd::AsFd;
use std::process::ExitCode;
use std::rt::Files;
use std::thread::Threads;
use streams::open_closed_streams;
use summaries_engine::{Stop, unread, written};
use telling::{BAD, DONE, tell, tell_stop};

// The status of what came of a task, and what is reported about it.
fn status_of<R: Eprint>(rt: &R, done: Result<(), Stop>) -> u8 {
    match done {
        Ok(()) => DONE,
        Err(stop) => tell_stop(rt, stop),
    }
}

// Prints what clap has to say, and gives the status.
fn print<R: Print + Eprint>(rt: &R, error: &Error) -> u8 {
    let printed = error.print(rt);
    if error.use_stderr() {
        return BAD;
    }
    status_of(rt, written(printed, "standard output can't be written"))
}

// What the words ask for is done; the status. A terminal is told how far the run is.
fn run<R: Files + Input + Print + Eprint + AllocGlobal + Threads + Sync>(
    rt: &R,
    words: &[String],
    is_on: bool,
) -> u8
where
    R::File: AsFd,
{
    match arguments(rt.alloc(), words) {
        Ok(matches) => status_of(rt, tasks::run(rt, &matches, is_on)),
        Err(error) => print(rt, &error),
    }
}

// The words after the program's name, which are the first of them.
fn words_of(rt: &HostRuntime) -> std::io::Result<Vec<String>> {
    Ok(std::env::args(rt)?.collect(rt.alloc())?)
}

fn main(rt: HostRuntime) -> ExitCode {
    if let Err(error) = open_closed_streams(&rt) {
        return ExitCode::from(tell_stop(&rt, unread("/dev/null", error)));
    }
    match words_of(&rt) {
        Ok(words) => {
            let is_on = rt.stderr().is_terminal();
            ExitCode::from(run(&rt, words.as_slice(), is_on))
        }
        Err(error) => {
            if error.kind() == std::io::ErrorKind::InvalidData {
                tell(&rt, "an argument isn't UTF-8");
                ExitCode::from(BAD)
            } else {
                ExitCode::from(tell_stop(&rt, Stop::Memory))
            }
        }
    }
}
