//! Prints each line of its input that is certainly new.
//!
//! - `command_line`: the arguments, by `clap`.
//! - `files`: files and standard input, as the inputs of `duplicates_engine`.
//! - `run`: a run over them.
//! - `telling`, `gauge`: what standard error is told, the statuses, and how full a filter is.
#![tactic(auto)]

mod command_line;
mod files;
mod gauge;
mod run;
mod telling;

use clap::Error;
use command_line::{matched, misuse, request_of};
use duplicates_engine::Fault;
use std::process::ExitCode;
use streams::open_closed_streams;
use telling::{BAD, DONE, tell, tell_fault, tell_no_room, tell_unwritten};

// Prints what clap has to say, and gives the status.
fn print(rt: &HostRuntime, error: &Error) -> u8 {
    let printed = error.print(rt);
    if error.use_stderr() {
        return BAD;
    }
    match printed {
        Ok(()) => DONE,
        Err(error) => tell_unwritten(rt, None, error.kind()),
    }
}

// What the words ask for is done; the status.
fn serve(rt: &HostRuntime, words: &[String]) -> u8 {
    let matches = match matched(rt.alloc(), words) {
        Ok(matches) => matches,
        Err(error) => return print(rt, &error),
    };
    let ended = match request_of(&matches) {
        Ok(request) => run::run(rt, &request),
        Err(text) => Err(text),
    };
    match ended {
        Ok(status) => status,
        Err(text) => print(rt, &misuse(rt.alloc(), text)),
    }
}

// The words after the program's name, which is the first of them.
fn words_of(rt: &HostRuntime) -> std::io::Result<Vec<String>> {
    Ok(std::env::args(rt)?.collect(rt.alloc())?)
}

// The program; the status.
fn status_of(rt: &HostRuntime) -> u8 {
    if let Err(error) = open_closed_streams(rt) {
        return tell_fault(rt, "/dev/null", true, 0, Fault::Open(error.kind()));
    }
    match words_of(rt) {
        Ok(words) => serve(rt, words.as_slice()),
        Err(error) => {
            if error.kind() == std::io::ErrorKind::InvalidData {
                tell(rt, "an argument isn't UTF-8");
                BAD
            } else {
                tell_no_room(rt, "out of memory")
            }
        }
    }
}

fn main(rt: HostRuntime) -> ExitCode {
    ExitCode::from(status_of(&rt))
}
