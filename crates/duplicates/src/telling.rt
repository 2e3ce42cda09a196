//! What is reported on standard error, and the statuses. Where standard error can't be written,
//! nothing is reported, and the status stays.

use duplicates_engine::{Fault, Progress, Tally};
use lines::Reason;
use program_parts::OneLine;
use std::fmt;
use std::fmt::Display;
use std::io::ErrorKind;

/// All lines were done.
pub const DONE: u8 = 0;

/// The words after the program's name are wrong, a line of an input is too long, or an input is the
/// output.
pub const BAD: u8 = 2;

/// Out of memory, or of room for one more filter.
pub const NO_ROOM: u8 = 3;

/// A read or a write failed, or an input can't be opened.
pub const FAILED: u8 = 4;

/// More lines were new than a filter that doesn't grow was made for.
pub const OVERFULL: u8 = 5;

/// Tells how far a run is where standard error is a terminal, and warns where more lines were new
/// than the filter was made for.
#[derive(Drop)]
pub struct Teller<'a> {
    pub rt: &'a HostRuntime,
    /// Whether it is told how far the run is.
    pub is_on: bool,
    /// How the lines are called that count as held back.
    pub held: &'static str,
    pub items: u64,
    pub is_warned: bool,
}

impl Progress for Teller<'_> {
    fn tell(&mut self, tally: Tally) {
        if self.is_on {
            let _ = eprintln!(self.rt; "{} lines, {} {}", tally.read, tally.held, self.held);
        }
    }

    fn warn(&mut self, _tally: Tally) {
        self.is_warned = true;
        let _ = eprintln!(self.rt;
            "duplicates: more than {} different lines: more new ones will be held back by mistake",
            self.items
        );
    }
}

// Why a call of the system failed, behind what failed. A kind that says nothing has no words here.
#[derive(Drop)]
struct Because(ErrorKind);

impl Display for Because {
    fn fmt<W: fmt::Write>(&self, f: &mut fmt::Formatter<W>) -> fmt::Result {
        match self.0 {
            ErrorKind::Other => Ok(()),
            kind => write!(f, ": {}", Reason(kind)),
        }
    }
}

/// Tells what failed, on one line.
pub fn tell<D: Display + Drop>(rt: &HostRuntime, what: D) {
    let _ = eprintln!(rt; "duplicates: {}", OneLine(what));
}

// How an input is called: its name, or standard input.
fn called(name: &str) -> &str {
    if name == "-" { "standard input" } else { name }
}

// What a user may do about a line that is too long.
const ADVICE: &str = "see --longest and --skip-longer";

// Tells that a line is too long, in which input it is, and how many bytes a line may have.
fn tell_long(rt: &HostRuntime, place: &str, is_named: bool, number: u64, longest: usize) {
    if is_named {
        tell(
            rt,
            format_args!(
                "{place}: line {number} has more than {longest} bytes: {}",
                ADVICE
            ),
        );
    } else {
        tell(
            rt,
            format_args!("line {number} has more than {longest} bytes: {}", ADVICE),
        );
    }
}

/// Tells that an input is the output, and returns the status.
pub fn tell_output(rt: &HostRuntime, name: &str) -> u8 {
    tell(rt, format_args!("{} is the output, too", called(name)));
    BAD
}

/// Tells that the output can't be written, or that memory is out, and returns the status. It is
/// standard output where it has no name.
pub fn tell_unwritten(rt: &HostRuntime, name: Option<&str>, kind: ErrorKind) -> u8 {
    if kind == ErrorKind::OutOfMemory {
        return tell_no_room(rt, "out of memory");
    }
    let name = match name.unwrap_or("-") {
        "-" => "standard output",
        name => name,
    };
    tell(rt, format_args!("{name} can't be written{}", Because(kind)));
    FAILED
}

/// Tells why a run ended early, in which input it was, and returns the status. A line may have
/// `longest` bytes.
pub fn tell_fault(
    rt: &HostRuntime,
    name: &str,
    is_named: bool,
    longest: usize,
    fault: Fault,
) -> u8 {
    let place = called(name);
    match fault {
        Fault::TooLong(number) => {
            tell_long(rt, place, is_named, number, longest);
            BAD
        }
        Fault::Open(kind) => {
            tell(rt, format_args!("{place} can't be opened{}", Because(kind)));
            FAILED
        }
        Fault::Input(kind) => {
            tell(rt, format_args!("{place} can't be read{}", Because(kind)));
            FAILED
        }
        Fault::Output(kind) => tell_unwritten(rt, None, kind),
        Fault::Memory => tell_no_room(rt, "out of memory"),
        Fault::Full => tell_no_room(rt, "the filter can't grow any more at this rate"),
    }
}

/// Tells that there is no room, and returns the status.
pub fn tell_no_room(rt: &HostRuntime, what: &str) -> u8 {
    tell(rt, what);
    NO_ROOM
}
