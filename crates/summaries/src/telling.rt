//! What is reported on standard error, and the statuses. Where standard error can't be written,
//! nothing is reported, and the status stays.

use program_parts::OneLine;
use std::fmt::Display;
use summaries_engine::Stop;

/// The task was carried out.
pub const DONE: u8 = 0;

/// The words after the program's name are wrong, or an input isn't what it should be, or is the
/// output.
pub const BAD: u8 = 2;

/// Out of memory.
pub const NO_ROOM: u8 = 3;

/// A read or a write failed, or a file can't be opened.
pub const FAILED: u8 = 4;

/// Tells what failed, on one line.
pub fn tell<R: Eprint, D: Display + Drop>(rt: &R, what: D) {
    let _ = eprintln!(rt; "summaries: {}", OneLine(what));
}

/// Tells why a run stopped; the status.
pub fn tell_stop<R: Eprint>(rt: &R, stop: Stop) -> u8 {
    let status = match &stop {
        Stop::Memory => NO_ROOM,
        Stop::Input(_) => FAILED,
        Stop::Bad(_) => BAD,
        Stop::Output(_) => FAILED,
    };
    tell(rt, stop);
    status
}
