//! How a test tells which row of its table is wrong, or how its calls ended. A test that formats a
//! message costs three times the proof of one that calls this.
use fastbloom::FilterError;
use std::alloc::Global;
use std::fmt::Display;

/// Whether a row is right. One that isn't is reported.
pub(crate) fn tell_row(rt: &HostRuntime, row: usize, is_right: bool) -> bool {
    if !is_right {
        let _told = eprintln!(rt; "row {row}");
    }
    is_right
}

/// Whether what has this name is right. It is reported if it isn't.
pub(crate) fn tell_named(rt: &HostRuntime, name: &str, is_right: bool) -> bool {
    if !is_right {
        let _told = eprintln!(rt; "{name}");
    }
    is_right
}

/// Whether a value is printed as this text.
pub(crate) fn has_text<T: Display>(alloc: Global, value: &T, text: &str) -> bool {
    match value.to_string(alloc) {
        Ok(found) => found.as_str() == text,
        Err(_refused) => false,
    }
}

/// The end of a call that gave another result than its full one.
pub(crate) const WRONG: &'static str = "wrong";

// The ends of calls that ask for no memory, where there is some and where there is none.
const WITHOUT_MEMORY: &'static str = "without memory";

const NONE_LEFT: &'static str = "with no memory left";

/// The end of a test that is itself refused memory.
pub(crate) const NO_ROOM: &'static str = "no room for the test";

/// Prints a call and how it ended, which dev/starve compares: whether it isn't wrong.
pub(crate) fn say(rt: &HostRuntime, call: &str, ended: &str) -> bool {
    let printed = println!(rt; "{call}: {ended}");
    printed.is_ok() & (ended != WRONG)
}

/// Whether one more request for memory is given. dev/starve refuses it, and all behind it.
pub(crate) fn is_given(alloc: Global) -> bool {
    Vec::<u64>::with_capacity(alloc, 1).is_ok()
}

/// How calls that ask for no memory ended, where some was left or none.
pub(crate) fn word_without(is_left: bool, is_right: bool) -> &'static str {
    if !is_right {
        WRONG
    } else if is_left {
        WITHOUT_MEMORY
    } else {
        NONE_LEFT
    }
}

/// How a call ended: with the full result, with another, or with a refusal.
pub(crate) fn word_of(ended: &Result<bool, FilterError>) -> &'static str {
    match ended {
        Ok(true) => "whole",
        Ok(false) => WRONG,
        Err(FilterError::Memory) => "Memory",
        Err(FilterError::Worker) => "Worker",
        Err(_refusal) => WRONG,
    }
}
