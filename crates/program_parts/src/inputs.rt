//! Inputs by their names, of which `-` is standard input.

use crate::output::{Output, Writer, metadata_in_place};
use std::fs;
use std::fs::Metadata;
use std::os::unix::fs::MetadataExt;
use std::rt::Files;

// Where Linux keeps what standard input is.
const STANDARD_INPUT: &str = "/proc/self/fd/0";

// The device of a file, and its number there. What isn't a regular file has none.
fn number_of(found: &Metadata) -> Option<(u64, u64)> {
    if found.is_file() {
        Some((found.dev(), found.ino()))
    } else {
        None
    }
}

// Whether the input of this name is the file with this number.
fn is_file<R: Files>(rt: &R, name: &str, number: (u64, u64)) -> bool {
    let path = if name == "-" { STANDARD_INPUT } else { name };
    match fs::metadata(rt, path) {
        Ok(found) => number_of(&found) == Some(number),
        Err(_) => false,
    }
}

/// The first name of an input that is the regular file to which an output is written where it lies,
/// if one is.
pub fn first_output<'a, R: Files>(
    rt: &R,
    output: &Output<Writer<'_, R, R::File>>,
    names: &[&'a str],
) -> Option<&'a str> {
    let number = number_of(&metadata_in_place(rt, output)?)?;
    'names: for name in names {
        if is_file(rt, name, number) {
            return Some(*name);
        }
    }
    None
}
