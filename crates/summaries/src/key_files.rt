//! Files by their names, and standard input.
ghost use Rattle.summaries_engine.specs.Stops.{IsUnreadable};

use crate::progress::Counted;
use either::{Either, Left, Right};
use std::alloc::Global;
use std::cell::Cell;
use std::fs;
use std::rt::Files;
use summaries_engine::{Inputs, Stop, unread};

/// The name of standard input, as it is reported.
pub const STANDARD: &str = "standard input";

/// How an input is called. A file that has the name of standard input is called by its folder.
pub fn called(name: &str) -> &str {
    if name == "-" {
        STANDARD
    } else if name == STANDARD {
        "./standard input"
    } else {
        name
    }
}

/// The names by which the inputs of these words are opened and told: standard input where none is.
pub fn called_inputs<'a>(alloc: Global, words: &[&'a str]) -> Result<Vec<&'a str>, Stop> {
    let mut names = Vec::new(alloc);
    if words.is_empty() {
        names.push(STANDARD).map_err(|_| Stop::Memory)?;
    }
    for word in words {
        names.push(called(word)).map_err(|_| Stop::Memory)?;
    }
    Ok(names)
}

/// The files of a system, with standard input among them, by the names of `called_inputs`. A
/// terminal is told how many keys were read.
#[derive(Drop)]
pub struct KeyFiles<'a, R> {
    pub rt: &'a R,
    /// How many keys were read so far.
    pub keys: &'a Cell<u64>,
    /// The byte that ends a key.
    pub end: u8,
    /// Whether it is told how many were read.
    pub is_on: bool,
}

impl<'a, R: Files + Input + Eprint> Inputs for KeyFiles<'a, R> {
    type Input = Counted<'a, R, Either<R::Reader, R::File>>;

    // What files hold is known to no contract.
    ghost has = { λ files name read. Unit {0} };

    // Each error tells the name.
    ghost fails = { λ files name stop. IsUnreadable name stop };

    fn open(&self, name: &str) -> Result<Self::Input, Stop> {
        let input = if name == STANDARD {
            Left(self.rt.reader())
        } else {
            match fs::open(self.rt, name) {
                Ok(file) => Right(file),
                Err(error) => return Err(unread(name, error)),
            }
        };
        Ok(Counted {
            rt: self.rt,
            input,
            keys: self.keys,
            end: self.end,
            is_on: self.is_on,
        })
    }
}
