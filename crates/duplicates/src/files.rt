//! The inputs: files, and standard input.

use duplicates_engine::Inputs;
use std::fs::File;
use std::io;
use std::io::{Read, StdinLock};

/// An input that is open.
#[derive(Drop)]
pub enum Opened {
    Standard(StdinLock<'static>),
    File(File),
}

impl Read for Opened {
    ghost use Rattle.std.specs.Prelude.{None};

    // Nothing is known of what a file has.
    ghost remaining = { λ _. None };

    fn read(&mut self, buf: &mut [u8]) -> io::Result<usize> {
        match self {
            Opened::Standard(input) => input.read(buf),
            Opened::File(file) => file.read(buf),
        }
    }
}

/// The inputs of these names, of which `-` is standard input. Without names that is the only one.
#[derive(Drop)]
pub struct Files<'r, 'n, 's> {
    rt: &'r HostRuntime,
    names: Option<&'n [&'s str]>,
    // How many were opened, or couldn't be.
    at: usize,
}

impl<'r, 'n, 's> Files<'r, 'n, 's> {
    pub fn new(rt: &'r HostRuntime, names: Option<&'n [&'s str]>) -> Self {
        Files { rt, names, at: 0 }
    }

    // The name of input number `at`, if there is one.
    fn name(&self, at: usize) -> Option<&'s str> {
        match self.names {
            Some(names) => names.get(at).copied(),
            None if at == 0 => Some("-"),
            None => None,
        }
    }

    /// The name of the input that was opened last, or couldn't be.
    pub fn current(&self) -> &'s str {
        self.name(self.at.saturating_sub(1)).unwrap_or("-")
    }
}

impl<'r, 'n, 's> Inputs for Files<'r, 'n, 's> {
    ghost use Rattle.std.specs.Prelude.{None};

    type Input = Opened;

    // Nothing is known of what files have, nor of an open that fails.
    ghost coming = { λ _. None };

    ghost fails = { λ _ _ _. Unit {0} };

    fn open_next(&mut self) -> io::Result<Option<Opened>> {
        let Some(name) = self.name(self.at) else {
            return Ok(None);
        };
        self.at = self.at.saturating_add(1);
        if name == "-" {
            return Ok(Some(Opened::Standard(self.rt.reader())));
        }
        Ok(Some(Opened::File(File::open(self.rt, name)?)))
    }
}
