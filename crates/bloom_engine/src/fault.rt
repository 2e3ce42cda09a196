//! Why the program ends early.
ghost use Rattle.std.specs.Prelude.{◌≡◌};
ghost use Rattle.bloom_engine.specs.Faults.{status_of};

use std::fmt;

/// Why the program ends early. Its text goes to standard error.
#[derive(Clone, Copy, Debug, PartialEq)]
pub enum Fault {
    /// The arguments aren't two numbers within their limits.
    Usage,
    /// The line with this number isn't a command. Lines count from 1; the count stays at 2^64 - 1.
    Line(u64),
    /// Out of memory.
    Memory,
    /// A read failed.
    Input,
    /// A write or a flush failed.
    Output,
}

impl fmt::Display for Fault {
    fn fmt<W: fmt::Write>(&self, f: &mut fmt::Formatter<W>) -> fmt::Result {
        match self {
            Fault::Usage => f.write_str("usage: bloom WORDS HASHES"),
            Fault::Line(number) => write!(f, "line {number}: bad command"),
            Fault::Memory => f.write_str("no memory"),
            Fault::Input => f.write_str("input failed"),
            Fault::Output => f.write_str("output failed"),
        }
    }
}

impl Fault {
    /// The exit status of the program.
    pub fn status(&self) -> u8
        ensures { result ≡ status_of self.now }
    {
        match self {
            Fault::Usage | Fault::Line(_) => 2,
            Fault::Memory => 3,
            Fault::Input | Fault::Output => 4,
        }
    }
}
