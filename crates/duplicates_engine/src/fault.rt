//! Why a run ends early.
ghost use Rattle.std.specs.IoError.{error_kind};
ghost use Rattle.duplicates_engine.specs.Causes.{TellsOpen, TellsRead, TellsRefusal, TellsWrite};

use bloom_growing::GrowingError;
use bloom_plain::FilterError;
use std::io;
use std::io::ErrorKind;
use thiserror::Error;

/// Why a run ends early. The lines before are done, and those to be written among them were
/// written, at `Output` as far as the writer took them.
#[derive(Clone, Copy, Debug, PartialEq, Eq, Drop, Error)]
pub enum Fault {
    /// The line with this number in its input is longer than a line may be. Lines count from 1; the
    /// count stays at 2^64 - 1.
    #[error("line {0} is too long")]
    TooLong(u64),
    /// Out of memory.
    #[error("out of memory")]
    Memory,
    /// The sieve can take no more lines.
    #[error("the filter can take no more lines")]
    Full,
    /// An input can't be opened.
    #[error("it can't be opened: {0}")]
    Open(ErrorKind),
    /// A read failed.
    #[error("it can't be read: {0}")]
    Input(ErrorKind),
    /// A write or a flush failed.
    #[error("the output can't be written: {0}")]
    Output(ErrorKind),
}

impl Fault {
    /// The fault of a reader of lines.
    pub fn of_reader(error: io::Error) -> Fault
        ensures { TellsRead (error_kind error) result }
    {
        match error.kind() {
            ErrorKind::OutOfMemory => Fault::Memory,
            kind => Fault::Input(kind),
        }
    }

    /// The fault of a sieve.
    pub fn of_sieve(error: GrowingError) -> Fault
        ensures { TellsRefusal error result }
    {
        match error {
            GrowingError::Filter(FilterError::Memory) => Fault::Memory,
            _ => Fault::Full,
        }
    }

    /// The fault of an open.
    pub fn of_open(error: io::Error) -> Fault
        ensures { TellsOpen (error_kind error) result }
    {
        match error.kind() {
            ErrorKind::OutOfMemory => Fault::Memory,
            kind => Fault::Open(kind),
        }
    }

    /// The fault of a writer. A write is never out of memory.
    pub fn of_writer(error: io::Error) -> Fault
        ensures { TellsWrite (error_kind error) result }
    {
        Fault::Output(error.kind())
    }
}
