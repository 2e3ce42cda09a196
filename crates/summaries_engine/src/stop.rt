//! Why a run stopped.
ghost use Rattle.std.specs.Prelude.{◌≡◌, ◌++◌, codes, IfErr, None, OnErr, OnOk};
ghost use Rattle.std.specs.IoError.{error_kind};
ghost use Rattle.anyhow.specs.Error.{IsMadeOf};
ghost use Rattle.summaries_engine.specs.Stops.{IsBad, IsMemory, IsOutput, Says, SaysOver};

use anyhow::anyhow;
use fastbloom::FilterError;
use lines::Reason;
use std::fmt::Display;
use std::io::ErrorKind;
use std::{fmt, io};

/// Why a run stopped, with what is said of it.
#[derive(Drop)]
pub enum Stop {
    /// Out of memory.
    Memory,
    /// An input can't be had, or a read failed.
    Input(anyhow::Error),
    /// An input isn't what it should be.
    Bad(anyhow::Error),
    /// A write failed.
    Output(anyhow::Error),
}

/// What is said, with its causes, on one line.
impl Display for Stop {
    fn fmt<W: fmt::Write>(&self, f: &mut fmt::Formatter<W>) -> fmt::Result {
        match self {
            Stop::Memory => f.write_str("out of memory"),
            Stop::Input(error) => write!(f, "{error:#}"),
            Stop::Bad(error) => write!(f, "{error:#}"),
            Stop::Output(error) => write!(f, "{error:#}"),
        }
    }
}

/// That the words of a program leave this out, which they can only by a fault of the program.
pub fn unsaid(what: &str) -> Stop
    ensures { IsBad (Says (codes "which " ++ (what.now ++ codes "?"))) result }
{
    Stop::Bad(anyhow!("which {what}?"))
}

/// That the words of a program name this more than once, which can be read only once.
pub fn twice(name: &str) -> Stop
    ensures { IsBad (Says (name.now ++ codes ": it can be read only once")) result }
{
    Stop::Bad(anyhow!("{name}: it can be read only once"))
}

/// That an input is the output of a program, too.
pub fn is_output(name: &str) -> Stop
    ensures { IsBad (Says (name.now ++ codes ": it is the output, too")) result }
{
    Stop::Bad(anyhow!("{name}: it is the output, too"))
}

/// That a blocked filter has no JSON text.
pub fn no_json() -> Stop
    ensures { IsBad (Says (codes "a blocked filter isn't written as JSON")) result }
{
    Stop::Bad(anyhow!("a blocked filter isn't written as JSON"))
}

/// Why there is no shape.
pub fn unshaped(error: FilterError) -> Stop
    ensures memory { error ≡ FilterError.Memory → IsMemory result }
    ensures other { ¬ (error ≡ FilterError.Memory) → IsBad (λ said. Unit {0}) result }
{
    match error {
        FilterError::Memory => Stop::Memory,
        error => Stop::Bad(anyhow::Error::from(error)),
    }
}

/// What came of a write, with what is said where it failed.
///
/// # Errors
/// Where it failed.
pub fn written(done: io::Result<()>, said: &'static str) -> Result<(), Stop>
    ensures done { OnOk done (OnErr result ⊥) }
    ensures fails { OnErr done (OnOk result ⊥) }
    ensures said { IfErr result (IsOutput (SaysOver said.now)) }
{
    match done {
        Ok(()) => Ok(()),
        Err(error) => Err(Stop::Output(cause(&error).context(said))),
    }
}

/// Why an output isn't written where a call on its file failed.
pub fn unwritten(name: &str, error: io::Error) -> Stop
    ensures told { error_kind error ≡ ErrorKind.OutOfMemory → IsMemory result }
    ensures other { ¬ (error_kind error ≡ ErrorKind.OutOfMemory)
        → IsOutput (SaysOver (name.now ++ codes ": it can't be written")) result }
{
    if error.kind() == ErrorKind::OutOfMemory {
        return Stop::Memory;
    }
    Stop::Output(cause(&error).context(format_args!("{name}: it can't be written")))
}

/// Why a read or a write failed, in the words that all programs have for it.
pub fn cause(error: &io::Error) -> anyhow::Error
    ensures { IsMadeOf None result }
{
    anyhow!("{}", Reason(error.kind()))
}
