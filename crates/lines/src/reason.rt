//! Why a stream failed.

use std::fmt;
use std::io::ErrorKind;

/// Shows why a read or a write failed, or why a file can't be opened. All programs tell it by this.
///
/// A closed descriptor and a failed device have no kind of their own; the text names both.
#[derive(Clone, Copy, Debug, PartialEq, Eq)]
pub struct Reason(pub ErrorKind);

impl fmt::Display for Reason {
    fn fmt<W: fmt::Write>(&self, f: &mut fmt::Formatter<W>) -> fmt::Result {
        match self.0 {
            ErrorKind::NotFound => f.write_str("there is no such file"),
            ErrorKind::IsADirectory => f.write_str("it is a folder"),
            ErrorKind::StorageFull => f.write_str("no space is left"),
            ErrorKind::Uncategorized => f.write_str("bad file descriptor, or input/output error"),
            kind => write!(f, "{kind}"),
        }
    }
}
