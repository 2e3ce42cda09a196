//! Inputs, one after the other.
ghost use Rattle.std.specs.Prelude.{MatchOption, IfOk, IfErr};
ghost use Rattle.std.specs.IoError.{error_kind};
ghost use Rattle.duplicates_engine.specs.Inputs.{NoneComes, Opens};

use std::io;
use std::io::Read;

/// Inputs that are read one after the other.
pub trait Inputs {
    ghost use Rattle.std.specs.Prelude.{ℕ, List, Option};
    ghost use Rattle.std.specs.declared.io.ErrorKind.{ErrorKind};

    type Input: Read + Drop;

    /// The bytes of each input that comes, the first first, or None where they aren't known.
    ghost coming: { Self → Option (List (List ℕ)) };

    /// What an open that fails does to the inputs, and its kind.
    ghost fails: { Self → Self → ErrorKind → Type 0 };

    /// Opens the next input, if one comes.
    fn open_next(&mut self) -> io::Result<Option<Self::Input>>
        ensures opened { IfOk result (λ found. MatchOption found
            (NoneComes (coming self.old) (coming self.new))
            (λ input. Opens (coming self.old) (coming self.new) (Self.Input.remaining input))) }
        ensures failed { IfErr result (λ error. fails self.old self.new (error_kind error)) };
}
