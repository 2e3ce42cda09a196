//! Why bytes are no file of a filter.
ghost use Rattle.std.specs.Prelude.{◌≡◌};
ghost use Rattle.bloom_files.specs.FileCodes.{file_code_of};

use std::alloc::{AllocError, AllocFailed};
use std::io::ErrorKind;
use thiserror::Error;

/// Why bytes are no file of a filter, or why it isn't read. Of several reasons the first is
/// reported, in the order of the variants.
#[derive(Clone, Copy, Debug, PartialEq, Eq, Drop, Error)]
pub enum FileError {
    /// The file has fewer than eight bytes, or doesn't begin with `fbloom` and a zero byte.
    #[error("not a filter")]
    NotAFilter,
    /// The version isn't `1`.
    #[error("a version of the file that isn't known")]
    Version,
    /// The number of hashes is 0, or 2^32 or more.
    #[error("hash count out of range")]
    HashCount,
    /// The number of words is 0.
    #[error("no words")]
    EmptyWords,
    /// There are more than 2^58 - 1 words.
    #[error("too many words")]
    TooManyWords,
    /// The file ends before its last word.
    #[error("the file is cut")]
    Cut,
    /// Bytes follow the last word.
    #[error("the file goes on after its last word")]
    TooLong,
    /// A byte that must be zero isn't.
    #[error("a reserved byte isn't zero")]
    Reserved,
    /// The words are lines, and the filter that is read has none.
    #[error("the file has a blocked filter")]
    Blocked,
    /// The words are no lines, and the filter that is read has lines.
    #[error("the file's filter isn't blocked")]
    NotBlocked,
    /// The words are lines, and their number isn't a multiple of eight.
    #[error("words that are no whole lines")]
    PartOfALine,
    /// The seal is that of another file.
    #[error("the seal is wrong: the file was changed")]
    Seal,
    /// Out of memory.
    #[error("no memory")]
    Memory,
    /// A read failed.
    #[error("input failed: {0}")]
    Input(ErrorKind),
}

impl FileError {
    /// The number of the error. Where a `FilterError` has the same name, it has the same number.
    pub fn code(&self) -> u8
        ensures { result ≡ file_code_of self.now }
    {
        match self {
            FileError::EmptyWords => 2,
            FileError::TooManyWords => 3,
            FileError::Memory => 6,
            FileError::HashCount => 7,
            FileError::NotAFilter => 9,
            FileError::Version => 10,
            FileError::Cut => 11,
            FileError::TooLong => 12,
            FileError::Reserved => 13,
            FileError::Seal => 14,
            FileError::Input(_) => 15,
            FileError::PartOfALine => 16,
            FileError::Blocked => 17,
            FileError::NotBlocked => 18,
        }
    }
}

impl From<AllocError> for FileError {
    ghost use Rattle.bloom_files.specs.declared.error.FileError.TheVariants.{Memory};

    ghost from_gives = { λ _ e. e ≡ Memory };

    fn from(_error: AllocError) -> Self {
        FileError::Memory
    }
}

impl<T: Drop> From<AllocFailed<T>> for FileError {
    ghost use Rattle.bloom_files.specs.declared.error.FileError.TheVariants.{Memory};

    ghost from_gives = { λ _ e. e ≡ Memory };

    fn from(_refused: AllocFailed<T>) -> Self {
        FileError::Memory
    }
}
