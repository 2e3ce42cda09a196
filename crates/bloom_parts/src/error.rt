//! Why a call was refused.
ghost use Rattle.std.specs.Prelude.{◌≡◌};
ghost use Rattle.bloom_parts.specs.Codes.{code_of};

use std::alloc::{AllocError, AllocFailed};
use thiserror::Error;

/// Why a call was refused. After a refusal every filter is as it was before the call.
#[derive(Clone, Copy, Debug, PartialEq, Eq, Drop, Error)]
pub enum FilterError {
    /// Zero bits were asked for.
    #[error("zero bits")]
    ZeroBits,
    /// No word was given.
    #[error("no words")]
    EmptyWords,
    /// There are more than 2^58 - 1 words.
    #[error("too many words")]
    TooManyWords,
    /// A part of a rate is zero.
    #[error("rate with a zero part")]
    ZeroRate,
    /// A size is 2^64 bits or more.
    #[error("size too large")]
    SizeOverflow,
    /// Out of memory.
    #[error("no memory")]
    Memory,
    /// A stored hash count is 2^32 - 1.
    #[error("hash count too large")]
    HashCount,
    /// A thread couldn't be started.
    #[error("no worker")]
    Worker,
}

impl FilterError {
    /// The number of the refusal, from 1 to 8 in the order of the variants.
    pub fn code(&self) -> u8
        ensures { result ≡ code_of self.now }
    {
        match self {
            FilterError::ZeroBits => 1,
            FilterError::EmptyWords => 2,
            FilterError::TooManyWords => 3,
            FilterError::ZeroRate => 4,
            FilterError::SizeOverflow => 5,
            FilterError::Memory => 6,
            FilterError::HashCount => 7,
            FilterError::Worker => 8,
        }
    }
}

impl From<AllocError> for FilterError {
    ghost use Rattle.bloom_parts.specs.declared.error.FilterError.TheVariants.{Memory};

    ghost from_gives = { λ _ e. e ≡ Memory };

    fn from(_error: AllocError) -> Self {
        FilterError::Memory
    }
}

impl<T: Drop> From<AllocFailed<T>> for FilterError {
    ghost use Rattle.bloom_parts.specs.declared.error.FilterError.TheVariants.{Memory};

    ghost from_gives = { λ _ e. e ≡ Memory };

    fn from(_refused: AllocFailed<T>) -> Self {
        FilterError::Memory
    }
}
