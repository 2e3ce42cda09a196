//! Why a filter that grows can't have its next filter, or one that rotates can't be made.
use bloom_parts::error::FilterError;
use std::alloc::AllocError;
use thiserror::Error;

/// Why a filter that grows can't have its first or its next filter, or one that rotates its two. Of
/// several reasons the first is reported, in the order of the variants. After a refusal every
/// filter is as it was before the call.
#[derive(Clone, Copy, Debug, PartialEq, Eq, Drop, Error)]
pub enum GrowingError {
    /// The rate can't be halved, since its lower part would be 2^64 or more.
    #[error("lower part of the rate too large")]
    RateOverflow,
    /// The room can't be doubled, since it would be 2^64 items or more.
    #[error("too many items")]
    TooManyItems,
    /// The builders refuse the filter: `SizeOverflow`, `TooManyWords` or `Memory`.
    #[error(transparent)]
    Filter(FilterError),
}

impl From<FilterError> for GrowingError {
    ghost use Rattle.std.specs.Prelude.{◌≡◌};
    ghost use Rattle.bloom_growing.specs.declared.growing.error.GrowingError.TheVariants.{Filter};

    ghost from_gives = { λ refusal e. e ≡ Filter refusal };

    fn from(refusal: FilterError) -> Self {
        GrowingError::Filter(refusal)
    }
}

impl From<AllocError> for GrowingError {
    ghost use Rattle.std.specs.Prelude.{◌≡◌};
    ghost use Rattle.bloom_parts.specs.declared.error.FilterError.TheVariants.{Memory};
    ghost use Rattle.bloom_growing.specs.declared.growing.error.GrowingError.TheVariants.{Filter};

    ghost from_gives = { λ _ e. e ≡ Filter Memory };

    fn from(_error: AllocError) -> Self {
        GrowingError::Filter(FilterError::Memory)
    }
}
