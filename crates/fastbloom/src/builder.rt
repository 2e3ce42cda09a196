//! Builders of filters that threads share. They are those of plain filters up to the last call.
mod atomic_bits;
mod atomic_rate;

pub use atomic_bits::AtomicBuilderWithBits;
pub use atomic_rate::AtomicBuilderWithFalsePositiveRate;
