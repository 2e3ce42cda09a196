//! What a run is to be.
use crate::engines::faulty::{ROOMY, Reading, WHOLE, Writing};
use duplicates_engine::Written;
use fastbloom::GrowingError;

/// What a run is to be.
#[derive(Clone, Copy)]
pub(crate) struct Run {
    pub(crate) inputs: &'static [&'static str],
    /// The number of the input whose open fails.
    pub(crate) broken: usize,
    pub(crate) longest: usize,
    pub(crate) skips_longer: bool,
    pub(crate) written: Written,
    /// Past how many new lines it warns.
    pub(crate) most: Option<u64>,
    pub(crate) reading: Reading,
    pub(crate) writing: Writing,
    /// How many lines the sieve takes, and why it refuses the next.
    pub(crate) lines: u64,
    pub(crate) refusal: GrowingError,
}

/// Nothing is odd.
pub(crate) const PLAIN: Run = Run {
    inputs: &["ab\nc\nab\n\nd"],
    broken: 99,
    longest: 9,
    skips_longer: false,
    written: Written::New,
    most: None,
    reading: WHOLE,
    writing: ROOMY,
    lines: 99,
    refusal: GrowingError::RateOverflow,
};

/// Longer lines are passed on.
pub(crate) const PASSING: Run = Run {
    inputs: &["abc\nab\n", "abc\nab\nd"],
    longest: 2,
    skips_longer: true,
    ..PLAIN
};

/// The fourth line is refused, and those that are held back are written.
pub(crate) const LATE: Run = Run {
    written: Written::HeldBack,
    lines: 3,
    ..PLAIN
};
