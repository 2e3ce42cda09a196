//! Why words are no lines.
ghost use Rattle.std.specs.Prelude.{◌≡◌};
ghost use Rattle.bloom_blocked.specs.LineRefusals.{lines_code_of};

use thiserror::Error;

/// Why words are no lines of a filter. Of several reasons the first is reported.
#[derive(Clone, Copy, Debug, PartialEq, Eq, Drop, Error)]
pub enum LinesError {
    /// No word was given.
    #[error("no words")]
    EmptyWords,
    /// There are more than 2^58 - 1 words.
    #[error("too many words")]
    TooManyWords,
    /// The number of words isn't a multiple of eight.
    #[error("words that are no whole lines")]
    PartOfALine,
}

impl LinesError {
    /// The number of the refusal. Where a `FilterError` has the same name, it has the same number.
    pub fn code(&self) -> u8
        ensures { result ≡ lines_code_of self.now }
    {
        match self {
            LinesError::EmptyWords => 2,
            LinesError::TooManyWords => 3,
            LinesError::PartOfALine => 16,
        }
    }
}
