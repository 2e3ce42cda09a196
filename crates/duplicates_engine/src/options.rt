//! What a run is to do.
ghost use Rattle.std.specs.Prelude.{◌≡◌};
ghost use Rattle.duplicates_engine.specs.Longer.{is_longer, limit_of};

/// Which lines are written.
#[derive(Clone, Copy)]
pub enum Written {
    /// Those that are certainly new.
    New,
    /// Those that may have come before.
    HeldBack,
    /// None: the counts are all that is wanted.
    Nothing,
}

/// What a run is to do.
#[derive(Clone, Copy)]
pub struct Options {
    /// How many bytes a line may have, without its end.
    pub longest: usize,
    /// Whether a longer line is passed on with the new ones, unsifted, where it ends the run
    /// otherwise. It is read whole.
    pub skips_longer: bool,
    pub written: Written,
    /// Past how many new lines a warning is told, if it is to be told at all.
    pub most: Option<u64>,
}

impl Options {
    /// How many bytes a line may have that is read.
    pub(crate) fn limit(self) -> usize
        ensures { result ≡ limit_of self }
    {
        if self.skips_longer {
            usize::MAX
        } else {
            self.longest
        }
    }

    /// Whether a line has more bytes than a line may have.
    pub(crate) fn is_longer(self, line: &[u8]) -> bool
        ensures { result ≡ is_longer self.longest line.now }
    {
        line.len() > self.longest
    }
}
