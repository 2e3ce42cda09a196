//! How the words of a file lie.
ghost use Rattle.std.specs.Prelude.{◌≡◌};
ghost use Rattle.bloom_files.specs.FileLayouts.{layout_number};

/// How the words of a file lie.
#[derive(Clone, Copy, Debug, PartialEq, Eq)]
pub enum Layout {
    /// All words are one set of positions.
    Whole,
    /// Eight words are a line of 512 bits, which has all positions of a hash.
    Lines,
}

impl Layout {
    // The number of the layout in the head of a file.
    pub(crate) fn number(self) -> u64
        ensures { result ≡ layout_number self }
    {
        match self {
            Layout::Whole => 0,
            Layout::Lines => 1,
        }
    }
}
