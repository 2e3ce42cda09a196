//! Two bounds of a fraction.
ghost use Rattle.std.specs.Prelude.{◌^◌, ◌≤◌};

/// Two bounds of a fraction of one whole, in units of 2^-63.
#[derive(Clone, Copy, Debug, PartialEq, Eq)]
pub struct Bracket {
    low: u64,
    high: u64,
    pub ghost ordered: { low ≤ high },
    pub ghost in_range: { high ≤ 2 ^ 63 },
}

impl Bracket {
    ghost use Rattle.std.specs.Prelude.{◌≡◌, ◌^◌, ◌≤◌};
    ghost use Rattle.bloom_parts.specs.Brackets.{low_of, high_of};

    /// The bracket of these bounds.
    pub fn new(low: u64, high: u64) -> Self
        requires ordered { low ≤ high }
        requires in_range { high ≤ 2 ^ 63 }
        ensures low { low_of result ≡ low }
        ensures high { high_of result ≡ high }
    {
        Bracket { low, high }
    }

    /// The lower bound.
    pub fn low(&self) -> u64
        ensures { result ≡ low_of self.now }
    {
        self.low
    }

    /// The upper bound.
    pub fn high(&self) -> u64
        ensures { result ≡ high_of self.now }
    {
        self.high
    }
}
