//! Two bounds of a number of items.
ghost use Rattle.std.specs.Prelude.{◌≤◌};
ghost use Rattle.std.specs.Option.{ForSome};

/// Two bounds of a number of items, the upper of which may be missing.
#[derive(Clone, Copy, Debug, PartialEq, Eq)]
pub struct Estimate {
    low: usize,
    high: Option<usize>,
    pub ghost ordered: { ForSome high (λ most. low ≤ most) },
}

impl Estimate {
    ghost use Rattle.std.specs.Prelude.{◌≡◌, ◌≤◌, IfSome};
    ghost use Rattle.bloom_parts.specs.Estimates.{least_of, most_of};

    /// The estimate with these bounds.
    pub fn new(low: usize, high: Option<usize>) -> Self
        requires { IfSome high (λ most. low ≤ most) }
        ensures low { least_of result ≡ low }
        ensures high { most_of result ≡ high }
    {
        Estimate { low, high }
    }

    /// The lower bound.
    pub fn low(&self) -> usize
        ensures { result ≡ least_of self.now }
    {
        self.low
    }

    /// The upper bound, or None where no number of items is too many.
    pub fn high(&self) -> Option<usize>
        ensures { result ≡ most_of self.now }
    {
        self.high
    }
}
