//! Rates of false positives, as fractions.
ghost use Rattle.std.specs.Prelude.{◌<◌};

use crate::error::FilterError;

/// A rate of false positives: a fraction above zero, with the parts that it was given.
#[derive(Clone, Copy, Debug)]
pub struct Rate {
    num: u64,
    den: u64,
    pub ghost num_above: { 0 < num },
    pub ghost den_above: { 0 < den },
}

impl Rate {
    ghost use Rattle.std.specs.Prelude.{◌≡◌, IfOk};
    ghost use Rattle.std.specs.Result.{result_err};
    ghost use Rattle.bloom_parts.specs.Rates.{num_of, den_of, rate_refusal};

    /// The rate `num / den`, which may be above one.
    ///
    /// # Errors
    /// `ZeroRate` where a part is zero.
    pub fn new(num: u64, den: u64) -> Result<Rate, FilterError>
        ensures num { IfOk result (λ rate. num_of rate ≡ num) }
        ensures den { IfOk result (λ rate. den_of rate ≡ den) }
        ensures refused { result_err result ≡ rate_refusal num den }
    {
        if num == 0 || den == 0 {
            return Err(FilterError::ZeroRate);
        }
        Ok(Rate { num, den })
    }

    /// The upper part, as given.
    pub fn num(&self) -> u64
        ensures { result ≡ num_of self.now }
    {
        self.num
    }

    /// The lower part, as given.
    pub fn den(&self) -> u64
        ensures { result ≡ den_of self.now }
    {
        self.den
    }
}

impl PartialEq for Rate {
    ghost use Rattle.std.specs.Cmp.{partial_equiv_from_equiv};
    ghost use Rattle.bloom_parts.specs.Rates.{same_rate};
    ghost use Rattle.bloom_parts.specs.RateLaws.{same_rate-laws};

    ghost eq = { same_rate };

    ghost laws = { partial_equiv_from_equiv same_rate-laws };

    fn eq(&self, other: &Self) -> bool {
        let left = self.num as u128 * other.den as u128;
        let right = other.num as u128 * self.den as u128;
        left == right
    }
}

impl Eq for Rate {
    ghost use Rattle.bloom_parts.specs.RateLaws.{same_rate-laws};

    ghost laws = { same_rate-laws };
}
