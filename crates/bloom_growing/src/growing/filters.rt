//! The filters that a growing one consists of: how each is made, and what is asked of them.
ghost use Rattle.std.specs.Prelude.{◌≡◌, ℕ, ◌*◌, ◌^◌, ◌<◌, ◌≤◌, map, max, IfOk, OnErr, IfErr};
ghost use Rattle.std.specs.Result.{result_err};
ghost use Rattle.bloom_parts.specs.declared.math.rate.Rate.{Rate};
ghost use Rattle.bloom_parts.specs.Rates.{num_of, den_of};
ghost use Rattle.bloom_plain.specs.Builders.{RefusesAs};
ghost use Rattle.bloom_growing.specs.Growing as growing;
ghost use Rattle.bloom_growing.specs.Growing.{HasSomeKey, IsMadeAs, IsNextRate, rate_start, setup_of};
ghost use Rattle.bloom_growing.specs.GrowingInserts.{RefusesNumber};
ghost use Rattle.bloom_growing.specs.Kinds.{IsMadeIn, IsSizeIn, size_refusal_in};
ghost use Rattle.bloom_growing.specs.declared.growing.error.GrowingError.TheVariants.{RateOverflow};

use super::GrowingError;
use crate::growable::GrowableFilter;
use bloom_parts::error::FilterError;
use bloom_parts::hasher::DefaultHasher;
use bloom_parts::math::Rate;
use std::alloc::Global;

// Half of a rate, with the same upper part.
fn half(rate: Rate) -> Result<Rate, GrowingError>
    ensures num { IfOk result (λ half. num_of half ≡ num_of rate) }
    ensures den { IfOk result (λ half. den_of half ≡ den_of rate * 2) }
    ensures fits { IfOk result (λ half. den_of half < 2 ^ 64) }
    ensures refused { OnErr result (2 ^ 64 ≤ den_of rate * 2) }
    ensures error { IfErr result (λ e. e ≡ RateOverflow) }
{
    match rate.den().checked_mul(2) {
        Some(den) => Ok(Rate::new(rate.num(), den)?),
        None => Err(GrowingError::RateOverflow),
    }
}

// Another hasher with the same key.
fn copy_of(hasher: &DefaultHasher) -> DefaultHasher
    requires { HasSomeKey hasher.now }
    ensures { result ≡ hasher.now }
{
    let (k0, k1) = hasher.key();
    DefaultHasher::keyed(k0, k1)
}

// The filter that the builders make for this many items at this rate, under the same key.
fn make<F: GrowableFilter>(
    alloc: Global,
    rate: Rate,
    items: usize,
    hasher: &DefaultHasher,
) -> Result<F, FilterError>
    requires { HasSomeKey hasher.now }
    ensures made { IfOk result (λ filter.
        IsMadeIn F.kind (rate_start rate hasher.now) items (F.seen filter)) }
    ensures refused { (bits : ℕ) × IsSizeIn F.kind (max 1 items) (num_of rate) (den_of rate) bits
        × RefusesAs (size_refusal_in F.kind bits) (result_err result) }
{
    F::make(alloc, rate, items, copy_of(hasher))
}

// The next filter, with its rate, which is half of the last one, and its room.
pub(crate) fn make_next<F: GrowableFilter>(
    alloc: Global,
    last: Rate,
    room: Option<usize>,
    hasher: &DefaultHasher,
) -> Result<(F, Rate, usize), GrowingError>
    requires { HasSomeKey hasher.now }
    ensures made { (rate : Rate) (first i : ℕ) → IsNextRate rate first i last room
        → IfOk result (λ made. IsMadeAs F.kind (setup_of rate first hasher.now) i
        (F.seen made.0) made.1 made.2) }
    ensures refused { (rate : Rate) (first i : ℕ) → IsNextRate rate first i last room
        → RefusesNumber F.kind rate first i (result_err result) }
{
    let rate = half(last)?;
    let Some(room) = room else {
        return Err(GrowingError::TooManyItems);
    };
    let filter = make(alloc, rate, room, hasher)?;
    Ok((filter, rate, room))
}

// Whether one of these filters contains a hash.
#[inline(always)]
pub(crate) fn any_contains<F: GrowableFilter>(filters: &[F], hash: u64) -> bool
    ensures { result ≡ growing.any_contains F.kind (map F.seen filters.now) hash }
{
    'filters: for filter in filters {
        if filter.contains_hash(hash) {
            return true;
        }
    }
    false
}
