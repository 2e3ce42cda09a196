//! What is reported about two filters.
ghost use Rattle.std.specs.Prelude.{◌≡◌, IfErr, IfOk, string_bytes};
ghost use Rattle.fastbloom.specs.Filter.{SameShape};
ghost use Rattle.fastbloom.specs.Ones.{ones_of, ones_of_either};
ghost use Rattle.summaries_engine.specs.Comparing.{ComparesNamed, StopsComparing, TellsBoth, TellsTwo, bits_text, compared_text, least_share, likeness_text, most_share, ones_of_both};
ghost use Rattle.summaries_engine.specs.Refusals.{IsUnitable};

use crate::facts::items_of;
use crate::kinds::AnyFilter;
use crate::shards::{Shelf, misfit};
use crate::stop::Stop;
use crate::unions::check_fit;
use bloom_parts::slices;
use fastbloom::{
    BlockedBloomFilter, BloomFilter, Bracket, Estimate, estimated_common, estimated_part,
};
use std::alloc::{AllocError, Global};

// What is one in a bracket.
const WHOLE: u128 = 1 << 63;

// The lower bound of a part in hundredths of a percent, rounded down.
fn least_of(part: Bracket) -> u64
    ensures { result ≡ least_share part }
{
    (part.low() as u128 * 10_000 / WHOLE) as u64
}

// The upper bound of a part in hundredths of a percent, rounded up.
fn most_of(part: Bracket) -> u64
    ensures { result ≡ most_share part }
{
    (part.high() as u128 * 10_000).div_ceil(WHOLE) as u64
}

// The line of a likeness, of which these are the bounds in hundredths of a percent.
fn likeness_line(alloc: Global, least: u64, most: u64) -> Result<String, AllocError>
    ensures { IfOk result (λ text. string_bytes text ≡ likeness_text least most) }
{
    let (low, low_part) = (least / 100, least % 100);
    let (high, high_part) = (most / 100, most % 100);
    format!(in alloc; "likeness: {low}.{low_part:02} to {high}.{high_part:02} %\n")
}

// The lines of the estimates of two filters, of their union and of what they have in common, and of
// the part that this is.
fn lines_of(
    alloc: Global,
    first: Estimate,
    second: Estimate,
    all: Estimate,
    common: Estimate,
    part: Bracket,
) -> Result<String, AllocError>
    ensures { IfOk result
        (λ text. string_bytes text ≡ compared_text first second all common part) }
{
    let likeness = likeness_line(alloc, least_of(part), most_of(part))?;
    let (first, second) = (items_of(alloc, first)?, items_of(alloc, second)?);
    let (all, common) = (items_of(alloc, all)?, items_of(alloc, common)?);
    format!(in alloc;
        "first: {first}\nsecond: {second}\nunion: {all}\ncommon: {common}\n{likeness}"
    )
}

/// Lines that tell how many items two Bloom filters have, how many their union has and how many
/// they have in common, and which part of all items that is, in percent. Each is two bounds.
///
/// # Errors
/// Out of memory.
pub fn compared(
    alloc: Global,
    first: &BloomFilter,
    second: &BloomFilter,
) -> Result<String, AllocError>
    requires { SameShape first.now second.now }
    ensures { IfOk result (λ text. TellsBoth first.now second.now (string_bytes text)) }
{
    let (one, other) = (first.estimated_items(), second.estimated_items());
    let all = first.estimated_union(second);
    let common = estimated_common(one, other, all);
    lines_of(alloc, one, other, all, common, estimated_part(common, all))
}

// The lines of how many bits are set in each of two filters, in either and in both.
fn bit_lines_of(
    alloc: Global,
    first: usize,
    second: usize,
    either: usize,
    both: usize,
) -> Result<String, AllocError>
    ensures { IfOk result (λ text. string_bytes text ≡ bits_text first second either both) }
{
    format!(in alloc;
        "bits set in first: {first}\nbits set in second: {second}\n\
         bits set in union: {either}\nbits set in both: {both}\n"
    )
}

// How many bits are set in either of two blocked filters.
fn ones_in_either(first: &BlockedBloomFilter, second: &BlockedBloomFilter) -> usize
    requires { SameShape first.now second.now }
    ensures { result ≡ ones_of_either first.now second.now }
{
    slices::count_either(first.as_slice(), second.as_slice())
}

// How many bits are set in both.
fn ones_in_both(first: &BlockedBloomFilter, second: &BlockedBloomFilter) -> usize
    requires { SameShape first.now second.now }
    ensures { result ≡ ones_of_both first.now second.now }
{
    let (one, other) = (first.count_ones(), second.count_ones());
    let either = ones_in_either(first, second);
    one - (either - other)
}

/// Lines that tell how many bits are set in each of two blocked filters, in either and in both. The
/// estimates of Bloom filters aren't true of them.
///
/// # Errors
/// Out of memory.
pub fn compared_blocked(
    alloc: Global,
    first: &BlockedBloomFilter,
    second: &BlockedBloomFilter,
) -> Result<String, AllocError>
    requires { SameShape first.now second.now }
    ensures { IfOk result (λ text. string_bytes text
        ≡ bits_text (ones_of first.now) (ones_of second.now)
        (ones_of_either first.now second.now) (ones_of_both first.now second.now)) }
{
    let (either, both) = (ones_in_either(first, second), ones_in_both(first, second));
    bit_lines_of(alloc, first.count_ones(), second.count_ones(), either, both)
}

// The lines that tell two filters of one kind and shape.
fn lines_of_two(alloc: Global, first: &AnyFilter, second: &AnyFilter) -> Result<String, AllocError>
    requires { IsUnitable first.now second.now }
    ensures { IfOk result (λ text. TellsTwo first.now second.now (string_bytes text)) }
{
    match first {
        AnyFilter::Classic(first) => match second {
            AnyFilter::Classic(second) => compared(alloc, first, second),
            AnyFilter::Blocked(_) => unreachable!(),
        },
        AnyFilter::Blocked(first) => match second {
            AnyFilter::Classic(_) => unreachable!(),
            AnyFilter::Blocked(second) => compared_blocked(alloc, first, second),
        },
    }
}

/// The lines that tell the filters of two names: of Bloom filters those of `compared`, and of
/// blocked ones those of `compared_blocked`.
///
/// # Errors
/// Out of memory, and as `unite_named`: at the first name whose filter can't be loaded, or where
/// the second has another kind, shape or key than the first.
pub fn compare_named<S: Shelf>(
    alloc: Global,
    shelf: &S,
    one: &str,
    other: &str,
) -> Result<String, Stop>
    ensures tells { IfOk result (λ text.
        ComparesNamed (S.has shelf.now) one.now other.now (string_bytes text)) }
    ensures stops { IfErr result
        (StopsComparing (S.has shelf.now) (S.fails shelf.now) one.now other.now) }
{
    let first = shelf.load(one)?;
    let second = shelf.load(other)?;
    if let Err(how) = check_fit(&first, &second) {
        return Err(misfit(other, one, how));
    }
    match lines_of_two(alloc, &first, &second) {
        Ok(text) => Ok(text),
        Err(_) => Err(Stop::Memory),
    }
}
