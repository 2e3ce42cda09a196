//! What is reported about a filter.
ghost use Rattle.std.specs.Prelude.{◌≡◌, ◌≤◌, ◌<◌, ◌*◌, ◌/◌, ◌^◌, IfOk, string_bytes};
ghost use Rattle.std.specs.Int.{div_ceil};
ghost use Rattle.summaries_engine.specs.Facts.{TellsFilter, billionths_text, estimates_text, form_text, items_text, key_text, lines_text, rate_of_text, set_text, share_of};
ghost use Rattle.summaries_engine.specs.Kinds.{parts_of};

use crate::form::Form;
use crate::kinds::AnyFilter;
use fastbloom::{BloomFilter, Estimate};
use std::alloc::{AllocError, Global};

/// What a form is called.
pub(crate) fn name_of(form: Form) -> &'static str
    ensures { result.now ≡ form_text form }
{
    match form {
        Form::Sealed => "file, sealed",
        Form::Unsealed => "file, no seal",
        Form::Json => "JSON",
    }
}

// The line of a key: its sixteen bytes, the lowest of each word first.
fn key_line(alloc: Global, k0: u64, k1: u64) -> Result<String, AllocError>
    ensures { IfOk result (λ text. string_bytes text ≡ key_text k0 k1) }
{
    let (low, high) = (k0.swap_bytes(), k1.swap_bytes());
    format!(in alloc; "key: {low:016x}{high:016x}\n")
}

// The share of some bits in all, in hundredths of a percent, rounded half up.
fn share(ones: usize, bits: usize) -> u64
    requires some { 0 < bits }
    requires part { ones ≤ bits }
    ensures { result ≡ share_of ones bits }
{
    let share = (ones as u128 * 10_000 + bits as u128 / 2) / bits as u128;
    share as u64
}

// The line of the bits that are set.
fn set_line(alloc: Global, ones: usize, share: u64) -> Result<String, AllocError>
    ensures { IfOk result (λ text. string_bytes text ≡ set_text ones share) }
{
    let (whole, part) = (share / 100, share % 100);
    format!(in alloc; "bits set: {ones} ({whole}.{part:02} %)\n")
}

/// The bounds of a number of items.
///
/// # Errors
/// Out of memory.
pub fn items_of(alloc: Global, items: Estimate) -> Result<String, AllocError>
    ensures { IfOk result (λ text. string_bytes text ≡ items_text items) }
{
    let low = items.low();
    match items.high() {
        Some(high) => format!(in alloc; "{low} to {high}"),
        None => format!(in alloc; "{low} or more"),
    }
}

/// A fraction in units of 2^-63, in billionths rounded down.
pub(crate) fn billionths_below(part: u64) -> u64
    requires { part ≤ 2 ^ 63 }
    ensures { result ≡ part * 10 ^ 9 / 2 ^ 63 }
{
    let billionths = (part as u128 * 1_000_000_000) / (1 << 63);
    billionths as u64
}

/// A fraction in units of 2^-63, in billionths rounded up.
pub(crate) fn billionths_above(part: u64) -> u64
    requires { part ≤ 2 ^ 63 }
    ensures { result ≡ div_ceil (part * 10 ^ 9) (2 ^ 63) }
{
    let billionths = (part as u128 * 1_000_000_000).div_ceil(1 << 63);
    billionths as u64
}

/// A fraction in billionths, with nine digits behind the point.
pub(crate) fn fraction_of(alloc: Global, billionths: u64) -> Result<String, AllocError>
    ensures { IfOk result (λ text. string_bytes text ≡ billionths_text billionths) }
{
    let (whole, part) = (billionths / 1_000_000_000, billionths % 1_000_000_000);
    format!(in alloc; "{whole}.{part:09}")
}

// The lines that tell a filter of either kind.
#[tactic(auto, unfolding(crate::specs::Facts::lines_text))]
fn lines_of(alloc: Global, filter: &AnyFilter, form: Form) -> Result<String, AllocError>
    ensures { IfOk result (λ text. string_bytes text ≡ lines_text (parts_of filter.now) form) }
{
    let (bits, hashes) = (filter.num_bits(), filter.num_hashes());
    let (k0, k1) = filter.hasher().key();
    let key = key_line(alloc, k0, k1)?;
    let ones = filter.count_ones();
    let set = set_line(alloc, ones, share(ones, bits))?;
    let name = name_of(form);
    format!(in alloc; "form: {name}\nbits: {bits}\nhashes: {hashes}\n{key}{set}")
}

// The line of a filter's rate of false positives as it is.
#[tactic(auto, unfolding(crate::specs::Facts::rate_of_text))]
fn rate_line(alloc: Global, filter: &BloomFilter) -> Result<String, AllocError>
    ensures { IfOk result (λ text. string_bytes text ≡ rate_of_text filter.now) }
{
    let rate = filter.false_pos_now();
    let (low, high) = (billionths_below(rate.low()), billionths_above(rate.high()));
    let (low, high) = (fraction_of(alloc, low)?, fraction_of(alloc, high)?);
    format!(in alloc; "false positive rate: {low} to {high}\n")
}

// The lines that tell a Bloom filter besides: the bounds of its items, and of its rate as it is.
#[tactic(auto, unfolding(crate::specs::Facts::estimates_text))]
fn estimates_of(alloc: Global, filter: &BloomFilter, items: Estimate) -> Result<String, AllocError>
    ensures { IfOk result (λ text. string_bytes text ≡ estimates_text filter.now items) }
{
    let (items, rate) = (items_of(alloc, items)?, rate_line(alloc, filter)?);
    format!(in alloc; "items: {items}\n{rate}")
}

/// Lines that tell a filter's form, its numbers of bits and of hashes, the sixteen bytes of its
/// key, and how many bits are set, with their share in percent; of a Bloom filter also the bounds
/// of its items and of its rate of false positives as it is. These estimates aren't true of a
/// blocked filter, of which the lines tell the kind.
///
/// # Errors
/// Out of memory.
pub fn facts_of(alloc: Global, filter: &AnyFilter, form: Form) -> Result<String, AllocError>
    ensures { IfOk result (λ text. TellsFilter filter.now form (string_bytes text)) }
{
    let lines = lines_of(alloc, filter, form)?;
    match filter {
        AnyFilter::Classic(filter) => {
            let estimates = estimates_of(alloc, filter, filter.estimated_items())?;
            format!(in alloc; "{lines}{estimates}")
        }
        AnyFilter::Blocked(_) => format!(in alloc; "kind: blocked\n{lines}"),
    }
}
