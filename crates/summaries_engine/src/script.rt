//! What is reported about a filter to scripts: one line of JSON.
ghost use Rattle.std.specs.Prelude.{◌≡◌, ◌++◌, IfOk, string_bytes};
ghost use Rattle.summaries_engine.specs.Facts.{bytes_text};
ghost use Rattle.summaries_engine.specs.Kinds.{parts_of};
ghost use Rattle.summaries_engine.specs.Scripts.{TellsScript, items_script, parts_script, rate_script};

use crate::facts::{billionths_above, billionths_below, fraction_of, name_of};
use crate::form::Form;
use crate::kinds::AnyFilter;
use fastbloom::{BloomFilter, Estimate};
use std::alloc::{AllocError, Global};

// The sixteen bytes of a key, the lowest of each word first.
fn digits_of(alloc: Global, key: (u64, u64)) -> Result<String, AllocError>
    ensures { IfOk result (λ text. string_bytes text ≡ bytes_text key.0 ++ bytes_text key.1) }
{
    let (low, high) = (key.0.swap_bytes(), key.1.swap_bytes());
    format!(in alloc; "{low:016x}{high:016x}")
}

// The members of a filter of either kind.
#[tactic(auto, unfolding(crate::specs::Scripts::parts_script))]
fn members_of(alloc: Global, filter: &AnyFilter, form: Form) -> Result<String, AllocError>
    ensures { IfOk result (λ text. string_bytes text ≡ parts_script (parts_of filter.now) form) }
{
    let (form, bits, hashes) = (name_of(form), filter.num_bits(), filter.num_hashes());
    let key = digits_of(alloc, filter.hasher().key())?;
    let ones = filter.count_ones();
    format!(in alloc;
        "\"form\":\"{form}\",\"bits\":{bits},\"hashes\":{hashes},\"key\":\"{key}\",\
        \"bits_set\":{ones}"
    )
}

// The members of a Bloom filter's items.
fn items_of(alloc: Global, items: Estimate) -> Result<String, AllocError>
    ensures { IfOk result (λ text. string_bytes text ≡ items_script items) }
{
    let low = items.low();
    match items.high() {
        Some(high) => format!(in alloc; ",\"items_low\":{low},\"items_high\":{high}"),
        None => format!(in alloc; ",\"items_low\":{low},\"items_high\":null"),
    }
}

// The members of a Bloom filter's rate of false positives as it is.
#[tactic(auto, unfolding(crate::specs::Scripts::rate_script))]
fn rate_of(alloc: Global, filter: &BloomFilter) -> Result<String, AllocError>
    ensures { IfOk result (λ text. string_bytes text ≡ rate_script filter.now) }
{
    let rate = filter.false_pos_now();
    let (low, high) = (billionths_below(rate.low()), billionths_above(rate.high()));
    let (low, high) = (fraction_of(alloc, low)?, fraction_of(alloc, high)?);
    format!(in alloc; ",\"rate_low\":{low},\"rate_high\":{high}")
}

// The members of a Bloom filter besides.
fn estimates_of(alloc: Global, filter: &BloomFilter, items: Estimate) -> Result<String, AllocError>
    ensures { IfOk result (λ text. string_bytes text
        ≡ items_script items ++ rate_script filter.now) }
{
    let (items, rate) = (items_of(alloc, items)?, rate_of(alloc, filter)?);
    format!(in alloc; "{items}{rate}")
}

/// One line of JSON that tells what `facts_of` does.
///
/// # Errors
/// Out of memory.
pub fn script_of(alloc: Global, filter: &AnyFilter, form: Form) -> Result<String, AllocError>
    ensures { IfOk result (λ text. TellsScript filter.now form (string_bytes text)) }
{
    let members = members_of(alloc, filter, form)?;
    match filter {
        AnyFilter::Classic(filter) => {
            let estimates = estimates_of(alloc, filter, filter.estimated_items())?;
            format!(in alloc; "{{\"kind\":\"classic\",{members}{estimates}}}\n")
        }
        AnyFilter::Blocked(_) => format!(in alloc; "{{\"kind\":\"blocked\",{members}}}\n"),
    }
}
