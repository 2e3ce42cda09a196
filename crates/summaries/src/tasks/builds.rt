//! The task that builds a filter: of what size and kind, and of which keys.
ghost use Rattle.std.specs.Prelude.{IfOk};
ghost use Rattle.summaries_engine.specs.Sizes.{IsEmpty};

use super::{keys_of, write};
use crate::command_line::{BITS, BLOCKED, FILE, HASHES, ITEMS, KEY, RATE, WORKERS, ZERO};
use crate::key_files::{KeyFiles, called_inputs};
use clap::ArgMatches;
use fastbloom::{BlockedBloomFilter, BloomFilter, Rate};
use program_parts::{key_of, rate_of};
use std::alloc::Global;
use std::cell::Cell;
use std::io::Write;
use std::rt::Files;
use std::thread::Threads;
use summaries_engine::{
    AnyFilter, Stop, blocked_for, blocked_with_bits, build, build_alone, classic_for,
    classic_with_bits, unsaid, unshaped,
};

// How large a filter is to be.
#[derive(Clone, Copy)]
enum Size {
    // For this many keys, at a rate.
    Keys(usize, Rate),
    // Of this many bits and hashes.
    Bits(usize, u32),
}

fn size_by_rate(matches: &ArgMatches, items: u64) -> Result<Size, Stop> {
    let Some(text) = matches.get_str(RATE) else {
        return Err(unsaid(RATE));
    };
    let Some(rate) = rate_of(text) else {
        return Err(unsaid(RATE));
    };
    Ok(Size::Keys(items as usize, rate))
}

fn size_by_bits(matches: &ArgMatches) -> Result<Size, Stop> {
    let Some(bits) = matches.get_one::<u64>(BITS) else {
        return Err(unsaid(BITS));
    };
    let Some(hashes) = matches.get_one::<u32>(HASHES) else {
        return Err(unsaid(HASHES));
    };
    Ok(Size::Bits(bits as usize, hashes))
}

// The size that the words ask for: by keys and a rate, or by bits and hashes.
fn size_of(matches: &ArgMatches) -> Result<Size, Stop> {
    match matches.get_one::<u64>(ITEMS) {
        Some(items) => size_by_rate(matches, items),
        None => size_by_bits(matches),
    }
}

// The seed of the key that the words ask for, or of the zero key.
fn seed_of(matches: &ArgMatches) -> u128 {
    match matches.get_str(KEY) {
        Some(text) => key_of(text).unwrap_or(0),
        None => 0,
    }
}

// The empty Bloom filter of a size.
fn empty_classic(alloc: Global, size: Size, seed: &u128) -> Result<BloomFilter, Stop>
    ensures { IfOk result IsEmpty }
{
    let made = match size {
        Size::Keys(keys, rate) => classic_for(alloc, keys, rate, seed),
        Size::Bits(bits, hashes) => classic_with_bits(alloc, bits, hashes, seed),
    };
    match made {
        Ok(empty) => Ok(empty),
        Err(error) => Err(unshaped(error)),
    }
}

// The empty blocked filter of a size.
fn empty_blocked(alloc: Global, size: Size, seed: &u128) -> Result<BlockedBloomFilter, Stop>
    ensures { IfOk result IsEmpty }
{
    let made = match size {
        Size::Keys(keys, rate) => blocked_for(alloc, keys, rate, seed),
        Size::Bits(bits, hashes) => blocked_with_bits(alloc, bits, hashes, seed),
    };
    match made {
        Ok(empty) => Ok(empty),
        Err(error) => Err(unshaped(error)),
    }
}

// An empty Bloom filter, filled by this many workers with the keys of these inputs.
fn fill_classic<const END: u8, R: Files + Input + Eprint + AllocGlobal + Threads + Sync>(
    rt: &R,
    workers: usize,
    empty: BloomFilter,
    files: &KeyFiles<R>,
    names: &[&str],
) -> Result<AnyFilter, Stop>
    requires { IsEmpty empty }
{
    if workers <= 1 {
        return build_alone::<END, _>(rt.alloc(), AnyFilter::Classic(empty), files, names);
    }
    match build::<END, _, _>(rt, rt.alloc(), empty, workers, files, names) {
        Ok(filter) => Ok(AnyFilter::Classic(filter)),
        Err(stop) => Err(stop),
    }
}

// The Bloom filter of the keys of these inputs.
fn classic_of<R: Files + Input + Eprint + AllocGlobal + Threads + Sync>(
    rt: &R,
    matches: &ArgMatches,
    files: &KeyFiles<R>,
    names: &[&str],
) -> Result<AnyFilter, Stop> {
    let empty = empty_classic(rt.alloc(), size_of(matches)?, &seed_of(matches))?;
    let workers = usize::from(matches.get_one::<u16>(WORKERS).unwrap_or(1));
    if matches.get_flag(ZERO) {
        fill_classic::<0, R>(rt, workers, empty, files, names)
    } else {
        fill_classic::<10, R>(rt, workers, empty, files, names)
    }
}

// The blocked filter of the keys of these inputs, which one thread fills.
fn blocked_of<R: Files + Input + Eprint + AllocGlobal>(
    rt: &R,
    matches: &ArgMatches,
    files: &KeyFiles<R>,
    names: &[&str],
) -> Result<AnyFilter, Stop> {
    let empty = empty_blocked(rt.alloc(), size_of(matches)?, &seed_of(matches))?;
    let empty = AnyFilter::Blocked(empty);
    if matches.get_flag(ZERO) {
        build_alone::<0, _>(rt.alloc(), empty, files, names)
    } else {
        build_alone::<10, _>(rt.alloc(), empty, files, names)
    }
}

// Builds the filter of the keys of these inputs, and writes it.
fn build_of<R: Files + Input + Eprint + AllocGlobal + Threads + Sync, W: Write>(
    rt: &R,
    matches: &ArgMatches,
    is_on: bool,
    names: &[&str],
    output: &mut W,
) -> Result<(), Stop> {
    let keys = Cell::new(0);
    let files = keys_of(rt, matches, is_on, &keys);
    let filter = if matches.get_flag(BLOCKED) {
        blocked_of(rt, matches, &files, names)?
    } else {
        classic_of(rt, matches, &files, names)?
    };
    write(rt.alloc(), matches, &filter, output)
}

// Builds the filter of the keys of the inputs that the words name.
pub(super) fn run_build<R: Files + Input + Eprint + AllocGlobal + Threads + Sync, W: Write>(
    rt: &R,
    matches: &ArgMatches,
    is_on: bool,
    output: &mut W,
) -> Result<(), Stop> {
    let names = called_inputs(rt.alloc(), matches.get_strs(FILE).unwrap_or(&[]))?;
    build_of(rt, matches, is_on, names.as_slice(), output)
}
