//! The tasks that the program's words ask for.
mod asks;
mod builds;
mod outputs;

use crate::command_line::{FILTER, JSON, MOST_HASHES, OTHER, ZERO};
use crate::form::{Disk, load_named};
use crate::key_files::{KeyFiles, STANDARD, called, called_inputs};
use clap::ArgMatches;
use outputs::run_with_output;
use std::alloc::{AllocError, Global};
use std::cell::Cell;
use std::io::Write;
use std::os::fd::AsFd;
use std::rt::Files;
use std::thread::Threads;
use summaries_engine::{
    AnyFilter, Form, Stop, compare_named, facts_of, no_json, put, put_file, script_of, twice,
    unite_named, unsaid, written,
};

// The inputs of keys that the words tell.
fn keys_of<'a, R>(
    rt: &'a R,
    matches: &ArgMatches,
    is_on: bool,
    keys: &'a Cell<u64>,
) -> KeyFiles<'a, R> {
    let end = if matches.get_flag(ZERO) { 0 } else { 10 };
    KeyFiles {
        rt,
        keys,
        end,
        is_on,
    }
}

// Writes a filter in the form that the words ask for.
fn write<W: Write>(
    alloc: Global,
    matches: &ArgMatches,
    filter: &AnyFilter,
    output: &mut W,
) -> Result<(), Stop> {
    if matches.get_flag(JSON) {
        return match filter {
            AnyFilter::Classic(filter) => put(alloc, filter, output),
            AnyFilter::Blocked(_) => Err(no_json()),
        };
    }
    match put_file(filter, output) {
        Ok(()) => Ok(()),
        Err(error) => Err(Stop::Output(error)),
    }
}

// The files with filters, of which none may have more hashes than the words allow.
fn disk_of<'a, R: Files + Input + AllocGlobal>(
    rt: &'a R,
    matches: &ArgMatches,
) -> Result<Disk<'a, R>, Stop> {
    match matches.get_one::<u32>(MOST_HASHES) {
        Some(most) => Ok(Disk { rt, most }),
        None => Err(unsaid(MOST_HASHES)),
    }
}

// Refuses names of which more than one is standard input.
fn check_once(names: &[&str]) -> Result<(), Stop> {
    let mut is_named = false;
    for name in names {
        if *name == STANDARD {
            if is_named {
                return Err(twice(STANDARD));
            }
            is_named = true;
        }
    }
    Ok(())
}

// Unites the filters of these files, and writes what comes of it.
fn unite_files<R: Files + Input + AllocGlobal, W: Write>(
    rt: &R,
    matches: &ArgMatches,
    names: &[&str],
    output: &mut W,
) -> Result<(), Stop> {
    check_once(names)?;
    let disk = disk_of(rt, matches)?;
    match unite_named(&disk, names) {
        Ok(filter) => write(rt.alloc(), matches, &filter, output),
        Err(stop) => Err(stop),
    }
}

fn run_unite<R: Files + Input + AllocGlobal, W: Write>(
    rt: &R,
    matches: &ArgMatches,
    output: &mut W,
) -> Result<(), Stop> {
    let Some(words) = matches.get_strs(FILTER) else {
        return Err(unsaid(FILTER));
    };
    let names = called_inputs(rt.alloc(), words)?;
    unite_files(rt, matches, names.as_slice(), output)
}

// What is reported about a filter, in lines or, for scripts, as JSON.
fn facts_in(
    alloc: Global,
    filter: &AnyFilter,
    form: Form,
    is_json: bool,
) -> Result<String, AllocError> {
    if is_json {
        script_of(alloc, filter, form)
    } else {
        facts_of(alloc, filter, form)
    }
}

// Prints what is reported about filters.
fn print_facts<R: Print>(rt: &R, facts: &str) -> Result<(), Stop> {
    written(print!(rt; "{facts}"), "the facts can't be written")
}

fn run_info<R: Files + Input + Print + AllocGlobal>(
    rt: &R,
    matches: &ArgMatches,
) -> Result<(), Stop> {
    let Some(name) = matches.get_str(FILTER) else {
        return Err(unsaid(FILTER));
    };
    let (filter, form) = load_named(rt, called(name), u32::MAX)?;
    match facts_in(rt.alloc(), &filter, form, matches.get_flag(JSON)) {
        Ok(facts) => print_facts(rt, facts.as_str()),
        Err(_) => Err(Stop::Memory),
    }
}

// Compares the filters of two files, and prints what that tells.
fn compare_files<R: Files + Input + Print + AllocGlobal>(
    rt: &R,
    one: &str,
    other: &str,
) -> Result<(), Stop> {
    check_once(&[one, other])?;
    let most = u32::MAX;
    match compare_named(rt.alloc(), &Disk { rt, most }, one, other) {
        Ok(facts) => print_facts(rt, facts.as_str()),
        Err(stop) => Err(stop),
    }
}

fn run_compare<R: Files + Input + Print + AllocGlobal>(
    rt: &R,
    matches: &ArgMatches,
) -> Result<(), Stop> {
    let Some(one) = matches.get_str(FILTER) else {
        return Err(unsaid(FILTER));
    };
    let Some(other) = matches.get_str(OTHER) else {
        return Err(unsaid(OTHER));
    };
    compare_files(rt, called(one), called(other))
}

/// Does what the words ask for. A terminal is told how far the run is.
pub fn run<R: Files + Input + Print + Eprint + AllocGlobal + Threads + Sync>(
    rt: &R,
    matches: &ArgMatches,
    is_on: bool,
) -> Result<(), Stop>
where
    R::File: AsFd,
{
    let Some((name, matches)) = matches.subcommand() else {
        return Err(unsaid("command"));
    };
    match name {
        "info" => run_info(rt, matches),
        "compare" => run_compare(rt, matches),
        _ => run_with_output(rt, name, matches, is_on),
    }
}
