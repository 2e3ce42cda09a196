//! A run over the inputs.

use crate::command_line::Request;
use crate::files::Files;
use crate::gauge::Gauge;
use crate::telling::{
    DONE, OVERFULL, Teller, tell_fault, tell_no_room, tell_output, tell_unwritten,
};
use bloom_blocked::BlockedBloomFilter;
use bloom_growing::{GrowingBlockedFilter, GrowingError, GrowingFilter, RotatingFilter};
use bloom_plain::{BloomFilter, FilterError, Rate};
use duplicates_engine::{Fault, Options, Sieve, Total, Written, keep_new};
use program_parts::{close, first_output, open_output};
use std::io;
use std::io::{BufWriter, IsTerminal, Write};

// What the engine is to do.
fn options_of(request: &Request) -> Options {
    Options {
        longest: request.longest,
        skips_longer: request.skips_longer,
        written: if request.count {
            Written::Nothing
        } else if request.held_back {
            Written::HeldBack
        } else {
            Written::New
        },
        most: if request.fixed {
            Some(request.items)
        } else {
            None
        },
    }
}

// Keeps the lines of the inputs.
fn keep<V: Sieve, W: Write + Drop>(
    rt: &HostRuntime,
    request: &Request,
    sieve: &mut V,
    files: &mut Files,
    output: &mut W,
    teller: &mut Teller,
) -> Result<Total, Fault> {
    let options = options_of(request);
    let Ok(mut output) = BufWriter::new(rt.alloc(), output) else {
        return Err(Fault::Memory);
    };
    if request.zero {
        keep_new::<V, Files, _, Teller, 0>(rt.alloc(), sieve, options, files, &mut output, teller)
    } else {
        keep_new::<V, Files, _, Teller, 10>(rt.alloc(), sieve, options, files, &mut output, teller)
    }
}

// Writes the counts, as they are asked for.
fn write_counts<W: Write>(
    request: &Request,
    total: Total,
    held: u64,
    output: &mut W,
) -> io::Result<()> {
    let read = total.tally.read;
    if request.skips_longer {
        writeln!(output, "{read} {held} {}", total.longer)
    } else {
        writeln!(output, "{read} {held}")
    }
}

// Tells the counts of a run that ended well, and gives the status.
fn sum_up<W: Write>(rt: &HostRuntime, request: &Request, total: Total, output: &mut W) -> u8 {
    let read = total.tally.read;
    let held = total.tally.held.saturating_sub(total.longer);
    if request.count {
        return match write_counts(request, total, held, output) {
            Ok(()) => DONE,
            Err(error) => tell_unwritten(rt, request.output, error.kind()),
        };
    }
    if !request.quiet {
        let _ = if request.skips_longer {
            let longer = total.longer;
            eprintln!(rt; "{held} of {read} lines held back, {longer} longer ones not sifted")
        } else {
            eprintln!(rt; "{held} of {read} lines held back")
        };
    }
    DONE
}

// Whom a run tells how far it is, and warns.
fn teller_of<'a>(rt: &'a HostRuntime, request: &Request) -> Teller<'a> {
    Teller {
        rt,
        is_on: !request.quiet && rt.stderr().is_terminal(),
        held: if request.skips_longer {
            "held back or not sifted"
        } else {
            "held back"
        },
        items: request.items,
        is_warned: false,
    }
}

// Sifts the inputs by a filter, if it was made, and gives the status.
fn sift<V: Sieve + Gauge + Drop, W: Write + Drop>(
    rt: &HostRuntime,
    request: &Request,
    made: Result<V, GrowingError>,
    output: &mut W,
) -> Result<u8, &'static str> {
    let mut sieve = match made {
        Ok(sieve) => sieve,
        Err(GrowingError::Filter(FilterError::Memory)) => {
            return Ok(tell_no_room(rt, "out of memory"));
        }
        Err(_) => return Err("there is no filter for this many lines at this rate"),
    };
    let is_named = request.names.is_some();
    let mut files = Files::new(rt, request.names);
    let mut teller = teller_of(rt, request);
    let status = match keep(rt, request, &mut sieve, &mut files, output, &mut teller) {
        Ok(total) => {
            let status = sum_up(rt, request, total, output);
            if teller.is_on {
                sieve.tell_full(rt);
            }
            if status == DONE && teller.is_warned {
                OVERFULL
            } else {
                status
            }
        }
        Err(Fault::Output(kind)) => tell_unwritten(rt, request.output, kind),
        Err(fault) => tell_fault(rt, files.current(), is_named, request.longest, fault),
    };
    Ok(status)
}

// Whether the filter grows by blocked filters. Below this rate they take more than 1.3 times the
// memory of plain ones before long, and none keeps a rate below 2^-22.
fn grows_by_blocked(rate: Rate) -> bool {
    rate.num() as u128 * 10_000 >= rate.den() as u128
}

// Sifts the inputs by the filter that is asked for, and gives the status.
fn sift_by_filter<W: Write + Drop>(
    rt: &HostRuntime,
    request: &Request,
    output: &mut W,
) -> Result<u8, &'static str> {
    let (alloc, rate, seed) = (rt.alloc(), request.rate, &request.seed);
    let items = request.items as usize;
    if let Some(last) = request.last {
        let made = RotatingFilter::seeded(alloc, rate, last as usize, seed);
        sift(rt, request, made, output)
    } else if request.blocked {
        let builder = BlockedBloomFilter::with_false_pos(rate).seed(seed);
        let made = builder.expected_items(alloc, items);
        sift(rt, request, made.map_err(GrowingError::Filter), output)
    } else if request.fixed {
        let builder = BloomFilter::with_false_pos(rate).seed(seed);
        let made = builder.expected_items(alloc, items);
        sift(rt, request, made.map_err(GrowingError::Filter), output)
    } else if grows_by_blocked(rate) {
        let made = GrowingBlockedFilter::seeded(alloc, rate, items, seed);
        sift(rt, request, made, output)
    } else {
        let made = GrowingFilter::seeded(alloc, rate, items, seed);
        sift(rt, request, made, output)
    }
}

// Whether a run of this status ended well.
fn is_whole(ended: &Result<u8, &'static str>) -> bool {
    match ended {
        Ok(status) => *status == DONE || *status == OVERFULL,
        Err(_) => false,
    }
}

/// Runs over the inputs, and gives the status.
///
/// # Errors
/// Why there is no filter for this many lines at this rate.
pub fn run(rt: &HostRuntime, request: &Request) -> Result<u8, &'static str> {
    let mut output = match open_output(rt, request.output) {
        Ok(output) => output,
        Err(error) => return Ok(tell_unwritten(rt, request.output, error.kind())),
    };
    if let Some(name) = first_output(rt, &output, request.names.unwrap_or(&["-"])) {
        return Ok(tell_output(rt, name));
    }
    let ended = sift_by_filter(rt, request, &mut output.writer);
    match close(rt, output, is_whole(&ended)) {
        Ok(()) => ended,
        Err(error) => Ok(tell_unwritten(rt, request.output, error.kind())),
    }
}
