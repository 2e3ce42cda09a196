//! A Bloom filter that replies to commands, one a line.
//!
//! It takes two numbers, makes the filter, and serves standard input by `bloom_engine`. `texts` has
//! its help and its version.
#![tactic(auto)]

ghost use Rattle.std.specs.Prelude.{◌≡◌, ◌≢◌, ◌^◌, ◌≤◌, ◌⊎◌, IfOk, IfErr, IsOkUnless, max, replicate};
ghost use Rattle.bloom_parts.specs.Keys.{HasKey};

mod texts;

use bloom_engine::{Fault, arguments, serve};
use bloom_plain::BloomFilter;
use std::alloc::Global;
use std::env;
use std::io::{BufWriter, ErrorKind};
use std::process::ExitCode;
use std::rt::Env;
use streams::open_closed_streams;
use texts::text_of_option;

// The filter of this many zero words, under the zero key.
fn filter_of(alloc: Global, words: usize, hashes: u32) -> Result<BloomFilter, Fault>
    requires some { 1 ≤ words }
    requires few { words ≤ 2 ^ 20 }
    ensures words { IfOk result (λ filter. filter.words ≡ replicate words 0) }
    ensures hashes { IfOk result (λ filter. filter.hashes ≡ max 1 hashes) }
    ensures key { IfOk result (λ filter. HasKey filter.hasher 0 0) }
    ensures refused { IsOkUnless result Fault.Memory }
{
    let words = vec![in alloc; 0u64; words].map_err(|_| Fault::Memory)?;
    match BloomFilter::from_vec(words) {
        Ok(builder) => Ok(builder.hashes(hashes)),
        Err(_) => unreachable!(),
    }
}

fn serve_input<R: Input + Print + AllocGlobal>(
    rt: &R,
    words: usize,
    hashes: u32,
) -> Result<(), Fault>
    requires some { 1 ≤ words }
    requires few { words ≤ 2 ^ 20 }
{
    let mut filter = filter_of(rt.alloc(), words, hashes)?;
    let mut input = rt.reader();
    let mut output = BufWriter::new(rt.alloc(), std::io::writer(rt)).map_err(|_| Fault::Memory)?;
    serve(rt.alloc(), &mut filter, &mut input, &mut output)
}

// The words after the program's name.
fn given_words<R: Env + AllocGlobal>(rt: &R) -> Result<Vec<String>, Fault>
    ensures fault { IfErr result (λ fault. (fault ≡ Fault.Usage) ⊎ (fault ≡ Fault.Memory)) }
{
    let mut words = Vec::new(rt.alloc());
    'words: for word in env::args(rt)
        .map_err(|error| fault_of_args(error.kind()))?
        .skip(1)
    {
        words.push(word).map_err(|_| Fault::Memory)?;
    }
    Ok(words)
}

// Why the words couldn't be read: out of memory, or one of them isn't text.
fn fault_of_args(kind: ErrorKind) -> Fault
    ensures memory { kind ≡ ErrorKind.OutOfMemory → result ≡ Fault.Memory }
    ensures usage { kind ≢ ErrorKind.OutOfMemory → result ≡ Fault.Usage }
{
    match kind {
        ErrorKind::OutOfMemory => Fault::Memory,
        _ => Fault::Usage,
    }
}

fn run<R: Input + Print + AllocGlobal + Env>(rt: &R) -> Result<(), Fault> {
    let given = given_words(rt)?;
    match text_of_option(given.as_slice()) {
        Some(text) => print!(rt; "{text}").map_err(|_| Fault::Output),
        None => {
            let (words, hashes) = arguments(given.as_slice())?;
            serve_input(rt, words, hashes)
        }
    }
}

fn main(rt: HostRuntime) -> ExitCode {
    // Where that fails, reads and writes of a stream that is closed fail too.
    let _ = open_closed_streams(&rt);
    match run(&rt) {
        Ok(()) => ExitCode::SUCCESS,
        Err(fault) => {
            let _ = eprintln!(rt; "{fault}");
            ExitCode::from(fault.status())
        }
    }
}
