//! Which keys of inputs a filter contains, and which it doesn't.
ghost use Rattle.std.specs.Prelude.{◌≡◌, ◌≤◌, ◌<◌, ◌*◌, [], length, map, IfErr, IfOk, OnErr, OnOk};
ghost use Rattle.std.specs.Io.KnownBytes.{Appends, Keeps};
ghost use Rattle.bloom_parts.specs.Content.{content};
ghost use Rattle.lines.specs.Writing.{AppendsPart};
ghost use Rattle.summaries_engine.specs.Answers.{IsKeyed, ReadsAll, WritesWanted, is_wanted, reply_text};
ghost use Rattle.summaries_engine.specs.Batches.{AnswersFirst, AnswersPart, HashesSome};
ghost use Rattle.summaries_engine.specs.Inputs.{AnswersInputs, StopsAsking};
ghost use Rattle.summaries_engine.specs.Stops.{IsUnwritten, StopsAnswers};

use crate::inputs::Inputs;
use crate::keys::{LONGEST, hash_of, too_long, too_many, unread};
use crate::kinds::AnyFilter;
use crate::stop::{Stop, cause, written};
use crate::waiting::{TOGETHER, first_key, hash_first};
use lines::{LineReaderBy, Next, put_line_by};
use std::alloc::Global;
use std::io::{Read, Write};

/// Which keys are wanted of a filter.
#[derive(Clone, Copy)]
pub enum Wanted {
    /// Keys that may be in: every key that is in, and some false positives.
    Found,
    /// Keys that are surely not in.
    Absent,
}

// Whether a key is wanted that a filter contains, or not.
fn is_wanted(wanted: Wanted, is_contained: bool) -> bool
    ensures { result ≡ is_wanted wanted is_contained }
{
    match wanted {
        Wanted::Found => is_contained,
        Wanted::Absent => !is_contained,
    }
}

// Flushes what was written.
fn flush<O: Write>(output: &mut O) -> Result<(), Stop>
    ensures kept { Keeps (O.contents output.old) (O.contents output.new) }
    ensures failed { IfErr result IsUnwritten }
{
    written(output.flush(), "the keys can't be written")
}

// Writes a key and its end, if it is wanted.
#[inline(always)]
fn write_if<const END: u8, O: Write>(
    wanted: Wanted,
    is_contained: bool,
    key: &[u8],
    output: &mut O,
) -> Result<(), Stop>
    ensures wrote { OnOk result (Appends (O.contents output.old) (O.contents output.new)
        (reply_text wanted is_contained END key.now)) }
    ensures failed { IfErr result IsUnwritten }
    ensures part { OnErr result (AppendsPart (reply_text wanted is_contained END key.now)
        (O.contents output.old) (O.contents output.new)) }
{
    if !is_wanted(wanted, is_contained) {
        return Ok(());
    }
    match put_line_by(output, key, END) {
        Ok(()) => Ok(()),
        Err(error) => Err(Stop::Output(cause(&error).context("the keys can't be written"))),
    }
}

// Whether a bit of some words is set.
#[inline(always)]
fn is_set(words: &[u64], bit: usize) -> bool
    requires { bit < 64 * length words.now }
    ensures { result ≡ content words.now bit }
{
    (words[bit / 64] >> (bit % 64)) % 2 == 1
}

// Writes those of the first keys of some bytes that `wanted` chooses, where these are the hashes of
// these keys. Returns how many were answered, and the bytes behind them.
fn write_first<'a, const END: u8, O: Write>(
    filter: &AnyFilter,
    wanted: Wanted,
    hashes: &[u64],
    bytes: &'a [u8],
    output: &mut O,
) -> Result<(usize, &'a [u8]), Stop>
    requires few { length hashes.now ≤ 256 }
    requires hashes { HashesSome filter.now END bytes.now hashes.now }
    ensures wrote { IfOk result (λ done. AnswersFirst filter.now wanted END bytes.now done.1.now
        done.0 (O.contents output.old) (O.contents output.new)) }
    ensures few { IfOk result (λ done. done.0 ≤ length hashes.now) }
    ensures failed { IfErr result IsUnwritten }
    ensures part { OnErr result (AnswersPart filter.now wanted END bytes.now
        (O.contents output.old) (O.contents output.new)) }
{
    let mut found = [0u64; TOGETHER / 64];
    filter.contains_hashes(hashes, &mut found);
    let mut rest = bytes;
    let mut count: usize = 0;
    'keys: while count < hashes.len() {
        let Some((key, others)) = first_key::<END>(rest) else {
            break;
        };
        write_if::<END, O>(wanted, is_set(&found, count), key, output)?;
        rest = others;
        count += 1;
    }
    Ok((count, rest))
}

// Writes those of the keys that wait whole that `wanted` chooses, of at most this many keys.
// Returns how many were answered.
fn answer_waiting<const END: u8, O: Write>(
    filter: &AnyFilter,
    wanted: Wanted,
    most: u64,
    lines: &mut LineReaderBy<END>,
    output: &mut O,
) -> Result<u64, Stop>
    requires { IsKeyed filter.now }
    ensures wrote { IfOk result (λ count. AnswersFirst filter.now wanted END lines.old.bytes
        lines.new.bytes count (O.contents output.old) (O.contents output.new)) }
    ensures most { IfOk result (λ count. count ≤ most) }
    ensures ended { lines.new.ended ≡ lines.old.ended }
    ensures longest { lines.new.longest ≡ lines.old.longest }
    ensures failed { IfErr result IsUnwritten }
    ensures part { OnErr result (AnswersPart filter.now wanted END lines.old.bytes
        (O.contents output.old) (O.contents output.new)) }
{
    let mut hashes = [0u64; TOGETHER];
    let room = most.min(256) as usize;
    let bytes = lines.waiting();
    let (count, _rest) = hash_first::<END>(filter.hasher(), bytes, &mut hashes[..room]);
    let (count, rest) = write_first::<END, O>(filter, wanted, &hashes[..count], bytes, output)?;
    let used = bytes.len() - rest.len();
    lines.skip(used);
    Ok(count as u64)
}

// Flushes what was written, where the next read may wait.
fn flush_before_a_read<const END: u8, O: Write>(
    lines: &LineReaderBy<END>,
    output: &mut O,
) -> Result<(), Stop>
    ensures kept { Keeps (O.contents output.old) (O.contents output.new) }
    ensures failed { IfErr result IsUnwritten }
{
    if lines.has_next() {
        Ok(())
    } else {
        flush(output)
    }
}

// Writes those keys of one input that `wanted` chooses. Those that wait whole are looked up
// together, and the one behind them is read.
fn ask_input<const END: u8, I: Read, O: Write>(
    alloc: Global,
    filter: &AnyFilter,
    wanted: Wanted,
    name: &str,
    input: &mut I,
    output: &mut O,
) -> Result<(), Stop>
    requires { IsKeyed filter.now }
    ensures all { OnOk result (ReadsAll END (I.remaining input.old) (I.remaining input.new)
        (WritesWanted filter.now wanted END (O.contents output.old) (O.contents output.new))) }
    ensures stops { IfErr result (StopsAnswers filter.now wanted END name.now []
        (I.remaining input.old) (O.contents output.old) (O.contents output.new)) }
{
    let Ok(mut lines) = LineReaderBy::<END>::new(alloc, LONGEST) else {
        return Err(Stop::Memory);
    };
    let mut number: u64 = 0;
    'keys: while number < u64::MAX {
        let most = u64::MAX - 1 - number;
        number += answer_waiting::<END, O>(filter, wanted, most, &mut lines, output)?;
        flush_before_a_read(&lines, output)?;
        match lines.next_line(input) {
            Ok(Next::End) => return flush(output),
            Ok(Next::Line) => {}
            Ok(Next::TooLong) => return Err(too_long(name, number)),
            Err(error) => return Err(unread(name, error)),
        }
        let hash = hash_of(filter.hasher(), lines.line());
        write_if::<END, O>(wanted, filter.contains_hash(hash), lines.line(), output)?;
        number += 1;
    }
    Err(too_many(name))
}

/// Writes the keys of these inputs that `wanted` chooses, in order, and nothing else. The byte
/// `END` ends a key, read or written, and so does the end of an input. What was written is flushed
/// before each read or open that may wait, and behind the last key.
///
/// # Errors
/// At the first input that can't be had or read, or has a key that is too long, where a write
/// fails, and out of memory. The replies for all earlier keys are written; where a write fails, the
/// output ends within the text of the last key.
pub fn ask<const END: u8, S: Inputs, O: Write>(
    alloc: Global,
    filter: &AnyFilter,
    wanted: Wanted,
    inputs: &S,
    names: &[&str],
    output: &mut O,
) -> Result<(), Stop>
    requires { IsKeyed filter.now }
    ensures all { OnOk result (AnswersInputs (S.has inputs.now) filter.now wanted END
        (map (λ name. name.now) names.now) (O.contents output.old) (O.contents output.new)) }
    // Why the call stopped, and what was written: the text of the keys before, and where a write
    // fails a beginning of it.
    ensures stops { IfErr result (StopsAsking (S.has inputs.now) (S.fails inputs.now) filter.now
        wanted END (map (λ name. name.now) names.now)
        (O.contents output.old) (O.contents output.new)) }
{
    'names: for name in names {
        let mut input = inputs.open(name)?;
        ask_input::<END, S::Input, O>(alloc, filter, wanted, name, &mut input, output)?;
    }
    Ok(())
}
