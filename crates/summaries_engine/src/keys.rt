//! Keys: the lines of inputs, without their ends.
ghost use Rattle.std.specs.Prelude.{◌≡◌, ◌≤◌, ℕ, codes, List, [], ◌∷◌, ◌++◌, length, map, IfErr, IfOk, OnOk};
ghost use Rattle.std.specs.IoError.{error_kind};
ghost use Rattle.bloom_parts.specs.Keys.{HasKey};
ghost use Rattle.bloom_parts.specs.Sip.{sip};
ghost use Rattle.summaries_engine.specs.Answers.{ReadsAll};
ghost use Rattle.summaries_engine.specs.Batches.{HashesFirst};
ghost use Rattle.summaries_engine.specs.Fillers.{HasTaken, TakesKeys};
ghost use Rattle.summaries_engine.specs.Inputs.{HashesInputs, StopsHashes};
ghost use Rattle.summaries_engine.specs.Refusals.{too_long_text};
ghost use Rattle.summaries_engine.specs.Stops.{IsBad, IsMemory, IsUnreadAs, IsUnreadable, Says, StopsHashing};

use crate::filler::Filler;
use crate::inputs::Inputs;
use crate::stop::{Stop, cause};
use crate::waiting::{TOGETHER, hash_first};
use anyhow::anyhow;
use fastbloom::laws::source_hash_by_default;
use fastbloom::{DefaultHasher, Text};
use lines::{LineReaderBy, Next};
use std::alloc::Global;
use std::hash::{BuildHasher, Hash, Hasher};
use std::io;
use std::io::{ErrorKind, Read};

/// The most bytes of a key.
pub const LONGEST: usize = 65536;

/// The hash of a key: SipHash-1-3 of its bytes, with no length before them and no end after them.
pub fn hash_of(builder: &DefaultHasher, key: &[u8]) -> u64
    ensures { (k0 k1 : ℕ) → HasKey builder.now k0 k1 → result ≡ sip k0 k1 key.now }
{
    source_hash_by_default::<Text>();
    let mut state = builder.build_hasher();
    Text(key).hash(&mut state);
    state.finish()
}

/// Why an input isn't read on where a read failed.
pub fn unread(name: &str, error: io::Error) -> Stop
    ensures told { IsUnreadAs (error_kind error) name.now result }
    ensures failed { IsUnreadable name.now result }
{
    if error.kind() == ErrorKind::OutOfMemory {
        return Stop::Memory;
    }
    Stop::Input(cause(&error).context(format_args!("{name}: it can't be read")))
}

/// Why an input isn't read on where its key is too long that comes after this many others.
pub fn too_long(name: &str, before: u64) -> Stop
    ensures { IsBad (Says (too_long_text name.now before)) result }
{
    let number = before.saturating_add(1);
    Stop::Bad(anyhow!("{name}: key {number} has more than {LONGEST} bytes"))
}

/// Why an input isn't read on where no number is left for its next key.
pub fn too_many(name: &str) -> Stop
    ensures { IsBad (Says (name.now ++ codes ": it has too many keys")) result }
{
    Stop::Bad(anyhow!("{name}: it has too many keys"))
}

// Gives the hashes that wait to what takes them.
fn give<F: Filler>(filler: &mut F, waiting: &mut Vec<u64>)
    requires { F.ready filler.old }
    ensures ready { F.ready filler.new }
    ensures none { waiting.new.items ≡ [] }
    ensures taken { (first : F) (hashes : List ℕ)
        → HasTaken F.took first filler.old waiting.old.items hashes
        → HasTaken F.took first filler.new [] hashes }
{
    filler.take(waiting.as_slice());
    waiting.clear();
}

// Puts hashes behind those that wait, and gives them where as many wait as are given at once.
fn take_hashes<F: Filler>(
    filler: &mut F,
    waiting: &mut Vec<u64>,
    hashes: &[u64],
) -> Result<(), Stop>
    requires { F.ready filler.old }
    ensures ready { OnOk result (F.ready filler.new) }
    ensures taken { OnOk result ((first : F) (before : List ℕ)
        → HasTaken F.took first filler.old waiting.old.items before
        → HasTaken F.took first filler.new waiting.new.items (before ++ hashes.now)) }
    ensures refused { IfErr result IsMemory }
{
    let Ok(()) = waiting.extend_from_slice(hashes) else {
        return Err(Stop::Memory);
    };
    if waiting.len() >= filler.most() {
        give(filler, waiting);
    }
    Ok(())
}

// Takes the hashes of the keys that wait whole, of at most this many keys. Returns their number.
fn take_waiting<const END: u8, F: Filler>(
    builder: &DefaultHasher,
    most: u64,
    lines: &mut LineReaderBy<END>,
    filler: &mut F,
    waiting: &mut Vec<u64>,
) -> Result<u64, Stop>
    requires { F.ready filler.old }
    ensures ready { OnOk result (F.ready filler.new) }
    ensures most { IfOk result (λ count. count ≤ most) }
    ensures taken { IfOk result (λ count. (k0 k1 : ℕ) → HasKey builder.now k0 k1
        → (hashes : List ℕ) × HashesFirst k0 k1 END lines.old.bytes lines.new.bytes hashes
        × (count ≡ length hashes)
        × ((first : F) (before : List ℕ)
        → HasTaken F.took first filler.old waiting.old.items before
        → HasTaken F.took first filler.new waiting.new.items (before ++ hashes))) }
    ensures ended { lines.new.ended ≡ lines.old.ended }
    ensures longest { lines.new.longest ≡ lines.old.longest }
    ensures refused { IfErr result IsMemory }
{
    let mut hashes = [0u64; TOGETHER];
    let room = most.min(256) as usize;
    let bytes = lines.waiting();
    let (count, rest) = hash_first::<END>(builder, bytes, &mut hashes[..room]);
    let used = bytes.len() - rest.len();
    lines.skip(used);
    take_hashes(filler, waiting, &hashes[..count])?;
    Ok(count as u64)
}

// Takes the hashes of all keys of an input. Those that wait whole are hashed together, and the one
// behind them is read.
fn take_keys<const END: u8, F: Filler, I: Read>(
    alloc: Global,
    key: (u64, u64),
    name: &str,
    input: &mut I,
    filler: &mut F,
    waiting: &mut Vec<u64>,
) -> Result<(), Stop>
    requires { F.ready filler.old }
    ensures ready { OnOk result (F.ready filler.new) }
    ensures all { OnOk result (ReadsAll END (I.remaining input.old) (I.remaining input.new)
        (TakesKeys F.took key filler.old waiting.old.items filler.new waiting.new.items)) }
    // Why not all were taken.
    ensures stops { IfErr result (StopsHashing END name.now (I.remaining input.old)) }
{
    let builder = DefaultHasher::keyed(key.0, key.1);
    let Ok(mut lines) = LineReaderBy::<END>::new(alloc, LONGEST) else {
        return Err(Stop::Memory);
    };
    let mut number: u64 = 0;
    'keys: while number < u64::MAX {
        let most = u64::MAX - 1 - number;
        number += take_waiting::<END, F>(&builder, most, &mut lines, filler, waiting)?;
        match lines.next_line(input) {
            Ok(Next::End) => return Ok(()),
            Ok(Next::Line) => {}
            Ok(Next::TooLong) => return Err(too_long(name, number)),
            Err(error) => return Err(unread(name, error)),
        }
        take_hashes(filler, waiting, &[hash_of(&builder, lines.line())])?;
        number += 1;
    }
    Err(too_many(name))
}

/// What is empty, filled with the hashes, under a key, of all keys of the inputs of these names, as
/// they are read. The byte `END` ends a key, and so does the end of an input.
///
/// # Errors
/// At the first input that can't be had or read, or has a key that is too long, and out of memory.
pub(crate) fn filled_from<const END: u8, F: Filler + Drop, S: Inputs>(
    alloc: Global,
    key: (u64, u64),
    empty: F,
    inputs: &S,
    names: &[&str],
) -> Result<F, Stop>
    requires { F.ready empty }
    ensures all { IfOk result (λ filled. (hashes : List ℕ)
        × HashesInputs (S.has inputs.now) key END (map (λ name. name.now) names.now) hashes
        × F.took empty hashes filled) }
    // Why not all were taken.
    ensures stops { IfErr result (StopsHashes (S.has inputs.now) (S.fails inputs.now) END
        (map (λ name. name.now) names.now)) }
{
    let mut filler = empty;
    let mut waiting = Vec::new(alloc);
    'names: for name in names {
        let mut input = inputs.open(name)?;
        take_keys::<END, F, S::Input>(alloc, key, name, &mut input, &mut filler, &mut waiting)?;
    }
    give(&mut filler, &mut waiting);
    Ok(filler)
}
