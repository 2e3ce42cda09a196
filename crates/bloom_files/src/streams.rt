//! Files of readers and writers: a head and words.
ghost use Rattle.std.specs.Prelude.{◌≡◌, ◌+◌, ◌*◌, ◌<◌, ◌≤◌, ◌^◌, [], None, length, max, vec_len, IfOk, IfErr, IfSome, OnOk, OnErr};
ghost use Rattle.std.specs.Vec.{vec_capacity};
ghost use Rattle.std.specs.Result.{result_err};
ghost use Rattle.std.specs.Io.KnownBytes.{Appends, Consumes, IsAtEnd};
ghost use Rattle.lines.specs.Writing.{AppendsPart};
ghost use Rattle.bloom_files.specs.declared.layout.Layout.{Layout as ALayout};
ghost use Rattle.bloom_files.specs.File.{bytes_of};
ghost use Rattle.bloom_files.specs.FileLayouts.{AreWhole, IsReadIn, IsReportedIn, ReadsParts, WritesParts, sealed_file};
ghost use Rattle.bloom_files.specs.FileReads.{AsksAsGiven, FailsEarly, FailsWithin, GivesSome, ReadsWords, StopsEnd, StopsWords};
ghost use Rattle.bloom_files.specs.FileRefusals.{head_refusal};
ghost use Rattle.bloom_plain.specs.Filter.{IsShape};

use crate::error::FileError;
use crate::head::{
    HEAD, Head, begin_seal, check_head, check_layout, check_seal, head_bytes_in, head_in,
    right_seal,
};
use crate::layout::Layout;
use crate::numbers::{number_at, push_numbers, put_numbers};
use bloom_parts::hasher::RandomDefaultHasher;
use lines::{put_bytes, read_full};
use std::alloc::Global;
use std::hash::Hasher;
use std::io;
use std::io::{Read, Write};

// How many words are written or read at once.
const BLOCK: usize = 512;

// Writes the bytes of at most a block of words.
fn put_block<W: Write>(output: &mut W, words: &[u64]) -> io::Result<()>
    requires { length words.now ≤ 512 }
    ensures whole { OnOk result
        (Appends (W.contents output.old) (W.contents output.new) (bytes_of words.now)) }
    ensures part { OnErr result
        (AppendsPart (bytes_of words.now) (W.contents output.old) (W.contents output.new)) }
{
    let mut block = [0u8; 8 * BLOCK];
    let bytes = &mut block[..8 * words.len()];
    put_numbers(bytes, words);
    put_bytes(output, bytes)
}

// Writes the bytes of words, a block at a time.
fn put_words<W: Write>(output: &mut W, words: &[u64]) -> io::Result<()>
    ensures whole { OnOk result
        (Appends (W.contents output.old) (W.contents output.new) (bytes_of words.now)) }
    ensures part { OnErr result
        (AppendsPart (bytes_of words.now) (W.contents output.old) (W.contents output.new)) }
{
    let mut rest = words;
    'pieces: while rest.len() > 0 {
        let (block, others) = rest.split_at(rest.len().min(BLOCK));
        put_block(output, block)?;
        rest = others;
    }
    Ok(())
}

// Asks for the room of more words, if there is less: at least as much as there is, but not more
// than for all that may come.
fn make_room(words: &mut Vec<u64>, more: usize, most: usize) -> Result<(), FileError>
    requires { more ≤ most }
    ensures same { words.new.items ≡ words.old.items }
    ensures refused { IfErr result (λ error. error ≡ FileError.Memory) }
    ensures enough { OnOk result (vec_len words.new + more ≤ vec_capacity words.new) }
    // Room is asked for as many words as there are, or for a block, and for no more than may come.
    ensures few { vec_capacity words.new
        ≤ max (vec_capacity words.old) (vec_len words.old + max (vec_len words.old) more) }
    ensures most { vec_capacity words.new
        ≤ max (vec_capacity words.old) (vec_len words.old + most) }
{
    if words.capacity() - words.len() < more {
        words.reserve_exact(words.len().max(more).min(most))?;
    }
    Ok(())
}

// Reads at most a block of words, and appends them where there is room.
fn read_block<R: Read>(
    input: &mut R,
    more: usize,
    words: &mut Vec<u64>,
    hasher: &mut RandomDefaultHasher,
) -> Result<(), FileError>
    requires few { more ≤ 512 }
    requires room { vec_len words.old + more ≤ vec_capacity words.old }
    ensures taken { OnOk result (ReadsWords (R.remaining input.old) (R.remaining input.new)
        words.old.items words.new.items hasher.old hasher.new) }
    ensures count { OnOk result (length words.new.items ≡ length words.old.items + more) }
    ensures stops { IfErr result (StopsWords (8 * more) (R.remaining input.old)) }
    ensures input { IfErr result
        (FailsWithin (8 * more) (R.remaining input.old) (R.remaining input.new)) }
    ensures gave { GivesSome (R.remaining input.old) (R.remaining input.new) }
    ensures capacity { vec_capacity words.new ≡ vec_capacity words.old }
{
    let mut block = [0u8; 8 * BLOCK];
    let bytes = &mut block[..8 * more];
    let count = match read_full(input, bytes) {
        Ok(count) => count,
        Err(error) => return Err(FileError::Input(error.kind())),
    };
    if count < bytes.len() {
        return Err(FileError::Cut);
    }
    hasher.write(bytes);
    push_numbers(words, bytes);
    Ok(())
}

// Reads words into a vector that has no room yet, and asks for their room only as they come.
fn read_words<R: Read>(
    input: &mut R,
    count: usize,
    words: &mut Vec<u64>,
    hasher: &mut RandomDefaultHasher,
) -> Result<(), FileError>
    requires count { count < 2 ^ 58 }
    requires empty { words.old.items ≡ [] }
    requires none { vec_capacity words.old ≡ 0 }
    ensures taken { OnOk result (ReadsWords (R.remaining input.old) (R.remaining input.new)
        [] words.new.items hasher.old hasher.new) }
    ensures count { OnOk result (length words.new.items ≡ count) }
    // There is room for a block, and for at most twice as many words as came, also after an error.
    ensures room { AsksAsGiven (R.remaining input.old) (R.remaining input.new)
        (vec_capacity words.new) }
    ensures stops { IfErr result (StopsWords (8 * count) (R.remaining input.old)) }
    ensures input { IfErr result
        (FailsWithin (8 * count) (R.remaining input.old) (R.remaining input.new)) }
{
    'pieces: while words.len() < count {
        let left = count - words.len();
        let more = left.min(BLOCK);
        make_room(words, more, left)?;
        read_block(input, more, words, hasher)?;
    }
    Ok(())
}

// Reads the head of a file, and refuses one that is none.
fn read_start<R: Read>(input: &mut R) -> Result<[u8; 64], FileError>
    ensures taken { IfOk result
        (λ head. Consumes (R.remaining input.old) (R.remaining input.new) head) }
    ensures size { IfOk result (λ head. length head ≡ 64) }
    ensures good { IfOk result (λ head. head_refusal head ≡ None) }
    // It is refused so whatever the layout that is read.
    ensures refused { IfErr result
        (λ error. (layout : ALayout) → IsReportedIn layout (R.remaining input.old) error) }
    ensures input { IfErr result
        (FailsWithin 64 (R.remaining input.old) (R.remaining input.new)) }
{
    let mut head = [0u8; HEAD];
    let count = match read_full(input, &mut head) {
        Ok(count) => count,
        Err(error) => return Err(FileError::Input(error.kind())),
    };
    check_head(&head[..count])?;
    if count < HEAD {
        return Err(FileError::Cut);
    }
    Ok(head)
}

// Refuses a reader that isn't at its end.
fn read_end<R: Read>(input: &mut R) -> Result<(), FileError>
    ensures nothing { OnOk result (Consumes (R.remaining input.old) (R.remaining input.new) []) }
    ensures end { OnOk result (IsAtEnd (R.remaining input.new)) }
    ensures more { IfErr result (StopsEnd (R.remaining input.old)) }
    ensures input { IfErr result
        (FailsWithin 1 (R.remaining input.old) (R.remaining input.new)) }
{
    let mut more = [0u8; 1];
    match read_full(input, &mut more) {
        Ok(0) => Ok(()),
        Ok(_) => Err(FileError::TooLong),
        Err(error) => Err(FileError::Input(error.kind())),
    }
}

/// Writes the file of a head and words that lie so, with the right seal, and flushes nothing.
///
/// # Errors
/// Where a write fails. Then a beginning of the file was written.
pub fn write_parts<W: Write>(
    output: &mut W,
    layout: Layout,
    head: &Head,
    words: &[u64],
) -> io::Result<()>
    requires count { length words.now ≡ head.now.num_words }
    requires shape { IsShape (length words.now) head.now.num_hashes }
    requires whole { AreWhole layout (length words.now) }
    // What is written reads back.
    ensures file { OnOk result (WritesParts layout
        (W.contents output.old) (W.contents output.new) head.now words.now) }
    ensures whole { OnOk result (Appends (W.contents output.old) (W.contents output.new)
        (sealed_file layout head.now words.now)) }
    ensures part { OnErr result (AppendsPart (sealed_file layout head.now words.now)
        (W.contents output.old) (W.contents output.new)) }
{
    let seal = right_seal(layout, head, words);
    put_bytes(output, &head_bytes_in(layout, head, seal))?;
    put_words(output, words)
}

/// Reads the head and the words of a file whose words lie so, to the end of the reader.
///
/// Room is asked for as words come, so that a head that promises more of them costs nothing.
///
/// # Errors
/// The first reason for which the bytes are no such file, in the order of the variants of
/// `FileError`; `Memory`, where the head isn't refused for its first numbers; and `Input`, where a
/// read fails before the bytes decide a reason.
pub fn read_parts<R: Read>(
    alloc: Global,
    layout: Layout,
    input: &mut R,
) -> Result<(Head, Vec<u64>), FileError>
    ensures file { IfOk result (λ parts. ReadsParts layout
        (R.remaining input.old) (R.remaining input.new) parts.0 parts.1.items) }
    ensures refused { IfSome (R.remaining input.old)
        (λ bytes. IsReadIn layout bytes (result_err result)) }
    // A failed read is reported only where the bytes before it decide no refusal yet.
    ensures input { IfErr result
        (FailsEarly (R.remaining input.old) (R.remaining input.new)) }
{
    let start = read_start(input)?;
    let head = head_in(&start);
    let mut hasher = begin_seal(layout, &start);
    let mut words = Vec::new(alloc);
    read_words(input, head.num_words, &mut words, &mut hasher)?;
    read_end(input)?;
    check_layout(layout, &start)?;
    check_seal(number_at(&start, 5), hasher.finish())?;
    Ok((head, words))
}
