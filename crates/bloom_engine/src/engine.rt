//! Serves lines: reads them, carries them out, and writes their text.
ghost use Rattle.std.specs.Prelude.{◌≡◌, ◌≢◌, ℕ, false, [], ◌∷◌, OnOk, IsOkUnless, Err};
ghost use Rattle.std.specs.Io.KnownBytes.{Keeps};
ghost use Rattle.bloom_engine.specs.Lines.{longest_line};
ghost use Rattle.bloom_engine.specs.Served.{Applied, Carried, ServedAll, ServedBefore, ServedSome, ServedUpTo};

mod commands;
mod line;
mod text;

use crate::fault::Fault;
use bloom_plain::laws::lists_join;
use bloom_plain::{BloomFilter, DefaultHasher};
use commands::{Next, next_command};
use line::{LONGEST, Line};
use lines::LineReader;
use std::alloc::Global;
use std::io::{Read, Write};
use text::{put_reply, put_words};

// Carries out a line, and writes its text.
fn serve_line<W: Write>(filter: &mut BloomFilter, line: Line, output: &mut W) -> Result<(), Fault>
    ensures carried { OnOk result (Carried filter.old filter.new
        (W.contents output.old) (W.contents output.new) (line ∷ [])) }
    // The filter is changed by the line, also where its text can't be written.
    ensures applied { Applied filter.old filter.new (line ∷ []) }
    ensures fault { IsOkUnless result Fault.Output }
{
    match line {
        Line::Insert(hash) => put_reply(output, filter.insert_hash(hash)),
        Line::Contains(hash) => put_reply(output, filter.contains_hash(hash)),
        Line::Clear => {
            filter.clear();
            Ok(())
        }
        Line::Words => put_words(output, filter.as_slice()),
    }
}

// Serves each line of the input, of which nothing was read yet.
#[tactic(auto, using(crate::proofs::ServedLemmas::serving_nothing))]
fn serve_lines<R: Read, W: Write>(
    lines: &mut LineReader,
    filter: &mut BloomFilter,
    input: &mut R,
    output: &mut W,
) -> Result<(), Fault>
    requires empty { lines.old.bytes ≡ [] }
    requires open { lines.old.ended ≡ false }
    requires limit { lines.old.longest ≡ longest_line }
    ensures all { OnOk result (ServedAll (R.remaining input.old) (R.remaining input.new)
        filter.old filter.new (W.contents output.old) (W.contents output.new)) }
    ensures bad { (n : ℕ) → result ≡ Err (Fault.Line n)
        → ServedUpTo n (R.remaining input.old) (R.remaining input.new)
        filter.old filter.new (W.contents output.old) (W.contents output.new) }
    ensures input { result ≡ Err Fault.Input → ServedBefore (R.remaining input.old)
        filter.old filter.new (W.contents output.old) (W.contents output.new) }
    ensures any { ServedSome (R.remaining input.old) filter.old filter.new }
    ensures room { result ≢ Err Fault.Memory }
    ensures usage { result ≢ Err Fault.Usage }
{
    lists_join::<DefaultHasher>();
    let mut number = 1u64;
    // Two counts, so that none ends before the input does.
    'rounds: for _round in 0..u64::MAX {
        'lines: for _line in 0..u64::MAX {
            match next_command(lines, input, output)? {
                Next::End => return Ok(()),
                Next::Good(line) => serve_line(filter, line, output)?,
                Next::Bad => return Err(Fault::Line(number)),
            }
            number = number.saturating_add(1);
        }
    }
    Err(Fault::Input)
}

/// Serves each line that is read up to the end of the input.
///
/// All replies are flushed before each read that may wait, and before the call returns. The first
/// end that a read tells is the end: the reader isn't asked again.
///
/// # Errors
/// `Line` at the first line that isn't a command, with the text of those before it written;
/// `Memory` before anything was read; `Input` and `Output` where a read, a write or a flush failed.
pub fn serve<R: Read, W: Write>(
    alloc: Global,
    filter: &mut BloomFilter,
    input: &mut R,
    output: &mut W,
) -> Result<(), Fault>
    // On Ok every line is good and its text was written, and the reader is at its end.
    ensures all { OnOk result (ServedAll (R.remaining input.old) (R.remaining input.new)
        filter.old filter.new (W.contents output.old) (W.contents output.new)) }
    // Line n is the first that isn't good, and the text of those before it was written.
    ensures bad { (n : ℕ) → result ≡ Err (Fault.Line n)
        → ServedUpTo n (R.remaining input.old) (R.remaining input.new)
        filter.old filter.new (W.contents output.old) (W.contents output.new) }
    // Where a read failed, the first lines were carried out, each is good, and their text was
    // written.
    ensures input { result ≡ Err Fault.Input → ServedBefore (R.remaining input.old)
        filter.old filter.new (W.contents output.old) (W.contents output.new) }
    // Whatever the end, also where a write failed, such lines changed the filter and nothing else.
    ensures any { ServedSome (R.remaining input.old) filter.old filter.new }
    // Memory is asked for before the first read.
    ensures memory { result ≡ Err Fault.Memory → filter.new ≡ filter.old }
    ensures unread { result ≡ Err Fault.Memory → input.new ≡ input.old }
    ensures kept { result ≡ Err Fault.Memory
        → Keeps (W.contents output.old) (W.contents output.new) }
    ensures usage { result ≢ Err Fault.Usage }
{
    let mut lines = LineReader::new(alloc, LONGEST).map_err(|_| Fault::Memory)?;
    let served = serve_lines(&mut lines, filter, input, output);
    output.flush().map_err(|_| Fault::Output)?;
    served
}
