//! How a filter lies in a file: in the file form of the library, or as JSON text.
ghost use Rattle.std.specs.Prelude.{codes, IfErr, OnOk, OnErr};
ghost use Rattle.std.specs.Io.KnownBytes.{Appends};
ghost use Rattle.lines.specs.Writing.{AppendsPart};
ghost use Rattle.summaries_engine.specs.Kinds.{file_of_kind};
ghost use Rattle.summaries_engine.specs.Stops.{IsUnput, SaysOver};

use crate::kinds::AnyFilter;
use crate::stop::{Stop, cause, written};
use fastbloom::BloomFilter;
use std::alloc::Global;
use std::io::Write;

/// How a filter lies in a file.
#[derive(Clone, Copy, Debug, PartialEq, Eq)]
pub enum Form {
    /// The file form, with the seal of its bytes.
    Sealed,
    /// The file form, with no seal.
    Unsealed,
    /// JSON text.
    Json,
}

/// Writes the file of a filter, with its seal.
///
/// # Errors
/// Where a write or the flush fails. Then a beginning of the file was written.
pub fn put_file<W: Write>(filter: &AnyFilter, output: &mut W) -> anyhow::Result<()>
    ensures whole { OnOk result
        (Appends (W.contents output.old) (W.contents output.new) (file_of_kind filter.now)) }
    ensures part { OnErr result
        (AppendsPart (file_of_kind filter.now) (W.contents output.old) (W.contents output.new)) }
    ensures failed { IfErr result (SaysOver (codes "the filter can't be written")) }
{
    match write_file(filter, output) {
        Ok(()) => Ok(()),
        Err(error) => Err(cause(&error).context("the filter can't be written")),
    }
}

fn write_file<W: Write>(filter: &AnyFilter, output: &mut W) -> std::io::Result<()>
    ensures whole { OnOk result
        (Appends (W.contents output.old) (W.contents output.new) (file_of_kind filter.now)) }
    ensures part { OnErr result
        (AppendsPart (file_of_kind filter.now) (W.contents output.old) (W.contents output.new)) }
{
    filter.write_file(output)?;
    output.flush()
}

/// Writes a Bloom filter as one line of text, all of which is made before its first byte is
/// written.
///
/// # Errors
/// Out of memory for the text, and where a write or the flush fails.
pub fn put<W: Write>(alloc: Global, filter: &BloomFilter, output: &mut W) -> Result<(), Stop>
    ensures failed { IfErr result IsUnput }
{
    let Ok(data) = filter.to_data(alloc) else {
        return Err(Stop::Memory);
    };
    let Ok(text) = serde_json::to_string(alloc, &data) else {
        return Err(Stop::Memory);
    };
    written(
        write_line(text.as_str(), output),
        "the filter can't be written",
    )
}

fn write_line<W: Write>(text: &str, output: &mut W) -> std::io::Result<()> {
    output.write_all(text.as_bytes())?;
    output.write_all(b"\n")?;
    output.flush()
}
