//! Filters of readers that have names, in either form.
ghost use Rattle.std.specs.Prelude.{◌≡◌, ◌++◌, ◌<◌, ◌≤◌, IfErr, IfOk, IfSome, Some};
ghost use Rattle.std.specs.IoError.{error_kind};
ghost use Rattle.anyhow.specs.Error.{HasMessage};
ghost use Rattle.fastbloom.specs.File.{HasOwnKey};
ghost use Rattle.fastbloom.specs.FilterFiles.{IsFileOf};
ghost use Rattle.summaries_engine.specs.Answers.{IsKeyed};
ghost use Rattle.summaries_engine.specs.Kinds.{IsFileOfKind, parts_of};
ghost use Rattle.summaries_engine.specs.Loaded.{IsInForm, IsRightIn, IsRightOf, IsRightWith, IsReportedOf, IsReportedOfText, IsUnloaded, IsUnread, SaysNone, hashes_text};
ghost use Rattle.summaries_engine.specs.Stops.{IsBad};

use crate::form::Form;
use crate::head::{form_of, layout_of};
use crate::keys::unread;
use crate::kinds::AnyFilter;
use crate::stop::Stop;
use anyhow::anyhow;
use fastbloom::file::Layout;
use fastbloom::{BlockedBloomFilter, BloomFilter, FileError, FilterData, FilterFile};
use lines::read_full;
use std::alloc::Global;
use std::io;
use std::io::{ErrorKind, Read};

// What is reported where what was read is no filter.
fn no_filter(name: &str, error: anyhow::Error) -> Stop
    ensures { SaysNone name.now result }
{
    Stop::Bad(error.context(format_args!("{name}: it holds no filter")))
}

// What is reported where a file of the form isn't loaded.
fn unloaded(name: &str, error: FileError) -> Stop
    ensures told { IsReportedOf name.now error result }
    ensures failed { IsUnread name.now result }
{
    match error {
        FileError::Memory => Stop::Memory,
        FileError::Input(kind) => unread(name, io::Error::from(kind)),
        error => no_filter(name, anyhow::Error::from(error)),
    }
}

// What is reported where no text is read: what isn't UTF-8 is none.
fn unread_text(name: &str, error: io::Error) -> Stop
    ensures told { IsReportedOfText (error_kind error) name.now result }
    ensures failed { IsUnread name.now result }
{
    if error.kind() == ErrorKind::InvalidData {
        no_filter(name, anyhow::Error::from(error))
    } else {
        unread(name, error)
    }
}

// Reads the file of a filter of one kind, of which the first bytes were read.
fn load_kind<F: FilterFile, R: Read>(
    alloc: Global,
    name: &str,
    start: &[u8],
    input: &mut R,
) -> Result<F, Stop>
    ensures keyed { IfOk result (λ filter. HasOwnKey (F.seen filter)) }
    ensures file { IfOk result (λ filter. IfSome (R.remaining input.old)
        (λ rest. IsFileOf F.layout (start.now ++ rest) (F.seen filter))) }
    ensures failed { IfErr result (IsUnread name.now) }
    ensures right { IfErr result (λ stop. IfSome (R.remaining input.old)
        (λ rest. IsRightIn F.layout (start.now ++ rest) name.now stop)) }
{
    match F::read_file(alloc, &mut start.chain(input)) {
        Ok(filter) => Ok(filter),
        Err(error) => Err(unloaded(name, error)),
    }
}

// Reads a file of the form whose words lie so, of which the first bytes were read.
fn load_file<R: Read>(
    alloc: Global,
    name: &str,
    layout: Layout,
    start: &[u8],
    input: &mut R,
) -> Result<AnyFilter, Stop>
    ensures keyed { IfOk result IsKeyed }
    ensures file { IfOk result (λ filter. IfSome (R.remaining input.old)
        (λ rest. IsFileOfKind (start.now ++ rest) filter)) }
    ensures failed { IfErr result (IsUnread name.now) }
    ensures right { IfErr result (λ stop. IfSome (R.remaining input.old)
        (λ rest. IsRightIn layout (start.now ++ rest) name.now stop)) }
{
    match layout {
        Layout::Whole => {
            let filter = load_kind::<BloomFilter, R>(alloc, name, start, input)?;
            Ok(AnyFilter::Classic(filter))
        }
        Layout::Lines => {
            let filter = load_kind::<BlockedBloomFilter, R>(alloc, name, start, input)?;
            Ok(AnyFilter::Blocked(filter))
        }
    }
}

// The filter of a JSON text.
fn filter_of(alloc: Global, name: &str, text: &str) -> Result<AnyFilter, Stop>
    ensures keyed { IfOk result IsKeyed }
    ensures failed { IfErr result (IsUnread name.now) }
{
    match serde_json::from_str::<FilterData>(alloc, text) {
        Ok(data) => match BloomFilter::from_data(data) {
            Ok(made) => Ok(AnyFilter::Classic(made)),
            Err(error) => Err(no_filter(name, anyhow::Error::from(error))),
        },
        Err(error) => {
            if error.is_memory() {
                return Err(Stop::Memory);
            }
            Err(no_filter(name, anyhow::Error::from(error)))
        }
    }
}

// Whether a text that begins so may be a filter: its first byte that isn't white space begins an
// object or an array.
fn may_be_filter(start: &[u8]) -> bool {
    'bytes: for byte in start {
        if !byte.is_ascii_whitespace() {
            return *byte == b'{' || *byte == b'[';
        }
    }
    true
}

// Reads a filter as JSON text, of which the first bytes were read. No more is read of what can't be
// one.
fn load_text<R: Read>(
    alloc: Global,
    name: &str,
    start: &[u8],
    input: &mut R,
) -> Result<AnyFilter, Stop>
    ensures keyed { IfOk result IsKeyed }
    ensures failed { IfErr result (IsUnread name.now) }
{
    let most = if may_be_filter(start) { u64::MAX } else { 0 };
    match io::read_to_string(alloc, start.chain(input.take(most))) {
        Ok(text) => filter_of(alloc, name, text.as_str()),
        Err(error) => Err(unread_text(name, error)),
    }
}

// Reads a filter in the form that its first bytes tell.
fn load_any<R: Read>(alloc: Global, name: &str, input: &mut R) -> Result<(AnyFilter, Form), Stop>
    ensures keyed { IfOk result (λ read. IsKeyed read.0) }
    ensures form { IfOk result (λ read. IfSome (R.remaining input.old) (IsInForm read.1 read.0)) }
    ensures failed { IfErr result (IsUnread name.now) }
    ensures right { IfErr result (λ stop.
        IfSome (R.remaining input.old) (λ bytes. IsRightOf bytes name.now stop)) }
{
    let mut start = [0u8; 64];
    let count = match read_full(input, &mut start) {
        Ok(count) => count,
        Err(error) => return Err(unread(name, error)),
    };
    if start[..count].starts_with(b"fbloom\0") {
        let layout = layout_of(count, &start);
        let filter = load_file(alloc, name, layout, &start[..count], input)?;
        Ok((filter, form_of(&start)))
    } else {
        let filter = load_text(alloc, name, &start[..count], input)?;
        Ok((filter, Form::Json))
    }
}

// What is reported about a filter with more hashes than are allowed.
fn too_many_hashes(name: &str, hashes: u32, most: u32) -> Stop
    ensures { IsBad (HasMessage (Some (hashes_text name.now hashes most))) result }
{
    Stop::Bad(anyhow!("{name}: it has {hashes} hashes, and --hashes-up-to allows {most}"))
}

/// The filter of a reader, to its end, and the form in which it lay. A reader whose first bytes are
/// `fbloom` and 0 has a file of the form, which tells the filter's kind, and each other one JSON
/// text, of a Bloom filter.
///
/// A file of the form is read block by block, so that its bytes never lie in memory beside the
/// words of its filter.
///
/// # Errors
/// Out of memory, and where a read fails, the reader holds no filter, or its filter has more hashes
/// than `most`; each but the first tells the name.
pub fn load<R: Read>(
    alloc: Global,
    name: &str,
    most: u32,
    input: &mut R,
) -> Result<(AnyFilter, Form), Stop>
    ensures keyed { IfOk result (λ read. IsKeyed read.0) }
    ensures few { IfOk result (λ read. (parts_of read.0).hashes ≤ most) }
    ensures form { IfOk result (λ read. IfSome (R.remaining input.old) (IsInForm read.1 read.0)) }
    ensures failed { IfErr result (IsUnloaded name.now most) }
    // It is reported only of bytes that are refused, or whose filter has that many hashes.
    ensures right { IfErr result (λ stop.
        IfSome (R.remaining input.old) (λ bytes. IsRightWith bytes name.now most stop)) }
{
    let (filter, form) = load_any(alloc, name, input)?;
    let hashes = filter.num_hashes();
    if hashes > most {
        return Err(too_many_hashes(name, hashes, most));
    }
    Ok((filter, form))
}
