//! Writing a line, as far as the writer takes it.
ghost use Rattle.std.specs.Prelude.{[], ◌∷◌, ◌++◌, ◌≤◌, length, take, IfOk, OnOk, OnErr};
ghost use Rattle.std.specs.Io.KnownBytes.{Appends};
ghost use Rattle.lines.specs.Writing.{AppendsPart};

use std::io;
use std::io::{ErrorKind, Write};

/// Writes a line and its end, byte 10.
///
/// An interrupted write is tried again. After an error a beginning of both was written.
pub fn put_line<W: Write>(output: &mut W, line: &[u8]) -> io::Result<()>
    ensures whole { OnOk result
        (Appends (W.contents output.old) (W.contents output.new) (line.now ++ 10 ∷ [])) }
    ensures part { OnErr result
        (AppendsPart (line.now ++ 10 ∷ []) (W.contents output.old) (W.contents output.new)) }
{
    put_line_by(output, line, 10)
}

/// Writes a line and the byte that ends it.
///
/// An interrupted write is tried again. After an error a beginning of both was written.
#[inline(always)]
pub fn put_line_by<W: Write>(output: &mut W, line: &[u8], end: u8) -> io::Result<()>
    ensures whole { OnOk result
        (Appends (W.contents output.old) (W.contents output.new) (line.now ++ end ∷ [])) }
    ensures part { OnErr result
        (AppendsPart (line.now ++ end ∷ []) (W.contents output.old) (W.contents output.new)) }
{
    put_bytes(output, line)?;
    put_bytes(output, &[end])
}

/// Writes bytes. Of what was written before an error std's `write_all` says nothing.
///
/// An interrupted write is tried again. After an error a beginning of the bytes was written.
#[inline(always)]
pub fn put_bytes<W: Write>(output: &mut W, text: &[u8]) -> io::Result<()>
    ensures whole { OnOk result
        (Appends (W.contents output.old) (W.contents output.new) text.now) }
    ensures part { OnErr result
        (AppendsPart text.now (W.contents output.old) (W.contents output.new)) }
{
    let mut rest = text;
    'writes: for _write in 0..u64::MAX {
        if rest.is_empty() {
            return Ok(());
        }
        let count = put_some(output, rest)?;
        rest = &rest[count..];
    }
    Err(ErrorKind::TimedOut.into())
}

// Writes some of a text, and gives the number of its bytes: none where the write was interrupted.
#[inline(always)]
fn put_some<W: Write>(output: &mut W, text: &[u8]) -> io::Result<usize>
    ensures bound { IfOk result (λ count. count ≤ length text.now) }
    ensures some { IfOk result
        (λ count. Appends (W.contents output.old) (W.contents output.new) (take count text.now)) }
    ensures none { OnErr result
        (Appends (W.contents output.old) (W.contents output.new) []) }
{
    match output.write(text) {
        Ok(0) => Err(ErrorKind::WriteZero.into()),
        Ok(count) => Ok(count),
        Err(error) => {
            if error.kind() == ErrorKind::Interrupted {
                return Ok(0);
            }
            Err(error)
        }
    }
}
