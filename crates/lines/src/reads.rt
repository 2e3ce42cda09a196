//! Reading some bytes, or as many as there is room for.
ghost use Rattle.std.specs.Prelude.{◌≡◌, ◌<◌, ◌≤◌, length, take, IfOk, OnErr};
ghost use Rattle.std.specs.Io.KnownBytes.{Consumes, IsAtEnd, Keeps};
ghost use Rattle.lines.specs.Filling.{GivesFewer};

use std::io;
use std::io::{ErrorKind, Read};

/// Reads once, and again where the read was interrupted. It gives the number of bytes that were
/// read: none only at the end of the input, where there is room.
pub fn read_some<R: Read>(input: &mut R, bytes: &mut [u8]) -> io::Result<usize>
    ensures taken { IfOk result
        (λ n. Consumes (R.remaining input.old) (R.remaining input.new) (take n bytes.new)) }
    ensures end { IfOk result
        (λ n. n ≡ 0 → 0 < length bytes.new → IsAtEnd (R.remaining input.new)) }
    ensures count { IfOk result (λ n. n ≤ length bytes.new) }
    ensures room { length bytes.new ≡ length bytes.old }
    ensures kept { OnErr result (Keeps (R.remaining input.old) (R.remaining input.new)) }
{
    // Two counts, so that none ends before the input does.
    'rounds: for _round in 0..u64::MAX {
        'tries: for _try in 0..u64::MAX {
            match input.read(bytes) {
                Ok(count) => return Ok(count),
                Err(error) => {
                    if error.kind() != ErrorKind::Interrupted {
                        return Err(error);
                    }
                }
            }
        }
    }
    Err(ErrorKind::TimedOut.into())
}

/// Reads until there is no more room, or until the end of the input. It gives the number of bytes
/// that were read.
pub fn read_full<R: Read>(input: &mut R, bytes: &mut [u8]) -> io::Result<usize>
    ensures taken { IfOk result
        (λ n. Consumes (R.remaining input.old) (R.remaining input.new) (take n bytes.new)) }
    // Room is left only at the end.
    ensures end { IfOk result (λ n. n < length bytes.new → IsAtEnd (R.remaining input.new)) }
    ensures count { IfOk result (λ n. n ≤ length bytes.new) }
    ensures room { length bytes.new ≡ length bytes.old }
    // After an error fewer bytes were taken than there was room for.
    ensures part { OnErr result
        (GivesFewer (length bytes.old) (R.remaining input.old) (R.remaining input.new)) }
{
    let mut count: usize = 0;
    'reads: while count < bytes.len() {
        let more = read_some(input, &mut bytes[count..])?;
        if more == 0 {
            break;
        }
        count += more;
    }
    Ok(count)
}
