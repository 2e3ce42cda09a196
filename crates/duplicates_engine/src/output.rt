//! Writing lines.
ghost use Rattle.std.specs.Prelude.{◌≡◌};
ghost use Rattle.duplicates_engine.specs.Kept.{Writes, is_written, piece};

use crate::fault::Fault;
use crate::options::{Options, Written};
use lines::put_line_by;
use std::io::Write;

// Whether a line is written for which the sieve returned this.
fn writes(written: Written, is_longer: bool, is_held: bool) -> bool
    ensures { result ≡ is_written written is_longer is_held }
{
    match written {
        Written::New => is_longer || !is_held,
        Written::HeldBack => !is_longer && is_held,
        Written::Nothing => false,
    }
}

/// Writes a line and its end, if it is to be written.
#[inline(always)]
pub fn put_chosen<W: Write, const END: u8>(
    output: &mut W,
    options: Options,
    line: &[u8],
    is_held: bool,
) -> Result<(), Fault>
    ensures { Writes (piece END options line.now is_held)
        (W.contents output.old) (W.contents output.new) result }
{
    if !writes(options.written, options.is_longer(line), is_held) {
        return Ok(());
    }
    match put_line_by(output, line, END) {
        Ok(()) => Ok(()),
        Err(error) => Err(Fault::of_writer(error)),
    }
}
