//! What the next line asks for.
ghost use Rattle.std.specs.Prelude.{◌≡◌, true, IfErr, IfOk, IsOkUnless};
ghost use Rattle.std.specs.Io.KnownBytes.{Keeps};
ghost use Rattle.bloom_engine.specs.Faults.{IsOfStream};
ghost use Rattle.bloom_engine.specs.Lines.{longest_line};
ghost use Rattle.bloom_engine.specs.Reading.{Asks, NextCommand};
ghost use Rattle.lines.specs.Reading.{KnowsEnd, has_next_by, left_of};

use crate::engine::line::{Line, parse};
use crate::fault::Fault;
use lines::LineReader;
use std::io::{Read, Write};

/// What the next line comes to.
#[derive(Clone, Copy)]
pub enum Next {
    /// The input has ended.
    End,
    /// The line is good.
    Good(Line),
    /// The line is no command.
    Bad,
}

// What a line asks for, or that it is no command.
fn parsed_line(line: &[u8]) -> Next
    ensures { Asks line.now result }
{
    match parse(line) {
        Some(good) => Next::Good(good),
        None => Next::Bad,
    }
}

// Flushes all replies, where the next line may have to wait for a read.
fn flush_before_a_read<W: Write>(lines: &LineReader, output: &mut W) -> Result<(), Fault>
    ensures kept { Keeps (W.contents output.old) (W.contents output.new) }
    ensures fault { IsOkUnless result Fault.Output }
{
    if lines.has_next() {
        Ok(())
    } else {
        output.flush().map_err(|_| Fault::Output)
    }
}

/// Reads the next line, and what it asks for. Before a read that may wait, all replies are flushed.
pub fn next_command<R: Read, W: Write>(
    lines: &mut LineReader,
    input: &mut R,
    output: &mut W,
) -> Result<Next, Fault>
    requires limit { lines.old.longest ≡ longest_line }
    requires knows { KnowsEnd lines.old.ended (R.remaining input.old) }
    ensures next { IfOk result (NextCommand (left_of lines.old (R.remaining input.old))
        (left_of lines.new (R.remaining input.new))) }
    ensures knows { KnowsEnd lines.new.ended (R.remaining input.new) }
    ensures limit { lines.new.longest ≡ longest_line }
    // The reader isn't asked where the next line is told without it, nor after its end.
    ensures quiet { has_next_by 10 lines.old ≡ true → input.new ≡ input.old }
    ensures kept { Keeps (W.contents output.old) (W.contents output.new) }
    ensures fault { IfErr result IsOfStream }
{
    flush_before_a_read(lines, output)?;
    match lines.next_line(input) {
        Ok(lines::Next::End) => Ok(Next::End),
        Ok(lines::Next::Line) => Ok(parsed_line(lines.line())),
        Ok(lines::Next::TooLong) => Ok(Next::Bad),
        Err(_) => Err(Fault::Input),
    }
}
