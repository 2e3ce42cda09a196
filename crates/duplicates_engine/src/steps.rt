//! Steps from line to line, and from input to input.
ghost use Rattle.std.specs.Prelude.{◌≡◌, ◌≤◌, IfOk, IfErr, IfSome, Ok, OnOk, MatchOption};
ghost use Rattle.std.specs.Io.KnownBytes.{Keeps};
ghost use Rattle.lines.specs.Reading.{CutsLineBy, HasEndAtBy, KnowsEnd, left_of};
ghost use Rattle.duplicates_engine.specs.Causes.{FailsBehind, FailsToOpen, IsOfStep};
ghost use Rattle.duplicates_engine.specs.Faults.{IsOfWriter};
ghost use Rattle.duplicates_engine.specs.Inputs.{IsFresh, NoneComes, Opens, Steps};
ghost use Rattle.duplicates_engine.specs.Longer.{limit_of};

use crate::ahead::Looked;
use crate::fault::Fault;
use crate::inputs::Inputs;
use crate::opened::{Opened, Step, open_next};
use crate::options::Options;
use lines::{LineReaderBy, Next};
use std::alloc::Global;
use std::io::{Read, Write};

/// Flushes what was written.
pub fn flush<W: Write>(output: &mut W) -> Result<(), Fault>
    ensures kept { Keeps (W.contents output.old) (W.contents output.new) }
    ensures fault { IfErr result IsOfWriter }
{
    match output.flush() {
        Ok(()) => Ok(()),
        Err(error) => Err(Fault::of_writer(error)),
    }
}

// Flushes what was written, where the next line may have to wait for a read.
fn flush_before_a_read<W: Write, const END: u8>(
    lines: &LineReaderBy<END>,
    output: &mut W,
) -> Result<(), Fault>
    ensures kept { Keeps (W.contents output.old) (W.contents output.new) }
    ensures fault { IfErr result IsOfWriter }
{
    if lines.has_next() {
        Ok(())
    } else {
        flush(output)
    }
}

// Opens the next input behind one that has ended. The open may wait, too.
fn open_after<I: Inputs, W: Write>(
    inputs: &mut I,
    output: &mut W,
) -> Result<Option<I::Input>, Fault>
    ensures opened { IfOk result (λ found. MatchOption found
        (NoneComes (I.coming inputs.old) (I.coming inputs.new))
        (λ input. Opens (I.coming inputs.old) (I.coming inputs.new) (I.Input.remaining input))) }
    ensures kept { Keeps (W.contents output.old) (W.contents output.new) }
    ensures fault { IfErr result (IsOfStep (FailsToOpen I.fails inputs.old inputs.new)) }
{
    flush(output)?;
    open_next(inputs)
}

// Opens the next input behind one that has ended, and begins with its lines. It stands apart and
// isn't inlined: an input holds a block of bytes, and each call of a function that makes one clears
// as many on the stack.
#[inline(never)]
fn begin_next<I: Inputs, W: Write, const END: u8>(
    alloc: Global,
    options: Options,
    opened: &mut Opened<END>,
    input: &mut I::Input,
    inputs: &mut I,
    output: &mut W,
) -> Result<Option<()>, Fault>
    ensures begins { IfOk result (λ found. MatchOption found
        (NoneComes (I.coming inputs.old) (I.coming inputs.new)
        × (opened.new ≡ opened.old) × (input.new ≡ input.old))
        (λ _. Opens (I.coming inputs.old) (I.coming inputs.new) (I.Input.remaining input.new)
        × IsFresh (limit_of options) opened.new.lines opened.new.number)) }
    ensures kept { Keeps (W.contents output.old) (W.contents output.new) }
    ensures fault { IfErr result (IsOfStep (FailsToOpen I.fails inputs.old inputs.new)) }
{
    match open_after(inputs, output)? {
        Some(next) => {
            *opened = Opened::new(alloc, options)?;
            *input = next;
            Ok(Some(()))
        }
        None => Ok(None),
    }
}

// Reads the next line, or opens the next input behind one that has ended. Before a read or an open
// that may wait, what was written is flushed.
#[inline(never)]
fn read_step<I: Inputs, W: Write, const END: u8>(
    alloc: Global,
    options: Options,
    opened: &mut Opened<END>,
    input: &mut I::Input,
    inputs: &mut I,
    output: &mut W,
) -> Result<Step, Fault>
    requires knows { KnowsEnd opened.old.lines.ended (I.Input.remaining input.old) }
    requires limit { opened.old.lines.longest ≡ limit_of options }
    ensures step { IfOk result (Steps END (limit_of options)
        (left_of opened.old.lines (I.Input.remaining input.old))
        (left_of opened.new.lines (I.Input.remaining input.new))
        (I.coming inputs.old) (I.coming inputs.new) opened.old.number opened.new.number
        opened.new.lines.line) }
    ensures knows { OnOk result (KnowsEnd opened.new.lines.ended (I.Input.remaining input.new)) }
    ensures limit { OnOk result (opened.new.lines.longest ≡ limit_of options) }
    ensures kept { Keeps (W.contents output.old) (W.contents output.new) }
    ensures fault { IfErr result (IsOfStep
        (FailsBehind I.fails (left_of opened.old.lines (I.Input.remaining input.old))
        inputs.old inputs.new)) }
{
    flush_before_a_read(&opened.lines, output)?;
    match opened.lines.next_line(input) {
        Ok(Next::End) => {}
        Ok(Next::Line) => {
            opened.number = opened.number.saturating_add(1);
            return Ok(Step::Line);
        }
        Ok(Next::TooLong) => return Ok(Step::TooLong),
        Err(error) => return Err(Fault::of_reader(error)),
    }
    match begin_next(alloc, options, opened, input, inputs, output)? {
        Some(()) => Ok(Step::Opened),
        None => Ok(Step::End),
    }
}

/// Reads the next line, or opens the next input behind one that has ended. Before a read or an open
/// that may wait, what was written is flushed. A line that was looked at is
/// the next, and waits whole.
#[inline(always)]
pub fn next_step<I: Inputs, W: Write, const END: u8>(
    alloc: Global,
    options: Options,
    looked: Option<Looked>,
    opened: &mut Opened<END>,
    input: &mut I::Input,
    inputs: &mut I,
    output: &mut W,
) -> Result<Step, Fault>
    requires knows { KnowsEnd opened.old.lines.ended (I.Input.remaining input.old) }
    requires limit { opened.old.lines.longest ≡ limit_of options }
    requires looked { IfSome looked (λ l. HasEndAtBy END opened.old.lines.bytes l.length
        × (l.length ≤ limit_of options)) }
    ensures step { IfOk result (Steps END (limit_of options)
        (left_of opened.old.lines (I.Input.remaining input.old))
        (left_of opened.new.lines (I.Input.remaining input.new))
        (I.coming inputs.old) (I.coming inputs.new) opened.old.number opened.new.number
        opened.new.lines.line) }
    ensures knows { OnOk result (KnowsEnd opened.new.lines.ended (I.Input.remaining input.new)) }
    ensures limit { OnOk result (opened.new.lines.longest ≡ limit_of options) }
    ensures kept { Keeps (W.contents output.old) (W.contents output.new) }
    ensures fault { IfErr result (IsOfStep
        (FailsBehind I.fails (left_of opened.old.lines (I.Input.remaining input.old))
        inputs.old inputs.new)) }
    ensures looked { IfSome looked (λ l. (result ≡ Ok Step.Line)
        × CutsLineBy END (limit_of options) opened.old.lines.bytes opened.new.lines.bytes
        opened.new.lines.line l.length) }
{
    match looked {
        Some(looked) => {
            opened.take_line(looked.length);
            Ok(Step::Line)
        }
        None => {
            if opened.take_waiting() {
                return Ok(Step::Line);
            }
            read_step(alloc, options, opened, input, inputs, output)
        }
    }
}
