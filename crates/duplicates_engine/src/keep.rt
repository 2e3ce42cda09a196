//! Writes the lines that are asked for.
ghost use Rattle.std.specs.Prelude.{IfOk, IfErr};
ghost use Rattle.duplicates_engine.specs.Choices.{WritesChoice, WritesChoiceUntil};
ghost use Rattle.duplicates_engine.specs.Kept.{EndsEarly, KeepsNew};

use crate::ahead::Ahead;
use crate::counted::{Counted, count_line};
use crate::fault::Fault;
use crate::inputs::Inputs;
use crate::opened::{Opened, Step, open_next};
use crate::options::Options;
use crate::output::put_chosen;
use crate::progress::Progress;
use crate::sieve::{Sieve, sift_line};
use crate::steps::{flush, next_step};
use crate::tally::{Tally, Total};
use std::alloc::Global;
use std::io::{ErrorKind, Write};

// Keeps each line of all inputs.
fn keep_lines<V: Sieve, I: Inputs, W: Write, P: Progress, const END: u8>(
    alloc: Global,
    sieve: &mut V,
    options: Options,
    inputs: &mut I,
    output: &mut W,
    progress: &mut P,
) -> Result<Total, Fault>
    ensures all { IfOk result (KeepsNew V.Sieve END options
        (I.coming inputs.old) (I.coming inputs.new) sieve.old sieve.new
        (W.contents output.old) (W.contents output.new)) }
    ensures fault { IfErr result (EndsEarly V.Sieve I.fails END options
        (I.coming inputs.old) inputs.new sieve.old sieve.new
        (W.contents output.old) (W.contents output.new)) }
{
    let mut counted = Counted {
        total: Total {
            tally: Tally { read: 0, held: 0 },
            longer: 0,
        },
        room: options.most,
    };
    let Some(mut input) = open_next(inputs)? else {
        return Ok(counted.total);
    };
    let mut opened = Opened::<END>::new(alloc, options)?;
    let mut ahead = Ahead::new();
    'steps: for _step in 0..u64::MAX {
        let looked = ahead.next::<V, END>(sieve, options.limit(), opened.lines.waiting());
        match next_step(
            alloc,
            options,
            looked,
            &mut opened,
            &mut input,
            inputs,
            output,
        )? {
            Step::End => return Ok(counted.total),
            Step::Opened => continue,
            Step::TooLong => return Err(Fault::TooLong(opened.number.saturating_add(1))),
            Step::Line => {}
        }
        let line = opened.lines.line();
        let is_held = sift_line(alloc, sieve, options, looked, line)?;
        count_line(&mut counted, options.is_longer(line), is_held, progress);
        put_chosen::<W, END>(output, options, line, is_held)?;
    }
    Err(Fault::Input(ErrorKind::TimedOut))
}

/// Sifts each line of the inputs, and writes those that are asked for, each with its end.
///
/// A new line is held back only where it is a false positive of the sieve. No line is called new
/// twice, in whichever inputs it stands, as far back as the sieve tells. Where longer lines are
/// passed on, they are written with the new ones, and not sifted. What was written is flushed
/// before each read and open that may wait, and before the call returns. `progress` is told each
/// million lines, and warned once where more new lines came than the most.
///
/// # Errors
/// `TooLong` at the first line that has more bytes than a line may have, where longer lines aren't
/// passed on; `Memory` where the sieve, a block or a line is out of memory; `Full` where the sieve
/// can take no more lines; `Open`, `Input` and `Output` where an open, a read, or a write or a
/// flush failed, with its kind.
pub fn keep_new<V: Sieve, I: Inputs, W: Write, P: Progress, const END: u8>(
    alloc: Global,
    sieve: &mut V,
    options: Options,
    inputs: &mut I,
    output: &mut W,
    progress: &mut P,
) -> Result<Total, Fault>
    // All lines were sifted in order, but for longer ones. Each line for which the sieve returned
    // false differs from every line before it, as far back as the sieve's span reaches. Those that
    // are asked for were written. What `progress` is told is tested only.
    ensures all { IfOk result (KeepsNew V.Sieve END options
        (I.coming inputs.old) (I.coming inputs.new) sieve.old sieve.new
        (W.contents output.old) (W.contents output.new)) }
    // The same of the lines before a fault, which is the fault of what came behind them: the sieve
    // refused the next line, an open failed, or a line is too long.
    ensures fault { IfErr result (EndsEarly V.Sieve I.fails END options
        (I.coming inputs.old) inputs.new sieve.old sieve.new
        (W.contents output.old) (W.contents output.new)) }
    // In words of lines and the span alone: where the new lines are asked for, each line that is
    // written differs from every line before it, or, with a span of N, from every one behind which
    // fewer than N different lines came; where those held back are, each line that is left out
    // does. A line that is passed on, since it is longer, is written there and left out here.
    ensures choice { IfOk result (λ _. WritesChoice (V.span sieve.old) END options
        (I.coming inputs.old) (I.coming inputs.new)
        (W.contents output.old) (W.contents output.new)) }
    // The same of the lines before a fault.
    ensures choice_until { IfErr result (WritesChoiceUntil (V.span sieve.old) END options
        (I.coming inputs.old) (W.contents output.old) (W.contents output.new)) }
{
    let kept = keep_lines::<V, I, W, P, END>(alloc, sieve, options, inputs, output, progress);
    match flush(output) {
        Ok(()) => kept,
        Err(fault) => Err(fault),
    }
}
