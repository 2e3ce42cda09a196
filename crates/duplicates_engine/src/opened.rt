//! An input that is open.
ghost use Rattle.std.specs.Prelude.{◌≡◌, ◌≤◌, ◌+◌, ◌-◌, ◌^◌, ℕ, min, true, false, IfOk, IfErr, IsOkUnless, MatchOption};
ghost use Rattle.lines.specs.Reading.{CutsLineBy, HasEndAtBy};
ghost use Rattle.duplicates_engine.specs.Causes.{FailsToOpen};
ghost use Rattle.duplicates_engine.specs.Inputs.{IsFresh, NoneComes, Opens};
ghost use Rattle.duplicates_engine.specs.Longer.{limit_of};

use crate::fault::Fault;
use crate::inputs::Inputs;
use crate::options::Options;
use lines::LineReaderBy;
use std::alloc::Global;

/// The lines of an input that is open.
#[derive(Drop)]
pub struct Opened<const END: u8> {
    pub lines: LineReaderBy<END>,
    /// How many of them were read. The number stays at 2^64 - 1.
    pub number: u64,
}

impl<const END: u8> Opened<END> {
    /// Nothing was read yet.
    pub fn new(alloc: Global, options: Options) -> Result<Self, Fault>
        ensures fresh { IfOk result
            (λ opened. IsFresh (limit_of options) opened.lines opened.number) }
        ensures fault { IsOkUnless result Fault.Memory }
    {
        match LineReaderBy::new(alloc, options.limit()) {
            Ok(lines) => Ok(Opened { lines, number: 0 }),
            Err(_) => Err(Fault::Memory),
        }
    }

    /// Takes the next line, which has this many bytes, and whose end waits behind them.
    #[inline(always)]
    pub fn take_line(&mut self, count: usize)
        requires ends { HasEndAtBy END self.old.lines.bytes count }
        requires short { count ≤ self.old.lines.longest }
        ensures taken { CutsLineBy END self.old.lines.longest
            self.old.lines.bytes self.new.lines.bytes self.new.lines.line count }
        ensures ended { self.new.lines.ended ≡ self.old.lines.ended }
        ensures longest { self.new.lines.longest ≡ self.old.lines.longest }
        ensures number { self.new.number ≡ min (self.old.number + 1) (2 ^ 64 - 1) }
    {
        self.lines.take_line(count);
        self.number = self.number.saturating_add(1);
    }

    /// Takes the next line, if it waits whole, and returns whether it was taken.
    #[inline(always)]
    pub fn take_waiting(&mut self) -> bool
        ensures taken { result ≡ true → (n : ℕ) × CutsLineBy END self.old.lines.longest
            self.old.lines.bytes self.new.lines.bytes self.new.lines.line n }
        ensures ended { self.new.lines.ended ≡ self.old.lines.ended }
        ensures longest { self.new.lines.longest ≡ self.old.lines.longest }
        ensures number { result ≡ true
            → self.new.number ≡ min (self.old.number + 1) (2 ^ 64 - 1) }
        ensures kept { result ≡ false → self.new ≡ self.old }
    {
        if !self.lines.take_waiting() {
            return false;
        }
        self.number = self.number.saturating_add(1);
        true
    }
}

/// What the next step came to.
#[derive(Clone, Copy)]
pub enum Step {
    /// All inputs have ended.
    End,
    /// An input has ended, and the next was opened.
    Opened,
    /// There is a next line.
    Line,
    /// The next line is longer than a line may be.
    TooLong,
}

/// Opens the next input, if one comes.
pub fn open_next<I: Inputs>(inputs: &mut I) -> Result<Option<I::Input>, Fault>
    ensures opened { IfOk result (λ found. MatchOption found
        (NoneComes (I.coming inputs.old) (I.coming inputs.new))
        (λ input. Opens (I.coming inputs.old) (I.coming inputs.new) (I.Input.remaining input))) }
    ensures fault { IfErr result (FailsToOpen I.fails inputs.old inputs.new) }
{
    match inputs.open_next() {
        Ok(found) => Ok(found),
        Err(error) => Err(Fault::of_open(error)),
    }
}
