//! Reading one line after the other.
ghost use Rattle.std.specs.Prelude.{◌≡◌, ◌<◌, ◌≤◌, ℕ, false, true, [], drop, length, IfOk, OnErr, OnOk};
ghost use Rattle.std.specs.Io.KnownBytes.{Consumes, Keeps, prepend_known};
ghost use Rattle.lines.specs.Losing.{LosesPart};
ghost use Rattle.lines.specs.Reading.{CutsLineBy, HasEndAtBy, KnowsEnd, NextLineBy, has_next_by, is_told_by, left_of};

use crate::block::Block;
use crate::piece::{Piece, has_end, move_piece, take_whole};
use std::alloc::{AllocError, Global};
use std::io;
use std::io::{ErrorKind, Read};
use std::marker::Model;

// How many bytes a line has room for at first. Where lines may have no more, none asks for memory.
const FIRST_ROOM: usize = 64;

/// What the next line came to.
#[derive(Clone, Copy, Debug, PartialEq, Eq)]
pub enum Next {
    /// The input has ended.
    End,
    /// There is a next line.
    Line,
    /// The next line is longer than a line may be. More of it was taken than a line may have.
    TooLong,
}

/// Gives the lines of a reader one after the other, and never reads on once a read told the end.
/// The byte `END` ends a line.
///
/// The reader keeps one block of bytes. A line that waits whole in it stays there; one that doesn't
/// is joined in a line of its own, which takes memory as it needs it.
#[derive(Drop)]
pub struct LineReaderBy<const END: u8> {
    block: Block,
    line: Vec<u8>,
    // Whether the line that was read last lies in the block.
    in_block: bool,
    ended: bool,
    longest: usize,
}

/// The reader of lines as text has them: byte 10 ends a line.
pub type LineReader = LineReaderBy<10>;

impl<const END: u8> Model for LineReaderBy<END> {
    ghost use Rattle.std.specs.Prelude.{if◌then◌else◌};
    ghost use Rattle.lines.specs.Reading.{Waiting};

    ghost Value = { Waiting };

    ghost view = { λ r. record {
      line = if r.in_block then r.block.line else r.line.items;
      bytes = r.block.bytes;
      ended = r.ended;
      longest = r.longest;
    } };
}

impl<const END: u8> LineReaderBy<END> {
    /// Nothing was read yet. A line may have at most this many bytes, without its end.
    pub fn new(alloc: Global, longest: usize) -> Result<Self, AllocError>
        ensures empty { IfOk result (λ reader. reader.bytes ≡ []) }
        ensures open { IfOk result (λ reader. reader.ended ≡ false) }
        ensures longest { IfOk result (λ reader. reader.longest ≡ longest) }
    {
        Ok(LineReaderBy {
            block: Block::new(alloc)?,
            line: Vec::with_capacity(alloc, longest.min(FIRST_ROOM))?,
            in_block: false,
            ended: false,
            longest,
        })
    }

    /// The line that was read last, without its end.
    pub fn line(&self) -> &[u8]
        ensures { result.now ≡ self.now.line }
    {
        if self.in_block {
            self.block.line()
        } else {
            self.line.as_slice()
        }
    }

    /// The bytes that were read and wait, of lines that come.
    pub fn waiting(&self) -> &[u8]
        ensures { result.now ≡ self.now.bytes }
    {
        self.block.as_slice()
    }

    /// Takes the first bytes that wait.
    pub fn skip(&mut self, count: usize)
        requires { count ≤ length self.old.bytes }
        ensures bytes { self.new.bytes ≡ drop count self.old.bytes }
        ensures ended { self.new.ended ≡ self.old.ended }
        ensures longest { self.new.longest ≡ self.old.longest }
    {
        self.block.skip(count);
    }

    /// Takes the next line, which has this many bytes, and whose end waits behind them. It isn't
    /// copied.
    #[inline(always)]
    pub fn take_line(&mut self, count: usize)
        requires ends { HasEndAtBy END self.old.bytes count }
        requires short { count ≤ self.old.longest }
        ensures taken { CutsLineBy END self.old.longest
            self.old.bytes self.new.bytes self.new.line count }
        ensures ended { self.new.ended ≡ self.old.ended }
        ensures longest { self.new.longest ≡ self.old.longest }
    {
        self.block.take_line(count);
        self.in_block = true;
    }

    /// Takes the next line, if its end waits and it isn't too long, and returns whether it was
    /// taken. It isn't copied, and nothing is read.
    #[inline(always)]
    pub fn take_waiting(&mut self) -> bool
        ensures taken { result ≡ true → (n : ℕ) × CutsLineBy END self.old.longest
            self.old.bytes self.new.bytes self.new.line n }
        ensures kept { result ≡ false → self.new ≡ self.old }
        ensures none { result ≡ false
            → (n : ℕ) → HasEndAtBy END self.old.bytes n → self.old.longest < n }
        ensures ended { self.new.ended ≡ self.old.ended }
        ensures longest { self.new.longest ≡ self.old.longest }
    {
        if !take_whole::<END>(&mut self.block, self.longest) {
            return false;
        }
        self.in_block = true;
        true
    }

    /// Whether the next line is told without a read: its end waits, or more bytes than a line may
    /// have, or the input has ended.
    pub fn has_next(&self) -> bool
        ensures { result ≡ has_next_by END self.now }
    {
        if self.ended {
            return true;
        }
        let bytes = self.block.as_slice();
        if bytes.len() > self.longest {
            return true;
        }
        has_end::<END>(bytes)
    }

    /// Reads the next line. After the end it reads nothing.
    ///
    /// An interrupted read is tried again. After an error or a line that is too long what was read
    /// of the line is lost.
    pub fn next_line<R: Read>(&mut self, input: &mut R) -> io::Result<Next>
        requires { KnowsEnd self.old.ended (R.remaining input.old) }
        ensures next { IfOk result (NextLineBy END self.old.longest
            (left_of self.old (R.remaining input.old))
            (left_of self.new (R.remaining input.new)) self.new.line) }
        // After an error no byte behind the line was taken.
        ensures lost { OnErr result (LosesPart END (left_of self.old (R.remaining input.old))
            (left_of self.new (R.remaining input.new))) }
        ensures knows { KnowsEnd self.new.ended (R.remaining input.new) }
        ensures longest { self.new.longest ≡ self.old.longest }
        // The end stays told.
        ensures told { self.old.ended ≡ true → self.new.ended ≡ true }
        // The reader isn't asked where it needn't be.
        ensures quiet { has_next_by END self.old ≡ true → input.new ≡ input.old }
    {
        if take_whole::<END>(&mut self.block, self.longest) {
            self.in_block = true;
            return Ok(Next::Line);
        }
        self.line.clear();
        self.in_block = false;
        fill_line::<END, R>(
            &mut self.block,
            &mut self.line,
            &mut self.ended,
            self.longest,
            input,
        )
    }
}

// Reads into an empty line up to its end.
fn fill_line<const END: u8, R: Read>(
    block: &mut Block,
    line: &mut Vec<u8>,
    ended: &mut bool,
    longest: usize,
    input: &mut R,
) -> io::Result<Next>
    requires empty { line.old.items ≡ [] }
    requires knows { KnowsEnd ended.old (R.remaining input.old) }
    ensures next { IfOk result (NextLineBy END longest
        (prepend_known block.old.bytes (R.remaining input.old))
        (prepend_known block.new.bytes (R.remaining input.new)) line.new.items) }
    ensures lost { OnErr result (LosesPart END
        (prepend_known block.old.bytes (R.remaining input.old))
        (prepend_known block.new.bytes (R.remaining input.new))) }
    ensures knows { KnowsEnd ended.new (R.remaining input.new) }
    ensures told { ended.old ≡ true → ended.new ≡ true }
    ensures quiet { is_told_by END ended.old longest block.old.bytes ≡ true
        → input.new ≡ input.old }
{
    // A count that no input outlasts: each turn but the last takes a byte or more.
    'pieces: for _piece in 0..u64::MAX {
        match move_piece::<END>(block, line, longest)? {
            Piece::Ended => return Ok(Next::Line),
            Piece::TooLong => return Ok(Next::TooLong),
            Piece::All => {}
        }
        refill(block, ended, input)?;
        if *ended {
            return Ok(if line.is_empty() {
                Next::End
            } else {
                Next::Line
            });
        }
    }
    Err(ErrorKind::TimedOut.into())
}

// Reads a new block where this one is empty, unless the end was told.
fn refill<R: Read>(block: &mut Block, ended: &mut bool, input: &mut R) -> io::Result<()>
    requires empty { block.old.bytes ≡ [] }
    requires knows { KnowsEnd ended.old (R.remaining input.old) }
    ensures taken { OnOk result
        (Consumes (R.remaining input.old) (R.remaining input.new) block.new.bytes) }
    ensures end { OnOk result (ended.new ≡ true → block.new.bytes ≡ []) }
    ensures knows { KnowsEnd ended.new (R.remaining input.new) }
    ensures told { ended.old ≡ true → ended.new ≡ true }
    ensures quiet { ended.old ≡ true → input.new ≡ input.old }
    ensures none { OnErr result (block.new.bytes ≡ []) }
    ensures kept { OnErr result (Keeps (R.remaining input.old) (R.remaining input.new)) }
{
    if !*ended {
        block.fill(input)?;
        *ended = block.as_slice().is_empty();
    }
    Ok(())
}
