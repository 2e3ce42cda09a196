//! Bytes that were read and wait to be taken, and the line among them that was taken last.
ghost use Rattle.std.specs.Prelude.{◌≡◌, ◌<◌, ◌≤◌, ◌+◌, [], take, drop, length, IfOk, OnOk, OnErr};
ghost use Rattle.std.specs.Io.KnownBytes.{Consumes, IsAtEnd, Keeps};

use crate::reads::read_some;
use std::alloc::{AllocError, Global};
use std::io;
use std::io::Read;
use std::marker::Model;

// How many bytes a block has room for.
const ROOM: usize = 65536;

/// Bytes that were read and wait to be taken. A line that was taken keeps its bytes until the next
/// read.
#[derive(Drop)]
pub struct Block {
    bytes: Vec<u8>,
    // Where the bytes that wait begin and end.
    at: usize,
    end: usize,
    // Where the line that was taken last begins and ends.
    line_at: usize,
    line_end: usize,
}

impl Model for Block {
    ghost use Rattle.std.specs.Prelude.{◌-◌, ◌<◌, ◌≤◌, take, drop, length};
    ghost use Rattle.lines.specs.Pieces.{Held};

    ghost Value = { Held };

    ghost view = { λ b. record {
      line = take (b.line_end - b.line_at) (drop b.line_at b.bytes.items);
      bytes = take (b.end - b.at) (drop b.at b.bytes.items);
    } };

    ghost invariant = { λ b. (b.at ≤ b.end) × (b.end ≤ length b.bytes.items)
        × (0 < length b.bytes.items)
        × (b.line_at ≤ b.line_end) × (b.line_end ≤ length b.bytes.items) };
}

impl Block {
    /// An empty block. It takes its memory here and never again.
    pub fn new(alloc: Global) -> Result<Self, AllocError>
        ensures { IfOk result (λ block. block.bytes ≡ []) }
    {
        let bytes = vec![in alloc; 0u8; ROOM]?;
        Ok(Block {
            bytes,
            at: 0,
            end: 0,
            line_at: 0,
            line_end: 0,
        })
    }

    /// The bytes that wait.
    pub fn as_slice(&self) -> &[u8]
        ensures { result.now ≡ self.now.bytes }
    {
        &self.bytes.as_slice()[self.at..self.end]
    }

    /// The line that was taken last.
    pub fn line(&self) -> &[u8]
        ensures { result.now ≡ self.now.line }
    {
        &self.bytes.as_slice()[self.line_at..self.line_end]
    }

    /// Takes the first bytes.
    pub fn skip(&mut self, count: usize)
        requires { count ≤ length self.old.bytes }
        ensures { self.new.bytes ≡ drop count self.old.bytes }
    {
        self.at += count;
    }

    /// Takes the first bytes as a line, and the byte behind them, which ends it.
    #[inline(always)]
    pub fn take_line(&mut self, count: usize)
        requires { count < length self.old.bytes }
        ensures line { self.new.line ≡ take count self.old.bytes }
        ensures bytes { self.new.bytes ≡ drop (count + 1) self.old.bytes }
    {
        self.line_at = self.at;
        self.line_end = self.at + count;
        self.at = self.line_end + 1;
    }

    /// Takes all bytes.
    pub fn clear(&mut self)
        ensures { self.new.bytes ≡ [] }
    {
        self.at = self.end;
    }

    /// Reads once, into a block that is empty. An interrupted read is tried again.
    pub fn fill<R: Read>(&mut self, input: &mut R) -> io::Result<()>
        requires { self.old.bytes ≡ [] }
        ensures taken { OnOk result
            (Consumes (R.remaining input.old) (R.remaining input.new) self.new.bytes) }
        // The block is empty only at the end of the input.
        ensures end { OnOk result (self.new.bytes ≡ [] → IsAtEnd (R.remaining input.new)) }
        // After an error the block is empty, and nothing was taken.
        ensures none { OnErr result (self.new.bytes ≡ []) }
        ensures kept { OnErr result (Keeps (R.remaining input.old) (R.remaining input.new)) }
    {
        let count = read_some(input, self.bytes.as_mut_slice())?;
        self.at = 0;
        self.end = count;
        Ok(())
    }
}
