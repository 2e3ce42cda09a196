//! Moves waiting bytes to a line.
ghost use Rattle.std.specs.Prelude.{◌≡◌, ◌+◌, ◌<◌, ◌≤◌, ℕ, true, false, not, ◌++◌, length, IfOk, MatchOption, OnErr};
ghost use Rattle.lines.specs.Lines.{has_no_end_by};
ghost use Rattle.lines.specs.Pieces.{MovesPiece};
ghost use Rattle.lines.specs.Reading.{CutsLineBy, HasEndAtBy};

use crate::block::Block;
use memchr::memchr;
use std::io;

/// What came of moving waiting bytes to a line.
#[derive(Clone, Copy, Debug, PartialEq, Eq)]
pub enum Piece {
    /// The line has its end.
    Ended,
    /// All bytes were moved, and none ends the line.
    All,
    /// The line would be too long. What waited of it was taken, and not moved.
    TooLong,
}

/// Moves the bytes up to the line's end, and takes that end.
pub fn move_piece<const END: u8>(
    block: &mut Block,
    line: &mut Vec<u8>,
    longest: usize,
) -> io::Result<Piece>
    requires { length line.old.items ≤ longest }
    ensures moved { IfOk result
        (MovesPiece END longest block.old.bytes block.new.bytes line.old.items line.new.items) }
    ensures kept { OnErr result (block.new.bytes ≡ block.old.bytes) }
{
    match first_end::<END>(block.as_slice()) {
        Some(count) => {
            if !append(line, &block.as_slice()[..count], longest)? {
                block.skip(count);
                return Ok(Piece::TooLong);
            }
            block.skip(count + 1);
            Ok(Piece::Ended)
        }
        None => {
            if !append(line, block.as_slice(), longest)? {
                block.clear();
                return Ok(Piece::TooLong);
            }
            block.clear();
            Ok(Piece::All)
        }
    }
}

/// Takes the first line that waits, if its end waits too and it isn't too long, and returns whether
/// it was taken. Its bytes stay where they are.
#[inline(always)]
pub fn take_whole<const END: u8>(block: &mut Block, longest: usize) -> bool
    ensures taken { result ≡ true
        → (n : ℕ) × CutsLineBy END longest block.old.bytes block.new.bytes block.new.line n }
    ensures kept { result ≡ false → block.new ≡ block.old }
    ensures none { result ≡ false → (n : ℕ) → HasEndAtBy END block.old.bytes n → longest < n }
{
    let Some(count) = first_end::<END>(block.as_slice()) else {
        return false;
    };
    if count > longest {
        return false;
    }
    block.take_line(count);
    true
}

/// Where the first line ends, if its end is among the bytes.
pub fn first_end<const END: u8>(bytes: &[u8]) -> Option<usize>
    ensures { MatchOption result (has_no_end_by END bytes.now ≡ true) (HasEndAtBy END bytes.now) }
{
    memchr(END, bytes)
}

/// Whether one of the bytes ends a line.
pub fn has_end<const END: u8>(bytes: &[u8]) -> bool
    ensures { result ≡ not (has_no_end_by END bytes.now) }
{
    match first_end::<END>(bytes) {
        Some(_) => true,
        None => false,
    }
}

// Appends bytes to a line, unless they make it too long, and returns whether they did not.
fn append(line: &mut Vec<u8>, bytes: &[u8], longest: usize) -> io::Result<bool>
    requires { length line.old.items ≤ longest }
    ensures joined { IfOk result
        (λ fits. fits ≡ true → line.new.items ≡ line.old.items ++ bytes.now) }
    ensures short { IfOk result (λ fits. fits ≡ true → length line.new.items ≤ longest) }
    ensures long { IfOk result
        (λ fits. fits ≡ false → longest < length line.old.items + length bytes.now) }
{
    if bytes.len() > longest - line.len() {
        return Ok(false);
    }
    line.extend_from_slice(bytes)?;
    Ok(true)
}
