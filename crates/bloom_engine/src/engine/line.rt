//! Good lines.
ghost use Rattle.std.specs.Prelude.{◌≡◌};
ghost use Rattle.bloom_engine.specs.Lines.{command_of_letter, command_with_number, line_of};

use crate::number::number;

/// The length of the longest good line, without its end.
pub const LONGEST: usize = 22;

/// What a good line asks for.
#[derive(Clone, Copy)]
pub enum Line {
    /// To insert a hash.
    Insert(u64),
    /// To look up a hash.
    Contains(u64),
    /// To clear every position.
    Clear,
    /// To write the words.
    Words,
}

/// What a line asks for, if it is good. The line stands without its end.
#[tactic(auto, unfolding(crate::specs::Lines::line_of))]
pub fn parse(line: &[u8]) -> Option<Line>
    ensures { result ≡ line_of line.now }
{
    match line {
        [] => None,
        [letter] => letter_command(*letter),
        [letter, space, text @ ..] => {
            if *space == b' ' {
                with_number(*letter, number(text))
            } else {
                None
            }
        }
    }
}

// What a letter alone asks for.
fn letter_command(letter: u8) -> Option<Line>
    ensures { result ≡ command_of_letter letter }
{
    match letter {
        b'z' => Some(Line::Clear),
        b'w' => Some(Line::Words),
        _ => None,
    }
}

// What a letter before a number asks for.
fn with_number(letter: u8, number: Option<u64>) -> Option<Line>
    ensures { result ≡ command_with_number letter number }
{
    let number = number?;
    match letter {
        b'i' => Some(Line::Insert(number)),
        b'c' => Some(Line::Contains(number)),
        _ => None,
    }
}
