//! Words that threads share, lent to be read ahead of steps.
ghost use Rattle.std.specs.Prelude.{◌≡◌, ◌<◌, ◌≤◌};
ghost use Rattle.bloom_parts.specs.Made.{FoundByLoad};

use super::turn_words::TurnWords;
use std::marker::Model;

/// Words that can only be read through it, in no turn. Contracts see their vector.
#[derive(Drop)]
pub struct Loads<'a, W: TurnWords> {
    words: &'a W,
}

impl<'a, W: TurnWords> Model for Loads<'a, W> {
    ghost use Rattle.bloom_parts.specs.Made.{SharedWords};

    ghost Value = { SharedWords };

    ghost view = { λ l. W.vector l.words.now };
}

impl<'a, W: TurnWords> Loads<'a, W> {
    /// These words, to be read alone.
    #[inline(always)]
    pub fn of(words: &'a W) -> Self
        ensures { result ≡ W.vector words.now }
    {
        Loads { words }
    }

    /// The number of words.
    #[inline(always)]
    pub fn len(&self) -> usize
        ensures value { result ≡ self.now.count }
        ensures least { 1 ≤ result }
    {
        self.words.len()
    }

    /// Reads a word.
    #[inline(always)]
    pub fn load(&self, word: usize) -> u64
        requires { word < self.now.count }
        ensures { FoundByLoad self.now word result }
    {
        self.words.load(word)
    }
}
