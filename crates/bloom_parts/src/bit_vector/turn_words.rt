//! Words that threads share, wherever they lie, on which single steps are made in turn.
ghost use Rattle.std.specs.Prelude.{◌≡◌, ◌^◌, ◌<◌, ◌≤◌};
ghost use Rattle.bloom_parts.specs.Made.{SharedWords, FoundByLoad, FoundByOr, FoundByAnd, MadeZero, FoundBySwap, InTurn};

use std::marker::Model;
use std::snapshot::Snapshot;

/// The turn of the step that comes next, among those of one call. It has no bytes.
///
/// Contracts see a name that no clause fixes. A step leads from its turn to the next one, so one
/// step can't be taken for two.
#[derive(Drop)]
pub struct Turn {
    name: Snapshot<u64>,
}

impl Model for Turn {
    ghost use Rattle.std.specs.Prelude.{ℕ};

    ghost Value = { ℕ };

    ghost view = { λ t. t.name.value };
}

impl Turn {
    /// The turn of a first step.
    #[inline]
    pub fn first() -> Self {
        Turn {
            name: Snapshot::of(&0),
        }
    }

    /// Goes on to the turn of the next step. Its name is another to every caller, since no clause
    /// tells it.
    #[inline(always)]
    pub fn pass(&mut self) {
        self.name = Snapshot::of(&0);
    }
}

/// Words that change in single atomic operations alone. Each operation hands out the fact of its
/// step.
pub trait TurnWords {
    // Which vector these words are.
    ghost vector: { Self → SharedWords };

    /// The number of words.
    fn len(&self) -> usize
        ensures value { result ≡ (vector self.now).count }
        ensures least { 1 ≤ result }
        ensures most { result < 2 ^ 58 };

    /// Reads a word, in no turn.
    fn load(&self, word: usize) -> u64
        requires { word < (vector self.now).count }
        ensures { FoundByLoad (vector self.now) word result };

    /// Reads a word in its turn.
    fn load_in_turn(&self, turn: &mut Turn, word: usize) -> u64
        requires { word < (vector self.now).count }
        ensures { InTurn (FoundByLoad (vector self.now) word result) turn.old turn.new };

    /// Sets the bits of a mask in a word, and returns the word as it was.
    fn fetch_or(&self, turn: &mut Turn, word: usize, mask: u64) -> u64
        requires { word < (vector self.now).count }
        ensures { InTurn (FoundByOr (vector self.now) word mask result) turn.old turn.new };

    /// Clears the bits of a word that a mask lacks, and returns the word as it was.
    fn fetch_and(&self, turn: &mut Turn, word: usize, mask: u64) -> u64
        requires { word < (vector self.now).count }
        ensures { InTurn (FoundByAnd (vector self.now) word mask result) turn.old turn.new };

    /// Clears every bit of a word.
    fn store_zero(&self, turn: &mut Turn, word: usize)
        requires { word < (vector self.now).count }
        ensures { InTurn (MadeZero (vector self.now) word) turn.old turn.new };

    /// Clears every bit of a word, and returns the word as it was.
    fn swap_zero(&self, turn: &mut Turn, word: usize) -> u64
        requires { word < (vector self.now).count }
        ensures { InTurn (FoundBySwap (vector self.now) word result) turn.old turn.new };
}
