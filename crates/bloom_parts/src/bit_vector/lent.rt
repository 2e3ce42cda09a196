//! The words of a vector that threads share, lent as a slice to steps that are made in turn.
ghost use Rattle.std.specs.Prelude.{◌≡◌};

use super::atomic::{AtomicBitVec, and_into, load_from, or_into, swap_in, zero_in};
use super::turn_words::{Turn, TurnWords};
use std::marker::Model;
use std::sync::atomic::AtomicU64;

/// The words of a vector, with where they lie and how many there are.
///
/// No load may move over a step of the strongest order, so a loop over a vector would read both
/// anew after each step.
#[derive(Drop)]
pub struct LentWords<'a> {
    words: &'a [AtomicU64],
    vector: &'a AtomicBitVec,
}

impl<'a> Model for LentWords<'a> {
    ghost use Rattle.std.specs.Prelude.{◌≡◌, ◌≤◌, ◌<◌, ◌^◌, length};
    ghost use Rattle.bloom_parts.specs.Made.{SharedWords};

    ghost Value = { SharedWords };

    ghost view = { λ l. l.vector.now };

    ghost invariant = { λ l. (length l.words.now ≡ l.vector.now.count)
        × (1 ≤ l.vector.now.count) × (l.vector.now.count < 2 ^ 58) };
}

impl AtomicBitVec {
    /// The words, lent as a slice.
    #[inline]
    pub fn lent(&self) -> LentWords<'_>
        ensures { result ≡ self.now }
    {
        LentWords {
            words: self.as_slice(),
            vector: self,
        }
    }
}

impl<'a> TurnWords for LentWords<'a> {
    ghost vector = { λ words. words };

    #[inline]
    fn len(&self) -> usize {
        self.words.len()
    }

    #[inline]
    fn load(&self, word: usize) -> u64 {
        load_from(self.vector, self.words, word)
    }

    #[inline]
    #[tactic(auto, using(crate::specs::Made::made_by_turn))]
    fn load_in_turn(&self, turn: &mut Turn, word: usize) -> u64 {
        turn.pass();
        self.load(word)
    }

    #[inline]
    #[tactic(auto, using(crate::specs::Made::made_by_turn))]
    fn fetch_or(&self, turn: &mut Turn, word: usize, mask: u64) -> u64 {
        turn.pass();
        or_into(self.vector, self.words, word, mask)
    }

    #[inline]
    #[tactic(auto, using(crate::specs::Made::made_by_turn))]
    fn fetch_and(&self, turn: &mut Turn, word: usize, mask: u64) -> u64 {
        turn.pass();
        and_into(self.vector, self.words, word, mask)
    }

    #[inline]
    #[tactic(auto, using(crate::specs::Made::made_by_turn))]
    fn store_zero(&self, turn: &mut Turn, word: usize) {
        turn.pass();
        zero_in(self.vector, self.words, word);
    }

    #[inline]
    #[tactic(auto, using(crate::specs::Made::made_by_turn))]
    fn swap_zero(&self, turn: &mut Turn, word: usize) -> u64 {
        turn.pass();
        swap_in(self.vector, self.words, word)
    }
}
