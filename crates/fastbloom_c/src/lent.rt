//! The words of a filter at a pointer, lent to steps that are made in turn.
ghost use Rattle.std.specs.Prelude.{◌≡◌};
ghost use Rattle.fastbloom_c.specs.Passed.{MakeFilter, vector_of};

use crate::passed_words::RawWords;
use bloom_parts::bit_vector::{Turn, TurnWords};
use std::marker::Model;

/// Words at a pointer that make a filter, from 1 to 2^58 - 1 of them.
#[derive(Drop)]
pub struct LentWords<'a> {
    words: &'a RawWords,
}

impl<'a> Model for LentWords<'a> {
    ghost use Rattle.bloom_parts.specs.Made as made;
    ghost use Rattle.fastbloom_c.specs.Passed.{MakeFilter, vector_of};

    ghost Value = { made.SharedWords };

    ghost view = { λ l. vector_of l.words.now.at l.words.now.len };

    ghost invariant = { λ l. MakeFilter l.words.now.len };
}

impl<'a> LentWords<'a> {
    /// These words.
    #[inline(always)]
    pub fn new(words: &'a RawWords) -> Self
        requires { MakeFilter words.now.len }
        ensures { result ≡ vector_of words.now.at words.now.len }
    {
        LentWords { words }
    }
}

impl<'a> TurnWords for LentWords<'a> {
    ghost vector = { λ words. words };

    #[inline(always)]
    fn len(&self) -> usize {
        self.words.len()
    }

    #[inline(always)]
    fn load(&self, word: usize) -> u64 {
        self.words.load(word)
    }

    #[inline(always)]
    #[tactic(auto, using(bloom_parts::specs::Made::made_by_turn))]
    fn load_in_turn(&self, turn: &mut Turn, word: usize) -> u64 {
        turn.pass();
        self.words.load(word)
    }

    #[inline(always)]
    #[tactic(auto, using(bloom_parts::specs::Made::made_by_turn))]
    fn fetch_or(&self, turn: &mut Turn, word: usize, mask: u64) -> u64 {
        turn.pass();
        self.words.fetch_or(word, mask)
    }

    #[inline(always)]
    #[tactic(auto, using(bloom_parts::specs::Made::made_by_turn))]
    fn fetch_and(&self, turn: &mut Turn, word: usize, mask: u64) -> u64 {
        turn.pass();
        self.words.fetch_and(word, mask)
    }

    #[inline(always)]
    #[tactic(auto, using(bloom_parts::specs::Made::made_by_turn))]
    fn store_zero(&self, turn: &mut Turn, word: usize) {
        turn.pass();
        self.words.store_zero(word);
    }

    #[inline(always)]
    #[tactic(auto, using(bloom_parts::specs::Made::made_by_turn))]
    fn swap_zero(&self, turn: &mut Turn, word: usize) -> u64 {
        turn.pass();
        self.words.swap_zero(word)
    }
}
