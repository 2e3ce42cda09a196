//! Words of filters that threads share, as a store of steps: some of them from a word on, or all.
ghost use Rattle.bloom_steps.specs.LiveSteps.{MakesStepInSpan};

use super::store::WordStore;
use super::vocabulary::Step;
use bloom_parts::bit_vector::{Turn, TurnWords};
use std::marker::Model;

/// Lends some words of one filter, from a word on, and those of the other, which may be the same,
/// to steps that are made one after the other.
#[derive(Drop)]
pub struct SpanStore<'a, W: TurnWords> {
    words: &'a W,
    other: &'a W,
    start: usize,
    count: usize,
    turn: Turn,
}

impl<'a, W: TurnWords> Model for SpanStore<'a, W> {
    ghost use Rattle.std.specs.Prelude.{◌≡◌, ◌+◌, ◌≤◌, ◌<◌, ◌^◌};
    ghost use Rattle.bloom_steps.specs.LiveSteps.{Span};

    ghost Value = { Span };

    ghost view = { λ s. record {
      lent = record { words = W.vector s.words.now; other = W.vector s.other.now; turn = s.turn };
      start = s.start;
      count = s.count;
    } };

    ghost invariant = { λ s. ((W.vector s.other.now).count ≡ (W.vector s.words.now).count)
        × (1 ≤ s.count) × (s.start + s.count ≤ (W.vector s.words.now).count)
        × ((W.vector s.words.now).count < 2 ^ 58) };
}

impl<'a, W: TurnWords> SpanStore<'a, W> {
    ghost use Rattle.std.specs.Prelude.{◌≡◌, ◌+◌, ◌≤◌};

    /// The store that lends this many words of two vectors of equal length, from a word on. Its
    /// first step is made in this turn.
    #[inline(always)]
    pub fn new(words: &'a W, other: &'a W, start: usize, count: usize, turn: Turn) -> Self
        requires alike { (W.vector other.now).count ≡ (W.vector words.now).count }
        requires some { 1 ≤ count }
        requires within { start + count ≤ (W.vector words.now).count }
        ensures words { result.lent.words ≡ W.vector words.now }
        ensures other { result.lent.other ≡ W.vector other.now }
        ensures start { result.start ≡ start }
        ensures count { result.count ≡ count }
        ensures turn { result.lent.turn ≡ turn }
    {
        // A store keeps that its words are fewer than 2^58. `len` tells it, so no caller has to.
        let _count = words.len();
        SpanStore {
            words,
            other,
            start,
            count,
            turn,
        }
    }

    /// The turn of the step that would come next.
    #[inline(always)]
    pub fn into_turn(self) -> Turn
        ensures { result ≡ self.entry.lent.turn }
    {
        let SpanStore { turn, .. } = self;
        turn
    }
}

impl<'a, W: TurnWords> WordStore for SpanStore<'a, W> {
    ghost count = { λ s. s.count };

    ghost moved = { MakesStepInSpan };

    #[inline(always)]
    fn num_words(&self) -> usize {
        self.count
    }

    // Each step is one atomic operation, in its turn.
    #[inline(always)]
    fn step(&mut self, step: Step) -> u64 {
        match step {
            Step::Load(word) => self.words.load_in_turn(&mut self.turn, self.start + word),
            Step::Or(word, mask) => self.words.fetch_or(&mut self.turn, self.start + word, mask),
            Step::And(word, mask) => self
                .words
                .fetch_and(&mut self.turn, self.start + word, mask),
            Step::Zero(word) => {
                self.words.store_zero(&mut self.turn, self.start + word);
                0
            }
            Step::Other(word) => self.other.load_in_turn(&mut self.turn, self.start + word),
            Step::Take(word) => self.words.swap_zero(&mut self.turn, self.start + word),
        }
    }
}
