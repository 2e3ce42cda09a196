//! Words that threads share, as a store of steps that keeps each word that is taken out.
ghost use Rattle.std.specs.Prelude.{◌≡◌, ℕ, ◌<◌, ◌≤◌, length};
ghost use Rattle.bloom_steps.specs.Kept.{KeepsTaken, kept_after};
ghost use Rattle.bloom_steps.specs.Steps.{word_index};

use super::span_store::SpanStore;
use super::store::WordStore;
use super::vocabulary::Step;
use bloom_parts::bit_vector::TurnWords;

/// Lends words to steps, and keeps each word that a step takes out, at its index in a list that was
/// there before.
#[derive(Drop)]
pub(super) struct KeepingStore<'a, 'k, W: TurnWords> {
    pub(super) words: SpanStore<'a, W>,
    // It has a lifetime of its own, or a caller's proof wouldn't learn what it holds in the end.
    pub(super) kept: &'k mut [u64],
    ghost fits: { length kept.now ≡ words.count },
}

impl<'a, 'k, W: TurnWords> WordStore for KeepingStore<'a, 'k, W> {
    ghost count = { λ s. s.words.count };

    ghost moved = { KeepsTaken (λ s. s.words) (λ s. s.kept) };

    #[inline(always)]
    fn num_words(&self) -> usize {
        self.words.num_words()
    }

    #[inline(always)]
    fn step(&mut self, step: Step) -> u64 {
        let found = self.words.step(step);
        keep(self.kept, step, found);
        found
    }
}

// Keeps the word that a step found, where it takes the word out.
#[inline(always)]
fn keep(kept: &mut [u64], step: Step, found: u64)
    requires { word_index step < length kept.old }
    ensures { kept.new ≡ kept_after kept.old step found }
{
    if let Step::Take(word) = step {
        kept[word] = found;
    }
}
