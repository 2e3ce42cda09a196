//! Steps over words in memory.
ghost use Rattle.std.specs.Prelude.{◌≡◌, ℕ, ◌^◌, ◌<◌, ◌≤◌, length, slice_index};
ghost use Rattle.bloom_steps.specs.declared.steps.vocabulary.Step.TheVariants.{Other};
ghost use Rattle.bloom_steps.specs.Memories.{Moves, found_in, words_after_step};
ghost use Rattle.bloom_steps.specs.Steps.{word_index};

use super::store::WordStore;
use super::vocabulary::Step;
use std::marker::Model;
use std::mem;

/// The words of a filter and of the other, for one owner. Contracts see both lists.
#[derive(Debug, Drop)]
pub struct MemoryStore {
    words: Vec<u64>,
    other: Vec<u64>,
}

impl Model for MemoryStore {
    ghost use Rattle.std.specs.Prelude.{◌≡◌, ◌^◌, ◌<◌, ◌≤◌, length};
    ghost use Rattle.bloom_steps.specs.Memories.{Memory};

    ghost Value = { Memory };

    ghost view = { λ m. record { words = m.words.items; other = m.other.items } };

    ghost invariant = { λ m. (1 ≤ length m.words.items) × (length m.words.items < 2 ^ 58)
        × (length m.other.items ≡ length m.words.items) };
}

impl MemoryStore {
    /// The store of these words, in two lists of equal length. It takes no memory.
    pub fn new(words: Vec<u64>, other: Vec<u64>) -> MemoryStore
        requires some { 1 ≤ length words.items }
        requires few { length words.items < 2 ^ 58 }
        requires same { length other.items ≡ length words.items }
        ensures words { result.words ≡ words.items }
        ensures other { result.other ≡ other.items }
    {
        MemoryStore { words, other }
    }

    /// The words of the filter, word 0 first.
    pub fn words(&self) -> &[u64]
        ensures { result.now ≡ self.now.words }
    {
        self.words.as_slice()
    }
}

impl WordStore for MemoryStore {
    ghost count = { λ m. length m.words };

    ghost moved = { Moves };

    fn num_words(&self) -> usize {
        self.words.len()
    }

    fn step(&mut self, step: Step) -> u64 {
        let given = word_given(&self.other, step);
        make_step(&mut self.words, given, step)
    }
}

// The other filter's word, where the step reads it.
fn word_given(other: &Vec<u64>, step: Step) -> u64
    requires { word_index step < length other.now.items }
    ensures { (i : ℕ) → step ≡ Other i → result ≡ slice_index other.now.items i }
{
    match step {
        Step::Other(i) => other[i],
        _ => 0,
    }
}

// Makes a step on words, and gives the word found. The other filter's word is given.
pub(super) fn make_step(words: &mut Vec<u64>, given: u64, step: Step) -> u64
    requires { word_index step < length words.old.items }
    ensures found { result ≡ found_in words.old.items given step }
    ensures words { words.new.items ≡ words_after_step words.old.items step }
    ensures fits { result < 2 ^ 64 }
{
    match step {
        Step::Load(i) => words[i],
        Step::Or(i, mask) => {
            let found = words[i];
            words[i] = found | mask;
            found
        }
        Step::And(i, mask) => {
            let found = words[i];
            words[i] = found & mask;
            found
        }
        Step::Zero(i) => {
            words[i] = 0;
            0
        }
        Step::Other(_) => given,
        Step::Take(i) => mem::take(&mut words[i]),
    }
}
