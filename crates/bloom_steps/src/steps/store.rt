//! Where steps are carried out.
ghost use Rattle.std.specs.Prelude.{◌≡◌, ℕ, ◌^◌, ◌<◌, ◌≤◌};
ghost use Rattle.bloom_steps.specs.declared.steps.vocabulary.Step.{Step};
ghost use Rattle.bloom_steps.specs.Steps.{word_index};

use super::vocabulary::Step;

/// Words on which steps are carried out. Each store says what a step does to it.
pub trait WordStore {
    // How many words the store has.
    ghost count: { Self → ℕ };

    // A step that found this word leads from one store to the other.
    ghost moved: { Self → Step → ℕ → Self → Type 0 };

    /// The number of words, which no step changes.
    fn num_words(&self) -> usize
        ensures value { result ≡ count self.now }
        ensures least { 1 ≤ result }
        ensures most { result < 2 ^ 58 };

    /// Carries out one step, and gives the word that it found.
    fn step(&mut self, step: Step) -> u64
        requires within { word_index step < count self.old }
        ensures moved { moved self.old step result self.new }
        ensures words { count self.new ≡ count self.old };
}
