//! A log that is read, operation by operation, beside the scripts of calls.
ghost use Rattle.std.specs.Prelude.{◌≡◌, ◌≤◌, ◌<◌, ◌^◌};

use super::log::{Log, Operation};
use bloom_parts::bit_vector::TurnWords;
use bloom_steps::{Call, Machine, Step};

/// The filter of a script: how many words and hashes it has.
#[derive(Clone, Copy)]
pub(crate) struct Shape {
    pub(crate) num_words: usize,
    pub(crate) num_hashes: u32,
}

/// A log, and how far it was read.
#[derive(Drop)]
pub(crate) struct Reading<'a> {
    log: &'a Log,
    at: usize,
}

// A step as far behind as its word is behind the start.
fn step_behind(start: usize, step: Step) -> Step {
    match step {
        Step::Load(word) => Step::Load(start.wrapping_add(word)),
        Step::Or(word, mask) => Step::Or(start.wrapping_add(word), mask),
        Step::And(word, mask) => Step::And(start.wrapping_add(word), mask),
        Step::Zero(word) => Step::Zero(start.wrapping_add(word)),
        Step::Other(word) => Step::Other(start.wrapping_add(word)),
        Step::Take(word) => Step::Take(start.wrapping_add(word)),
    }
}

impl<'a> Reading<'a> {
    /// A log from its beginning on.
    pub(crate) fn of(log: &'a Log) -> Self {
        Reading { log, at: 0 }
    }

    // The next operation.
    fn next(&mut self) -> Option<Operation> {
        let next = self.log.get(self.at);
        self.at = self.at.saturating_add(1);
        next
    }

    /// Whether nothing is left to read.
    pub(crate) fn is_done(&self) -> bool {
        self.at == self.log.count()
    }

    /// Whether the next operation is this step, in its turn.
    pub(crate) fn has_step(&mut self, step: Step) -> bool {
        match self.next() {
            Some(made) => made.in_turn & (made.step == step),
            None => false,
        }
    }

    /// Whether the next operation is a load of this word, in no turn.
    pub(crate) fn has_load(&mut self, word: usize) -> bool {
        match self.next() {
            Some(made) => !made.in_turn & (made.step == Step::Load(word)),
            None => false,
        }
    }

    /// Whether the next operations are the steps of a call, on words from a start on, and lead to
    /// this reply.
    pub(crate) fn has_call(&mut self, start: usize, machine: &mut Machine) -> bool {
        let left = self.log.count().saturating_sub(self.at);
        'steps: for _ in 0..left {
            let Some(step) = machine.ask() else {
                return true;
            };
            let Some(made) = self.next() else {
                return false;
            };
            if !made.in_turn || made.step != step_behind(start, step) {
                return false;
            }
            machine.reply(made.found);
        }
        machine.ask().is_none()
    }
}
