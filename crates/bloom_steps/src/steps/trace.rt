//! What a run leaves behind.
use super::vocabulary::Record;
use std::marker::Model;

/// The trace of a run: the words before it, its records in order, and the words after it. Contracts
/// see it as the run's course.
#[derive(Debug, Drop)]
pub struct Trace {
    start: Vec<u64>,
    records: Vec<Record>,
    words: Vec<u64>,
}

impl Model for Trace {
    ghost use Rattle.bloom_steps.specs.Courses.{Course};

    ghost Value = { Course };

    ghost view = { λ t. record {
      start = t.start.items;
      records = t.records.items;
      words = t.words.items;
    } };
}

impl Trace {
    ghost use Rattle.std.specs.Prelude.{◌≡◌};
    ghost use Rattle.bloom_parts.specs.Content.{AreWords};

    // The trace of these parts.
    pub(super) fn from_parts(start: Vec<u64>, records: Vec<Record>, words: Vec<u64>) -> Self
        ensures parts { result
            ≡ record { start = start.items; records = records.items; words = words.items } }
        ensures fit { AreWords words.items }
    {
        Trace {
            start,
            records,
            words,
        }
    }

    /// The words before the first event, word 0 first.
    pub fn start(&self) -> &[u64]
        ensures { result.now ≡ self.now.start }
    {
        self.start.as_slice()
    }

    /// What happened, in order.
    pub fn records(&self) -> &[Record]
        ensures { result.now ≡ self.now.records }
    {
        self.records.as_slice()
    }

    /// The words after the last event, word 0 first.
    pub fn words(&self) -> &[u64]
        ensures { result.now ≡ self.now.words }
    {
        self.words.as_slice()
    }
}
