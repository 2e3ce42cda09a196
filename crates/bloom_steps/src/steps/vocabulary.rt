//! Calls, the steps that they are made of, and what a run is asked and records.

/// One operation on the word of an index.
#[derive(Clone, Copy, Debug, PartialEq, Eq)]
pub enum Step {
    /// Reads a word.
    Load(usize),
    /// Sets the bits of a mask, and finds the word as it was.
    Or(usize, u64),
    /// Clears the bits that a mask lacks, and finds the word as it was.
    And(usize, u64),
    /// Clears a whole word. What it finds is always 0.
    Zero(usize),
    /// Reads a word of the other filter.
    Other(usize),
    /// Clears a whole word, and finds it as it was.
    Take(usize),
}

/// A call on a filter.
#[derive(Clone, Copy, Debug, PartialEq, Eq)]
pub enum Call {
    /// Sets the positions of a hash.
    Insert(u64),
    /// Asks whether the positions of a hash are set.
    Contains(u64),
    /// Clears every position.
    Clear,
    /// Sets what is set in the other filter.
    Union,
    /// Clears what is clear in the other filter.
    Intersect,
    /// Clears every position, and finds what was set.
    Take,
}

/// What a schedule asks of a run.
#[derive(Clone, Copy, Debug, PartialEq, Eq)]
pub enum Event {
    /// A party begins a call.
    Begin { party: usize, call: Call },
    /// A party makes one step. The word given counts where the step reads the other filter.
    Go { party: usize, given: u64 },
}

/// How a call stands after a step.
#[derive(Clone, Copy, Debug, PartialEq, Eq)]
pub enum End {
    /// It has further steps to make.
    Running,
    /// It has ended, and has no reply.
    Done,
    /// It has ended with a reply.
    Answer(bool),
}

/// What happened in a run.
#[derive(Clone, Copy, Debug, PartialEq, Eq)]
pub enum Record {
    /// A party began a call.
    Began {
        party: usize,
        call: Call,
    },
    /// A party made a step, which found a word and left the call as said.
    Did {
        party: usize,
        step: Step,
        found: u64,
        ended: End,
    },
}
