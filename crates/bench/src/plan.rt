//! What is measured.

use crate::filters::count_words;
use anyhow::bail;
use std::alloc::Global;
use std::env;

// What is measured where no number is given.
const KEYS: u32 = 1_000_000;

const ROUNDS: u32 = 10;

const USAGE: &'static str = "usage: bench [KEYS [ROUNDS [WORD]]]";

/// What one operation of a row is for.
#[derive(Clone, Copy)]
pub enum Unit {
    Key,
    /// A word of a filter for the keys.
    Word,
}

/// Which rows are measured, by a word in their names, for how many keys, and in how many rounds.
#[derive(Drop)]
pub struct Plan {
    pub keys: u32,
    pub rounds: u32,
    word: Option<String>,
}

impl Plan {
    /// Whether the rows of this name are measured.
    pub fn wants(&self, call: &str) -> bool {
        match &self.word {
            Some(word) => call.contains(word.as_str()),
            None => true,
        }
    }

    /// How many operations a round makes, each for one of these. There are none where there are no
    /// keys, so that nothing is measured.
    pub fn operations(&self, unit: Unit) -> u64 {
        match unit {
            _ if self.keys == 0 => 0,
            Unit::Key => self.keys as u64,
            Unit::Word => count_words(self.keys) as u64,
        }
    }
}

// The number that an argument is, or `missing` where there is none.
fn number(argument: Option<String>, missing: u32) -> Option<u32> {
    match argument {
        Some(text) => text.parse::<u32>().ok(),
        None => Some(missing),
    }
}

/// The plan that the arguments tell.
///
/// # Errors
/// Where they aren't two numbers and a word, or fewer.
pub fn given(rt: &HostRuntime) -> anyhow::Result<Plan> {
    let mut words = env::args(rt)?;
    let _program = words.next();
    let keys = number(words.next(), KEYS);
    let rounds = number(words.next(), ROUNDS);
    let (word, more) = (words.next(), words.next());
    match (keys, rounds, more) {
        (Some(keys), Some(rounds), None) => Ok(Plan { keys, rounds, word }),
        _ => bail!(USAGE),
    }
}
