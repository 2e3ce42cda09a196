//! Inputs of keys that are read oddly.
use crate::engines::faulty::{Reading, Seen, Source, WHOLE};
use summaries_engine::{Inputs, Stop};

/// Inputs, each of which gives its keys as told.
#[derive(Drop)]
pub(crate) struct Odd<'a> {
    pub(crate) keys: &'a [u8],
    pub(crate) reading: Reading,
    pub(crate) seen: &'a Seen,
}

impl<'a> Inputs for Odd<'a> {
    type Input = Source<'a>;

    ghost has = { λ odd name read. Unit {0} };

    ghost fails = { λ odd name stop. Unit {0} };

    // The input `first` has the key "a", and is odd in nothing.
    fn open(&self, name: &str) -> Result<Source<'a>, Stop> {
        self.seen.note_read();
        if name == "first" {
            return Ok(Source::new(b"a\n", WHOLE, self.seen));
        }
        Ok(self.source())
    }
}

impl<'a> Odd<'a> {
    /// What gives the keys.
    pub(crate) fn source(&self) -> Source<'a> {
        Source::new(self.keys, self.reading, self.seen)
    }
}
