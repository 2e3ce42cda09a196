//! How far a run is, as a terminal is told.

use std::cell::Cell;
use std::io;
use std::io::Read;

// How many keys lie between two tells.
const STRETCH: u64 = 1_000_000;

/// An input whose keys are counted, and of which standard error is told each million.
#[derive(Drop)]
pub struct Counted<'a, R, I> {
    pub rt: &'a R,
    pub input: I,
    /// How many keys were read of all inputs.
    pub keys: &'a Cell<u64>,
    /// The byte that ends a key.
    pub end: u8,
    /// Whether it is reported at all.
    pub is_on: bool,
}

impl<'a, R: Eprint, I> Counted<'a, R, I> {
    // Counts the keys that end among some bytes.
    fn count(&self, bytes: &[u8]) {
        let mut keys = self.keys.get();
        'bytes: for byte in bytes {
            if *byte == self.end {
                keys = keys.saturating_add(1);
                if keys % STRETCH == 0 {
                    let _ = eprintln!(self.rt; "{keys} keys");
                }
            }
        }
        self.keys.set(keys);
    }
}

impl<'a, R: Eprint, I: Read> Read for Counted<'a, R, I> {
    ghost use Rattle.std.specs.Prelude.{None};

    // Nothing is known of what it has.
    ghost remaining = { λ _. None };

    fn read(&mut self, buf: &mut [u8]) -> io::Result<usize> {
        let count = self.input.read(buf)?;
        if self.is_on {
            if let Some(bytes) = buf.get(..count) {
                self.count(bytes);
            }
        }
        Ok(count)
    }
}
