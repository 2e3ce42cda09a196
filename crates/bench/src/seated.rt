//! Seats of a filter that threads share under a rule.
use crate::filters::seated_filter_for;
use crate::keys::hash_of;
use fastbloom::{FilterError, Pass, SeatedBloomFilter};
use std::alloc::Global;
use std::marker::Model;
use std::sync::Arc;

/// A pass, and its filter, which others may share.
#[derive(Drop)]
pub struct Seat {
    filter: Arc<SeatedBloomFilter, Global>,
    pass: Pass,
}

impl Model for Seat {
    ghost use Rattle.std.specs.Prelude.{◌≡◌};
    ghost use Rattle.std.specs.Arc.{arc_value};

    ghost Value = { Unit {0} };

    ghost view = { λ _. tt };

    ghost invariant = { λ seat. seat.pass.filter ≡ (arc_value seat.filter).table };
}

impl Seat {
    /// Inserts this many keys from the first on, and counts the inserts that returned true.
    #[inline(never)]
    pub fn insert_keys(&mut self, first: u64, keys: u64) -> u64 {
        let (filter, pass): (&SeatedBloomFilter, _) = (&self.filter, &mut self.pass);
        let mut answers: u64 = 0;
        'keys: for key in 0..keys {
            let answer = filter.insert_hash_as(pass, hash_of(first.wrapping_add(key)));
            answers = answers.wrapping_add(answer as u64);
        }
        answers
    }

    /// Looks up this many keys from the first on, and counts the look-ups that returned true.
    #[inline(never)]
    pub fn contains_keys(&mut self, first: u64, keys: u64) -> u64 {
        let (filter, pass): (&SeatedBloomFilter, _) = (&self.filter, &mut self.pass);
        let mut answers: u64 = 0;
        'keys: for key in 0..keys {
            let answer = filter.contains_hash_as(pass, hash_of(first.wrapping_add(key)));
            answers = answers.wrapping_add(answer as u64);
        }
        answers
    }
}

/// All the seats of an empty filter with ten bits for each key and seven hashes.
pub fn seats_for(alloc: Global, keys: u32, count: u32) -> Result<Vec<Seat>, FilterError> {
    let (filter, passes) = seated_filter_for(alloc, keys, count)?;
    let shared = Arc::new(alloc, filter)?;
    let mut seats = Vec::new(alloc);
    'seats: for pass in passes {
        let filter = Arc::try_clone(&shared)?;
        seats.push(Seat { filter, pass })?;
    }
    Ok(seats)
}
