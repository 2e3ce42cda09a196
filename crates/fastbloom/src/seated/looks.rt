//! The loops of passes over the positions of a hash.
ghost use Rattle.std.specs.Prelude.{◌≡◌, ◌*◌, ◌<◌, ◌==◌};
ghost use Rattle.bloom_parts.specs.Places.{positions};
ghost use Rattle.fastbloom.specs.Loads.{LooksAt};
ghost use Rattle.fastbloom.specs.Passes.{Finds, InsertsAs, sight_of};
ghost use Rattle.fastbloom.specs.Plays.{SitsAt};
ghost use Rattle.fastbloom.specs.Seats.{IsStanding};
ghost use Rattle.fastbloom.specs.declared.seated.rule.Role.TheVariants.{Pass};

use super::rule::{SeatedRule, Sets, Size};
use super::steps::{FilterSeat, SharedWords, load, set_bits};
use atomic_table::Table;
use bloom_parts::bit_vector::{index, is_set, word_and_mask};
use bloom_parts::hasher::DoubleHasher;
use std::alloc::Global;

/// The table of a filter.
pub(crate) type FilterTable = Table<(), Sets, Size, SeatedRule, Global>;

// Sets a position, and returns whether it was set before.
fn set_position(shared: &SharedWords, seat: &mut FilterSeat, position: usize) -> bool
    requires at { SitsAt seat.old shared.now.table_id shared.now.key }
    requires within { position < 64 * shared.now.table_id.words }
    requires pass { seat.old.me.0.role ≡ Pass }
    ensures role { seat.new.me.0.role ≡ Pass }
    ensures inserts { InsertsAs (λ p. p == position)
        (sight_of seat.old) (sight_of seat.new) result }
{
    let (word, mask) = word_and_mask(position);
    is_set(set_bits(shared, seat, word, mask), mask)
}

// Whether a position is set.
fn look_at_position(shared: &SharedWords, seat: &mut FilterSeat, position: usize) -> bool
    requires at { SitsAt seat.old shared.now.table_id shared.now.key }
    requires within { position < 64 * shared.now.table_id.words }
    requires pass { seat.old.me.0.role ≡ Pass }
    ensures role { seat.new.me.0.role ≡ Pass }
    ensures looks { LooksAt position (sight_of seat.old) (sight_of seat.new) result }
{
    let (word, mask) = word_and_mask(position);
    is_set(load(shared, seat, word), mask)
}

/// Sets the positions of a hash, and returns whether each was found set.
pub(crate) fn insert_positions(
    table: &FilterTable,
    seat: &mut FilterSeat,
    num_hashes: u32,
    hash: u64,
) -> bool
    requires standing { IsStanding table.now.shared.table_id table.now.shared.key num_hashes }
    requires at { seat.old.table_id ≡ table.now.shared.table_id }
    requires pass { seat.old.me.0.role ≡ Pass }
    ensures role { seat.new.me.0.role ≡ Pass }
    ensures inserts { InsertsAs (positions (64 * table.now.shared.table_id.words) num_hashes hash)
        (sight_of seat.old) (sight_of seat.new) result }
{
    let num_bits = table.word_count() * 64;
    let mut chain = DoubleHasher::new(hash);
    let mut all_set = true;
    'places: for _ in 0..num_hashes {
        let position = index(num_bits, chain.next());
        all_set &= set_position(&table.shared, seat, position);
    }
    all_set
}

/// Looks at the positions of a hash up to the first that is clear, and returns whether all are set.
pub(crate) fn find_positions(
    table: &FilterTable,
    seat: &mut FilterSeat,
    num_hashes: u32,
    hash: u64,
) -> bool
    requires standing { IsStanding table.now.shared.table_id table.now.shared.key num_hashes }
    requires at { seat.old.table_id ≡ table.now.shared.table_id }
    requires pass { seat.old.me.0.role ≡ Pass }
    ensures role { seat.new.me.0.role ≡ Pass }
    ensures finds { Finds (64 * table.now.shared.table_id.words) num_hashes hash
        (sight_of seat.old) (sight_of seat.new) result }
{
    let num_bits = table.word_count() * 64;
    let mut chain = DoubleHasher::new(hash);
    'places: for _ in 0..num_hashes {
        let position = index(num_bits, chain.next());
        if !look_at_position(&table.shared, seat, position) {
            return false;
        }
    }
    true
}
