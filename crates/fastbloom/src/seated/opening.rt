//! How the words of a filter are put in: the first seat does it by steps, before it is split.
ghost use Rattle.std.specs.Prelude.{◌≡◌, ◌<◌, length, replicate, slice_index, slice_set};
ghost use Rattle.fastbloom.specs.Plays.{SitsAt, IsFirst, IsFresh, Puts, with_bits, put_in, settled};

use super::rule::Sets;
use super::steps::{FilterSeat, SharedWords};
use atomic_table::Play;

// An `|` that adds to the start.
struct PutsIn;

impl Play<(), Sets> for PutsIn {
    ghost then = { put_in };
}

// The load with which the first seat becomes a pass.
struct Settles;

impl Play<(), Sets> for Settles {
    ghost then = { settled };
}

// Sets bits in a word.
fn put_bits(shared: &SharedWords, seat: &mut FilterSeat, word: usize, mask: u64)
    requires at { SitsAt seat.old shared.now.table_id shared.now.key }
    requires within { word < shared.now.table_id.words }
    requires first { IsFirst seat.old.me.0 }
    ensures { Puts seat.old seat.new (with_bits seat.old.me.0.start word mask) }
{
    shared.fetch_or::<PutsIn>(seat, word, mask);
}

// Makes a zero word this one, by a step for each bit that is set.
fn put_word(shared: &SharedWords, seat: &mut FilterSeat, word: usize, value: u64)
    requires at { SitsAt seat.old shared.now.table_id shared.now.key }
    requires within { word < shared.now.table_id.words }
    requires first { IsFirst seat.old.me.0 }
    requires has { word < length seat.old.me.0.start }
    requires empty { slice_index seat.old.me.0.start word ≡ 0 }
    ensures { Puts seat.old seat.new (slice_set seat.old.me.0.start word value) }
{
    'bits: for bit in 0..64u32 {
        if (value >> bit) & 1 == 1 {
            put_bits(shared, seat, word, 1 << bit);
        }
    }
}

// Makes zero words these.
fn put_words(shared: &SharedWords, seat: &mut FilterSeat, words: &[u64])
    requires at { SitsAt seat.old shared.now.table_id shared.now.key }
    requires count { length words.now ≡ shared.now.table_id.words }
    requires first { IsFirst seat.old.me.0 }
    requires empty { seat.old.me.0.start ≡ replicate (length words.now) 0 }
    ensures { Puts seat.old seat.new words.now }
{
    'words: for i in 0..words.len() {
        put_word(shared, seat, i, words[i]);
    }
}

/// Puts the words in, and makes the first seat a pass.
pub(crate) fn open(shared: &SharedWords, seat: &mut FilterSeat, words: &[u64])
    requires at { SitsAt seat.old shared.now.table_id shared.now.key }
    requires count { length words.now ≡ shared.now.table_id.words }
    requires some { 0 < length words.now }
    requires first { IsFirst seat.old.me.0 }
    requires empty { seat.old.me.0.start ≡ replicate (length words.now) 0 }
    ensures table { seat.new.table_id ≡ seat.old.table_id }
    ensures fresh { IsFresh seat.new.me.0 }
    ensures start { seat.new.me.0.start ≡ words.now }
    ensures passes { seat.new.me.0.passes ≡ seat.old.me.0.passes }
{
    put_words(shared, seat, words);
    shared.load::<Settles>(seat, 0);
}
