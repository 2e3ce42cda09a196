//! How passes meet: each is handed what the other knows, as a note, and then loads every word.
ghost use Rattle.std.specs.Prelude.{◌≡◌, ◌<◌};
ghost use Rattle.fastbloom.specs.Loads.{Views};
ghost use Rattle.fastbloom.specs.Passes.{Meets, sight_of};
ghost use Rattle.fastbloom.specs.Plays.{SitsAt, note_of, informed, spent_view};
ghost use Rattle.fastbloom.specs.Seats.{IsPassSeat};
ghost use Rattle.fastbloom.specs.declared.seated.rule.Role.TheVariants.{Pass};

use super::looks::FilterTable;
use super::rule::Sets;
use super::steps::{FilterSeat, SharedWords, load};
use atomic_table::{Join, Split};

// How a note of what a pass knows is split off. The pass stays as it is.
struct Notes;

impl Split<Sets> for Notes {
    ghost left = { λ v. v };

    ghost right = { note_of };
}

// How a pass takes in a note, which is spent.
struct Hears;

impl Join<Sets> for Hears {
    ghost both = { informed };

    ghost spent = { spent_view };
}

// One pass learns what another knows.
fn tell(shared: &SharedWords, from: &mut FilterSeat, to: &mut FilterSeat)
    requires from { SitsAt from.old shared.now.table_id shared.now.key }
    requires to { SitsAt to.old shared.now.table_id shared.now.key }
    requires some { 0 < shared.now.table_id.words }
    requires from_pass { from.old.me.0.role ≡ Pass }
    requires to_pass { to.old.me.0.role ≡ Pass }
    ensures from_table { from.new.table_id ≡ from.old.table_id }
    ensures from_same { from.new.me.0 ≡ from.old.me.0 }
    ensures to_table { to.new.table_id ≡ to.old.table_id }
    ensures to_informed { to.new.me.0 ≡ informed to.old.me.0 (note_of from.old.me.0) }
{
    let note = shared.split_seat::<Notes>(from);
    shared.join_seat::<Hears>(to, note);
}

// A pass loads every word.
fn view_words(table: &FilterTable, seat: &mut FilterSeat)
    requires at { SitsAt seat.old table.now.shared.table_id table.now.shared.key }
    requires pass { seat.old.me.0.role ≡ Pass }
    ensures role { seat.new.me.0.role ≡ Pass }
    ensures views { Views table.now.shared.table_id.words
        (sight_of seat.old) (sight_of seat.new) }
{
    'words: for word in 0..table.word_count() {
        load(&table.shared, seat, word);
    }
}

/// Both learn what either knows, and then each loads every word.
pub(crate) fn meet_seats(table: &FilterTable, a: &mut FilterSeat, b: &mut FilterSeat)
    requires some { 0 < table.now.shared.table_id.words }
    requires words { table.now.shared.table_id.words ≡ table.now.shared.key.words }
    requires a { a.old.table_id ≡ table.now.shared.table_id }
    requires b { b.old.table_id ≡ table.now.shared.table_id }
    requires a_pass { IsPassSeat a.old }
    requires b_pass { IsPassSeat b.old }
    ensures a_pass { IsPassSeat a.new }
    ensures b_pass { IsPassSeat b.new }
    ensures meets { Meets (sight_of a.old) (sight_of b.old) (sight_of a.new) (sight_of b.new) }
{
    tell(&table.shared, a, b);
    tell(&table.shared, b, a);
    view_words(table, a);
    view_words(table, b);
}
