//! The steps of passes: a load, an `|`, and the splits and joins of seats.
ghost use Rattle.std.specs.Prelude.{◌≡◌, ◌<◌};
ghost use Rattle.atomic_table.specs.Table.{step};
ghost use mathlib.Core.Option.{none};
ghost use Rattle.fastbloom.specs.Plays.{SitsAt, loaded, bits_set};
ghost use Rattle.fastbloom.specs.declared.seated.rule.Role.TheVariants.{Pass};

use super::rule::{SeatedRule, Sets, Size};
use atomic_table::{Play, Seat, Shared};

/// The words that threads share.
pub(crate) type SharedWords = Shared<(), Sets, Size, SeatedRule>;

/// A seat of a filter. It has no bytes.
pub(crate) type FilterSeat = Seat<(), Sets>;

// A load makes the positions known that it finds set.
struct Loads;

impl Play<(), Sets> for Loads {
    ghost then = { loaded };
}

// An `|` makes its positions known, and gained where it finds them clear.
struct SetsBits;

impl Play<(), Sets> for SetsBits {
    ghost then = { bits_set };
}

/// A load of a word by a pass.
pub(crate) fn load(shared: &SharedWords, seat: &mut FilterSeat, word: usize) -> u64
    requires at { SitsAt seat.old shared.now.table_id shared.now.key }
    requires within { word < shared.now.table_id.words }
    requires pass { seat.old.me.0.role ≡ Pass }
    ensures table { seat.new.table_id ≡ seat.old.table_id }
    ensures step { loaded (step shared.now.table_id.slots word 0 0 none)
        seat.old.me result seat.new.me }
{
    shared.load::<Loads>(seat, word)
}

/// An `|` of a mask into a word by a pass.
pub(crate) fn set_bits(shared: &SharedWords, seat: &mut FilterSeat, word: usize, mask: u64) -> u64
    requires at { SitsAt seat.old shared.now.table_id shared.now.key }
    requires within { word < shared.now.table_id.words }
    requires pass { seat.old.me.0.role ≡ Pass }
    ensures table { seat.new.table_id ≡ seat.old.table_id }
    ensures step { bits_set (step shared.now.table_id.slots word mask 0 none)
        seat.old.me result seat.new.me }
{
    shared.fetch_or::<SetsBits>(seat, word, mask)
}
