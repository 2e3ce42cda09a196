//! How a filter ends: its words are handed out, with all that the last pass knows.
ghost use Rattle.std.specs.Prelude.{◌≡◌, IfOk, IsOkUnless, vec_len};
ghost use Rattle.fastbloom.specs.Passes.{Closes, sight_of};
ghost use Rattle.fastbloom.specs.Seats.{IsPassSeat};

use super::looks::FilterTable;
use super::steps::FilterSeat;
use bloom_parts::error::FilterError;
use std::alloc::Global;

/// The words of a table that no thread shares any more.
pub(crate) fn close_table(
    alloc: Global,
    table: FilterTable,
    seat: FilterSeat,
) -> Result<Vec<u64>, FilterError>
    requires at { seat.table_id ≡ table.shared.table_id }
    requires no_slots { table.shared.table_id.slots ≡ 0 }
    requires pass { IsPassSeat seat }
    ensures count { IfOk result (λ words. vec_len words ≡ table.shared.table_id.words) }
    ensures closes { IfOk result (λ words. Closes (sight_of seat) words.items) }
    ensures refused { IsOkUnless result FilterError.Memory }
{
    let count = table.word_count();
    let mut words = Vec::with_capacity(alloc, count)?;
    let closed = table.close_with(seat);
    'words: for i in 0..count {
        words.push_reserved(closed.word(i));
    }
    closed.free();
    Ok(words)
}
