//! Counting a line, and telling what there is to tell of it.
ghost use Rattle.duplicates_engine.specs.Counts.{CountsLine};

use crate::progress::{Progress, tell, warn};
use crate::tally::Total;

/// Counts of the lines so far, and how many more new lines may come before a warning, if one is
/// still to come.
#[derive(Clone, Copy)]
pub struct Counted {
    pub total: Total,
    pub room: Option<u64>,
}

/// Counts a line, and tells what there is to tell of it.
#[inline(always)]
pub fn count_line<P: Progress>(
    counted: &mut Counted,
    is_longer: bool,
    is_held: bool,
    progress: &mut P,
)
    ensures { CountsLine counted.old.total counted.new.total is_longer is_held }
{
    let tally = counted.total.tally.after(is_held);
    let longer = counted.total.longer;
    counted.total = Total {
        tally,
        longer: if is_longer {
            longer.saturating_add(1)
        } else {
            longer
        },
    };
    warn(progress, &mut counted.room, is_held, tally);
    tell(progress, tally);
}
