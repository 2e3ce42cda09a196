//! Telling how far a run is, and warning.

use crate::tally::Tally;

/// Is told from time to time how far a run is, and warned once where too many new lines came.
pub trait Progress {
    /// Is told the counts at each million lines.
    fn tell(&mut self, tally: Tally);

    /// Is told that with this line there were more new lines than the most. At a million lines this
    /// comes first.
    fn warn(&mut self, tally: Tally);
}

// How many lines lie between two tells.
const STRETCH: u64 = 1_000_000;

/// Tells how far a run is, where another stretch of lines is done.
#[inline(always)]
pub fn tell<P: Progress>(progress: &mut P, tally: Tally) {
    if tally.read % STRETCH == 0 {
        progress.tell(tally);
    }
}

/// Takes room for a new line. Where none is left it warns, and from then on there is no room to
/// take.
#[inline(always)]
pub fn warn<P: Progress>(progress: &mut P, room: &mut Option<u64>, is_held: bool, tally: Tally) {
    match *room {
        Some(left) if !is_held => {
            if left > 0 {
                *room = Some(left - 1);
            } else {
                *room = None;
                progress.warn(tally);
            }
        }
        Some(_) => {}
        None => {}
    }
}
