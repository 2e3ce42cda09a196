//! Counts of lines.
ghost use Rattle.std.specs.Prelude.{◌≡◌, ◌+◌, ◌-◌, ◌^◌, min, if◌then◌else◌};

/// How many lines were read, and how many of them may have come before. Both numbers stay at
/// 2^64 - 1.
#[derive(Clone, Copy, PartialEq, Eq)]
pub struct Tally {
    /// The lines that were read.
    pub read: u64,
    /// Those that may have come before. A longer line that is passed on is among them, since it
    /// isn't sifted.
    pub held: u64,
}

impl Tally {
    /// The counts after one more line.
    pub fn after(self, is_held: bool) -> Tally
        ensures read { result.read ≡ min (self.read + 1) (2 ^ 64 - 1) }
        ensures held { result.held
            ≡ (if is_held then min (self.held + 1) (2 ^ 64 - 1) else self.held) }
    {
        let held = if is_held {
            self.held.saturating_add(1)
        } else {
            self.held
        };
        Tally {
            read: self.read.saturating_add(1),
            held,
        }
    }
}

/// The counts of a run that ended well.
#[derive(Clone, Copy, PartialEq, Eq)]
pub struct Total {
    pub tally: Tally,
    /// The longer lines that were passed on. The number stays at 2^64 - 1.
    pub longer: u64,
}
