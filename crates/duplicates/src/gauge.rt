//! How full a filter is, as a terminal is told.

use bloom_blocked::BlockedBloomFilter;
use bloom_growing::{GrowableFilter, GrowingFilterOf, RotatingFilterOf};
use bloom_plain::BloomFilter;

/// A filter that tells how full it is. Half of the bits are set where a filter is as full as it was
/// made for.
pub trait Gauge {
    /// Tells it on standard error, where that can be written.
    fn tell_full(&self, rt: &HostRuntime);
}

// The share of these bits that are set, in tenths of a percent.
fn share_of(ones: usize, bits: usize) -> u64 {
    if bits == 0 {
        return 0;
    }
    let share = ones as u128 * 1000 / bits as u128;
    share.min(1000) as u64
}

/// A filter that counts its bits that are set.
pub trait Share {
    /// The share of its bits that are set, in tenths of a percent.
    fn share(&self) -> u64;
}

impl Share for BloomFilter {
    fn share(&self) -> u64 {
        share_of(self.count_ones(), self.num_bits())
    }
}

impl Share for BlockedBloomFilter {
    fn share(&self) -> u64 {
        share_of(self.count_ones(), self.num_bits())
    }
}

// Tells the share of a filter's bits that are set.
fn tell_share<F: Share>(rt: &HostRuntime, filter: &F) {
    let share = filter.share();
    let (whole, part) = (share / 10, share % 10);
    let _ = eprintln!(rt; "{whole}.{part} % of the filter's bits are set");
}

impl Gauge for BloomFilter {
    fn tell_full(&self, rt: &HostRuntime) {
        tell_share(rt, self);
    }
}

impl Gauge for BlockedBloomFilter {
    fn tell_full(&self, rt: &HostRuntime) {
        tell_share(rt, self);
    }
}

impl<F: GrowableFilter + Share> Gauge for GrowingFilterOf<F> {
    fn tell_full(&self, rt: &HostRuntime) {
        let share = self.newest().share();
        let (whole, part) = (share / 10, share % 10);
        let number = self.older().len().saturating_add(1);
        let (taken, room) = (self.taken(), self.room());
        let _ = eprintln!(rt;
            "filter {number} has {taken} of {room} lines: {whole}.{part} % of its bits are set"
        );
    }
}

impl<F: GrowableFilter + Share> Gauge for RotatingFilterOf<F> {
    fn tell_full(&self, rt: &HostRuntime) {
        let share = self.older().share();
        let (whole, part) = (share / 10, share % 10);
        let turns = self.turns();
        let _ = eprintln!(rt;
            "number of turns: {turns}; {whole}.{part} % of the older filter's bits are set"
        );
    }
}
