//! Filters of either kind: Bloom filters, and blocked ones.
ghost use Rattle.std.specs.Prelude.{◌≡◌, ◌≤◌, ◌*◌, ◌^◌, ◌<◌, ◌↔◌, IsTrue, length, OnErr, OnOk};
ghost use Rattle.std.specs.Io.KnownBytes.{Appends};
ghost use Rattle.bloom_parts.specs.Content.{AreWords};
ghost use Rattle.lines.specs.Writing.{AppendsPart};
ghost use Rattle.fastbloom.specs.Filter.{num_bits_of};
ghost use Rattle.fastbloom.specs.Ones.{ones_of};
ghost use Rattle.summaries_engine.specs.Fillers.{FillsMore};
ghost use Rattle.summaries_engine.specs.Kinds.{HaveSameKind, HaveOneShape, TellsEach, UnitesParts, file_of_kind, has_hash, parts_of};

use fastbloom::laws::fill_equals_one_filter;
use fastbloom::{BlockedBloomFilter, BloomFilter, DefaultHasher, FilterFile};
use std::io;
use std::io::Write;

/// A filter of either kind. Both have the same parts, and differ in where the positions of a hash
/// lie.
#[derive(Drop)]
pub enum AnyFilter {
    /// A Bloom filter: they lie anywhere in it.
    Classic(BloomFilter),
    /// A blocked filter: all of them lie in one line.
    Blocked(BlockedBloomFilter),
}

impl AnyFilter {
    /// The number of hashes.
    pub fn num_hashes(&self) -> u32
        ensures { result ≡ (parts_of self.now).hashes }
    {
        match self {
            AnyFilter::Classic(filter) => filter.num_hashes(),
            AnyFilter::Blocked(filter) => filter.num_hashes(),
        }
    }

    /// The number of bits.
    pub(crate) fn num_bits(&self) -> usize
        ensures value { result ≡ num_bits_of (parts_of self.now) }
        ensures some { 0 < result }
    {
        match self {
            AnyFilter::Classic(filter) => filter.num_bits(),
            AnyFilter::Blocked(filter) => filter.num_bits(),
        }
    }

    /// How many bits are set.
    pub(crate) fn count_ones(&self) -> usize
        ensures count { result ≡ ones_of (parts_of self.now) }
        ensures most { result ≤ num_bits_of (parts_of self.now) }
    {
        match self {
            AnyFilter::Classic(filter) => filter.count_ones(),
            AnyFilter::Blocked(filter) => filter.count_ones(),
        }
    }

    /// The builder of the hashers of keys.
    pub fn hasher(&self) -> &DefaultHasher
        ensures { result.now ≡ (parts_of self.now).hasher }
    {
        match self {
            AnyFilter::Classic(filter) => filter.hasher(),
            AnyFilter::Blocked(filter) => filter.hasher(),
        }
    }

    /// The words, word 0 first.
    pub fn as_slice(&self) -> &[u64]
        ensures value { result.now ≡ (parts_of self.now).words }
        ensures range { AreWords (parts_of self.now).words }
    {
        match self {
            AnyFilter::Classic(filter) => filter.as_slice(),
            AnyFilter::Blocked(filter) => filter.as_slice(),
        }
    }

    /// Whether all positions of a hash are set: false means that it wasn't inserted since one of
    /// them was last cleared.
    pub fn contains_hash(&self, hash: u64) -> bool
        ensures { result ≡ has_hash self.now hash }
    {
        match self {
            AnyFilter::Classic(filter) => filter.contains_hash(hash),
            AnyFilter::Blocked(filter) => filter.contains_hash(hash),
        }
    }

    /// Sets bit i of `found` where all positions of hash i are set, and clears every other bit.
    pub fn contains_hashes(&self, hashes: &[u64], found: &mut [u64])
        requires room { length hashes.now ≤ 64 * length found.old }
        ensures found { TellsEach self.now hashes.now found.new }
        ensures shape { length found.new ≡ length found.old }
    {
        match self {
            AnyFilter::Classic(filter) => filter.contains_hashes(hashes, found),
            AnyFilter::Blocked(filter) => filter.contains_hashes(hashes, found),
        }
    }

    /// Inserts hashes, in order.
    pub(crate) fn insert_hashes(&mut self, hashes: &[u64])
        ensures { FillsMore self.old hashes.now self.new }
    {
        fill_equals_one_filter::<DefaultHasher>();
        match self {
            AnyFilter::Classic(filter) => filter.insert_hashes(hashes),
            AnyFilter::Blocked(filter) => filter.insert_hashes(hashes),
        }
    }

    /// Whether two filters are of one kind.
    pub fn same_kind(&self, other: &Self) -> bool
        ensures { IsTrue result ↔ HaveSameKind self.now other.now }
    {
        match self {
            AnyFilter::Classic(_) => match other {
                AnyFilter::Classic(_) => true,
                AnyFilter::Blocked(_) => false,
            },
            AnyFilter::Blocked(_) => match other {
                AnyFilter::Classic(_) => false,
                AnyFilter::Blocked(_) => true,
            },
        }
    }

    /// Whether two filters have as many words and as many hashes. Neither their kinds nor their
    /// hashers are looked at.
    pub fn same_shape(&self, other: &Self) -> bool
        ensures { IsTrue result ↔ HaveOneShape self.now other.now }
    {
        self.as_slice().len() == other.as_slice().len() && self.num_hashes() == other.num_hashes()
    }

    /// Sets every bit that is set in the other. The hashers aren't looked at.
    pub fn union(&mut self, other: &Self)
        requires kind { HaveSameKind self.old other.now }
        requires shape { HaveOneShape self.old other.now }
        ensures unites { UnitesParts self.old other.now self.new }
    {
        match self {
            AnyFilter::Classic(filter) => match other {
                AnyFilter::Classic(other) => filter.union(other),
                AnyFilter::Blocked(_) => unreachable!(),
            },
            AnyFilter::Blocked(filter) => match other {
                AnyFilter::Classic(_) => unreachable!(),
                AnyFilter::Blocked(other) => filter.union(other),
            },
        }
    }

    /// Writes the file of this filter, and flushes nothing.
    ///
    /// # Errors
    /// Where a write fails. Then a beginning of the file was written.
    pub fn write_file<W: Write>(&self, output: &mut W) -> io::Result<()>
        ensures whole { OnOk result
            (Appends (W.contents output.old) (W.contents output.new) (file_of_kind self.now)) }
        ensures part { OnErr result (AppendsPart (file_of_kind self.now)
            (W.contents output.old) (W.contents output.new)) }
    {
        match self {
            AnyFilter::Classic(filter) => filter.write_file(output),
            AnyFilter::Blocked(filter) => filter.write_file(output),
        }
    }
}
