//! The blocked Bloom filter, which its owner changes. Its constructors are in `builder`.
ghost use Rattle.std.specs.Prelude.{◌≡◌, ◌*◌, ◌%◌, ◌^◌, ◌<◌, ◌≤◌, length, max};
ghost use Rattle.std.specs.Iterator.Adapters.{copied_source};
ghost use Rattle.bloom_parts.specs.Content.{content, AreWords};
ghost use Rattle.bloom_plain.specs.Filter.{num_bits_of, contains, Inserts};
ghost use Rattle.bloom_plain.specs.Ones.{ones_of};
ghost use Rattle.bloom_blocked.specs.Blocked.{HasBlockedShape, InsertsAllInLines, num_lines_of, in_lines};
ghost use Rattle.bloom_blocked.specs.LineRates.{BoundsLines, line_words};
ghost use Rattle.bloom_blocked.specs.Many.{TellsFoundInLines, TellsNewInLines};

mod items;
mod sets;

use crate::rates::false_pos_of_lines;
use crate::{by_hash, many};
use bloom_parts::hasher::DefaultHasher;
use bloom_parts::math::Bracket;
use bloom_parts::slices;
use std::iter::Copied;
use std::marker::Model;
use std::slice;

/// A Bloom filter in lines of 512 bits. All positions of a hash lie in one of them, so an insert or
/// a look-up reads 64 bytes that lie together, and not a line of the cache for each position. In
/// return, false positives are more frequent.
///
/// Contracts see its words, its number of hashes and its hasher. Words that begin at a multiple of
/// 64 bytes are read quickest.
#[derive(Debug, Drop)]
pub struct BlockedBloomFilter<S = DefaultHasher> {
    words: Vec<u64>,
    num_hashes: u32,
    hasher: S,
}

impl<S> Model for BlockedBloomFilter<S> {
    ghost use Rattle.std.specs.Prelude.{length};
    ghost use Rattle.bloom_plain.specs.Filter.{Filter, filter_code};
    ghost use Rattle.bloom_blocked.specs.Blocked.{IsBlockedShape};

    ghost Value = { Filter S };

    ghost coded = { filter_code S.code };

    ghost view = { λ f.
        record { words = f.words.items; hashes = f.num_hashes; hasher = f.hasher } };

    ghost invariant = { λ f. IsBlockedShape (length f.words.items) f.num_hashes };
}

impl<S> BlockedBloomFilter<S> {
    // The filter of these parts. `num_hashes` 0 counts as 1.
    pub(crate) fn from_parts(words: Vec<u64>, num_hashes: u32, hasher: S) -> Self
        requires some { 8 ≤ length words.items }
        requires few { length words.items < 2 ^ 58 }
        requires whole { length words.items % 8 ≡ 0 }
        ensures words { result.words ≡ words.items }
        ensures hashes { result.hashes ≡ max 1 num_hashes }
        ensures hasher { result.hasher ≡ hasher }
    {
        BlockedBloomFilter {
            words,
            num_hashes: num_hashes.max(1),
            hasher,
        }
    }

    // The number of hashes, and the hasher.
    pub(crate) fn into_hashes_and_hasher(self) -> (u32, S)
    where
        S: Drop,
        ensures hashes { result.0 ≡ self.hashes }
        ensures hasher { result.1 ≡ self.hasher }
        ensures some { 1 ≤ result.0 }
    {
        (self.num_hashes, self.hasher)
    }

    /// The number of hashes, which is the number of positions of each hash. Positions may coincide.
    pub fn num_hashes(&self) -> u32
        ensures value { result ≡ self.now.hashes }
        ensures least { 1 ≤ result }
        ensures shape { HasBlockedShape self.now }
    {
        self.num_hashes
    }

    /// The number of bits, 512 for each line.
    pub fn num_bits(&self) -> usize
        ensures value { result ≡ num_bits_of self.now }
        ensures lines { result ≡ 512 * num_lines_of self.now }
        ensures shape { HasBlockedShape self.now }
    {
        self.words.len() * 64
    }

    /// The builder of the hashers of items.
    pub fn hasher(&self) -> &S
        ensures value { result.now ≡ self.now.hasher }
    {
        &self.hasher
    }

    /// The words, word 0 first. Eight are a line.
    pub fn as_slice(&self) -> &[u64]
        ensures value { result.now ≡ self.now.words }
        ensures shape { HasBlockedShape self.now }
        ensures range { AreWords self.now.words }
    {
        slices::with_range(self.words.as_slice())
    }

    /// An iterator over the words, word 0 first.
    pub fn iter(&self) -> Copied<slice::Iter<'_, u64>>
        ensures value { (copied_source result).rest.now ≡ self.now.words }
        ensures shape { HasBlockedShape self.now }
        ensures range { AreWords self.now.words }
    {
        self.as_slice().iter().copied()
    }

    /// The number of bits that are set.
    pub fn count_ones(&self) -> usize
        ensures count { result ≡ ones_of self.now }
        ensures most { result ≤ num_bits_of self.now }
    {
        slices::count_ones(self.words.as_slice())
    }

    /// Two bounds of the rate of false positives of the filter as it is: the part of all look-ups,
    /// each a draw of a line and of positions in it, for which it returns true.
    pub fn false_pos_now(&self) -> Bracket
        ensures { BoundsLines (line_words self.now.words) (num_lines_of self.now) self.now.hashes
            result }
    {
        false_pos_of_lines(self.words.as_slice(), self.num_hashes)
    }

    /// Sets all positions of a hash, and returns whether all of them were set before.
    #[inline(always)]
    pub fn insert_hash(&mut self, hash: u64) -> bool
        ensures inserts { Inserts in_lines self.old hash self.new result }
    {
        // It is 1 at least, which the compiler sees in this form alone.
        let num_hashes = self.num_hashes.max(1);
        by_hash::insert_hash(self.words.as_mut_slice(), num_hashes, hash)
    }

    /// Whether all positions of a hash are set. True may be a false positive. False means that the
    /// hash wasn't inserted since the last `clear` or `intersect`.
    #[inline(always)]
    pub fn contains_hash(&self, hash: u64) -> bool
        ensures found { result ≡ contains in_lines self.now hash }
    {
        by_hash::contains_hash(self.words.as_slice(), self.num_hashes, hash)
    }

    /// Inserts hashes, in order.
    pub fn insert_hashes(&mut self, hashes: &[u64])
        ensures inserts { InsertsAllInLines self.old hashes.now self.new }
    {
        let num_hashes = self.num_hashes;
        many::insert_hashes(self.words.as_mut_slice(), num_hashes, hashes);
    }

    /// Sets bit i of `found` where hash i is contained, and clears every other bit.
    ///
    /// ```
    /// let mut found = [0u64];
    /// bloom.contains_hashes(&[3, 5], &mut found); // bit 1 of `found` tells of hash 5
    /// ```
    pub fn contains_hashes(&self, hashes: &[u64], found: &mut [u64])
        requires room { length hashes.now ≤ 64 * length found.old }
        ensures found { TellsFoundInLines (num_lines_of self.now) self.now.hashes
            (content self.now.words) hashes.now found.new }
        ensures shape { length found.new ≡ length found.old }
    {
        many::contains_hashes(self.words.as_slice(), self.num_hashes, hashes, found);
    }

    /// Inserts hashes, in order, and sets bit i of `fresh` where hash i was new, which means that
    /// it wasn't contained just before its insert. Clears every other bit.
    pub fn insert_hashes_tell_new(&mut self, hashes: &[u64], fresh: &mut [u64])
        requires room { length hashes.now ≤ 64 * length fresh.old }
        ensures inserts { InsertsAllInLines self.old hashes.now self.new }
        ensures fresh { TellsNewInLines (num_lines_of self.old) self.old.hashes
            (content self.old.words) hashes.now fresh.new }
        ensures shape { length fresh.new ≡ length fresh.old }
    {
        let num_hashes = self.num_hashes;
        many::insert_hashes_tell_new(self.words.as_mut_slice(), num_hashes, hashes, fresh);
    }
}
