//! How many items filters have, and how alike they are, by how many of their bits are set.
ghost use Rattle.std.specs.Prelude.{◌≡◌, ◌≤◌};
ghost use Rattle.bloom_parts.specs.Alike.{EstimatesCommon, EstimatesLikeness};
ghost use Rattle.bloom_parts.specs.Estimates.{EstimatesItems};
ghost use Rattle.bloom_plain.specs.Filter.{SameShape, num_bits_of};
ghost use Rattle.bloom_plain.specs.Ones.{ones_of, ones_of_either};

use super::BloomFilter;
use bloom_parts::math::{Bracket, Estimate, estimated_common, estimated_items, estimated_part};
use bloom_parts::slices;

impl<S> BloomFilter<S> {
    /// The number of bits that are set.
    pub fn count_ones(&self) -> usize
        ensures count { result ≡ ones_of self.now }
        ensures most { result ≤ num_bits_of self.now }
    {
        slices::count_ones(self.bits.as_slice())
    }

    /// The number of items in the filter, as two bounds.
    ///
    /// It is the number at which as many bits are expected to be set. Nothing is claimed of how far
    /// the number of items that were inserted may lie from it.
    pub fn estimated_items(&self) -> Estimate
        ensures { let k = self.now.hashes in
            EstimatesItems (num_bits_of self.now) k (ones_of self.now) result }
    {
        estimated_items(self.num_hashes, self.num_bits(), self.count_ones())
    }

    // The number of bits that are set in either filter.
    pub(super) fn count_either(&self, other: &Self) -> usize
        requires { SameShape self.now other.now }
        ensures count { result ≡ ones_of_either self.now other.now }
        ensures most { result ≤ num_bits_of self.now }
    {
        slices::count_either(self.bits.as_slice(), other.bits.as_slice())
    }

    /// The number of items in the union of two filters, which isn't made, as two bounds.
    pub fn estimated_union(&self, other: &Self) -> Estimate
        requires { SameShape self.now other.now }
        ensures { let k = self.now.hashes in
            EstimatesItems (num_bits_of self.now) k (ones_of_either self.now other.now) result }
    {
        estimated_items(self.num_hashes, self.num_bits(), self.count_either(other))
    }

    /// The number of items that two filters have in common, as two bounds: what both have together,
    /// less what their union has.
    pub fn estimated_common(&self, other: &Self) -> Estimate
        requires { SameShape self.now other.now }
        ensures { let k = self.now.hashes in
            EstimatesCommon (num_bits_of self.now) k (ones_of self.now) (ones_of other.now)
            (ones_of_either self.now other.now) result }
    {
        let (first, second) = (self.estimated_items(), other.estimated_items());
        estimated_common(first, second, self.estimated_union(other))
    }

    /// The part of the items of two filters that they have in common, in units of 2^-63.
    pub fn jaccard(&self, other: &Self) -> Bracket
        requires { SameShape self.now other.now }
        ensures { let k = self.now.hashes in
            EstimatesLikeness (num_bits_of self.now) k (ones_of self.now) (ones_of other.now)
            (ones_of_either self.now other.now) result }
    {
        let (first, second) = (self.estimated_items(), other.estimated_items());
        let both = self.estimated_union(other);
        estimated_part(estimated_common(first, second, both), both)
    }
}
