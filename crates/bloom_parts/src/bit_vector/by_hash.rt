//! Calls that take a hash, and set its positions or look at them.
ghost use Rattle.std.specs.Prelude.{◌≡◌, ℕ, ◌*◌, ◌≤◌, ◌||◌, length};
ghost use Rattle.std.specs.List.{list_any};
ghost use Rattle.bloom_parts.specs.Content.{content};
ghost use Rattle.bloom_parts.specs.Many.{TellsNew};
ghost use Rattle.bloom_parts.specs.Places.{positions, are_in};

use super::BitVec;
use crate::slices;
use crate::slices::many;

impl BitVec {
    /// Sets the first `num_hashes` positions of a hash, and returns whether all of them were set
    /// before.
    #[inline(always)]
    pub fn insert_positions(&mut self, num_hashes: u32, hash: u64) -> bool
        ensures reply { result
            ≡ are_in (64 * length self.old) num_hashes hash (content self.old) }
        ensures content { (p : ℕ) → content self.new p
            ≡ (content self.old p || positions (64 * length self.old) num_hashes hash p) }
        ensures shape { length self.new ≡ length self.old }
    {
        slices::insert_positions(self.words.as_mut_slice(), num_hashes, hash)
    }

    /// Whether the first `num_hashes` positions of a hash are all set.
    #[inline(always)]
    pub fn contains_positions(&self, num_hashes: u32, hash: u64) -> bool
        ensures { result ≡ are_in (64 * length self.now) num_hashes hash (content self.now) }
    {
        slices::contains_positions(self.words.as_slice(), num_hashes, hash)
    }

    /// Sets the first `num_hashes` positions of each of these hashes.
    pub fn insert_hashes(&mut self, num_hashes: u32, hashes: &[u64])
        ensures content { (p : ℕ) → content self.new p ≡ (content self.old p
            || list_any (λ hash. positions (64 * length self.old) num_hashes hash p) hashes.now) }
        ensures shape { length self.new ≡ length self.old }
    {
        many::insert_hashes(self.words.as_mut_slice(), num_hashes, hashes);
    }

    /// Sets the first `num_hashes` positions of each of these hashes, one after the other, and bit
    /// i of `fresh` where not all of those of hash i were set just before. Clears every other bit.
    pub fn insert_hashes_tell_new(&mut self, num_hashes: u32, hashes: &[u64], fresh: &mut [u64])
        requires { length hashes.now ≤ 64 * length fresh.old }
        ensures fresh { TellsNew (64 * length self.old) num_hashes (content self.old) hashes.now
            fresh.new }
        ensures content { (p : ℕ) → content self.new p ≡ (content self.old p
            || list_any (λ hash. positions (64 * length self.old) num_hashes hash p) hashes.now) }
        ensures shape { length self.new ≡ length self.old }
        ensures bits { length fresh.new ≡ length fresh.old }
    {
        many::insert_hashes_tell_new(self.words.as_mut_slice(), num_hashes, hashes, fresh);
    }
}
