//! The filter that threads share under a rule.
ghost use Rattle.std.specs.Prelude.{◌≡◌, ◌<◌, ◌≤◌, ◌^◌, All, IfOk, IsOkUnless, Some, max, true, vec_len};
ghost use Rattle.std.specs.Result.{result_err};
ghost use Rattle.fastbloom.specs.Passes.{Closes, Finds, InsertsAs, IsNewPass, IsSamePass, IsSure, Meets, contains_known, seated_num_bits, seated_positions};

use super::closing::close_table;
use super::looks::{FilterTable, find_positions, insert_positions};
use super::meetings::meet_seats;
use super::opening::open;
use super::passes::{Pass, split_passes};
use super::rule::Size;
use atomic_table::Table;
use bloom_parts::bit_vector::MAX_WORDS;
use bloom_parts::error::FilterError;
use std::alloc::Global;
use std::marker::Model;

/// A Bloom filter that threads share, whose bits are never cleared: a position that a thread knows
/// stays set.
///
/// Each thread has a `Pass` of the filter. Contracts see which filter it is, with its number of
/// words, the number of hashes, and how many passes there are at most. Between any two steps of any
/// threads the words keep `SeatedRule`.
///
/// No call takes a lock or waits for a thread. An insert's `|` on a word is tried again only where
/// another thread changed that word in between.
#[derive(Drop)]
pub struct SeatedBloomFilter {
    table: FilterTable,
    num_hashes: u32,
}

impl Model for SeatedBloomFilter {
    ghost use Rattle.fastbloom.specs.Passes.{SeatedFilter};
    ghost use Rattle.fastbloom.specs.Seats.{IsStanding};

    ghost Value = { SeatedFilter };

    ghost view = { λ f. record {
      table = f.table.shared.table_id;
      hashes = f.num_hashes;
      passes = f.table.shared.key.passes;
    } };

    ghost invariant = { λ f. IsStanding f.table.shared.table_id f.table.shared.key f.num_hashes };
}

impl SeatedBloomFilter {
    /// A filter of these words, and all the passes that it will have. Zero hashes and zero passes
    /// count as 1.
    ///
    /// ```
    /// let words = vec![in alloc; 0u64; 1024]?;
    /// let (bloom, passes) = SeatedBloomFilter::new(alloc, words, 4, 2)?; // for two threads
    /// ```
    ///
    /// # Errors
    /// `EmptyWords` for no words, `TooManyWords` for more than 2^58 - 1, and else `Memory` where
    /// there is no room for the shared words or for the passes.
    pub fn new(
        alloc: Global,
        words: Vec<u64>,
        num_hashes: u32,
        passes: usize,
    ) -> Result<(SeatedBloomFilter, Vec<Pass>), FilterError>
        ensures words { IfOk result (λ made. made.0.table.words ≡ vec_len words) }
        ensures hashes { IfOk result (λ made. made.0.hashes ≡ max 1 num_hashes) }
        ensures most { IfOk result (λ made. made.0.passes ≡ max 1 passes) }
        // There are as many passes as were asked for, and each is new and of this filter.
        ensures count { IfOk result (λ made. vec_len made.1 ≡ max 1 passes) }
        ensures passes { IfOk result (λ made.
            All (IsNewPass made.0.table words.items) made.1.items) }
        // What is refused, and why.
        ensures empty { vec_len words ≡ 0 → result_err result ≡ Some FilterError.EmptyWords }
        ensures many { 2 ^ 58 ≤ vec_len words
            → result_err result ≡ Some FilterError.TooManyWords }
        ensures refused { 1 ≤ vec_len words → vec_len words < 2 ^ 58
            → IsOkUnless result FilterError.Memory }
    {
        let num_words = words.len();
        if num_words == 0 {
            return Err(FilterError::EmptyWords);
        }
        if num_words > MAX_WORDS {
            return Err(FilterError::TooManyWords);
        }
        let size = Size {
            words: num_words,
            passes: passes.max(1),
        };
        let zeros = vec![in alloc; 0u64; num_words]?;
        let (table, mut seat) = Table::of_words(alloc, zeros.as_slice(), &size)?;
        open(&table.shared, &mut seat, words.as_slice());
        let all = split_passes(alloc, &table.shared, seat, size.passes)?;
        let filter = SeatedBloomFilter {
            table,
            num_hashes: num_hashes.max(1),
        };
        Ok((filter, all))
    }

    /// Sets the positions of a hash by steps of this pass, and returns whether these found all of
    /// them set. The result is false exactly if the pass gained a position.
    pub fn insert_hash_as(&self, pass: &mut Pass, hash: u64) -> bool
        requires { pass.old.filter ≡ self.now.table }
        ensures same { IsSamePass pass.old pass.new }
        ensures inserts { InsertsAs (seated_positions self.now hash) pass.old pass.new result }
        // The result is true where the pass could be sure of all of them.
        ensures sure { IsSure self.now pass.old hash → result ≡ true }
    {
        insert_positions(&self.table, &mut pass.seat, self.num_hashes, hash)
    }

    /// Whether all positions of a hash are found set. The look-up stops at the first that is clear.
    pub fn contains_hash_as(&self, pass: &mut Pass, hash: u64) -> bool
        requires { pass.old.filter ≡ self.now.table }
        ensures same { IsSamePass pass.old pass.new }
        ensures finds { Finds (seated_num_bits self.now) self.now.hashes hash
            pass.old pass.new result }
        // The result is whether the pass knows all of them then.
        ensures found { result ≡ contains_known self.now pass.new hash }
        // The result is true where the pass could be sure of all of them.
        ensures sure { IsSure self.now pass.old hash → result ≡ true }
        ensures gained { pass.new.gained ≡ pass.old.gained }
    {
        find_positions(&self.table, &mut pass.seat, self.num_hashes, hash)
    }

    /// Hands each of two passes what the other knows, and loads every word for each.
    ///
    /// Both then know all that either knew, and all that the filter began with.
    pub fn meet(&self, a: &mut Pass, b: &mut Pass)
        requires a { a.old.filter ≡ self.now.table }
        requires b { b.old.filter ≡ self.now.table }
        ensures { Meets a.old b.old a.new b.new }
    {
        meet_seats(&self.table, &mut a.seat, &mut b.seat)
    }

    /// The words of the filter: all bits that it began with are set, and all that the pass knows.
    ///
    /// # Errors
    /// `Memory` where there is no room for them; the filter is gone then too.
    pub fn close(self, alloc: Global, pass: Pass) -> Result<Vec<u64>, FilterError>
        requires { pass.filter ≡ self.table }
        ensures count { IfOk result (λ words. vec_len words ≡ self.table.words) }
        ensures closes { IfOk result (λ words. Closes pass words.items) }
        ensures refused { IsOkUnless result FilterError.Memory }
    {
        let SeatedBloomFilter {
            table,
            num_hashes: _,
        } = self;
        let Pass { seat } = pass;
        close_table(alloc, table, seat)
    }
}
