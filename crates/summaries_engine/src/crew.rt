//! Workers that fill filters side by side, each with a part of the hashes and a filter of its own.
ghost use Rattle.std.specs.Fork.{slice_chunk};
ghost use Rattle.std.specs.Int.{div_ceil};
ghost use Rattle.std.specs.Prelude.{◌≡◌, ◌<◌, ℕ, List, [], ◌∷◌, IfOk, IsOkUnless, length, vec_len};
ghost use Rattle.std.specs.Thread.{IsSync};
ghost use Rattle.fastbloom.specs.Data.{DefaultFilter};
ghost use Rattle.fastbloom.specs.Replies.{InsertsAll};
ghost use Rattle.summaries_engine.specs.Crews.{HoldMore, HoldTogether, InsertParts, holds-none};
ghost use Rattle.summaries_engine.specs.Sizes.{IsEmpty};

use crate::filler::Filler;
use fastbloom::{BloomFilter, FilterError};
use std::alloc::Global;
use std::thread::{Threads, for_each_mut};

// How many hashes a worker is given at once, but for the last ones.
const EACH: usize = 1 << 16;

// Inserts the part of this number, of parts of this size.
fn insert_part(size: usize, number: usize, hashes: &[u64], filter: &mut BloomFilter)
    ensures { InsertsAll filter.old (slice_chunk hashes.now size number) filter.new }
{
    let (_, rest) = hashes.split_at(number.saturating_mul(size).min(hashes.len()));
    let (part, _) = rest.split_at(size.min(rest.len()));
    filter.insert_hashes(part);
}

/// The filters that workers fill, one for each.
#[derive(Drop)]
pub(crate) struct Crew<'a, R> {
    rt: &'a R,
    filters: Vec<BloomFilter>,
}

impl<'a, R: Threads + Sync> Crew<'a, R> {
    /// An empty filter for each worker: this one and copies of it.
    ///
    /// # Errors
    /// Out of memory.
    pub(crate) fn new(
        rt: &'a R,
        alloc: Global,
        empty: BloomFilter,
        workers: usize,
    ) -> Result<Self, FilterError>
        requires some { 0 < workers }
        requires empty { IsEmpty empty }
        ensures workers { IfOk result (λ crew. vec_len crew.filters ≡ workers) }
        ensures none { IfOk result (λ crew. HoldTogether empty [] crew.filters.items) }
        ensures refused { IsOkUnless result FilterError.Memory }
    {
        let mut filters = Vec::new(alloc);
        'filters: for _ in 1..workers {
            filters.push(empty.try_clone(alloc)?)?;
        }
        filters.push(empty)?;
        Ok(Crew { rt, filters })
    }

    // Divides hashes among the filters, each of which a worker fills. There are at most as many
    // workers as hashes.
    fn insert(&mut self, hashes: &[u64])
        requires some { 0 < vec_len self.old.filters }
        ensures { InsertParts (div_ceil (length hashes.now) (vec_len self.old.filters))
            self.old.filters.items hashes.now self.new.filters.items }
    {
        let workers = self.filters.len();
        let size = hashes.len().div_ceil(workers);
        let insert = move |number: usize, filter: &mut BloomFilter|
            ensures { InsertsAll filter.old (slice_chunk hashes.entry.now size number) filter.new }
        { insert_part(size, number, hashes, filter) };
        let threads = hashes.len().clamp(1, workers);
        for_each_mut(self.rt, &mut self.filters, threads, &insert);
    }

    /// The union of all filters.
    pub(crate) fn into_filter(self) -> BloomFilter
        requires { (first : DefaultFilter) × (hashes : List ℕ)
            × HoldTogether first hashes self.filters.items }
        ensures { (first : DefaultFilter) (hashes : List ℕ)
            → HoldTogether first hashes self.entry.filters.items
            → HoldTogether first hashes (result ∷ []) }
    {
        let mut others = self.filters.into_iter();
        let Some(mut whole) = others.next() else {
            unreachable!()
        };
        'others: for other in others {
            whole.union(&other);
        }
        whole
    }
}

impl<'a, R: Threads + Sync> Filler for Crew<'a, R> {
    ghost ready = { λ crew. IsSync R.row × (0 < vec_len crew.filters) };

    ghost took = { λ old hashes new. HoldMore old.filters.items hashes new.filters.items };

    fn most(&self) -> usize {
        EACH.saturating_mul(self.filters.len())
    }

    fn take(&mut self, hashes: &[u64]) {
        self.insert(hashes);
    }

    ghost none = { λ crew. holds-none crew.filters.items };
}
