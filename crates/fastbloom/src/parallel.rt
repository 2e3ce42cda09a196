//! One filter that many workers fill, each with a part of the hashes.
ghost use Rattle.std.specs.Prelude.{◌≡◌, ◌⊎◌, IfOk, IfErr, map};
ghost use Rattle.std.specs.List.{concat};
ghost use Rattle.bloom_parts.specs.Keys.{HasKey};
ghost use Rattle.fastbloom.specs.Fill.{IsFilledWith};

mod job;
mod shape;
mod workers;

use bloom_parts::error::FilterError;
use bloom_plain::BloomFilter;
pub use job::Gate;
pub use shape::Shape;
use std::alloc::Global;
use std::sync::Arc;
use std::thread::Threads;
use workers::{prepare, set_to_work};

/// The filter of all hashes of all parts, under the zero key. Each part goes to a thread of its
/// own, which passes the gate once and then inserts its hashes into a filter of its own. The result
/// is the union of these filters. It is the filter that one thread would make, however the hashes
/// are split into parts.
///
/// The call waits for its threads, and returns once each has passed the gate and ended.
///
/// ```
/// let shape = Shape::new(1_000_000, 7)?;
/// let bloom = fill(rt, alloc, gate, shape, parts)?; // a thread for each part
/// ```
///
/// # Errors
/// `Memory` where there is no room for the filters of the workers, before a thread is started, and
/// else `Worker` where a thread can't be started, after those that were have ended.
pub fn fill<R: Threads, G: Gate + Send + Sync + Drop + 'static>(
    rt: &R,
    alloc: Global,
    gate: Arc<G, Global>,
    shape: Shape,
    parts: Vec<Vec<u64>>,
) -> Result<BloomFilter, FilterError>
    ensures filled { IfOk result (λ filter.
        IsFilledWith shape (concat (map (λ part. part.items) parts.items)) filter) }
    ensures key { IfOk result (λ filter. HasKey filter.hasher 0 0) }
    ensures refused { IfErr result (λ error.
        (error ≡ FilterError.Memory) ⊎ (error ≡ FilterError.Worker)) }
{
    let prepared = prepare(alloc, &gate, shape, parts)?;
    Ok(set_to_work(rt, prepared)?)
}
