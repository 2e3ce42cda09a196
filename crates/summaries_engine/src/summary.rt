//! The filter of all keys of inputs, filled by one worker or by several.
ghost use Rattle.std.specs.Prelude.{◌≡◌, ◌<◌, IfErr, IfOk, map};
ghost use Rattle.fastbloom.specs.declared.parallel.shape.Shape.{Shape};
ghost use Rattle.summaries_engine.specs.declared.kinds.AnyFilter.TheVariants.{Classic};
ghost use Rattle.summaries_engine.specs.Answers.{IsKeyed};
ghost use Rattle.summaries_engine.specs.Inputs.{StopsBuilding, StopsHashes, SummarizesInputs};
ghost use Rattle.summaries_engine.specs.Kinds.{HaveSameKind, parts_of};
ghost use Rattle.summaries_engine.specs.Sizes.{IsEmpty, IsShapeOf};

use crate::crew::Crew;
use crate::inputs::Inputs;
use crate::keys::filled_from;
use crate::kinds::AnyFilter;
use crate::stop::Stop;
use fastbloom::BloomFilter;
use std::alloc::Global;
use std::thread::Threads;

/// An empty filter, filled with all keys of the inputs of these names as they are read. The byte
/// `END` ends a key, and so does the end of an input.
///
/// # Errors
/// At the first input that can't be had or read, or has a key that is too long, and out of memory.
pub fn build_alone<const END: u8, S: Inputs>(
    alloc: Global,
    empty: AnyFilter,
    inputs: &S,
    names: &[&str],
) -> Result<AnyFilter, Stop>
    requires { IsEmpty (parts_of empty) }
    ensures summary { IfOk result (λ filter. (shape : Shape) → IsShapeOf (parts_of empty) shape
        → SummarizesInputs (S.has inputs.now) END
        (map (λ name. name.now) names.now) shape filter) }
    ensures kind { IfOk result (HaveSameKind empty) }
    ensures hasher { IfOk result (λ filter. (parts_of filter).hasher ≡ (parts_of empty).hasher) }
    ensures keyed { IfOk result IsKeyed }
    // Why not all keys were hashed.
    ensures stops { IfErr result (StopsHashes (S.has inputs.now) (S.fails inputs.now) END
        (map (λ name. name.now) names.now)) }
{
    let key = empty.hasher().key();
    filled_from::<END, AnyFilter, S>(alloc, key, empty, inputs, names)
}

/// The same of a Bloom filter, which at most this many workers fill. Each has a filter of its own,
/// into which it inserts a part of the keys, and these filters are united at the end. The workers
/// begin anew at each 2^16 keys for each of them. Where no thread can be started, one does the work
/// of more workers.
///
/// # Errors
/// As `build_alone`.
pub fn build<const END: u8, R: Threads + Sync, S: Inputs>(
    rt: &R,
    alloc: Global,
    empty: BloomFilter,
    workers: usize,
    inputs: &S,
    names: &[&str],
) -> Result<BloomFilter, Stop>
    requires some { 0 < workers }
    requires empty { IsEmpty empty }
    ensures summary { IfOk result (λ filter. (shape : Shape) → IsShapeOf empty shape
        → SummarizesInputs (S.has inputs.now) END
        (map (λ name. name.now) names.now) shape (Classic filter)) }
    ensures hasher { IfOk result (λ filter. filter.hasher ≡ empty.hasher) }
    ensures keyed { IfOk result (λ filter. IsKeyed (Classic filter)) }
    // Why there is none.
    ensures stops { IfErr result (StopsBuilding (S.has inputs.now) (S.fails inputs.now) END
        (map (λ name. name.now) names.now)) }
{
    let key = empty.hasher().key();
    let Ok(crew) = Crew::new(rt, alloc, empty, workers) else {
        return Err(Stop::Memory);
    };
    match filled_from::<END, Crew<'_, R>, S>(alloc, key, crew, inputs, names) {
        Ok(crew) => Ok(crew.into_filter()),
        Err(stop) => Err(stop),
    }
}
