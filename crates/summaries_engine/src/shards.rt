//! Filters that have names, as files do, and their union.
ghost use Rattle.std.specs.Prelude.{map, IfErr, IfOk};
ghost use Rattle.summaries_engine.specs.Answers.{IsKeyed};
ghost use Rattle.summaries_engine.specs.Named.{AreNamed, StopsUniting, misfit_text};
ghost use Rattle.summaries_engine.specs.Stops.{IsBad, Says};
ghost use Rattle.summaries_engine.specs.Summaries.{UnitesShards};

use crate::kinds::AnyFilter;
use crate::stop::Stop;
use crate::unions::{Difference, add};
use anyhow::anyhow;
use fastbloom::DefaultHasher;
use fastbloom::blocked_laws::test_of_hash;
use fastbloom::laws::{equality_of_filters, fill_of_any_cutting, filled_contains};

/// Where filters lie under names.
pub trait Shelf {
    ghost use Rattle.std.specs.Prelude.{ℕ, List};
    ghost use Rattle.summaries_engine.specs.declared.kinds.AnyFilter.{AnyFilter};
    ghost use Rattle.summaries_engine.specs.declared.stop.Stop.{Stop};

    /// Which filters lie under which names.
    ghost has: { Self → List ℕ → AnyFilter → Type 0 };

    /// Why the filter of a name isn't had.
    ghost fails: { Self → List ℕ → Stop → Type 0 };

    /// The filter of this name.
    fn load(&self, name: &str) -> Result<AnyFilter, Stop>
        ensures keyed { IfOk result IsKeyed }
        ensures named { IfOk result (has self.now name.now) }
        ensures failed { IfErr result (fails self.now name.now) };
}

/// Why the filter of a name doesn't fit the first.
pub fn misfit(name: &str, first: &str, how: Difference) -> Stop
    ensures { IsBad (Says (misfit_text how name.now first.now)) result }
{
    Stop::Bad(match how {
        Difference::Kind => anyhow!("{name}: its kind isn't that of {first}"),
        Difference::Shape => anyhow!("{name}: its shape isn't that of {first}"),
        Difference::Key => anyhow!("{name}: its key isn't that of {first}"),
    })
}

/// The union of the filters of these names. At most two are in memory at once.
///
/// # Errors
/// At the first name whose filter can't be loaded, or has another kind, shape or key than the
/// first.
pub fn unite_named<S: Shelf>(shelf: &S, names: &[&str]) -> Result<AnyFilter, Stop>
    // One filter lies under each name, and this is their union, by the theorem of shards.
    ensures whole { IfOk result (λ made. (filters : _)
        × AreNamed (S.has shelf.now) (map (λ name. name.now) names.now) filters
        × UnitesShards filters made) }
    // Why there is none.
    ensures stops { IfErr result (StopsUniting (S.has shelf.now) (S.fails shelf.now)
        (map (λ name. name.now) names.now)) }
{
    equality_of_filters::<DefaultHasher>();
    fill_of_any_cutting::<DefaultHasher>();
    filled_contains::<DefaultHasher>();
    test_of_hash();
    let Some((first, others)) = names.split_first() else {
        return Err(Stop::Bad(anyhow!("no filter was named")));
    };
    let mut whole = shelf.load(first)?;
    'names: for name in others {
        let shard = shelf.load(name)?;
        match add(&mut whole, &shard) {
            Ok(()) => {}
            Err(how) => return Err(misfit(name, first, how)),
        }
    }
    let _words = whole.as_slice();
    Ok(whole)
}
