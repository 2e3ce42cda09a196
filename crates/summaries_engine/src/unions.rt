//! Two filters, compared and united.
ghost use Rattle.std.specs.Prelude.{◌≡◌, IfErr, OnOk, OnErr};
ghost use Rattle.summaries_engine.specs.Kinds.{UnitesParts};
ghost use Rattle.summaries_engine.specs.Refusals.{DiffersBy, IsUnitable};

use crate::kinds::AnyFilter;

/// How a filter differs from those with which it was to be united.
#[derive(Clone, Copy)]
pub enum Difference {
    /// One of them is blocked, and the other isn't.
    Kind,
    /// The numbers of words or of hashes differ.
    Shape,
    /// The keys of their hashers differ.
    Key,
}

/// Whether a filter has the kind, the shape and the key of the first.
///
/// # Errors
/// `Kind` where the kinds differ, else `Shape` where the shapes do, and else `Key` where the keys
/// do.
pub fn check_fit(first: &AnyFilter, other: &AnyFilter) -> Result<(), Difference>
    ensures fits { OnOk result (IsUnitable first.now other.now) }
    ensures differs { IfErr result (DiffersBy first.now other.now) }
{
    if !first.same_kind(other) {
        return Err(Difference::Kind);
    }
    if !first.same_shape(other) {
        return Err(Difference::Shape);
    }
    if first.hasher().key() != other.hasher().key() {
        return Err(Difference::Key);
    }
    Ok(())
}

/// Sets each bit that is set in a shard's filter, if its kind, shape and key are the same.
///
/// # Errors
/// `Kind` where the kinds differ, else `Shape` where the shapes do, and else `Key` where the keys
/// do.
pub fn add(whole: &mut AnyFilter, shard: &AnyFilter) -> Result<(), Difference>
    ensures unites { OnOk result (UnitesParts whole.old shard.now whole.new) }
    ensures fits { OnOk result (IsUnitable whole.old shard.now) }
    // A refusal leaves the whole as it was.
    ensures differs { IfErr result (DiffersBy whole.old shard.now) }
    ensures kept { OnErr result (whole.new ≡ whole.old) }
{
    check_fit(whole, shard)?;
    whole.union(shard);
    Ok(())
}
