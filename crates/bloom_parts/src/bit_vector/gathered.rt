//! Items gathered in a vector, with an error where their room is refused.
ghost use Rattle.std.specs.Prelude.{◌≡◌, length, vec_len, IfOk};
ghost use Rattle.std.specs.Iterator.{IsFinite};
ghost use Rattle.std.specs.Iterator.Runs.{WholeRun};

use std::alloc::{AllocError, Global};

// The items of an iterator. The room for the least number that it tells is asked for at once, and
// an error where that is refused. The library's own `collect` would then grow item by item.
#[derive(Drop)]
struct Gathered<T> {
    items: Vec<T>,
}

impl<T: Drop> FromIterator<T> for Gathered<T> {
    type Alloc = Global;

    ghost from_iter_gives = { λ xs gathered.
        (gathered.items.items ≡ xs) × (vec_len gathered.items ≡ length xs) };

    fn from_iter<I: IntoIterator<Item = T>>(alloc: Global, items: I) -> Result<Self, AllocError> {
        let rest = items.into_iter();
        let mut all = Vec::with_capacity(alloc, rest.size_hint().0)?;
        all.extend(rest)?;
        Ok(Gathered { items: all })
    }
}

/// The items that an iterator gives, in order, in room that is asked for at once.
///
/// # Errors
/// An error where there is no room for the least number of items that the iterator tells, or for
/// those beyond it.
pub fn gather<I: Iterator>(alloc: Global, items: I) -> Result<Vec<I::Item>, AllocError>
where
    I::Item: Drop,
    requires can { I.can_next items }
    requires ends { IsFinite (I.remaining items) }
    ensures { IfOk result (λ v. WholeRun I.next_gives items
        (λ p. (v.items ≡ p.items) × (vec_len v ≡ length p.items))) }
{
    let gathered: Gathered<I::Item> = items.collect(alloc)?;
    Ok(gathered.items)
}
