//! The law of unions on many machines. The function does nothing: its contract is the law.
ghost use Rattle.std.specs.Prelude.{◌≡◌, ℕ, true, List};
ghost use Rattle.std.specs.List.{Contains};
ghost use Rattle.bloom_parts.specs.Content.{AreWords};
ghost use Rattle.fastbloom.specs.declared.parallel.shape.Shape.{Shape};
ghost use Rattle.summaries_engine.specs.declared.kinds.AnyFilter.{AnyFilter};
ghost use Rattle.summaries_engine.specs.Kinds.{HaveSameKind, has_hash, parts_of};
ghost use Rattle.summaries_engine.specs.Summaries.{HaveSameKey, HaveSameKeys, IsSummaryOf, hash_in};
ghost use Rattle.summaries_engine.specs.Trees.{TreeMakes, Tree, keys_of};

use fastbloom::DefaultHasher;
use fastbloom::blocked_laws::test_of_hash;
use fastbloom::laws::{equality_of_filters, fill_of_any_cutting, filled_contains};

/// The union of filters of parts, all of one kind, is the filter of all keys, in whatever order,
/// number and nesting the parts come. So a part that is done again changes nothing.
pub fn union_of_any_parts()
    ensures summary { (shape : Shape) (tree : Tree) (made : AnyFilter)
        → TreeMakes shape tree made → IsSummaryOf shape (keys_of tree) made }
    // The words are those of any filter of the same keys and kind, of which none is left out.
    ensures same { (shape : Shape) (tree : Tree) (keys : List (List ℕ)) (made whole : AnyFilter)
        → TreeMakes shape tree made → IsSummaryOf shape keys whole
        → AreWords (parts_of made).words → AreWords (parts_of whole).words
        → HaveSameKind whole made → HaveSameKey whole made → HaveSameKeys (keys_of tree) keys
        → ((parts_of made).words ≡ (parts_of whole).words)
        × ((parts_of made).hashes ≡ (parts_of whole).hashes) }
    ensures found { (shape : Shape) (tree : Tree) (made : AnyFilter) (key : List ℕ)
        → TreeMakes shape tree made → Contains (keys_of tree) key
        → has_hash made (hash_in made key) ≡ true }
{
    equality_of_filters::<DefaultHasher>();
    fill_of_any_cutting::<DefaultHasher>();
    filled_contains::<DefaultHasher>();
    test_of_hash();
}
