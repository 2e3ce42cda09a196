//! The law of files. Its function does nothing: its contract is the law.
ghost use Rattle.bloom_files.specs.FilterFiles.{BlockedRefusedLaw, FileLaw, NotBlockedRefusedLaw, ReadableLaw, SameFileItemsLaw};
ghost use Rattle.bloom_plain.specs.SourceHash.{source_hash_of};

use bloom_parts::hasher::{DefaultHasher, RandomDefaultHasher};
use bloom_plain::laws::source_hash_by_default;
use std::hash::{BuildHasher, Hash, Hasher};

/// A filter that is read from another's file has its words, number of hashes and key, and contains
/// the same hashes and items. A file of a filter is never refused where its kind is read. Where the
/// other kind is read it is refused by name.
pub fn file_reads_back<T: Hash>()
    ensures filters { FileLaw }
    // The left and right sides are what `source_hash` returns.
    ensures items { SameFileItemsLaw (source_hash_of ⟦<DefaultHasher as BuildHasher>⟧
        ⟦<RandomDefaultHasher as Hasher>⟧ T.hash_input) }
    ensures readable { ReadableLaw }
    ensures blocked { BlockedRefusedLaw }
    ensures not_blocked { NotBlockedRefusedLaw }
{
    source_hash_by_default::<T>();
}
