//! Generic calls at concrete types: what callers learn of slices and vectors, lists that name other
//! filters, other hashers, and builders that are compared.
ghost use Rattle.std.specs.Prelude.{length};
ghost use Rattle.fastbloom.specs.Builders.{sized_filter};
ghost use Rattle.fastbloom.specs.Replies.{InsertsItems};
ghost use Rattle.fastbloom.specs.SourceHash.{source_hash_of};

use fastbloom::{
    AtomicBloomFilter, BloomFilter, BuilderWithBits, Command, DefaultHasher, FilterError, Rate,
};
use std::alloc::Global;
use std::hash::{BuildHasher, BuildHasherDefault, Hash};

// Inserts the items of a slice, in order, as callers learn from what `insert_all` says.
fn insert_slice<S: BuildHasher, T: Hash>(filter: &mut BloomFilter<S>, items: &[T])
    ensures { InsertsItems (source_hash_of S.BuildHasher S.Hasher.Hasher T.hash_input)
        filter.old items.now filter.new }
{
    filter.insert_all(items)
}

// Inserts the items of a vector, in order, as callers learn from what `extend` says.
fn insert_vec<S: BuildHasher, T: Hash + Drop>(filter: &mut BloomFilter<S>, items: Vec<T>)
    ensures { InsertsItems (source_hash_of S.BuildHasher S.Hasher.Hasher T.hash_input)
        filter.old items.items filter.new }
{
    filter.extend(items)
}

// The items of a slice, in order: what `items` says of any iterator tells its callers this.
fn fill_by_slice<S: BuildHasher, T: Hash>(
    builder: BuilderWithBits<S>,
    items: &[T],
) -> BloomFilter<S>
    ensures { InsertsItems (source_hash_of S.BuildHasher S.Hasher.Hasher T.hash_input)
        (sized_filter builder (length items.now)) items.now result }
{
    builder.items(items)
}

// Whether the texts "42" and "🦀", which are lent, go in, and are there where they are lent or given
// again. Their word is by a model of SipHash-1-3 and of the positions.
fn items_go_in(alloc: Global) -> Result<bool, FilterError> {
    let given = Vec::from_array(alloc, ["🦀"])?;
    let mut texts = fill_by_slice(BloomFilter::with_num_bits(alloc, 64)?, &["42", "🦀"]);
    insert_slice(&mut texts, &["42"]);
    insert_vec(&mut texts, given);
    let is_word = texts.as_slice() == [17359632962081458146].as_slice();
    Ok(is_word & (texts.num_hashes() == 22))
}

// A filter of one word and one hash.
fn filter_of(alloc: Global, word: u64) -> Result<BloomFilter, FilterError> {
    Ok(BloomFilter::from_vec(Vec::from_array(alloc, [word])?)?.hashes(1))
}

// Two filters that a list names.
#[derive(Drop)]
struct Others {
    six: BloomFilter,
    eight: BloomFilter,
}

fn others_of(alloc: Global) -> Result<Others, FilterError> {
    let six = filter_of(alloc, 6)?;
    let eight = filter_of(alloc, 8)?;
    Ok(Others { six, eight })
}

// What a list of three filters of one shape gives: an intersection, a union, two calls by hash.
fn replies_of(
    alloc: Global,
    filter: &mut BloomFilter,
    others: &Others,
) -> Result<Vec<bool>, FilterError> {
    let Others { six, eight } = others;
    if !filter.same_shape(six) || !filter.same_shape(eight) {
        return Ok(Vec::new(alloc));
    }
    let list = [
        Command::Intersect(six),
        Command::Union(eight),
        Command::Contains(0),
        Command::Insert(0),
    ];
    filter.replay(alloc, &list)
}

// Whether a list may name other filters: 5 and 6 is 4, 4 or 8 is 12, and hash 0 sets bit 0. An
// empty list does nothing then.
fn names_filters(alloc: Global, filter: &mut BloomFilter, others: &Others) -> bool {
    let is_answered = match replies_of(alloc, filter, others) {
        Ok(replies) => replies.as_slice() == [false, false].as_slice(),
        Err(_refusal) => false,
    };
    let is_none = matches!(filter.replay(alloc, &[]), Ok(_none));
    is_answered & is_none & (filter.as_slice() == [13].as_slice())
}

// The same, of three filters that are made.
fn list_names_filters(alloc: Global) -> Result<bool, FilterError> {
    let others = others_of(alloc)?;
    match filter_of(alloc, 5) {
        Ok(mut filter) => Ok(names_filters(alloc, &mut filter, &others)),
        Err(refusal) => Err(refusal),
    }
}

type RustHasher = BuildHasherDefault<std::hash::DefaultHasher>;

// What Rust's own hasher (1.95) gives for the item, which is new and then found.
fn hashes_as_rust(filter: &AtomicBloomFilter<RustHasher>) -> bool {
    let is_new = !filter.contains(&42u64) & !filter.insert(&42u64);
    is_new & filter.contains(&42u64) & (filter.source_hash(&42u64) == 0x7b3e_724b_36eb_df51)
}

// Whether another hasher goes into a shared filter of a rate.
fn hasher_goes_in(alloc: Global) -> Result<bool, FilterError> {
    let builder = AtomicBloomFilter::with_false_pos(Rate::new(1, 2)?).seed(&1);
    let filter = builder.hasher(RustHasher::new()).expected_items(alloc, 1)?;
    Ok(hashes_as_rust(&filter))
}

/// Whether rates are equal by their value, and builders by their rates, whatever their hashers. It
/// takes no memory.
pub(crate) fn rates_are_compared() -> Result<bool, FilterError> {
    let (half, same, third) = (Rate::new(1, 2)?, Rate::new(2, 4)?, Rate::new(1, 3)?);
    let plain = BloomFilter::with_false_pos(half).seed(&1);
    let is_plain = (plain == BloomFilter::with_false_pos(same).seed(&2))
        & (plain != BloomFilter::with_false_pos(third).seed(&1));
    let shared = AtomicBloomFilter::with_false_pos(half).seed(&1);
    let other = AtomicBloomFilter::with_false_pos(same).hasher(DefaultHasher::seeded(&[2; 16]));
    let is_shared = (shared == other)
        & (shared != AtomicBloomFilter::with_false_pos(third).seed(&1));
    Ok((half == same) & (half != third) & is_plain & is_shared)
}

#[test]
fn generic_calls_hold_at_concrete_types(rt: HostRuntime) {
    assert!(rt; matches!(items_go_in(rt.alloc()), Ok(true)));
    assert!(rt; matches!(list_names_filters(rt.alloc()), Ok(true)));
    assert!(rt; matches!(hasher_goes_in(rt.alloc()), Ok(true)));
    assert!(rt; matches!(rates_are_compared(), Ok(true)));
}
