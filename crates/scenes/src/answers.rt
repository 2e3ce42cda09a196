//! What both filters return from a call that takes no memory.
use crate::scripted::Item;
use crate::scripted_filters::Pair;
use fastbloom::Rate;

/// Whether the insert of a hash returns this.
pub(crate) fn insert_hash(pair: &mut Pair, hash: u64, said: bool) -> bool {
    (pair.plain.insert_hash(hash) == said) & (pair.shared.insert_hash(hash) == said)
}

/// Whether the look-up of a hash returns this.
pub(crate) fn contains_hash(pair: &Pair, hash: u64, said: bool) -> bool {
    (pair.plain.contains_hash(hash) == said) & (pair.shared.contains_hash(hash) == said)
}

/// Whether the insert of an item returns this.
pub(crate) fn insert_item(pair: &mut Pair, item: &Item, said: bool) -> bool {
    let Pair { plain, shared } = pair;
    match item {
        Item::Number(number) => (plain.insert(number) == said) & (shared.insert(number) == said),
        Item::Text(text) => (plain.insert(text) == said) & (shared.insert(text) == said),
        Item::Nothing => (plain.insert(&()) == said) & (shared.insert(&()) == said),
    }
}

/// Whether the look-up of an item returns this.
pub(crate) fn contains_item(pair: &Pair, item: &Item, said: bool) -> bool {
    let Pair { plain, shared } = pair;
    match item {
        Item::Number(number) => {
            (plain.contains(number) == said) & (shared.contains(number) == said)
        }
        Item::Text(text) => (plain.contains(text) == said) & (shared.contains(text) == said),
        Item::Nothing => (plain.contains(&()) == said) & (shared.contains(&()) == said),
    }
}

/// Inserts numbers that a slice lends.
pub(crate) fn insert_all(pair: &mut Pair, numbers: &[u64]) -> bool {
    pair.plain.insert_all(numbers);
    pair.shared.insert_all(numbers);
    true
}

/// Inserts the numbers from the first up to the last.
pub(crate) fn extend(pair: &mut Pair, first: u64, last: u64) -> bool {
    pair.plain.extend(first..last);
    pair.shared.extend(first..last);
    true
}

/// Whether both return the same for the numbers up to 300, and have those from the first to the
/// last.
pub(crate) fn finds(pair: &Pair, first: u64, last: u64) -> bool {
    let mut is_right = true;
    for number in 0..300u64 {
        let is_found = pair.plain.contains(&number);
        let is_in = (number >= first) & (number < last);
        is_right &= (is_found | !is_in) & (is_found == pair.shared.contains(&number));
    }
    is_right
}

/// Clears both filters.
pub(crate) fn clear(pair: &mut Pair) -> bool {
    pair.plain.clear();
    pair.shared.clear();
    true
}

/// Unites the shared filter with itself, and intersects it with itself.
pub(crate) fn unite_with_itself(pair: &Pair) -> bool {
    let shared = &pair.shared;
    if !shared.same_shape(shared) {
        return false;
    }
    shared.union(shared);
    shared.intersect(shared);
    shared.same_words(shared)
}

/// Whether this many bits are set.
pub(crate) fn has_ones(pair: &Pair, ones: usize) -> bool {
    (pair.plain.count_ones() == ones) & (pair.shared.count_ones() == ones)
}

// Whether both hold as many items at a rate of one in a hundred.
fn holds_as_many(pair: &Pair) -> bool {
    match Rate::new(1, 100) {
        Ok(rate) => pair.plain.capacity_for(rate) == pair.shared.capacity_for(rate),
        Err(_refusal) => false,
    }
}

/// Whether both tell the same number of items, and the same rates.
pub(crate) fn tell_the_same(pair: &Pair) -> bool {
    let Pair { plain, shared } = pair;
    (plain.estimated_items() == shared.estimated_items())
        & (plain.false_pos_now() == shared.false_pos_now())
        & (plain.false_pos_bounds(9) == shared.false_pos_bounds(9))
        & holds_as_many(pair)
        & (plain.expected_false_pos(9) == shared.expected_false_pos(9))
}

/// Whether this many items are expected to lead to a rate with these ends.
pub(crate) fn expects(pair: &Pair, items: usize, low: u64, high: u64) -> bool {
    let rate = pair.plain.expected_false_pos(items);
    let has_ends = (rate.low() == low) & (rate.high() == high);
    has_ends & (pair.shared.expected_false_pos(items) == rate)
}

/// Whether these are the words that an iterator gives, where a hash is inserted behind the first: a
/// word is loaded when it is asked for.
pub(crate) fn insert_between(pair: &mut Pair, hash: u64, first: u64, second: u64) -> bool {
    let Pair { plain, shared } = pair;
    plain.insert_hash(hash);
    let mut words = shared.iter();
    let is_first = words.next() == Some(first);
    shared.insert_hash(hash);
    is_first & (words.next() == Some(second))
}
