//! Drawn sessions of blocked filters, and what both kinds reply, folded into one number.
use super::{Make, Pair, pair_of};
use fastbloom::AtomicBlockedBloomFilter;
use std::alloc::Global;

// The number of an index that a session draws, by SplitMix64 (G. L. Steele, D. Lea and C. H. Flood,
// "Fast splittable pseudorandom number generators", 2014).
fn drawn(session: u64, index: u64) -> u64 {
    let mut z = (session << 32)
        .wrapping_add(index)
        .wrapping_add(0x9e37_79b9_7f4a_7c15);
    z = (z ^ (z >> 30)).wrapping_mul(0xbf58_476d_1ce4_e5b9);
    z = (z ^ (z >> 27)).wrapping_mul(0x94d0_49bb_1331_11eb);
    z ^ (z >> 31)
}

// Draws the numbers from an index on.
fn draw_from(session: u64, index: u64, numbers: &mut [u64]) {
    let mut index = index;
    for number in numbers {
        *number = drawn(session, index);
        index = index.wrapping_add(1);
    }
}

fn fold(so_far: u64, number: u64) -> u64 {
    (so_far ^ number)
        .wrapping_mul(0x9e37_79b9_7f4a_7c15)
        .rotate_left(7)
}

fn fold_all(so_far: u64, numbers: &[u64]) -> u64 {
    let mut folded = so_far;
    for number in numbers {
        folded = fold(folded, *number);
    }
    folded
}

// Folds what both filters say. Where they differ, it folds another number, so that the session
// doesn't come out.
fn fold_both(so_far: u64, plain: u64, shared: u64) -> u64 {
    if plain == shared {
        fold(so_far, plain)
    } else {
        fold(so_far, !plain)
    }
}

// How the empty filter of a session is made. Four of 200 have a mebibyte and more.
fn make_of(session: u64) -> Make {
    let session = (session % 200) as usize;
    let lines = if session % 50 == 49 {
        16384 + session
    } else {
        1 + session % 7
    };
    Make {
        lines,
        num_hashes: 1 + session as u32 % 13,
    }
}

// The hashes of a session of which some were inserted before, and some come twice.
fn several(session: u64) -> [u64; 130] {
    let mut numbers = [0; 130];
    for i in 0..130 {
        numbers[i] = drawn(session, 7 * i as u64 % 95);
    }
    numbers
}

// Inserts the first twenty hashes, and folds the replies.
fn insert_each(pair: &mut Pair, session: u64) -> u64 {
    let mut folded = 0;
    for index in 0..20 {
        let hash = drawn(session, index);
        let plain = u64::from(pair.plain.insert_hash(hash));
        folded = fold_both(folded, plain, u64::from(pair.shared.insert_hash(hash)));
    }
    folded
}

// Looks up twenty hashes, and folds the replies.
fn find_each(pair: &Pair, session: u64, so_far: u64) -> u64 {
    let mut folded = so_far;
    for index in 440..460 {
        let hash = drawn(session, index);
        let plain = u64::from(pair.plain.contains_hash(hash));
        folded = fold_both(folded, plain, u64::from(pair.shared.contains_hash(hash)));
    }
    folded
}

// A bit for each of at most 64 hashes that the shared filter is given, one by one: whether it is
// new, or whether it is found.
fn bits_of(shared: &AtomicBlockedBloomFilter, hashes: &[u64], inserts: bool) -> u64 {
    let mut bits = 0;
    let mut bit = 1u64;
    for hash in hashes {
        let is_set = if inserts {
            !shared.insert_hash(*hash)
        } else {
            shared.contains_hash(*hash)
        };
        if is_set {
            bits |= bit;
        }
        bit = bit.rotate_left(1);
    }
    bits
}

// Folds what the plain filter answers for many hashes, and the shared one of each.
fn fold_answers(
    so_far: u64,
    answers: &[u64; 3],
    shared: &AtomicBlockedBloomFilter,
    hashes: &[u64],
    inserts: bool,
) -> u64 {
    let mut folded = so_far;
    let mut rest = hashes;
    for word in answers {
        let (some, others) = rest.split_at(rest.len().min(64));
        folded = fold_both(folded, *word, bits_of(shared, some, inserts));
        rest = others;
    }
    folded
}

// Inserts many hashes, and folds which of them are new.
fn insert_several(pair: &mut Pair, session: u64, so_far: u64) -> u64 {
    let hashes = several(session);
    let mut answers = [0; 3];
    pair.plain.insert_hashes_tell_new(&hashes, &mut answers);
    fold_answers(so_far, &answers, &pair.shared, &hashes, true)
}

// Inserts more hashes at once, and looks as many up.
fn find_several(pair: &mut Pair, session: u64, so_far: u64) -> u64 {
    let mut more = [0; 150];
    draw_from(session, 200, &mut more);
    pair.plain.insert_hashes(&more);
    pair.shared.insert_hashes(&more);
    draw_from(session, 300, &mut more);
    let mut answers = [0; 3];
    pair.plain.contains_hashes(&more, &mut answers);
    fold_answers(so_far, &answers, &pair.shared, &more, false)
}

// Folds the words, which are taken out of the shared filter. Where they differ, it begins anew.
fn fold_words(alloc: Global, pair: &Pair, so_far: u64) -> u64 {
    match pair.shared.take_words(alloc) {
        Ok(words) => {
            if words.as_slice() == pair.plain.as_slice() {
                fold_all(so_far, words.as_slice())
            } else {
                0
            }
        }
        Err(_refusal) => 0,
    }
}

// The replies and words of a session, folded.
fn fold_session(alloc: Global, pair: &mut Pair, session: u64) -> u64 {
    let folded = insert_each(pair, session);
    let folded = insert_several(pair, session, folded);
    let folded = find_several(pair, session, folded);
    let folded = find_each(pair, session, folded);
    fold_words(alloc, pair, folded)
}

/// The replies and words of ten sessions, each folded, and then all.
pub(super) fn fold_ten(alloc: Global, first: u64) -> u64 {
    let mut folded = 0;
    for i in 0..10u64 {
        let session = first.wrapping_add(i);
        let more = match pair_of(alloc, &make_of(session)) {
            Ok(mut pair) => fold_session(alloc, &mut pair, session),
            Err(_refusal) => 0,
        };
        folded = fold(folded, more);
    }
    folded
}
