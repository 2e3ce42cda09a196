//! Items, one by one and many together, by builders too. The words were made by a model of
//! SipHash-1-3 and of the positions, in Python.
use crate::scripted::Op::{Compare, ContainsItem, Extend, InsertAll, InsertItem, Words};
use crate::scripted::Size::{Hashes, Numbers, Texts};
use crate::scripted::{Item, Make, ScriptedTest};

// A filter of 2^25 bits, which is larger than a cache, takes these numbers and as many others:
// fewer than a group of sixteen, one group, and more.
macro_rules! is_large {
    ($numbers:expr, $count:expr) => {
        scripted_test!(
            "many items go into a large filter",
            Make::Bits(1 << 25, Hashes(3)),
            (Extend(0, 100), true),
            (InsertAll($numbers), true),
            (Extend(2000, 2000 + $count), true),
            (InsertAll($numbers), true),
        )
    };
}

const FIFTEEN: &'static [u64] = &[10, 11, 12, 13, 14, 15, 16, 17, 18, 19, 20, 21, 22, 23, 24];

const SIXTEEN: &'static [u64] = &[
    7, 300, 301, 302, 303, 304, 305, 306, 307, 308, 309, 310, 311, 312, 1, 7,
];

const FORTY: &'static [u64] = &[900; 40];

// The words of the items 1, 2 and 3 among 128 bits, where there are four hashes.
const THREE: &'static [u64] = &[90072061271121920, 4755818802984517632];

/// Items that go in one by one.
pub(super) const ITEMS: &'static [ScriptedTest] = &[
    // The hash of no bytes under the key bytes 0 to 15 has the position 42 among 64.
    scripted_test!(
        "an item that writes nothing has its hash under a key",
        Make::Words(&[0], 0x0001_0203_0405_0607_0809_0a0b_0c0d_0e0f, Hashes(1)),
        (InsertItem(Item::Nothing), false),
        (ContainsItem(Item::Nothing), true),
        (Words(&[1 << 42]), true),
    ),
    scripted_test!(
        "an item sets its bits alone",
        Make::Words(&[4, 8], 0, Hashes(1)),
        (ContainsItem(Item::Number(42)), false),
        (InsertItem(Item::Number(42)), false),
        (Words(&[4 + (1 << 61), 8]), true),
        (InsertItem(Item::Number(42)), true),
        (ContainsItem(Item::Number(42)), true),
        (Words(&[4 + (1 << 61), 8]), true),
    ),
    scripted_test!(
        "texts go in",
        Make::Words(&[0], 0, Hashes(22)),
        (ContainsItem(Item::Text("42")), false),
        (InsertItem(Item::Text("42")), false),
        (InsertItem(Item::Text("🦀")), false),
        (ContainsItem(Item::Text("42")), true),
        (Words(&[17359632962081458146]), true),
    ),
];

/// Items that go in beside others, or as a filter is built.
pub(super) const MANY: &'static [ScriptedTest] = &[
    scripted_test!(
        "items that are lent or given go in",
        Make::Words(&[0, 0], 0, Hashes(4)),
        (Extend(0, 0), true),
        (InsertAll(&[]), true),
        (InsertAll(&[1, 2]), true),
        (Extend(3, 4), true),
        (Words(THREE), true),
        (InsertAll(&[3, 2, 1]), true),
        (Extend(1, 4), true),
        (Words(THREE), true),
    ),
    is_large!(FIFTEEN, 15),
    is_large!(SIXTEEN, 16),
    is_large!(FORTY, 40),
    scripted_test!(
        "items size a filter under a seed",
        Make::Rate(1, 1000, 42, Numbers(&[1, 2])),
        (ContainsItem(Item::Number(1)), true),
        (ContainsItem(Item::Number(2)), true),
        (Compare(&[1523208063698539739], 22, true), true),
    ),
    scripted_test!(
        "items are found in their words under their seed",
        Make::Words(&[1523208063698539739], 42, Hashes(22)),
        (ContainsItem(Item::Number(1)), true),
        (ContainsItem(Item::Number(2)), true),
        (Compare(&[1523208063698539739], 22, true), true),
    ),
    scripted_test!(
        "texts size a filter for a rate",
        Make::Rate(1, 1000, 0, Texts(&["42", "🦀"])),
        (ContainsItem(Item::Text("42")), true),
        (ContainsItem(Item::Text("🦀")), true),
        (Compare(&[17359632962081458146], 22, true), true),
    ),
    // The logarithm of 2 times 128 is 88.7.
    scripted_test!(
        "an item goes into the words of a builder",
        Make::Words(&[4, 8], 0, Numbers(&[42])),
        (Words(&[8517732459054174556, 2935565449593601113]), true),
    ),
    scripted_test!(
        "an item goes into a filter for a rate",
        Make::Rate(1, 1000, 0, Numbers(&[42])),
        (Words(&[3108657924517117514]), true),
    ),
];
