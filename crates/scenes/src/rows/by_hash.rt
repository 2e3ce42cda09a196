//! Filters of words, by hash: replies, words, lists, copies and estimates.
use crate::scripted::Op::{
    Build, Clear, Clone, Compare, Contains, Cross, Estimates, Expects, HasData, Insert,
    InsertBetween, InsertItem, Ones, Replay, Show, Take, Words,
};
use crate::scripted::Size::{Expected, Hashes, Numbers};
use crate::scripted::{Item, Make, ScriptedTest};

// A hash is new, is found once it went in, and sets these bits alone.
macro_rules! goes_in {
    ($hash:expr, $zeros:expr, $hashes:expr, $words:expr) => {
        scripted_test!(
            "a hash goes in",
            Make::Words($zeros, 0, Hashes($hashes)),
            (Contains($hash), false),
            (Insert($hash), false),
            (Insert($hash), true),
            (Contains($hash), true),
            (Words($words), true),
        )
    };
}

/// Hashes that go in.
pub(super) const HASHES: &'static [ScriptedTest] = &[
    goes_in!(u64::MAX, &[0], 2, &[9223380832947798016]),
    goes_in!(1, &[0], 2, &[1048577]),
    goes_in!(1, &[0], 3, &[4296015873]),
    goes_in!(0, &[0], 7, &[1]),
    goes_in!(0xabac_0158_050f_c4dc, &[0], 1, &[4398046511104]),
    goes_in!(0x8000_0000_0000_0000, &[0, 0, 0], 1, &[0, 4294967296, 0]),
    goes_in!(1, &[4, 8], 2, &[5 + (1 << 40), 8]),
];

/// Calls, one after the other.
pub(super) const CALLS: &'static [ScriptedTest] = &[
    scripted_test!(
        "calls follow one another, a clear before the last",
        Make::Words(&[0], 0, Hashes(2)),
        (Contains(1), false),
        (Insert(1), false),
        (Insert(1), true),
        (Contains(0), true),
        (Clear, true),
        (Contains(1), false),
        (Words(&[0]), true),
    ),
    scripted_test!(
        "the same calls as a list",
        Make::Words(&[0], 0, Hashes(2)),
        (Replay(&[false, false, true, true, false]), true),
        (Words(&[0]), true),
    ),
    // Among 192 bits hash 0 has position 0 alone, and hash 1 has 0 and 61.
    scripted_test!(
        "calls that only read leave the words",
        Make::Words(&[4, 6, 9], 42, Hashes(2)),
        (Contains(0), false),
        (Contains(1), false),
        (Compare(&[4, 6, 9], 2, true), true),
        (Clone, true),
        (Cross(false), true),
        (Cross(true), true),
        (Ones(5), true),
        (Show, true),
        (Estimates, true),
        (Words(&[4, 6, 9]), true),
    ),
    // Among 128 bits the hash 2^63 has position 64, which is the first of word 1.
    scripted_test!(
        "an iterator loads a word when it is asked for it",
        Make::Words(&[4, 8], 0, Hashes(1)),
        (InsertBetween(1 << 63, 4, 9), true),
        (Words(&[4, 9]), true),
        (Clone, true),
    ),
    scripted_test!(
        "a take gives the words and sets every one to 0",
        Make::Words(&[5, 6, 9], 0, Hashes(2)),
        (Take, true),
        (Words(&[0, 0, 0]), true),
    ),
];

/// Filters that are made, and copied.
pub(super) const MADE: &'static [ScriptedTest] = &[
    // No hashes count as one. The logarithm of 2 times 64 is 44.4, and one is halved once to come
    // to a half, nearly ten times to come to a thousandth, and not at all for 3/2.
    scripted_test!(
        "both kinds of builder give the same shape",
        Make::Words(&[5, 6], 0, Hashes(0)),
        (Build(Make::Words(&[5, 6], 0, Hashes(0)), 128, 1), true),
        (Build(Make::Bits(1, Hashes(0)), 64, 1), true),
        (Build(Make::Bits(65, Hashes(1)), 128, 1), true),
        (Build(Make::Bits(1202, Hashes(4)), 1216, 4), true),
        (Build(Make::Bits(512 * 1000, Hashes(4)), 512000, 4), true),
        (Build(Make::Bits(64, Expected(0)), 64, 44), true),
        (Build(Make::Bits(64, Numbers(&[1, 2])), 64, 22), true),
        (Build(Make::Rate(1, 2, 0, Expected(0)), 64, 44), true),
        (Build(Make::Rate(3, 2, 0, Expected(1000)), 64, 1), true),
        (
            Build(Make::Rate(1, 1000, 0, Expected(1000)), 14400, 10),
            true
        ),
        (
            Build(Make::Rate(1, 1000, 42, Numbers(&[1, 2])), 64, 22),
            true
        ),
    ),
    // The logarithm of 2 times 1216 / 4 is 210.7.
    scripted_test!(
        "an item is new to a filter for four",
        Make::Bits(1202, Expected(4)),
        (Build(Make::Bits(1202, Expected(4)), 1216, 211), true),
        (InsertItem(Item::Number(5)), false),
    ),
    scripted_test!(
        "a copy of an empty filter goes its own way",
        Make::Bits(4, Hashes(4)),
        (Clone, true),
        (Words(&[0]), true),
    ),
    scripted_test!(
        "a copy of a word of zeros goes its own way",
        Make::Words(&[0], 0, Hashes(4)),
        (Clone, true),
        (Words(&[0]), true),
    ),
];

/// Rates that are expected, and data.
pub(super) const TOLD: &'static [ScriptedTest] = &[
    // One bit of 64 is a 64th of 2^63 units.
    scripted_test!(
        "one hash of one item sets one bit",
        Make::Words(&[0], 0, Hashes(1)),
        (Expects(1, 144115188075855872, 144115188075855872), true),
    ),
    scripted_test!(
        "two hashes of one item set two bits or one",
        Make::Words(&[0], 0, Hashes(2)),
        (Expects(1, 8867011522199552, 8867011522199552), true),
    ),
    scripted_test!(
        "no item sets no bit",
        Make::Words(&[0], 0, Hashes(3)),
        (Expects(0, 0, 0), true),
    ),
    // The last of the sixteen bytes of the seed is 42, and so the highest of the key's second word.
    scripted_test!(
        "data have the words, the hashes and the key",
        Make::Words(&[5], 42, Hashes(2)),
        (
            HasData(
                r#"{"bits":{"bits":[5]},"num_hashes_minus_one":1,"k0":0,"k1":3026418949592973312}"#
            ),
            true
        ),
        (Words(&[5]), true),
    ),
    scripted_test!(
        "a filter is made of data",
        Make::Data(r#"{"bits":{"bits":[5]},"num_hashes_minus_one":1,"k0":0,"k1":0}"#),
        (Compare(&[5], 2, true), true),
        (
            HasData(r#"{"bits":{"bits":[5]},"num_hashes_minus_one":1,"k0":0,"k1":0}"#),
            true
        ),
    ),
    scripted_test!(
        "data may have the greatest number of hashes",
        Make::Data(r#"{"bits":{"bits":[0]},"num_hashes_minus_one":4294967294,"k0":0,"k1":0}"#),
        (Compare(&[0], 4294967295, true), true),
        (Contains(1), false),
    ),
];
