//! The scripted tests that are run again and again.
use crate::scripted::Op::{Build, Clone, Cross, Replay, Take, Words};
use crate::scripted::Size::{Expected, Hashes, Numbers};
use crate::scripted::{Make, ScriptedTest};

// The words 5 and 6 under three hashes and the key of seed 42.
const STANDING: Make = Make::Words(&[5, 6], 42, Hashes(3));

/// Calls that take memory, and scripted tests that make them beside filters that stand. A refused
/// call ends its test, and leaves the filters as they were. `shared hashes` makes the filters of
/// every test.
pub(super) type Called = (&'static [&'static str], ScriptedTest);

/// The scripted tests: filters that are made, and calls on filters that stand.
pub(super) const CALLED: &'static [Called] = &[
    (
        &["with_num_bits", "shared with_num_bits", "shared hashes"],
        scripted_test!(
            "filters of bits",
            STANDING,
            (Build(Make::Bits(100, Hashes(4)), 128, 4), true),
            (Words(&[5, 6]), true),
        ),
    ),
    (
        &["shared expected_items", "shared items"],
        scripted_test!(
            "filters of bits for items",
            STANDING,
            (Build(Make::Bits(1202, Expected(4)), 1216, 211), true),
            (Build(Make::Bits(64, Numbers(&[1, 2])), 64, 22), true),
            (Words(&[5, 6]), true),
        ),
    ),
    (
        &["expected_items by rate", "shared expected_items by rate"],
        scripted_test!(
            "filters for a rate",
            STANDING,
            (Build(Make::Rate(1, 2, 0, Expected(1000)), 1472, 1), true),
            (Words(&[5, 6]), true),
        ),
    ),
    (
        &["items by rate", "shared items by rate"],
        scripted_test!(
            "filters for items at a rate",
            STANDING,
            (
                Build(Make::Rate(1, 1000, 0, Numbers(&[1, 2])), 64, 22),
                true
            ),
            (Words(&[5, 6]), true),
        ),
    ),
    (
        &[
            "try_clone",
            "shared try_clone",
            "to_data",
            "shared to_data",
            "shared from_data",
        ],
        scripted_test!(
            "copies and data",
            STANDING,
            (Clone, true),
            (Cross(false), true),
            (Words(&[5, 6]), true),
        ),
    ),
    (
        &["take_words", "replay"],
        scripted_test!(
            "a take and a list",
            STANDING,
            (Take, true),
            (Words(&[0, 0]), true),
            (Replay(&[false, false, true, true, false]), true),
            (Words(&[0, 0]), true),
        ),
    ),
];
