//! Whole filters: unions, intersections, clears and comparisons. Words are taken eight at a time,
//! so that lengths go from below eight to above sixteen. Another filter has another key.
use crate::scripted::Op::{Clear, Compare, Contains, Insert, Meet, Ones, UniteWithItself, Words};
use crate::scripted::Size::Hashes;
use crate::scripted::{Make, ScriptedTest};

// A filter of this many words of ones is cleared.
macro_rules! is_cleared {
    ($count:expr, $ones:expr) => {
        scripted_test!(
            "words of ones are cleared",
            Make::Words(&[u64::MAX; $count], 0, Hashes(1)),
            (Ones($ones), true),
            (Clear, true),
            (Ones(0), true),
        )
    };
}

// A filter of these words meets one of those by a union or an intersection, which makes these.
macro_rules! meets {
    ($words:expr, $op:expr, $made:expr) => {
        scripted_test!(
            "two filters meet word by word",
            Make::Words($words, 0, Hashes(1)),
            ($op, true),
            (Words($made), true),
        )
    };
}

const UP: &'static [u64] = &[0, 1, 2, 3, 4, 5, 6, 7, 8];

const DOWN: &'static [u64] = &[8, 7, 6, 5, 4, 3, 2, 1, 0];

// The words of the hashes 2 and 3 among 256 bits, where there are four hashes.
const TWO_AND_THREE: &'static [u64] = &[5, 268435456, 17179869192, 4504699138998272];

/// Unions and intersections.
pub(super) const MEETINGS: &'static [ScriptedTest] = &[
    // 5 or 6 is 7, and 5 and 6 is 4.
    meets!(&[5], Meet(&[6], true), &[7]),
    meets!(&[5], Meet(&[6], false), &[4]),
    meets!(&[5, 0], Meet(&[6, 3], true), &[7, 3]),
    meets!(&[5, 2], Meet(&[6, 3], false), &[4, 2]),
    meets!(UP, Meet(DOWN, true), &[8, 7, 6, 7, 4, 7, 6, 7, 8]),
    meets!(UP, Meet(DOWN, false), &[0, 1, 2, 1, 4, 1, 2, 1, 0]),
    scripted_test!(
        "filters of other shapes don't meet",
        Make::Words(&[5], 0, Hashes(1)),
        (Meet(&[6, 3], true), false),
        (Meet(&[6, 3], false), false),
        (Words(&[5]), true),
    ),
    scripted_test!(
        "a shared filter may be its own other",
        Make::Words(&[5, 6, 0], 0, Hashes(2)),
        (UniteWithItself, true),
        (Words(&[5, 6, 0]), true),
    ),
    scripted_test!(
        "a union finds what either filter was given, an intersection what both were",
        Make::Words(&[0, 0, 0, 0], 0, Hashes(4)),
        (Insert(1), false),
        (Insert(2), false),
        (Contains(3), false),
        (Meet(TWO_AND_THREE, true), true),
        (Contains(1), true),
        (Contains(3), true),
        (Meet(TWO_AND_THREE, false), true),
        (Contains(1), false),
        (Contains(2), true),
        (Words(TWO_AND_THREE), true),
    ),
];

/// Clears, copies and comparisons.
pub(super) const COMPARISONS: &'static [ScriptedTest] = &[
    is_cleared!(1, 64),
    is_cleared!(7, 448),
    is_cleared!(8, 512),
    is_cleared!(9, 576),
    is_cleared!(16, 1024),
    is_cleared!(17, 1088),
    scripted_test!(
        "the key is never compared, the number of hashes always",
        Make::Words(&[5], 1, Hashes(1)),
        (Compare(&[5], 1, true), true),
        (Compare(&[5], 2, false), false),
        (Words(&[5]), true),
    ),
    // The eighth word is the last of a group, and the ninth the rest.
    scripted_test!(
        "nine words are compared",
        Make::Words(UP, 1, Hashes(2)),
        (Compare(UP, 2, true), true),
        (Compare(&[0, 1, 2, 3, 4, 5, 6, 7, 9], 2, true), false),
        (Compare(&[0, 1, 2, 3, 4, 5, 6, 8, 8], 2, true), false),
        (Compare(&[1, 1, 2, 3, 4, 5, 6, 7, 8], 2, true), false),
        (Compare(UP, 1, false), false),
        (Compare(&[0, 1, 2, 3, 4, 5, 6, 7], 2, false), false),
        (Words(UP), true),
    ),
];
