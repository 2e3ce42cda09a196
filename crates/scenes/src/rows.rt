//! The tables of scripted tests. Their values come from the definitions, by hand or by a model in
//! Python.
use crate::scripted::Op::{Cross, Extend, Finds};
use crate::scripted::Size::{Expected, Hashes};
use crate::scripted::{Line, Make, ScriptedTest};
use fastbloom::FilterError;

mod by_hash;
mod items;
mod sets;

/// Every scripted test, by tables. A check takes longer for one long table than for two of half its
/// length, so each table is of one subject.
pub(crate) fn all() -> [&'static [ScriptedTest]; 8] {
    [
        by_hash::HASHES,
        by_hash::CALLS,
        by_hash::MADE,
        by_hash::TOLD,
        sets::MEETINGS,
        sets::COMPARISONS,
        items::ITEMS,
        items::MANY,
    ]
}

/// Numbers go in, and both filters are made of one another's data again and again.
pub(crate) const CROSSED: &'static [Line] = &[
    (Extend(0, 101), true),
    (Finds(0, 101), true),
    (Cross(false), true),
    (Extend(200, 230), true),
    (Cross(true), true),
    (Finds(0, 101), true),
    (Extend(230, 250), true),
    (Finds(200, 250), true),
    (Cross(false), true),
];

// Items at one in two.
macro_rules! at_half {
    ($items:expr) => {
        Make::Rate(1, 2, 0, Expected($items))
    };
}

/// What is asked for, and why both filters are refused: no bits, more than 2^58 - 1 words, and
/// 2^61 - 8 bytes, which no machine has. Of the sizes at a half the first is 2^64 - 8 bits, and for
/// one item more it is 2^64. Data are refused for no words before they are for 2^32 hashes.
pub(crate) const REFUSALS: &'static [(Make, FilterError)] = &[
    (Make::Bits(0, Hashes(1)), FilterError::ZeroBits),
    (
        Make::Bits(18446744073709551615, Hashes(1)),
        FilterError::TooManyWords,
    ),
    (
        Make::Bits(18446744073709551553, Hashes(1)),
        FilterError::TooManyWords,
    ),
    (
        Make::Bits(18446744073709551552, Hashes(1)),
        FilterError::Memory,
    ),
    (Make::Words(&[], 0, Hashes(1)), FilterError::EmptyWords),
    (Make::Rate(0, 5, 0, Expected(1)), FilterError::ZeroRate),
    (Make::Rate(5, 0, 0, Expected(1)), FilterError::ZeroRate),
    (at_half!(12786308645202655226), FilterError::TooManyWords),
    (at_half!(12786308645202655227), FilterError::SizeOverflow),
    (at_half!(18446744073709551615), FilterError::SizeOverflow),
    (
        Make::Data(r#"{"bits":{"bits":[]},"num_hashes_minus_one":1,"k0":0,"k1":0}"#),
        FilterError::EmptyWords,
    ),
    (
        Make::Data(r#"{"bits":{"bits":[]},"num_hashes_minus_one":4294967295,"k0":0,"k1":0}"#),
        FilterError::EmptyWords,
    ),
    (
        Make::Data(r#"{"bits":{"bits":[0]},"num_hashes_minus_one":4294967295,"k0":0,"k1":0}"#),
        FilterError::HashCount,
    ),
];
