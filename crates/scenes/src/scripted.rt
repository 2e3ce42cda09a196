//! Scripted tests: how a plain and a shared filter are made, and what both return from the same
//! calls.

/// An item, which is hashed as the number or the text that it holds. `Nothing` writes no byte.
pub(crate) enum Item {
    Number(u64),
    Text(&'static str),
    Nothing,
}

/// What fixes the number of hashes, and with a rate the number of bits too.
#[derive(Drop)]
pub(crate) enum Size {
    /// So many hashes. A rate can't take them.
    Hashes(u32),
    /// As many items as are expected. None go in.
    Expected(usize),
    /// These numbers, which go in.
    Numbers(&'static [u64]),
    /// These texts, which go in.
    Texts(&'static [&'static str]),
}

/// What the filters are made of. The key is that of a seed, or else the zero key.
#[derive(Drop)]
pub(crate) enum Make {
    /// A number of bits.
    Bits(usize, Size),
    /// Words and a seed.
    Words(&'static [u64], u128, Size),
    /// The two parts of a rate, and a seed.
    Rate(u64, u64, u128, Size),
    /// Data, as JSON text.
    Data(&'static str),
}

/// A call on both filters, or a question about them. Where another filter is needed, it has the
/// key of seed 2.
pub(crate) enum Op {
    /// `insert_hash`.
    Insert(u64),
    /// `contains_hash`.
    Contains(u64),
    /// `insert`.
    InsertItem(Item),
    /// `contains`.
    ContainsItem(Item),
    /// `contains` of the numbers up to 300: both return the same, and have those from the first up
    /// to the second.
    Finds(u64, u64),
    /// `insert_all` of these numbers.
    InsertAll(&'static [u64]),
    /// `extend` by the numbers from the first up to the second.
    Extend(u64, u64),
    Clear,
    /// `union`, or else `intersect`, with a filter of these words. False: the shapes differ, and
    /// nothing is done.
    Meet(&'static [u64], bool),
    /// `union` and `intersect` of the shared filter with itself.
    UniteWithItself,
    /// `Debug` of both, which may be any text.
    Show,
    /// `try_clone`: the copies equal the filters, and differ once 42 went into the copies.
    Clone,
    /// Each filter goes on as it is made of the other's data, by JSON text if that is said.
    Cross(bool),
    /// `take_words` gives the words of the plain filter, which is cleared then.
    Take,
    /// `replay` of contains 1, insert 1, insert 1, contains 0, clear, contains 1.
    Replay(&'static [bool]),
    /// Two filters made so have this shape.
    Build(Make, usize, u32),
    /// The words are these.
    Words(&'static [u64]),
    /// `==` and `same_words` with a filter of these words and hashes. `same_shape` with it is the
    /// last part.
    Compare(&'static [u64], u32, bool),
    /// `count_ones` is this.
    Ones(usize),
    /// Both tell the same number of items, and the same rates.
    Estimates,
    /// `expected_false_pos` of this many items has these two ends, in units of 2^-63.
    Expects(usize, u64, u64),
    /// `to_data` gives the data of this JSON text.
    HasData(&'static str),
    /// The iterator gives these two words where the hash is inserted behind the first.
    InsertBetween(u64, u64, u64),
}

/// A call and what it returns, which is true where it returns nothing.
pub(crate) type Line = (Op, bool);

/// How the filters are made, and what they return then.
pub(crate) struct ScriptedTest {
    pub(crate) name: &'static str,
    pub(crate) make: Make,
    pub(crate) lines: &'static [Line],
}
