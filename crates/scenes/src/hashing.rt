//! Hashers, keys, and items of all types, at values from outside. Hashes of bytes under other keys
//! are tested from Python.
use crate::row_reports::tell_row;
use fastbloom::{BloomFilter, DefaultHasher, FilterError, RandomDefaultHasher, Text};
use std::alloc::Global;
use std::hash::{Hash, Hasher};

// What a hasher takes in, and what it returns on the way.
enum Piece {
    Bytes(&'static [u8]),
    Pair(u16),
    // The number 1 of each type.
    Ones,
    Returns(u64),
}

// The sixteen bytes before the numbers, and the bytes of both: those of a number are lowest first.
const SIXTEEN: &'static [u8] = &[1; 16];

const JOINED: &'static [u8] = &[
    1, 1, 1, 1, 1, 1, 1, 1, 1, 1, 1, 1, 1, 1, 1, 1, 1, 1, 0, 1, 0, 0, 0, 1, 0, 0, 0, 0, 0, 0, 0, 1,
    0, 0, 0, 0, 0, 0, 0, 0, 0, 0, 0, 0, 0, 0, 0, 1, 0, 0, 0, 0, 0, 0, 0, 1, 1, 0, 1, 0, 0, 0, 1, 0,
    0, 0, 0, 0, 0, 0, 1, 0, 0, 0, 0, 0, 0, 0, 0, 0, 0, 0, 0, 0, 0, 0, 1, 0, 0, 0, 0, 0, 0, 0,
];

// The values are those of Rust's own hasher (1.95) for the same bytes. Each two rows write the same
// bytes in other pieces, and in the last a hasher that returned a hash goes on.
const PIECES: &'static [&'static [Piece]] = &[
    &[
        Piece::Bytes(&[1, 2, 3]),
        Piece::Bytes(&[4, 5]),
        Piece::Returns(0xde68_2ee7_0fbe_bc3f),
    ],
    &[
        Piece::Bytes(&[1, 2, 3, 4, 5]),
        Piece::Returns(0xde68_2ee7_0fbe_bc3f),
    ],
    &[Piece::Pair(0x0201), Piece::Returns(0x1d6b_2993_44ba_b347)],
    &[Piece::Bytes(&[1, 2]), Piece::Returns(0x1d6b_2993_44ba_b347)],
    &[
        Piece::Bytes(SIXTEEN),
        Piece::Ones,
        Piece::Returns(0xa974_2e3c_46eb_4c8f),
    ],
    &[Piece::Bytes(JOINED), Piece::Returns(0xa974_2e3c_46eb_4c8f)],
    &[
        Piece::Returns(0xd1fb_a762_150c_532c),
        Piece::Bytes(&[7]),
        Piece::Returns(0xfff3_eb0c_7071_97bf),
    ],
];

// Writes the number 1 of each type.
fn write_ones(hasher: &mut RandomDefaultHasher) {
    hasher.write_u8(1);
    hasher.write_u16(1);
    hasher.write_u32(1);
    hasher.write_u64(1);
    hasher.write_u128(1);
    hasher.write_usize(1);
    hasher.write_i8(1);
    hasher.write_i16(1);
    hasher.write_i32(1);
    hasher.write_i64(1);
    hasher.write_i128(1);
    hasher.write_isize(1);
}

// Whether a hasher under the zero key returns what its pieces say.
fn returns(pieces: &[Piece]) -> bool {
    let mut hasher = RandomDefaultHasher::default();
    let mut is_right = true;
    'pieces: for piece in pieces {
        match *piece {
            Piece::Bytes(bytes) => hasher.write(bytes),
            Piece::Pair(number) => hasher.write_u16(number),
            Piece::Ones => write_ones(&mut hasher),
            Piece::Returns(hash) => is_right &= hasher.finish() == hash,
        }
    }
    is_right
}

/// Whether hashers return what the pieces of each row say, which takes no memory.
pub(crate) fn hashers_return(rt: &HostRuntime) -> bool {
    let mut all = true;
    for (i, pieces) in PIECES.iter().enumerate() {
        all &= tell_row(rt, i, returns(pieces));
    }
    all
}

// A seed, its sixteen bytes, and the hash of no bytes under them.
type Keyed = (u128, [u8; 16], u64);

// The first hash is that of the crate siphasher 0.3.10, the second by a model in Python.
const KEYED: &'static [Keyed] = &[
    (
        0x0001_0203_0405_0607_0809_0a0b_0c0d_0e0f,
        [0, 1, 2, 3, 4, 5, 6, 7, 8, 9, 10, 11, 12, 13, 14, 15],
        0xabac_0158_050f_c4dc,
    ),
    (
        42,
        [0, 0, 0, 0, 0, 0, 0, 0, 0, 0, 0, 0, 0, 0, 0, 42],
        0xdac6_d745_c089_3d94,
    ),
];

// Whether no bytes have their hash, and so an item that writes nothing has it under the seed and
// under a hasher of its bytes.
fn is_keyed(alloc: Global, keyed: &Keyed) -> Result<bool, FilterError> {
    let (seed, bytes, hash) = keyed;
    let seeded = BloomFilter::with_num_bits(alloc, 64)?.seed(seed);
    let is_seeded = seeded.hashes(1).source_hash(&()) == *hash;
    let given = BloomFilter::with_num_bits(alloc, 64)?.hasher(DefaultHasher::seeded(bytes));
    let is_given = given.hashes(1).source_hash(&()) == *hash;
    let is_of_nothing = RandomDefaultHasher::seeded(bytes).finish() == *hash;
    Ok(is_seeded & is_given & is_of_nothing)
}

#[test]
fn a_hash_is_of_the_key_and_of_the_bytes_written(rt: HostRuntime) {
    assert!(rt; hashers_return(&rt));
    for (i, keyed) in KEYED.iter().enumerate() {
        assert!(rt; tell_row(&rt, i, matches!(is_keyed(rt.alloc(), keyed), Ok(true))));
    }
}

#[derive(PartialEq, Eq, Hash)]
enum Shape {
    Dot,
    Round(u8),
    Square { side: u64 },
}

// Whether an item hashes to this under the zero key, and goes into a filter.
fn goes_in<T: Hash>(filter: &mut BloomFilter, item: &T, hash: u64) -> bool {
    let is_new = !filter.contains(item) & !filter.insert(item);
    (filter.source_hash(item) == hash) & is_new & filter.insert(item) & filter.contains(item)
}

// What Rust's own hasher (1.95) returns for the same items, and after one write of the bytes of a
// text.
const SHAPES: &'static [(Shape, u64)] = &[
    (Shape::Dot, 0xbd60_acb6_58c7_9e45),
    (Shape::Round(3), 0x23a5_d0f3_6a07_c6bc),
    (Shape::Square { side: 9 }, 0xbde4_4376_9258_25d7),
];

const TEXTS: &'static [(&'static [u8], u64)] = &[
    (&[1, 2, 3, 4, 5], 0xde68_2ee7_0fbe_bc3f),
    (&[7], 0xfff3_eb0c_7071_97bf),
    (&[], 0xd1fb_a762_150c_532c),
];

// Whether numbers, tuples of them and texts go in.
fn values_go_in(filter: &mut BloomFilter) -> bool {
    goes_in(filter, &42u64, 0x7b3e_724b_36eb_df51)
        & goes_in(filter, &-1i32, 0x52c4_0c88_74ca_d6e2)
        & goes_in(filter, &(1u8, 2u16), 0x6b1c_fe27_4045_3cce)
        & goes_in(filter, &(1u32, -2i16), 0x7764_59f8_d398_c60e)
        & goes_in(filter, &(1u32, 2u64, 3u128, 4usize), 0xceab_f44c_7f38_fac7)
        & goes_in(
            filter,
            &(-1i8, -2i64, -3i128, -4isize),
            0xf43a_6532_93bf_2c89,
        )
        & goes_in(filter, &"42", 0x05ee_89d1_0068_c3d9)
        & goes_in(filter, &"🦀", 0x75e3_0e0e_d52f_68a3)
}

// Whether all items go in.
fn all_go_in(filter: &mut BloomFilter) -> bool {
    let mut all = values_go_in(filter);
    for (shape, hash) in SHAPES {
        all &= goes_in(filter, shape, *hash);
    }
    for (text, hash) in TEXTS {
        all &= goes_in(filter, &Text(*text), *hash);
    }
    all
}

// Whether they go into an empty filter.
fn go_in(alloc: Global) -> Result<bool, FilterError> {
    let builder = BloomFilter::with_num_bits(alloc, 1 << 16)?;
    Ok(all_go_in(&mut builder.hashes(3)))
}

#[test]
fn items_of_all_types_go_in_by_their_hash(rt: HostRuntime) {
    assert!(rt; matches!(go_in(rt.alloc()), Ok(true)));
}
