//! Numbers of hashes, sizes, rates, brackets and refusals at values from outside.
use crate::row_reports::tell_row;
use fastbloom::{
    Bracket, FilterError, Rate, expected_density, expected_false_pos, false_pos_bounds,
    false_pos_of_either, false_pos_of_ones, optimal_hashes, optimal_size,
};

// A function's arguments, and its value. Both ends of a bracket are in units of 2^-63.
enum Row {
    // Bits, items, and the number of hashes.
    Hashes(usize, usize, u32),
    // Items, the two parts of a rate, and the size.
    Size(usize, u64, u64, Result<usize, FilterError>),
    // Hashes, bits, items, and the ends of the density.
    Density(u32, usize, usize, u64, u64),
    // A power of the density of these hashes, bits and items, and its ends.
    Power(u32, u32, usize, usize, u64, u64),
    // A power of a density between two ends, and its ends.
    PowerOf(u32, u64, u64, u64, u64),
    // Hashes, bits, items, and the ends of the mean rate of false positives.
    Mean(u32, usize, usize, u64, u64),
    // Hashes, bits, set bits, and the ends of the rate.
    Ones(u32, usize, usize, u64, u64),
    // Bits and set bits, and the ends of the rate of a test by them or by half of 64 bits.
    Either(usize, usize, u64, u64),
    // A refusal, and its number.
    Code(FilterError, u8),
}

const ROWS: &'static [Row] = &[
    // The quotient of bits and items times the logarithm of 2 is rounded half up: 1024 / 2 gives
    // 354.9. The last line is two and a half, since its items are the logarithm times 2^53.
    Row::Hashes(1024, 2, 355),
    Row::Hashes(1024, 500, 1),
    Row::Hashes(64, 1, 44),
    Row::Hashes(64, 0, 4294967295),
    Row::Hashes(0, 0, 1),
    Row::Hashes(0, 5, 1),
    Row::Hashes(18446744073709551615, 1, 4294967295),
    Row::Hashes(64, 18446744073709551615, 1),
    Row::Hashes(22517998136852480, 6243314768165359, 3),
    // The size goes by how many times one is halved to come to the rate: once for a half, 638
    // sixty-fourths of a time for a thousandth, 64 times for the least rate, not at all for 3/2 and
    // more, and a sixty-fourth of a time for the greatest rate below one. No word holds the last
    // two sizes.
    Row::Size(1, 1, 2, Ok(64)),
    Row::Size(1000, 1, 2, Ok(1448)),
    Row::Size(1, 1, 18446744073709551615, Ok(96)),
    Row::Size(2, 1, 1000, Ok(64)),
    Row::Size(1000, 1, 1000, Ok(14384)),
    Row::Size(1000, 3, 2, Ok(64)),
    Row::Size(0, 1, 1000, Ok(64)),
    Row::Size(1000, 18446744073709551615, 1, Ok(64)),
    Row::Size(
        1000000,
        18446744073709551614,
        18446744073709551615,
        Ok(22544),
    ),
    Row::Size(12786308645202655226, 1, 2, Ok(18446744073709551608)),
    Row::Size(12786308645202655227, 1, 2, Err(FilterError::SizeOverflow)),
    Row::Size(18446744073709551615, 1, 2, Err(FilterError::SizeOverflow)),
    Row::Size(1, 0, 5, Err(FilterError::ZeroRate)),
    Row::Size(1, 5, 0, Err(FilterError::ZeroRate)),
    // 1 - (63/64)^t, and 1 - (2/3). The last two densities, computed apart with Python's whole
    // numbers, tell how each product is rounded: other ways of rounding give other ends.
    Row::Density(1, 64, 1, 144115188075855872, 144115188075855872),
    Row::Density(1, 64, 2, 285978576338026496, 285978576338026496),
    Row::Density(1, 3, 1, 3074457345618258602, 3074457345618258603),
    Row::Density(2, 64, 0, 0, 0),
    Row::Density(1, 1, 1, 9223372036854775808, 9223372036854775808),
    Row::Density(1, 18446744073709551615, 1, 0, 1),
    Row::Density(7, 1024, 100, 4568972320092213995, 4568972320092214093),
    Row::Density(13, 1000, 77, 5835371729641738664, 5835371729641739423),
    Row::Power(1, 1, 64, 1, 144115188075855872, 144115188075855872),
    Row::Power(2, 1, 64, 1, 2251799813685248, 2251799813685248),
    Row::Power(7, 7, 1024, 100, 67513609598153215, 67513609598153226),
    Row::Power(0, 2, 64, 0, 9223372036854775808, 9223372036854775808),
    Row::PowerOf(0, 0, 0, 9223372036854775808, 9223372036854775808),
    // Computed apart with Python's whole numbers. Of two bits after two draws 10 of 16 pairs are a
    // false positive, which is 5764607523034234880 units.
    Row::Mean(2, 2, 1, 5188146770730811392, 6088866696204910592),
    Row::Mean(2, 64, 1, 8867011522199552, 13725461381120000),
    Row::Mean(7, 1024, 100, 67513609598153215, 68936744759523058),
    Row::Mean(3, 64, 0, 0, 0),
    Row::Mean(0, 64, 5, 9223372036854775808, 9223372036854775808),
    // (1/64)^2, (1/3)^3, and (100/192)^7.
    Row::Ones(2, 64, 1, 2251799813685248, 2251799813685248),
    Row::Ones(3, 3, 1, 341606371735362066, 341606371735362068),
    Row::Ones(7, 192, 100, 95891723822588019, 95891723822588021),
    Row::Ones(7, 64, 0, 0, 0),
    // One of two tests holds of at least the greater lower end of both, and of at most the sum of
    // their upper ends, or of all.
    Row::Either(3, 1, 4611686018427387904, 7686143364045646507),
    Row::Either(64, 48, 6917529027641081856, 9223372036854775808),
    Row::Code(FilterError::ZeroBits, 1),
    Row::Code(FilterError::EmptyWords, 2),
    Row::Code(FilterError::TooManyWords, 3),
    Row::Code(FilterError::ZeroRate, 4),
    Row::Code(FilterError::SizeOverflow, 5),
    Row::Code(FilterError::Memory, 6),
    Row::Code(FilterError::HashCount, 7),
    Row::Code(FilterError::Worker, 8),
];

// Whether a bracket has these ends.
fn has_ends(bracket: Bracket, low: u64, high: u64) -> bool {
    (bracket.low() == low) & (bracket.high() == high)
}

// The size for this many items at a rate of two parts.
fn size_of(items: usize, num: u64, den: u64) -> Result<usize, FilterError> {
    optimal_size(items, Rate::new(num, den)?)
}

// The rate by this many set bits. No row has no bits, or more set bits than bits.
fn rate_of(hashes: u32, bits: usize, ones: usize) -> Bracket {
    let bits = bits.max(1);
    false_pos_of_ones(hashes, bits, ones.min(bits))
}

// The power of the density of these hashes, bits and items.
fn power_of(exponent: u32, hashes: u32, bits: usize, items: usize) -> Bracket {
    expected_false_pos(exponent, expected_density(hashes, bits.max(1), items))
}

// The power of a density between two ends. No row has a lower end above the upper one.
fn power_between(exponent: u32, low: u64, high: u64) -> Bracket {
    let high = high.min(1 << 63);
    expected_false_pos(exponent, Bracket::new(low.min(high), high))
}

// The rate of a test by this many set bits or by half of 64 bits.
fn either_of(bits: usize, ones: usize) -> Bracket {
    false_pos_of_either(rate_of(1, bits, ones), rate_of(1, 64, 32))
}

// Whether a function has the value of its row. No row has no bits.
fn holds(row: &Row) -> bool {
    match *row {
        Row::Hashes(bits, items, hashes) => optimal_hashes(bits, items) == hashes,
        Row::Size(items, num, den, size) => size_of(items, num, den) == size,
        Row::Density(hashes, bits, items, low, high) => {
            has_ends(expected_density(hashes, bits.max(1), items), low, high)
        }
        Row::Power(exponent, hashes, bits, items, low, high) => {
            has_ends(power_of(exponent, hashes, bits, items), low, high)
        }
        Row::PowerOf(exponent, least, most, low, high) => {
            has_ends(power_between(exponent, least, most), low, high)
        }
        Row::Mean(hashes, bits, items, low, high) => {
            has_ends(false_pos_bounds(hashes, bits.max(1), items), low, high)
        }
        Row::Ones(hashes, bits, ones, low, high) => {
            has_ends(rate_of(hashes, bits, ones), low, high)
        }
        Row::Either(bits, ones, low, high) => has_ends(either_of(bits, ones), low, high),
        Row::Code(refusal, code) => refusal.code() == code,
    }
}

// Whether the greatest arguments return in range.
fn are_in_range() -> bool {
    let density = expected_density(4294967295, 18446744073709551615, 18446744073709551615);
    let greatest = expected_false_pos(4294967295, density);
    let density_is = (density.low() <= density.high()) & (density.high() <= 1 << 63);
    density_is & (greatest.low() <= greatest.high()) & (greatest.high() <= 1 << 63)
}

#[test]
fn numbers_are_those_from_outside(rt: HostRuntime) {
    for (i, row) in ROWS.iter().enumerate() {
        assert!(rt; tell_row(&rt, i, holds(row)));
    }
    assert!(rt; are_in_range());
}
