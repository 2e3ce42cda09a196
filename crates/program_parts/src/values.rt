//! Values of arguments.

use bloom_parts::math::Rate;

/// The rate that a text like 1/1000 is, if it lies between 0 and 1.
pub fn rate_of(text: &str) -> Option<Rate> {
    let (num, den) = text.split_once('/')?;
    let num = num.parse::<u64>().ok()?;
    let den = den.parse::<u64>().ok()?;
    if num < den {
        Rate::new(num, den).ok()
    } else {
        None
    }
}

/// The sixteen bytes of a key that 32 hexadecimal digits are, as a number with the first byte
/// highest, which is the seed of that key.
pub fn key_of(text: &str) -> Option<u128> {
    // A sign is no digit.
    if text.len() != 32 || text.contains('+') {
        return None;
    }
    u128::from_str_radix(text, 16).ok()
}
