//! A key that nobody else knows.

use std::io;
use std::random::RandomSource;

/// A key for `seed`, which hashes under exactly the sixteen bytes that are drawn here.
pub fn drawn_key<R: RandomSource>(rt: &R) -> io::Result<u128> {
    let mut bytes = [0; 16];
    rt.fill_bytes(&mut bytes)?;
    Ok(u128::from_be_bytes(bytes))
}
