//! The head of a blocked filter's file, and its seal.
ghost use Rattle.std.specs.Prelude.{◌≡◌, ◌<◌, length};
ghost use Rattle.bloom_parts.specs.Keys.{key_low, key_high};
ghost use Rattle.bloom_files.specs.declared.layout.Layout.TheVariants.{Lines};
ghost use Rattle.bloom_files.specs.File.{bytes_of};
ghost use Rattle.bloom_files.specs.FileLayouts.{head_refusal_in, numbers_in, right_seal};
ghost use Rattle.bloom_files.specs.FileRefusals.{number_at};
ghost use Rattle.fastbloom_c.specs.Files.{head_for, line_words_refusal, file_code_or_zero};

use crate::files::{head_for, key_bytes};
use bloom_blocked::by_hash::LINE;
use bloom_files::{FileError, Layout, head_bytes_in, read_head_in, right_seal};
use bloom_parts::bit_vector::MAX_WORDS;

/// Writes the 64 bytes of the head of a blocked filter's file, and returns 0.
///
/// `num_hashes` 0 counts as 1. It returns 2 for no words, 3 for more than 2^58 - 1 and 16 for words
/// that are no whole lines, and then changes nothing.
#[unsafe(no_mangle)]
pub extern "C" fn fastbloom_blocked_head_write(
    num_words: usize,
    num_hashes: u32,
    key: &[u8; 16],
    seal: u64,
    head: &mut [u8; 64],
) -> u8
    ensures code { result ≡ file_code_or_zero (line_words_refusal num_words) }
    ensures value { result ≡ 0
        → head.new ≡ bytes_of (numbers_in Lines (head_for num_words num_hashes key.now) seal) }
    // A refusal changes nothing.
    ensures stays { 0 < result → head.new ≡ head.old }
{
    if num_words == 0 {
        return FileError::EmptyWords.code();
    }
    if num_words > MAX_WORDS {
        return FileError::TooManyWords.code();
    }
    if num_words % LINE != 0 {
        return FileError::PartOfALine.code();
    }
    *head = head_bytes_in(Layout::Lines, &head_for(num_words, num_hashes, key), seal);
    0
}

/// Reads what the head of a blocked filter's file says, and its seal, which is 0 where it has none;
/// returns 0.
///
/// It returns the number of the refusal where the bytes are no head of such a file, and then
/// changes nothing.
#[unsafe(no_mangle)]
pub extern "C" fn fastbloom_blocked_head_read(
    head: &[u8; 64],
    num_words: &mut usize,
    num_hashes: &mut u32,
    key: &mut [u8; 16],
    seal: &mut u64,
) -> u8
    ensures code { result ≡ file_code_or_zero (head_refusal_in Lines head.now) }
    ensures words { result ≡ 0 → num_words.new ≡ number_at head.now 2 }
    ensures hashes { result ≡ 0 → num_hashes.new ≡ number_at head.now 1 }
    ensures key_low { result ≡ 0 → key_low key.new ≡ number_at head.now 3 }
    ensures key_high { result ≡ 0 → key_high key.new ≡ number_at head.now 4 }
    ensures seal { result ≡ 0 → seal.new ≡ number_at head.now 5 }
    // A refusal changes nothing.
    ensures words_stay { 0 < result → num_words.new ≡ num_words.old }
    ensures hashes_stay { 0 < result → num_hashes.new ≡ num_hashes.old }
    ensures key_stays { 0 < result → key.new ≡ key.old }
    ensures seal_stays { 0 < result → seal.new ≡ seal.old }
{
    match read_head_in(Layout::Lines, head) {
        Ok((read, read_seal)) => {
            *num_words = read.num_words;
            *num_hashes = read.num_hashes;
            *key = key_bytes(read.k0, read.k1);
            *seal = read_seal;
            0
        }
        Err(error) => error.code(),
    }
}

/// The seal of the file of a blocked filter with these words, whatever their number.
///
/// `num_hashes` 0 counts as 1.
#[unsafe(no_mangle)]
pub extern "C" fn fastbloom_blocked_seal(words: &[u64], num_hashes: u32, key: &[u8; 16]) -> u64
    ensures { result
        ≡ right_seal Lines (head_for (length words.now) num_hashes key.now) words.now }
{
    let head = head_for(words.len(), num_hashes, key);
    right_seal(Layout::Lines, &head, words)
}
