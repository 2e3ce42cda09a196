//! The head of a file whose filter isn't blocked, and its seal.
ghost use Rattle.std.specs.Prelude.{◌≡◌, ◌<◌, length};
ghost use Rattle.bloom_parts.specs.Keys.{key_low, key_high};
ghost use Rattle.bloom_files.specs.File.{bytes_of, head_numbers, seal_of};
ghost use Rattle.bloom_files.specs.FileRefusals.{number_at, whole_head_refusal};
ghost use Rattle.fastbloom_c.specs.Files.{head_for, head_words_refusal, file_code_or_zero};

use bloom_files::{FileError, Head, head_bytes, read_head, seal};
use bloom_parts::bit_vector::MAX_WORDS;

// The head of a filter with this many words and hashes, where 0 hashes count as 1, under a key.
pub(crate) fn head_for(num_words: usize, num_hashes: u32, key: &[u8; 16]) -> Head
    ensures { result ≡ head_for num_words num_hashes key.now }
{
    let [a, b, c, d, e, f, g, h, i, j, k, l, m, n, o, p] = *key;
    Head {
        num_hashes: num_hashes.max(1),
        num_words,
        k0: u64::from_le_bytes([a, b, c, d, e, f, g, h]),
        k1: u64::from_le_bytes([i, j, k, l, m, n, o, p]),
    }
}

// The sixteen bytes of a key.
pub(crate) fn key_bytes(k0: u64, k1: u64) -> [u8; 16]
    ensures low { key_low result ≡ k0 }
    ensures high { key_high result ≡ k1 }
{
    let [a, b, c, d, e, f, g, h] = k0.to_le_bytes();
    let [i, j, k, l, m, n, o, p] = k1.to_le_bytes();
    [a, b, c, d, e, f, g, h, i, j, k, l, m, n, o, p]
}

/// Writes the 64 bytes of a file's head, and returns 0.
///
/// `num_hashes` 0 counts as 1. Returns 2 for no words and 3 for more than 2^58 - 1, and then
/// changes nothing.
#[unsafe(no_mangle)]
pub extern "C" fn fastbloom_head_write(
    num_words: usize,
    num_hashes: u32,
    key: &[u8; 16],
    seal: u64,
    head: &mut [u8; 64],
) -> u8
    ensures code { result ≡ file_code_or_zero (head_words_refusal num_words) }
    ensures value { result ≡ 0
        → head.new ≡ bytes_of (head_numbers (head_for num_words num_hashes key.now) seal) }
    // A refusal changes nothing.
    ensures stays { 0 < result → head.new ≡ head.old }
{
    if num_words == 0 {
        return FileError::EmptyWords.code();
    }
    if num_words > MAX_WORDS {
        return FileError::TooManyWords.code();
    }
    *head = head_bytes(&head_for(num_words, num_hashes, key), seal);
    0
}

/// Reads what a file's head says, and its seal, which is 0 where it has none; returns 0.
///
/// Returns the number of the refusal where the bytes are no head of a file, and then changes
/// nothing.
#[unsafe(no_mangle)]
pub extern "C" fn fastbloom_head_read(
    head: &[u8; 64],
    num_words: &mut usize,
    num_hashes: &mut u32,
    key: &mut [u8; 16],
    seal: &mut u64,
) -> u8
    ensures code { result ≡ file_code_or_zero (whole_head_refusal head.now) }
    ensures words { result ≡ 0 → num_words.new ≡ number_at head.now 2 }
    ensures hashes { result ≡ 0 → num_hashes.new ≡ number_at head.now 1 }
    ensures key_low { result ≡ 0 → key_low key.new ≡ number_at head.now 3 }
    ensures key_high { result ≡ 0 → key_high key.new ≡ number_at head.now 4 }
    ensures seal { result ≡ 0 → seal.new ≡ number_at head.now 5 }
    // A refusal changes nothing.
    ensures words_stay { 0 < result → num_words.new ≡ num_words.old }
    ensures hashes_stay { 0 < result → num_hashes.new ≡ num_hashes.old }
    ensures key_stays { 0 < result → key.new ≡ key.old }
    ensures seal_stays { 0 < result → seal.new ≡ seal.old }
{
    match read_head(head) {
        Ok((read, read_seal)) => {
            *num_words = read.num_words;
            *num_hashes = read.num_hashes;
            *key = key_bytes(read.k0, read.k1);
            *seal = read_seal;
            0
        }
        Err(error) => error.code(),
    }
}

/// The seal of the file of these words, whatever their number.
///
/// `num_hashes` 0 counts as 1.
#[unsafe(no_mangle)]
pub extern "C" fn fastbloom_seal(words: &[u64], num_hashes: u32, key: &[u8; 16]) -> u64
    ensures { result ≡ seal_of (head_for (length words.now) num_hashes key.now) words.now }
{
    seal(&head_for(words.len(), num_hashes, key), words)
}
