//! The head of a file, and its seal.
ghost use Rattle.std.specs.Prelude.{◌≡◌, ◌≤◌, ◌<◌, ◌^◌, ◌&&◌, not, length, None, IfOk};
ghost use Rattle.std.specs.Result.{result_err};
ghost use Rattle.bloom_parts.specs.Hashed.{Hashed};
ghost use Rattle.bloom_files.specs.declared.layout.Layout.{Layout as ALayout};
ghost use Rattle.bloom_files.specs.File.{bytes_of, head_numbers, seal_of};
ghost use Rattle.bloom_files.specs.FileLayouts.{head_refusal_in, layout_refusal, blocked_refusal, numbers_in, right_seal, right_seal_in, sealed_bytes};
ghost use Rattle.bloom_files.specs.FileRefusals.{has_layout, head_refusal, whole_head_refusal, reserved_refusal, head_in, number_at, has_number, is_hash_count, wrong_seal};

use crate::error::FileError;
use crate::layout::Layout;
use crate::numbers::{number_at, put_numbers};
use bloom_parts::bit_vector::MAX_WORDS;
use bloom_parts::hasher::RandomDefaultHasher;
use std::hash::Hasher;

/// What the head of a file says of its filter.
#[derive(Clone, Copy, Debug, PartialEq, Eq)]
pub struct Head {
    /// The number of hashes.
    pub num_hashes: u32,
    /// The number of words.
    pub num_words: usize,
    /// The first little-endian word of the key.
    pub k0: u64,
    /// The second little-endian word of the key.
    pub k1: u64,
}

// How many bytes a head has.
pub(crate) const HEAD: usize = 64;

// The number of the bytes `fbloom`, 0 and `1`.
const MARK: u64 = 0x3100_6d6f_6f6c_6266;

/// The 64 bytes of a head with a seal, of words that lie so.
pub fn head_bytes_in(layout: Layout, head: &Head, seal: u64) -> [u8; 64]
    ensures { result ≡ bytes_of (numbers_in layout head.now seal) }
{
    let numbers = [
        MARK,
        u64::from(head.num_hashes),
        head.num_words as u64,
        head.k0,
        head.k1,
        seal,
        layout.number(),
        0,
    ];
    let mut bytes = [0u8; 64];
    put_numbers(&mut bytes, &numbers);
    bytes
}

/// The 64 bytes of a head with a seal, of a filter that isn't blocked.
pub fn head_bytes(head: &Head, seal: u64) -> [u8; 64]
    ensures { result ≡ bytes_of (head_numbers head.now seal) }
{
    head_bytes_in(Layout::Whole, head, seal)
}

// A hasher that has taken in what a seal covers of a head.
pub(crate) fn begin_seal(layout: Layout, head: &[u8]) -> RandomDefaultHasher
    requires { 64 ≤ length head.now }
    ensures { Hashed result 0 0 (sealed_bytes layout head.now) }
{
    let mut hasher = RandomDefaultHasher::default();
    hasher.write(&head[..40]);
    match layout {
        Layout::Whole => hasher,
        Layout::Lines => {
            hasher.write(&head[48..56]);
            hasher
        }
    }
}

/// The seal of a head and words that lie so: SipHash-1-3 of the first forty bytes of the head, of
/// lines also those of the layout, and of the words, under the key of zeros.
pub fn right_seal(layout: Layout, head: &Head, words: &[u64]) -> u64
    ensures { result ≡ right_seal layout head.now words.now }
{
    let bytes = head_bytes_in(layout, head, 0);
    let mut hasher = begin_seal(layout, &bytes);
    'words: for word in words {
        hasher.write_u64(*word);
    }
    hasher.finish()
}

/// The seal of a head and words, of a filter that isn't blocked: SipHash-1-3 of the first forty
/// bytes of the head and of the words, under the key of zeros.
pub fn seal(head: &Head, words: &[u64]) -> u64
    ensures { result ≡ seal_of head.now words.now }
{
    right_seal(Layout::Whole, head, words)
}

// The seal that a file must have, unless it has none.
pub(crate) fn right_seal_in(layout: Layout, bytes: &[u8]) -> u64
    requires { 64 ≤ length bytes.now }
    ensures { result ≡ right_seal_in layout bytes.now }
{
    let mut hasher = begin_seal(layout, bytes);
    hasher.write(&bytes[HEAD..]);
    hasher.finish()
}

// Whether a file tells a number of hashes that no filter has.
fn has_no_hash_count(bytes: &[u8], hashes: u64) -> bool
    ensures { result ≡ (has_number bytes.now 1 && not (is_hash_count hashes)) }
{
    bytes.len() >= 16 && (hashes == 0 || hashes >= 1 << 32)
}

// Refuses a seal that is another than the right one, unless it is 0.
pub(crate) fn check_seal(found: u64, right: u64) -> Result<(), FileError>
    ensures { result_err result ≡ wrong_seal found right }
{
    if found == 0 || found == right {
        Ok(())
    } else {
        Err(FileError::Seal)
    }
}

// Refuses the first numbers of a file, as far as they are there.
pub(crate) fn check_head(bytes: &[u8]) -> Result<(), FileError>
    ensures { result_err result ≡ head_refusal bytes.now }
{
    let mark = number_at(bytes, 0);
    if mark % (1 << 56) != MARK % (1 << 56) {
        return Err(FileError::NotAFilter);
    }
    if mark != MARK {
        return Err(FileError::Version);
    }
    if has_no_hash_count(bytes, number_at(bytes, 1)) {
        return Err(FileError::HashCount);
    }
    let words = number_at(bytes, 2);
    if bytes.len() >= 24 && words == 0 {
        return Err(FileError::EmptyWords);
    }
    if bytes.len() >= 24 && words > MAX_WORDS as u64 {
        return Err(FileError::TooManyWords);
    }
    Ok(())
}

// What the numbers of a head say that isn't refused.
pub(crate) fn head_in(bytes: &[u8]) -> Head
    requires { head_refusal bytes.now ≡ None }
    ensures head { result ≡ head_in bytes.now }
    // The bytes of such a head, where its end isn't refused, are those that were read.
    ensures bytes { (layout : ALayout) → length bytes.now ≡ 64
        → layout_refusal layout bytes.now ≡ None
        → bytes.now ≡ bytes_of (numbers_in layout (head_in bytes.now) (number_at bytes.now 5)) }
    ensures seal { number_at bytes.now 5 < 2 ^ 64 }
{
    let _seal = number_at(bytes, 5);
    Head {
        num_hashes: number_at(bytes, 1) as u32,
        num_words: number_at(bytes, 2) as usize,
        k0: number_at(bytes, 3),
        k1: number_at(bytes, 4),
    }
}

// Whether the end of a head has the numbers of a layout.
fn has_layout(bytes: &[u8]) -> bool
    ensures { result ≡ has_layout bytes.now }
{
    number_at(bytes, 6) < 2 && number_at(bytes, 7) == 0
}

// Refuses the end of a head that isn't that of a filter without lines.
fn check_reserved(bytes: &[u8]) -> Result<(), FileError>
    ensures { result_err result ≡ reserved_refusal bytes.now }
{
    if !has_layout(bytes) {
        return Err(FileError::Reserved);
    }
    if number_at(bytes, 6) == 1 {
        return Err(FileError::Blocked);
    }
    Ok(())
}

// Refuses the end of a head that isn't that of whole lines.
fn check_lines(bytes: &[u8]) -> Result<(), FileError>
    ensures { result_err result ≡ blocked_refusal bytes.now }
{
    if !has_layout(bytes) {
        return Err(FileError::Reserved);
    }
    if number_at(bytes, 6) == 0 {
        return Err(FileError::NotBlocked);
    }
    if number_at(bytes, 2) % 8 != 0 {
        return Err(FileError::PartOfALine);
    }
    Ok(())
}

// Refuses the end of a head that isn't that of this layout.
pub(crate) fn check_layout(layout: Layout, bytes: &[u8]) -> Result<(), FileError>
    ensures { result_err result ≡ layout_refusal layout bytes.now }
{
    match layout {
        Layout::Whole => check_reserved(bytes),
        Layout::Lines => check_lines(bytes),
    }
}

/// What the head of a file says whose words lie so, and its seal, which is 0 where it has none.
///
/// # Errors
/// `NotAFilter`, `Version`, `HashCount`, `EmptyWords`, `TooManyWords` and `Reserved`; `Blocked`
/// where no lines are read, and `NotBlocked` and `PartOfALine` where lines are.
pub fn read_head_in(layout: Layout, bytes: &[u8; 64]) -> Result<(Head, u64), FileError>
    ensures head { IfOk result (λ read. read.0 ≡ head_in bytes.now) }
    ensures seal { IfOk result (λ read. read.1 ≡ number_at bytes.now 5) }
    ensures refused { result_err result ≡ head_refusal_in layout bytes.now }
{
    check_head(bytes)?;
    check_layout(layout, bytes)?;
    Ok((head_in(bytes), number_at(bytes, 5)))
}

/// What the head of a file says whose filter isn't blocked, and its seal, which is 0 where it has
/// none.
///
/// # Errors
/// `NotAFilter`, `Version`, `HashCount`, `EmptyWords`, `TooManyWords`, `Reserved` and `Blocked`.
pub fn read_head(bytes: &[u8; 64]) -> Result<(Head, u64), FileError>
    ensures head { IfOk result (λ read. read.0 ≡ head_in bytes.now) }
    ensures seal { IfOk result (λ read. read.1 ≡ number_at bytes.now 5) }
    ensures refused { result_err result ≡ whole_head_refusal bytes.now }
{
    read_head_in(Layout::Whole, bytes)
}
