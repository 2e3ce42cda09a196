//! Files as bytes in memory: a head and words.
ghost use Rattle.std.specs.Prelude.{◌≡◌, ◌+◌, ◌*◌, ◌≤◌, ◌++◌, None, length, IfOk, OnOk, IsOkUnless};
ghost use Rattle.std.specs.Result.{result_err};
ghost use Rattle.bloom_files.specs.File.{bytes_of};
ghost use Rattle.bloom_files.specs.FileLayouts.{AreWhole, IsFileIn, IsRefusedIn, refusal_in, seal_refusal_in, sealed_file};
ghost use Rattle.bloom_files.specs.FileRefusals.{head_refusal, length_refusal};
ghost use Rattle.bloom_plain.specs.Filter.{IsShape};

use crate::error::FileError;
use crate::head::{
    HEAD, Head, check_head, check_layout, check_seal, head_bytes_in, head_in, right_seal,
    right_seal_in,
};
use crate::layout::Layout;
use crate::numbers::{number_at, push_numbers};
use bloom_parts::error::FilterError;
use std::alloc::{AllocError, Global};

// Refuses a file of another size than its head tells.
fn check_size(bytes: &[u8]) -> Result<(), FileError>
    requires { head_refusal bytes.now ≡ None }
    ensures { result_err result ≡ length_refusal bytes.now }
{
    let size = HEAD + 8 * number_at(bytes, 2) as usize;
    if bytes.len() < size {
        return Err(FileError::Cut);
    }
    if bytes.len() > size {
        return Err(FileError::TooLong);
    }
    Ok(())
}

// Refuses a file with another seal than that of its bytes, unless it has none.
fn check_own_seal(layout: Layout, bytes: &[u8]) -> Result<(), FileError>
    requires { 64 ≤ length bytes.now }
    ensures { result_err result ≡ seal_refusal_in layout bytes.now }
{
    let seal = number_at(bytes, 5);
    if seal == 0 {
        return Ok(());
    }
    check_seal(seal, right_seal_in(layout, bytes))
}

// Refuses bytes that are no file of a filter whose words lie so.
fn check_file(layout: Layout, bytes: &[u8]) -> Result<(), FileError>
    ensures { result_err result ≡ refusal_in layout bytes.now }
{
    check_head(bytes)?;
    check_size(bytes)?;
    check_layout(layout, bytes)?;
    check_own_seal(layout, bytes)
}

// Appends the bytes of words.
#[tactic(auto, unfolding(crate::specs::File::bytes_of))]
fn append_words(bytes: &mut Vec<u8>, words: &[u64]) -> Result<(), AllocError>
    ensures { OnOk result (bytes.new.items ≡ bytes.old.items ++ bytes_of words.now) }
{
    'words: for word in words {
        bytes.extend_from_slice(&u64::to_le_bytes(*word))?;
    }
    Ok(())
}

/// The file of a head and words that lie so, with the right seal.
///
/// # Errors
/// `Memory` where there is no room for it.
pub fn parts_to_bytes(
    alloc: Global,
    layout: Layout,
    head: &Head,
    words: &[u64],
) -> Result<Vec<u8>, FilterError>
    requires count { length words.now ≡ head.now.num_words }
    requires shape { IsShape (length words.now) head.now.num_hashes }
    requires whole { AreWhole layout (length words.now) }
    ensures value { IfOk result (λ bytes. bytes.items ≡ sealed_file layout head.now words.now) }
    ensures file { IfOk result (λ bytes. IsFileIn layout bytes.items head.now words.now) }
    ensures refused { IsOkUnless result FilterError.Memory }
{
    let mut bytes = Vec::with_capacity(alloc, HEAD + 8 * words.len())?;
    let seal = right_seal(layout, head, words);
    bytes.extend_from_slice(&head_bytes_in(layout, head, seal))?;
    append_words(&mut bytes, words)?;
    Ok(bytes)
}

/// The head and the words of a file whose words lie so.
///
/// # Errors
/// The first reason for which the bytes are no such file, in the order of the variants of
/// `FileError`. `Memory` comes only where there is no such reason.
pub fn parts_from_bytes(
    alloc: Global,
    layout: Layout,
    bytes: &[u8],
) -> Result<(Head, Vec<u64>), FileError>
    ensures file { IfOk result (λ parts. IsFileIn layout bytes.now parts.0 parts.1.items) }
    ensures refused { IsRefusedIn layout bytes.now (result_err result) }
{
    check_file(layout, bytes)?;
    let (start, others) = bytes.split_at(HEAD);
    let head = head_in(start);
    let mut words = Vec::with_capacity(alloc, head.num_words)?;
    push_numbers(&mut words, others);
    Ok((head, words))
}
