//! Hashes of many items, whose bytes lie one behind the other.
ghost use Rattle.std.specs.Prelude.{◌≡◌, ◌↔◌, false, IsTrue, length};
ghost use Rattle.bloom_parts.specs.Keys.{key_low, key_high};
ghost use Rattle.fastbloom_c.specs.Items.{AreHashes, AreOffsets, num_items};

use crate::texts::fastbloom_hash;

// Whether no item ends before it begins, or past this many bytes.
pub(crate) fn are_offsets(len: usize, offsets: &[u64]) -> bool
    ensures { IsTrue result ↔ AreOffsets len offsets.now }
{
    'items: for end in 1..offsets.len() {
        if offsets[end - 1] > offsets[end] || offsets[end] > len as u64 {
            return false;
        }
    }
    true
}

// Writes the hash of each item.
fn hash_each(key: &[u8; 16], bytes: &[u8], offsets: &[u64], hashes: &mut [u64])
    requires items { AreOffsets (length bytes.now) offsets.now }
    requires room { length hashes.old ≡ num_items offsets.now }
    ensures { AreHashes (key_low key.now) (key_high key.now) bytes.now offsets.now hashes.new }
{
    'items: for item in 0..hashes.len() {
        let (begin, end) = (offsets[item] as usize, offsets[item + 1] as usize);
        hashes[item] = fastbloom_hash(key, &bytes[begin..end]);
    }
}

/// The hash of each item under a key, and whether the offsets tell items: each at least the one
/// before it, none past the bytes, and one more than there are hashes. No offsets tell no item.
///
/// Item i is the bytes from offset i up to offset i + 1, and its hash is that of `fastbloom_hash`.
#[unsafe(no_mangle)]
pub extern "C" fn fastbloom_hash_items(
    key: &[u8; 16],
    bytes: &[u8],
    offsets: &[u64],
    hashes: &mut [u64],
) -> bool
    ensures done { IsTrue result ↔ ((length hashes.old ≡ num_items offsets.now)
        × AreOffsets (length bytes.now) offsets.now) }
    ensures hashes { IsTrue result → AreHashes (key_low key.now) (key_high key.now) bytes.now
        offsets.now hashes.new }
    ensures stays { result ≡ false → hashes.new ≡ hashes.old }
    ensures shape { length hashes.new ≡ length hashes.old }
{
    if hashes.len() != offsets.len().saturating_sub(1) || !are_offsets(bytes.len(), offsets) {
        return false;
    }
    hash_each(key, bytes, offsets, hashes);
    true
}
