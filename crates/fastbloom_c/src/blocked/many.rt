//! Calls on many hashes and a blocked filter, which may tell of each by a bit set that the caller
//! owns.
ghost use Rattle.std.specs.Prelude.{◌≡◌, ◌↔◌, ℕ, ◌*◌, ◌/◌, ◌≤◌, ◌||◌, false, IsTrue, length, max};
ghost use Rattle.bloom_parts.specs.Content.{content};
ghost use Rattle.bloom_blocked.specs.Many.{positions_in_lines, TellsFoundInLines, TellsNewInLines};

use bloom_blocked::by_hash::LINE;
use bloom_blocked::many;

/// Sets all positions of each of these hashes, and returns whether it did: whether there is a line.
#[unsafe(no_mangle)]
pub extern "C" fn fastbloom_blocked_insert_hashes(
    words: &mut [u64],
    num_hashes: u32,
    hashes: &[u64],
) -> bool
    ensures done { IsTrue result ↔ (8 ≤ length words.old) }
    ensures content { IsTrue result → (p : ℕ) → content words.new p ≡ (content words.old p
        || positions_in_lines (length words.old / 8) (max 1 num_hashes) hashes.now p) }
    ensures stays { result ≡ false → words.new ≡ words.old }
    ensures shape { length words.new ≡ length words.old }
{
    if words.len() < LINE {
        return false;
    }
    many::insert_hashes(words, num_hashes.max(1), hashes);
    true
}

// Whether there is a line, and bits enough for these hashes.
pub(crate) fn have_room(words: usize, hashes: usize, bits: usize) -> bool
    ensures { IsTrue result ↔ ((8 ≤ words) × (hashes ≤ 64 * bits)) }
{
    words >= LINE && hashes.div_ceil(64) <= bits
}

/// Looks up each of these hashes, and returns whether it did: whether there is a line, and 64
/// hashes or fewer for each word of `found`.
///
/// Bit i of `found` is set where all positions of hash i are set. Every other bit is cleared.
#[unsafe(no_mangle)]
pub extern "C" fn fastbloom_blocked_contains_hashes(
    words: &[u64],
    num_hashes: u32,
    hashes: &[u64],
    found: &mut [u64],
) -> bool
    ensures done { IsTrue result
        ↔ ((8 ≤ length words.now) × (length hashes.now ≤ 64 * length found.old)) }
    ensures found { IsTrue result → TellsFoundInLines (length words.now / 8) (max 1 num_hashes)
        (content words.now) hashes.now found.new }
    ensures stays { result ≡ false → found.new ≡ found.old }
    ensures shape { length found.new ≡ length found.old }
{
    if !have_room(words.len(), hashes.len(), found.len()) {
        return false;
    }
    many::contains_hashes(words, num_hashes.max(1), hashes, found);
    true
}

/// Sets all positions of each of these hashes, one after the other, and returns whether it did:
/// whether there is a line, and 64 hashes or fewer for each word of `fresh`.
///
/// Bit i of `fresh` is set where not all positions of hash i were set just before its insert. So a
/// hash that comes twice is new once at most. Every other bit is cleared.
#[unsafe(no_mangle)]
pub extern "C" fn fastbloom_blocked_insert_hashes_tell_new(
    words: &mut [u64],
    num_hashes: u32,
    hashes: &[u64],
    fresh: &mut [u64],
) -> bool
    ensures done { IsTrue result
        ↔ ((8 ≤ length words.old) × (length hashes.now ≤ 64 * length fresh.old)) }
    ensures fresh { IsTrue result → TellsNewInLines (length words.old / 8) (max 1 num_hashes)
        (content words.old) hashes.now fresh.new }
    ensures content { IsTrue result → (p : ℕ) → content words.new p ≡ (content words.old p
        || positions_in_lines (length words.old / 8) (max 1 num_hashes) hashes.now p) }
    ensures words_stay { result ≡ false → words.new ≡ words.old }
    ensures fresh_stay { result ≡ false → fresh.new ≡ fresh.old }
    ensures words_shape { length words.new ≡ length words.old }
    ensures fresh_shape { length fresh.new ≡ length fresh.old }
{
    if !have_room(words.len(), hashes.len(), fresh.len()) {
        return false;
    }
    many::insert_hashes_tell_new(words, num_hashes.max(1), hashes, fresh);
    true
}
