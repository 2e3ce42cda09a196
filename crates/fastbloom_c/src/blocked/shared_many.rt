//! Calls on many hashes, on a blocked filter that threads share.
ghost use Rattle.std.specs.Prelude.{◌≡◌, ◌↔◌, ◌*◌, ◌≤◌, false, IsTrue, length, max};
ghost use Rattle.bloom_blocked.specs.LineSteps.{WereSetInLines};
ghost use Rattle.fastbloom_c.specs.BlockedShared.{TellsLooksInLines, TellsSetsInLines};
ghost use Rattle.fastbloom_c.specs.Passed.{MakeLines, vector_of};

use super::many::have_room;
use crate::lent::LentWords;
use crate::passed_words::{PassedWords, RawWords};
use bloom_blocked::line::{insert_hashes, look_up_in_line, set_in_turn};
use bloom_parts::bit_vector::Turn;
use bloom_parts::slices::clear;
use bloom_parts::slices::many::turn_on_where;

/// Inserts each of these hashes, in order, and returns whether there is a line.
///
/// Where the words are one mebibyte or more, the ends of the lines of 64 hashes are loaded before
/// the first is inserted.
#[unsafe(no_mangle)]
pub extern "C" fn fastbloom_blocked_shared_insert_hashes(
    words: PassedWords,
    num_hashes: u32,
    hashes: &[u64],
) -> bool
    ensures done { IsTrue result ↔ MakeLines words.len }
    ensures made { IsTrue result
        → WereSetInLines (vector_of words.at words.len) (max 1 num_hashes) hashes.now }
{
    let Some(words) = words.lines() else {
        return false;
    };
    let lent = LentWords::new(&words);
    let num_hashes = num_hashes.max(1);
    insert_hashes(&lent, num_hashes, hashes);
    true
}

// Looks up each of these hashes, and sets bit i where hash i was found, and no other.
fn find_each(words: &RawWords, num_hashes: u32, hashes: &[u64], found: &mut [u64])
    requires filter { MakeLines words.now.len }
    requires hashes { 1 ≤ num_hashes }
    requires room { length hashes.now ≤ 64 * length found.old }
    ensures found { TellsLooksInLines (vector_of words.now.at words.now.len) num_hashes hashes.now
        found.new }
    ensures shape { length found.new ≡ length found.old }
{
    clear(found);
    let mut i: usize = 0;
    'looks: for hash in hashes {
        turn_on_where(
            look_up_in_line(&LentWords::new(words), num_hashes, *hash),
            found,
            i,
        );
        i += 1;
    }
}

/// Looks up each of these hashes, and returns whether it did: whether there is a line, and 64
/// hashes or fewer for each word of `found`.
///
/// Bit i of `found` is set where all positions of hash i were found set. Every other bit is
/// cleared.
#[unsafe(no_mangle)]
pub extern "C" fn fastbloom_blocked_shared_contains_hashes(
    words: PassedWords,
    num_hashes: u32,
    hashes: &[u64],
    found: &mut [u64],
) -> bool
    ensures done { IsTrue result
        ↔ (MakeLines words.len × (length hashes.now ≤ 64 * length found.old)) }
    ensures found { IsTrue result → TellsLooksInLines (vector_of words.at words.len)
        (max 1 num_hashes) hashes.now found.new }
    ensures stays { result ≡ false → found.new ≡ found.old }
    ensures shape { length found.new ≡ length found.old }
{
    let Some(words) = words.lines() else {
        return false;
    };
    if !have_room(words.len(), hashes.len(), found.len()) {
        return false;
    }
    find_each(&words, num_hashes.max(1), hashes, found);
    true
}

// Inserts each of these hashes, in order, and sets bit i where the insert of hash i found a bit
// clear, and no other.
fn insert_each_telling(words: &RawWords, num_hashes: u32, hashes: &[u64], fresh: &mut [u64])
    requires filter { MakeLines words.now.len }
    requires room { length hashes.now ≤ 64 * length fresh.old }
    ensures fresh { TellsSetsInLines (vector_of words.now.at words.now.len) num_hashes hashes.now
        fresh.new }
    ensures shape { length fresh.new ≡ length fresh.old }
{
    clear(fresh);
    let mut turn = Turn::first();
    let mut i: usize = 0;
    'hashes: for hash in hashes {
        let was_set = set_in_turn(&LentWords::new(words), &mut turn, num_hashes, *hash);
        turn_on_where(!was_set, fresh, i);
        i += 1;
    }
}

/// Inserts each of these hashes, in order, and returns whether it did: whether there is a line, and
/// 64 hashes or fewer for each word of `fresh`.
///
/// Bit i of `fresh` is set where the insert of hash i set a bit itself. Every other bit is cleared.
#[unsafe(no_mangle)]
pub extern "C" fn fastbloom_blocked_shared_insert_hashes_tell_new(
    words: PassedWords,
    num_hashes: u32,
    hashes: &[u64],
    fresh: &mut [u64],
) -> bool
    ensures done { IsTrue result
        ↔ (MakeLines words.len × (length hashes.now ≤ 64 * length fresh.old)) }
    ensures fresh { IsTrue result → TellsSetsInLines (vector_of words.at words.len)
        (max 1 num_hashes) hashes.now fresh.new }
    ensures stays { result ≡ false → fresh.new ≡ fresh.old }
    ensures shape { length fresh.new ≡ length fresh.old }
{
    let Some(words) = words.lines() else {
        return false;
    };
    if !have_room(words.len(), hashes.len(), fresh.len()) {
        return false;
    }
    insert_each_telling(&words, num_hashes.max(1), hashes, fresh);
    true
}
