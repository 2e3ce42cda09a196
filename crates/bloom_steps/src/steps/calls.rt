//! Calls on words that threads share, each made of atomic operations on single words.
ghost use Rattle.std.specs.Prelude.{◌≡◌, ◌≤◌, length, Some, None};
ghost use Rattle.bloom_steps.specs.declared.steps.vocabulary.Call.TheVariants as call;
ghost use Rattle.bloom_steps.specs.LiveSteps.{EachInTurn, MakesCallInTurn, MakesCallOn, TakesWordsOf, WasInserted, WereInserted};
ghost use Rattle.bloom_steps.specs.Loaded.{CountsLoaded, WereLoaded};

use super::driver::drive;
use super::keeping_store::KeepingStore;
use super::span_store::SpanStore;
use super::vocabulary::Call;
use bloom_parts::bit_vector::{Loads, Turn, TurnWords, next_place};
use bloom_parts::hasher::DoubleHasher;
use bloom_parts::slices::{HASHES_TOGETHER, WORDS_BEYOND_CACHE};
use std::mem;

/// Makes all steps of a call on all words, in order, from this turn on, and returns the call's
/// reply.
#[inline(always)]
fn make<W: TurnWords>(
    words: &W,
    other: &W,
    turn: &mut Turn,
    call: Call,
    num_hashes: u32,
) -> Option<bool>
    requires alike { (W.vector other.now).count ≡ (W.vector words.now).count }
    requires hashes { 1 ≤ num_hashes }
    ensures { MakesCallInTurn (W.vector words.now) (W.vector other.now) num_hashes call result
        turn.old turn.new }
{
    let first = mem::replace(turn, Turn::first());
    let mut store = SpanStore::new(words, other, 0, words.len(), first);
    let reply = drive(&mut store, call, num_hashes);
    *turn = store.into_turn();
    reply
}

/// Sets all positions of a hash, from this turn on, and returns whether its own steps found all of
/// them set already.
#[inline(always)]
pub fn insert_in_turn<W: TurnWords>(words: &W, turn: &mut Turn, num_hashes: u32, hash: u64) -> bool
    requires { 1 ≤ num_hashes }
    ensures { let vector = W.vector words.now in MakesCallInTurn vector vector num_hashes
        (call.Insert hash) (Some result) turn.old turn.new }
{
    match make(words, words, turn, Call::Insert(hash), num_hashes) {
        Some(all_on) => all_on,
        None => unreachable!(),
    }
}

/// Sets all positions of a hash, and returns whether its own steps found all of them set already.
#[inline(always)]
pub fn insert_hash<W: TurnWords>(words: &W, num_hashes: u32, hash: u64) -> bool
    requires { 1 ≤ num_hashes }
    ensures { let vector = W.vector words.now in
        MakesCallOn vector vector num_hashes (call.Insert hash) (Some result) }
{
    insert_in_turn(words, &mut Turn::first(), num_hashes, hash)
}

/// Whether all positions of a hash were found set, one after the other, up to the first that isn't.
#[inline(always)]
pub fn contains_hash<W: TurnWords>(words: &W, num_hashes: u32, hash: u64) -> bool
    requires { 1 ≤ num_hashes }
    ensures { let vector = W.vector words.now in
        MakesCallOn vector vector num_hashes (call.Contains hash) (Some result) }
{
    match make(
        words,
        words,
        &mut Turn::first(),
        Call::Contains(hash),
        num_hashes,
    ) {
        Some(all_on) => all_on,
        None => unreachable!(),
    }
}

// Loads the words of a hash. Nothing depends on what they hold, so no load waits for another.
#[inline(always)]
fn touch<W: TurnWords>(words: &Loads<'_, W>, num_hashes: u32, hash: u64) {
    let num_words = words.len();
    let mut chain = DoubleHasher::new(hash);
    'places: for _place in 0..num_hashes {
        let (word, _mask) = next_place(&mut chain, num_words);
        words.load(word);
    }
}

// Inserts each of these hashes, in order, from this turn on.
#[inline(always)]
fn insert_each<W: TurnWords>(words: &W, turn: &mut Turn, num_hashes: u32, hashes: &[u64])
    requires { 1 ≤ num_hashes }
    ensures { EachInTurn (WasInserted (W.vector words.now) num_hashes) hashes.now
        turn.old turn.new }
{
    'hashes: for hash in hashes {
        insert_in_turn(words, turn, num_hashes, *hash);
    }
}

/// Loads the words of each of these hashes, so that memory fetches them side by side, and then
/// inserts the hashes, in order, from this turn on.
#[inline(always)]
pub fn load_then_insert<W: TurnWords>(words: &W, turn: &mut Turn, num_hashes: u32, hashes: &[u64])
    requires { 1 ≤ num_hashes }
    ensures { EachInTurn (WasInserted (W.vector words.now) num_hashes) hashes.now
        turn.old turn.new }
{
    'touches: for hash in hashes {
        touch(&Loads::of(words), num_hashes, *hash);
    }
    insert_each(words, turn, num_hashes, hashes);
}

// Inserts each of these hashes, in order, sixteen at a time: their words are loaded first.
#[inline(always)]
fn insert_together<W: TurnWords>(words: &W, turn: &mut Turn, num_hashes: u32, hashes: &[u64])
    requires { 1 ≤ num_hashes }
    ensures { EachInTurn (WasInserted (W.vector words.now) num_hashes) hashes.now
        turn.old turn.new }
{
    let parts = hashes.len() / HASHES_TOGETHER;
    'parts: for part in 0..parts {
        let at = HASHES_TOGETHER * part;
        load_then_insert(words, turn, num_hashes, &hashes[at..at + HASHES_TOGETHER]);
    }
    insert_each(words, turn, num_hashes, &hashes[HASHES_TOGETHER * parts..]);
}

/// Inserts each of these hashes, in order. Where the words are larger than a cache, those of
/// sixteen hashes are loaded before the first is inserted.
#[inline(always)]
pub fn insert_hashes<W: TurnWords>(words: &W, num_hashes: u32, hashes: &[u64])
    requires { 1 ≤ num_hashes }
    ensures { WereInserted (W.vector words.now) num_hashes hashes.now }
{
    let mut turn = Turn::first();
    if words.len() >= WORDS_BEYOND_CACHE {
        insert_together(words, &mut turn, num_hashes, hashes);
    } else {
        insert_each(words, &mut turn, num_hashes, hashes);
    }
}

/// Clears every position, one word after the other.
#[inline]
pub fn clear<W: TurnWords>(words: &W, num_hashes: u32)
    requires { 1 ≤ num_hashes }
    ensures { let vector = W.vector words.now in
        MakesCallOn vector vector num_hashes call.Clear None }
{
    make(words, words, &mut Turn::first(), Call::Clear, num_hashes);
}

/// Sets what is found set in the other words, one word after the other.
#[inline]
pub fn union<W: TurnWords>(words: &W, other: &W, num_hashes: u32)
    requires alike { (W.vector other.now).count ≡ (W.vector words.now).count }
    requires hashes { 1 ≤ num_hashes }
    ensures { MakesCallOn (W.vector words.now) (W.vector other.now) num_hashes call.Union None }
{
    make(words, other, &mut Turn::first(), Call::Union, num_hashes);
}

/// Clears what is found clear in the other words, one word after the other.
#[inline]
pub fn intersect<W: TurnWords>(words: &W, other: &W, num_hashes: u32)
    requires alike { (W.vector other.now).count ≡ (W.vector words.now).count }
    requires hashes { 1 ≤ num_hashes }
    ensures { MakesCallOn (W.vector words.now) (W.vector other.now) num_hashes call.Intersect
        None }
{
    make(
        words,
        other,
        &mut Turn::first(),
        Call::Intersect,
        num_hashes,
    );
}

/// Takes the words out, word 0 first, each into the number with its index. Each word is read and
/// cleared by one operation, so no bit that another thread sets meanwhile is lost. It is either
/// taken or still there.
#[inline]
pub fn take_into<W: TurnWords>(words: &W, num_hashes: u32, taken: &mut [u64])
    requires { length taken.old ≡ (W.vector words.now).count }
    ensures taken { TakesWordsOf (W.vector words.now) num_hashes taken.new }
    ensures shape { length taken.new ≡ length taken.old }
{
    let mut store = KeepingStore {
        words: SpanStore::new(words, words, 0, words.len(), Turn::first()),
        kept: taken,
    };
    // A take makes the same steps whatever the number of hashes, which may be 0.
    drive(&mut store, Call::Take, 1);
    let KeepingStore { words: _, kept } = store;
    // This does nothing. The proof reads from it what `taken` holds.
    let _ = &*kept;
}

/// Loads the words, word 0 first, each into the number with its index.
#[inline]
pub fn load_into<W: TurnWords>(words: &W, loaded: &mut [u64])
    requires { length loaded.old ≡ (W.vector words.now).count }
    ensures loaded { WereLoaded (W.vector words.now) loaded.new }
    ensures shape { length loaded.new ≡ length loaded.old }
{
    'words: for word in 0..words.len() {
        loaded[word] = words.load(word);
    }
}

/// The number of bits that are set, of the words as they were loaded.
#[inline]
pub fn count_ones<W: TurnWords>(words: &W) -> usize
    ensures { CountsLoaded (W.vector words.now) result }
{
    let mut count: usize = 0;
    'words: for word in 0..words.len() {
        let found = words.load(word);
        count += found.count_ones() as usize;
    }
    count
}
