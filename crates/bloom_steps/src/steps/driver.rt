//! A whole call over a store: a loop for each plan, which makes the plan's steps and no others.
ghost use Rattle.std.specs.Prelude.{◌≡◌, ◌≤◌, ℕ, Some, None, if◌then◌else◌};
ghost use Rattle.bloom_steps.specs.declared.steps.vocabulary.Step.TheVariants as step;
ghost use Rattle.bloom_steps.specs.Plans.{TurnsOn, LooksAt, EachWord, EachPair};
ghost use Rattle.bloom_steps.specs.Scripts.{Drives, DrivesPlan};
ghost use Rattle.bloom_steps.specs.Steps.{word_index};

use super::store::WordStore;
use super::vocabulary::{Call, Step};
use bloom_parts::bit_vector::{is_set, next_place};
use bloom_parts::hasher::DoubleHasher;

// Sets the bit at each position of a hash, and returns whether each step found its bit set.
#[inline(always)]
fn set_each<W: WordStore>(store: &mut W, num_hashes: u32, hash: u64) -> bool
    requires hashes { 1 ≤ num_hashes }
    ensures script { DrivesPlan W.moved (W.count store.old) num_hashes (TurnsOn hash)
        store.old store.new (Some result) }
    ensures words { W.count store.new ≡ W.count store.old }
{
    let num_words = store.num_words();
    let mut chain = DoubleHasher::new(hash);
    let mut all_on = true;
    let mut left = num_hashes;
    'places: while left > 0 {
        let (word, mask) = next_place(&mut chain, num_words);
        let found = store.step(Step::Or(word, mask));
        all_on &= is_set(found, mask);
        left -= 1;
    }
    all_on
}

// Looks at each position of a hash up to the first whose bit is found clear, and returns whether
// there is none.
#[inline(always)]
fn look_at_each<W: WordStore>(store: &mut W, num_hashes: u32, hash: u64) -> bool
    requires hashes { 1 ≤ num_hashes }
    ensures script { DrivesPlan W.moved (W.count store.old) num_hashes (LooksAt hash)
        store.old store.new (Some result) }
    ensures words { W.count store.new ≡ W.count store.old }
{
    let num_words = store.num_words();
    let mut chain = DoubleHasher::new(hash);
    'places: for _place in 0..num_hashes {
        let (word, mask) = next_place(&mut chain, num_words);
        let found = store.step(Step::Load(word));
        if !is_set(found, mask) {
            return false;
        }
    }
    true
}

// The step that clears a word, and takes it out or not.
#[inline(always)]
fn clearing(takes: bool, word: usize) -> Step
    ensures value { result ≡ (if takes then step.Take else step.Zero) word }
    ensures within { word_index result ≡ word }
{
    if takes {
        Step::Take(word)
    } else {
        Step::Zero(word)
    }
}

// Clears each word, word 0 first, and takes it out or not.
#[inline(always)]
fn clear_each<W: WordStore>(store: &mut W, takes: bool)
    ensures script { (k : ℕ) → DrivesPlan W.moved (W.count store.old) k
        (EachWord (if takes then step.Take else step.Zero)) store.old store.new None }
    ensures words { W.count store.new ≡ W.count store.old }
{
    'words: for word in 0..store.num_words() {
        store.step(clearing(takes, word));
    }
}

// The step that merges the other filter's word into a word: it sets bits, or clears them.
#[inline(always)]
fn merging(sets: bool, word: usize, other: u64) -> Step
    ensures value { result ≡ (if sets then step.Or else step.And) word other }
    ensures within { word_index result ≡ word }
{
    if sets {
        Step::Or(word, other)
    } else {
        Step::And(word, other)
    }
}

// Reads each word of the other filter, word 0 first, and merges it at once.
#[inline(always)]
fn merge_each<W: WordStore>(store: &mut W, sets: bool)
    ensures script { (k : ℕ) → DrivesPlan W.moved (W.count store.old) k
        (EachPair (if sets then step.Or else step.And) sets) store.old store.new None }
    ensures words { W.count store.new ≡ W.count store.old }
{
    'words: for word in 0..store.num_words() {
        let other = store.step(Step::Other(word));
        store.step(merging(sets, word, other));
    }
}

/// Makes all steps of a call over a store, in order, and returns the call's reply.
#[inline(always)]
pub fn drive<W: WordStore>(store: &mut W, call: Call, num_hashes: u32) -> Option<bool>
    requires hashes { 1 ≤ num_hashes }
    ensures script { Drives W.moved (W.count store.old) num_hashes call store.old store.new result }
    ensures words { W.count store.new ≡ W.count store.old }
{
    match call {
        Call::Insert(hash) => return Some(set_each(store, num_hashes, hash)),
        Call::Contains(hash) => return Some(look_at_each(store, num_hashes, hash)),
        Call::Clear => clear_each(store, false),
        Call::Union => merge_each(store, true),
        Call::Intersect => merge_each(store, false),
        Call::Take => clear_each(store, true),
    }
    None
}
