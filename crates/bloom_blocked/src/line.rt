//! Calls by hash on the line of a hash, among words that threads share, wherever they lie.
ghost use Rattle.std.specs.Prelude.{◌≡◌, ℕ, ◌≤◌, length};
ghost use Rattle.bloom_parts.specs.Content.{content, AreWords};
ghost use Rattle.bloom_parts.specs.Places.{positions};
ghost use Rattle.bloom_steps.specs.LiveSteps.{EachInTurn};
ghost use Rattle.bloom_blocked.specs.Lines.{inner_of};
ghost use Rattle.bloom_blocked.specs.LineSteps.{LooksInLine, SetsInLine, SetsInTurn, WasSetInLine, WereSetInLines};

use crate::by_hash::{LINE, inner, line_start};
use crate::many::{LINES_TOGETHER, WORDS_TO_READ_AHEAD};
use bloom_parts::bit_vector::{Loads, Turn, TurnWords};
use bloom_parts::slices::{insert_in_few_words, with_range};
use bloom_steps::{Call, SpanStore, drive, set_masks};
use std::mem;

// The words of a line where the positions of a hash are set, and no other.
#[inline(always)]
fn masks_of(num_hashes: u32, hash: u64) -> [u64; LINE]
    ensures bits { (q : ℕ) → content result q ≡ positions 512 num_hashes (inner_of hash) q }
    ensures shape { length result ≡ 8 }
    ensures range { AreWords result }
{
    let mut masks = [0; LINE];
    insert_in_few_words(&mut masks, num_hashes, inner(hash));
    let _words = with_range(&masks);
    masks
}

/// Sets all positions of a hash in its line, from this turn on, and returns whether its own steps
/// found all of them set already. It makes one step for each word that has positions.
#[inline(always)]
pub fn set_in_turn<W: TurnWords>(words: &W, turn: &mut Turn, num_hashes: u32, hash: u64) -> bool
    requires { 8 ≤ (W.vector words.now).count }
    ensures { SetsInTurn (W.vector words.now) num_hashes hash result turn.old turn.new }
{
    let masks = masks_of(num_hashes, hash);
    let first = mem::replace(turn, Turn::first());
    let mut store = SpanStore::new(words, words, line_start(words.len(), hash), LINE, first);
    let all_set = set_masks(&mut store, &masks);
    *turn = store.into_turn();
    all_set
}

/// Sets all positions of a hash in its line, and returns whether its own steps found all of them
/// set already. It makes one step for each word that has positions.
#[inline(always)]
pub fn set_in_line<W: TurnWords>(words: &W, num_hashes: u32, hash: u64) -> bool
    requires { 8 ≤ (W.vector words.now).count }
    ensures { SetsInLine (W.vector words.now) num_hashes hash result }
{
    set_in_turn(words, &mut Turn::first(), num_hashes, hash)
}

/// Whether all positions of a hash are found set in its line, one after the other, up to the first
/// that isn't.
#[inline(always)]
pub fn look_up_in_line<W: TurnWords>(words: &W, num_hashes: u32, hash: u64) -> bool
    requires words { 8 ≤ (W.vector words.now).count }
    requires hashes { 1 ≤ num_hashes }
    ensures { LooksInLine (W.vector words.now) num_hashes hash result }
{
    let start = line_start(words.len(), hash);
    let mut store = SpanStore::new(words, words, start, LINE, Turn::first());
    match drive(&mut store, Call::Contains(inner(hash)), num_hashes) {
        Some(all_set) => all_set,
        None => unreachable!(),
    }
}

// Loads the first and the last word of the line of each of these hashes. Nothing depends on what
// they hold, so no load waits for another.
#[inline(always)]
fn touch_lines<W: TurnWords>(words: &Loads<'_, W>, hashes: &[u64])
    requires { 8 ≤ words.now.count }
{
    'touches: for hash in hashes {
        let at = line_start(words.len(), *hash);
        words.load(at);
        words.load(at + (LINE - 1));
    }
}

// Inserts each of these hashes, in order, from this turn on.
#[inline(always)]
fn insert_each<W: TurnWords>(words: &W, turn: &mut Turn, num_hashes: u32, hashes: &[u64])
    requires { 8 ≤ (W.vector words.now).count }
    ensures { EachInTurn (WasSetInLine (W.vector words.now) num_hashes) hashes.now
        turn.old turn.new }
{
    'hashes: for hash in hashes {
        set_in_turn(words, turn, num_hashes, *hash);
    }
}

/// Loads the ends of the lines of each of these hashes, so that memory fetches them side by side,
/// and then inserts the hashes, in order, from this turn on.
#[inline(always)]
pub fn load_then_insert<W: TurnWords>(words: &W, turn: &mut Turn, num_hashes: u32, hashes: &[u64])
    requires { 8 ≤ (W.vector words.now).count }
    ensures { EachInTurn (WasSetInLine (W.vector words.now) num_hashes) hashes.now
        turn.old turn.new }
{
    touch_lines(&Loads::of(words), hashes);
    insert_each(words, turn, num_hashes, hashes);
}

// Inserts each of these hashes, in order, 64 at a time: the ends of their lines are loaded first,
// if the words are one mebibyte or more. The inserts stand in one loop, so that the compiler can
// have its code in the caller, which keeps the words' address and number in registers.
#[inline(always)]
fn insert_together<W: TurnWords>(words: &W, turn: &mut Turn, num_hashes: u32, hashes: &[u64])
    requires { 8 ≤ (W.vector words.now).count }
    ensures { EachInTurn (WasSetInLine (W.vector words.now) num_hashes) hashes.now
        turn.old turn.new }
{
    let reads_ahead = words.len() >= WORDS_TO_READ_AHEAD;
    let mut rest = hashes;
    'parts: while rest.len() > 0 {
        let (part, others) = rest.split_at(rest.len().min(LINES_TOGETHER));
        if reads_ahead {
            touch_lines(&Loads::of(words), part);
        }
        insert_each(words, turn, num_hashes, part);
        rest = others;
    }
}

/// Inserts each of these hashes, in order. Where the words are one mebibyte or more, the ends of
/// the lines of 64 hashes are loaded before the first is inserted.
#[inline(always)]
pub fn insert_hashes<W: TurnWords>(words: &W, num_hashes: u32, hashes: &[u64])
    requires { 8 ≤ (W.vector words.now).count }
    ensures { WereSetInLines (W.vector words.now) num_hashes hashes.now }
{
    insert_together(words, &mut Turn::first(), num_hashes, hashes);
}
