//! The calls by hash of blocked filters, over words that write down every operation.
use super::Scene;
use super::reading::Reading;
use bloom_blocked::by_hash::{inner, line_start};
use bloom_blocked::line;
use bloom_blocked::rates::false_pos_of_shared_lines;
use bloom_parts::bit_vector::{Turn, TurnWords};
use bloom_steps::{Call, Machine, Step};

// The bits of a hash in the words of its line, which the steps of its insert set.
fn masks_of(num_hashes: u32, hash: u64) -> [u64; 8] {
    let mut masks = [0; 8];
    let mut machine = Machine::new(Call::Insert(inner(hash)), 8, num_hashes.max(1));
    for _ in 0..num_hashes {
        if let Some(Step::Or(word, mask)) = machine.ask() {
            masks[word % 8] |= mask;
            machine.reply(0);
        }
    }
    masks
}

// Whether the next operations set the positions of a hash, by one step for each word that has some.
fn has_insert(reading: &mut Reading<'_>, num_words: usize, num_hashes: u32, hash: u64) -> bool {
    let start = if num_words < 8 {
        0
    } else {
        line_start(num_words, hash)
    };
    let mut all = true;
    for (i, mask) in masks_of(num_hashes, hash).iter().enumerate() {
        if *mask != 0 {
            all &= reading.has_step(Step::Or(start.wrapping_add(i), *mask));
        }
    }
    all
}

// Whether the next operations load the first and the last word of the line of a hash, in no turn.
fn has_ends(reading: &mut Reading<'_>, num_words: usize, hash: u64) -> bool {
    let start = if num_words < 8 {
        0
    } else {
        line_start(num_words, hash)
    };
    reading.has_load(start) & reading.has_load(start.wrapping_add(7))
}

// Whether all that was written down are inserts of these hashes, 64 at a time, perhaps with loads
// ahead of each 64.
fn has_inserts(scene: &Scene<'_>, reads_ahead: bool, hashes: &[u64]) -> bool {
    let num_words = scene.words.len();
    let mut reading = Reading::of(scene.log);
    let mut all = true;
    for part in hashes.chunks(64) {
        for hash in part {
            if reads_ahead {
                all &= has_ends(&mut reading, num_words, *hash);
            }
        }
        for hash in part {
            all &= has_insert(&mut reading, num_words, scene.num_hashes, *hash);
        }
    }
    all & reading.is_done()
}

// Whether all that was written down are the steps of a look-up in the line of a hash.
fn has_look_up(scene: &Scene<'_>, start: usize, hash: u64, found: bool) -> bool {
    let mut machine = Machine::new(Call::Contains(inner(hash)), 8, scene.num_hashes.max(1));
    let mut reading = Reading::of(scene.log);
    let has_steps = reading.has_call(start, &mut machine);
    has_steps & reading.is_done() & (machine.answer() == Some(found))
}

/// Whether a hash is looked up and inserted by its scripts, if there is a line.
pub(super) fn has_one(scene: &Scene<'_>, hash: u64) -> bool {
    if scene.words.len() < 8 {
        return true;
    }
    let start = line_start(scene.words.len(), hash);
    scene.log.begin();
    let found = line::look_up_in_line(&scene.words, scene.num_hashes.max(1), hash);
    let is_sought = has_look_up(scene, start, hash, found);
    scene.log.begin();
    line::set_in_line(&scene.words, scene.num_hashes, hash);
    let is_new = has_inserts(scene, false, &[hash]);
    scene.log.begin();
    let found = line::look_up_in_line(&scene.words, scene.num_hashes.max(1), hash);
    is_sought & is_new & found & has_look_up(scene, start, hash, true)
}

/// Whether the bounds of the rate load each word once, but for those behind the last line.
pub(super) fn has_rate(scene: &Scene<'_>) -> bool {
    if scene.words.len() < 8 {
        return true;
    }
    scene.log.begin();
    false_pos_of_shared_lines(&scene.words, scene.num_hashes);
    let mut reading = Reading::of(scene.log);
    let mut all = true;
    for word in 0..scene.words.len() / 8 * 8 {
        all &= reading.has_load(word);
    }
    all & reading.is_done()
}

/// Whether the calls of blocked filters make their scripts, if there is a line. From 2^17 words
/// on, which are one mebibyte, the ends of the lines of 64 hashes are loaded ahead.
pub(super) fn has_calls(scene: &Scene<'_>, hashes: &[u64]) -> bool {
    if scene.words.len() < 8 {
        return true;
    }
    scene.log.begin();
    line::insert_hashes(&scene.words, scene.num_hashes, hashes);
    let mut all = has_inserts(scene, scene.words.len() >= 1 << 17, hashes);
    for part in hashes.chunks(64) {
        scene.log.begin();
        line::load_then_insert(&scene.words, &mut Turn::first(), scene.num_hashes, part);
        all &= has_inserts(scene, true, part);
    }
    all
}
