//! Each call on words that threads share, over words that write down every operation: the whole
//! list is the call's script, which a machine gives, and no operation stands beside it.
ghost use Rattle.std.specs.Prelude.{◌≡◌};

mod in_lines;
mod log;
mod reading;

use crate::drawn::spread_from;
use crate::row_reports::tell_row;
use bloom_parts::bit_vector::{AtomicBitVec, Turn, TurnWords};
use bloom_parts::error::FilterError;
use bloom_steps::{Call, Machine, Step, calls};
use log::{Log, RecordedWords};
use reading::Reading;
use std::alloc::Global;

/// The words of a filter and of another, what writes their operations down, and the number of
/// hashes.
#[derive(Drop)]
pub(crate) struct Scene<'a> {
    pub(crate) words: RecordedWords<'a>,
    pub(crate) other: RecordedWords<'a>,
    pub(crate) log: &'a Log,
    pub(crate) num_hashes: u32,
}

// A machine that makes a call on the words.
fn machine_of(scene: &Scene<'_>, call: Call) -> Machine {
    Machine::new(call, scene.words.len(), scene.num_hashes.max(1))
}

// Whether all that was written down is the script of a call, which leads to this reply.
fn has_script(scene: &Scene<'_>, call: Call, reply: Option<bool>) -> bool {
    let mut machine = machine_of(scene, call);
    let mut reading = Reading::of(scene.log);
    let has_steps = reading.has_call(0, &mut machine);
    has_steps & reading.is_done() & (machine.answer() == reply)
}

// Whether a hash is looked up, inserted by either call, and looked up again by its scripts.
fn has_one(scene: &Scene<'_>, hash: u64) -> bool {
    let num_hashes = scene.num_hashes.max(1);
    scene.log.begin();
    let found = calls::contains_hash(&scene.words, num_hashes, hash);
    let is_sought = has_script(scene, Call::Contains(hash), Some(found));
    scene.log.begin();
    let found = calls::insert_hash(&scene.words, num_hashes, hash);
    let is_new = has_script(scene, Call::Insert(hash), Some(found));
    scene.log.begin();
    let found = calls::insert_in_turn(&scene.words, &mut Turn::first(), num_hashes, hash);
    let is_old = found & has_script(scene, Call::Insert(hash), Some(true));
    scene.log.begin();
    let found = calls::contains_hash(&scene.words, num_hashes, hash);
    is_sought & is_new & is_old & found & has_script(scene, Call::Contains(hash), Some(true))
}

// Whether the first of these hashes are, alone and in the lines of a blocked filter.
fn has_each(scene: &Scene<'_>, hashes: &[u64]) -> bool {
    let mut all = true;
    for hash in &hashes[..hashes.len().min(3)] {
        all &= has_one(scene, *hash) & in_lines::has_one(scene, *hash);
    }
    all
}

// Whether the next operations are loads of the words of a hash, in no turn.
fn has_loads_of(scene: &Scene<'_>, reading: &mut Reading<'_>, hash: u64) -> bool {
    let mut machine = machine_of(scene, Call::Insert(hash));
    let mut all = true;
    for _ in 0..scene.num_hashes {
        if let Some(Step::Or(word, _mask)) = machine.ask() {
            all &= reading.has_load(word);
            machine.reply(0);
        }
    }
    all
}

// Whether the next operations are inserts of these hashes, perhaps with loads of all their words
// ahead.
fn has_inserts(
    scene: &Scene<'_>,
    reading: &mut Reading<'_>,
    reads_ahead: bool,
    hashes: &[u64],
) -> bool {
    let mut all = true;
    if reads_ahead {
        for hash in hashes {
            all &= has_loads_of(scene, reading, *hash);
        }
    }
    for hash in hashes {
        all &= reading.has_call(0, &mut machine_of(scene, Call::Insert(*hash)));
    }
    all
}

// From 2^19 words on, which are four mebibytes, the words of sixteen hashes are loaded ahead.
fn has_many(scene: &Scene<'_>, hashes: &[u64]) -> bool {
    scene.log.begin();
    calls::insert_hashes(&scene.words, scene.num_hashes.max(1), hashes);
    let are_large = scene.words.len() >= 1 << 19;
    let mut reading = Reading::of(scene.log);
    let mut all = true;
    for part in hashes.chunks(16) {
        all &= has_inserts(scene, &mut reading, are_large & (part.len() == 16), part);
    }
    all & reading.is_done()
}

// The same, where the words are loaded ahead in any case.
fn has_many_ahead(scene: &Scene<'_>, hashes: &[u64]) -> bool {
    scene.log.begin();
    let num_hashes = scene.num_hashes.max(1);
    calls::load_then_insert(&scene.words, &mut Turn::first(), num_hashes, hashes);
    let mut reading = Reading::of(scene.log);
    has_inserts(scene, &mut reading, true, hashes) & reading.is_done()
}

// Whether all that was written down is a load of each word, in no turn.
fn has_each_load(scene: &Scene<'_>) -> bool {
    let mut reading = Reading::of(scene.log);
    let mut all = true;
    for word in 0..scene.words.len() {
        all &= reading.has_load(word);
    }
    all & reading.is_done()
}

// Whether the calls that meet another filter make their scripts.
fn has_meetings(scene: &Scene<'_>) -> bool {
    if scene.other.len() != scene.words.len() {
        return false;
    }
    let num_hashes = scene.num_hashes.max(1);
    scene.log.begin();
    calls::union(&scene.words, &scene.other, num_hashes);
    let is_united = has_script(scene, Call::Union, None);
    scene.log.begin();
    calls::intersect(&scene.words, &scene.other, num_hashes);
    is_united & has_script(scene, Call::Intersect, None)
}

// Whether the calls on all words make their scripts. A copy and a count load each word once, and
// clear words have no bit.
fn has_whole(scene: &Scene<'_>, copy: &mut [u64]) -> bool {
    if copy.len() != scene.words.len() {
        return false;
    }
    scene.log.begin();
    calls::load_into(&scene.words, copy);
    let are_loaded = has_each_load(scene);
    scene.log.begin();
    calls::clear(&scene.words, scene.num_hashes.max(1));
    let are_clear = has_script(scene, Call::Clear, None);
    scene.log.begin();
    let are_counted = (calls::count_ones(&scene.words) == 0) & has_each_load(scene);
    scene.log.begin();
    calls::take_into(&scene.words, scene.num_hashes, copy);
    are_loaded & are_clear & are_counted & has_script(scene, Call::Take, None)
}

// How many hashes go in at once.
const MANY: &'static [usize] = &[0, 1, 15, 16, 17, 63, 64, 65, 130];

// Whether each call makes its script. Calls on all words make the same steps on large filters.
fn has_all(scene: &Scene<'_>, hashes: &[u64], copy: &mut [u64]) -> bool {
    let mut all = has_each(scene, hashes);
    for count in MANY {
        let some = &hashes[..hashes.len().min(*count)];
        all &= has_many(scene, some) & has_many_ahead(scene, some);
        all &= in_lines::has_calls(scene, some);
    }
    if copy.len() <= 1000 {
        all &= has_meetings(scene) & in_lines::has_rate(scene) & has_whole(scene, copy);
    }
    all
}

// A vector of words that threads share.
fn vector_of(alloc: Global, words: &[u64]) -> Result<AtomicBitVec, FilterError> {
    if words.is_empty() || words.len() >= 1 << 58 {
        return Err(FilterError::EmptyWords);
    }
    AtomicBitVec::from_words(alloc, words.iter().copied())
}

// Two vectors of words, and a log.
#[derive(Drop)]
struct Stage {
    words: AtomicBitVec,
    other: AtomicBitVec,
    log: Log,
}

// Words of which half the bits are set, and others.
fn stage_of(alloc: Global, num_words: usize, num_hashes: u32) -> Result<Stage, FilterError> {
    let words = vec![in alloc; 0x3333_3333_3333_3333u64; num_words]?;
    let other = vec![in alloc; 0x5555_5555_5555_5555u64; num_words]?;
    Ok(Stage {
        words: vector_of(alloc, words.as_slice())?,
        other: vector_of(alloc, other.as_slice())?,
        log: Log::new(alloc, (num_hashes as usize).saturating_mul(300))?,
    })
}

// The words of a filter and of another, recorded.
fn scene_on(stage: &Stage, num_hashes: u32) -> Scene<'_> {
    Scene {
        words: RecordedWords::new(&stage.words, &stage.log, false),
        other: RecordedWords::new(&stage.other, &stage.log, true),
        log: &stage.log,
        num_hashes,
    }
}

// Whether each call makes its script on so many words.
fn all_by_script(alloc: Global, num_words: usize, num_hashes: u32) -> Result<bool, FilterError> {
    let stage = stage_of(alloc, num_words, num_hashes)?;
    let hashes = spread_from(alloc, 1, 131)?;
    let mut copy = vec![in alloc; 0u64; num_words]?;
    let scene = scene_on(&stage, num_hashes);
    Ok(has_all(&scene, hashes.as_slice(), copy.as_mut_slice()))
}

// Numbers of words and of hashes. From 2^17 words on blocked filters load ahead, and from 2^19 on
// the others.
const SHAPES: &'static [(usize, u32)] = &[
    (1, 1),
    (8, 2),
    (64, 63),
    (1, 64),
    (17, 65),
    (64, 1000),
    (1000, 7),
    (131_071, 1),
    (131_072, 3),
    (524_287, 2),
    (524_288, 2),
];

#[test]
fn shared_calls_make_their_scripts_and_no_other_operation(rt: HostRuntime) {
    for (i, (num_words, num_hashes)) in SHAPES.iter().enumerate() {
        let made = all_by_script(rt.alloc(), *num_words, *num_hashes);
        assert!(rt; tell_row(&rt, i, matches!(made, Ok(true))));
    }
}
