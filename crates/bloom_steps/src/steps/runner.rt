//! The steps of many calls, in any order.
ghost use Rattle.std.specs.Prelude.{◌≡◌, ◌+◌, ◌≤◌, ◌<◌, ◌^◌, [], length, vec_len, vec_capacity, IfOk, IsOkUnless};
ghost use Rattle.bloom_steps.specs.declared.steps.vocabulary.Event.TheVariants.{Begin, Go};
ghost use Rattle.bloom_parts.specs.Places.{IsPosition, are_in};
ghost use Rattle.bloom_steps.specs.CourseLaws.{EndsWithAll};
ghost use Rattle.bloom_steps.specs.Interleavings.{InsertsTell, ContainsTell, FindsInserted, CountsGains, TakesLoseNothing};
ghost use Rattle.bloom_steps.specs.Sequences.{ActsAsCommands};
ghost use Rattle.bloom_steps.specs.Courses.{IsLawful, Follows};
ghost use Rattle.bloom_steps.specs.Moments.{bits_of};
ghost use Rattle.bloom_steps.specs.Worlds.{IsWorldOf, Happens, slot_runs};

use super::machine::Machine;
use super::memory::make_step;
use super::trace::Trace;
use super::vocabulary::{Call, Event, Record};
use bloom_parts::error::FilterError;
use std::alloc::Global;

// A run under way: the words before and now, the newest call of each party, and what happened.
#[derive(Drop)]
struct World {
    start: Vec<u64>,
    words: Vec<u64>,
    machines: Vec<Option<Machine>>,
    records: Vec<Record>,
}

/// Makes the steps of calls in the order of a schedule, one step an event, and records each.
///
/// An event that makes no sense, as a step of a party that runs no call, records nothing. Calls may
/// overlap: two inserts of one fresh hash may both reply false, and a look-up in which another
/// party clears bits may reply true though its hash was contained at no moment.
///
/// # Errors
/// `Memory` where memory was refused. All room is made before the first event.
pub fn run(
    alloc: Global,
    words: &[u64],
    num_hashes: u32,
    parties: usize,
    schedule: &[Event],
) -> Result<Trace, FilterError>
    requires some_words { 1 ≤ length words.now }
    requires few_words { length words.now < 2 ^ 58 }
    requires hashes { 1 ≤ num_hashes }
    ensures lawful { IfOk result (λ course. IsLawful num_hashes course) }
    ensures follows { IfOk result (λ course. Follows parties words.now schedule.now course) }
    // One call at a time behaves as the list of commands.
    ensures commands { IfOk result (λ course. ActsAsCommands num_hashes course) }
    // An insert replies for its own steps; a look-up is right at one moment; an insert is found.
    ensures inserts { IfOk result (λ course. InsertsTell course) }
    ensures contains { IfOk result (λ course. ContainsTell
        (IsPosition (bits_of course) num_hashes) (are_in (bits_of course) num_hashes) course) }
    ensures found { IfOk result (λ course. FindsInserted (IsPosition (bits_of course) num_hashes)
        course) }
    // A growing run ends alike in any order, and each position is set once.
    ensures grows { IfOk result (λ course. EndsWithAll num_hashes course) }
    ensures gained { IfOk result (λ course. CountsGains course) }
    // Taking the words out loses no position.
    ensures taken { IfOk result (λ course. TakesLoseNothing course) }
    ensures refused { IsOkUnless result FilterError.Memory }
{
    let mut world = prepare(alloc, words, num_hashes, parties, schedule.len())?;
    'events: for event in schedule {
        happen(&mut world, num_hashes, event);
    }
    Ok(Trace::from_parts(world.start, world.records, world.words))
}

// The world before the first event, with room for all that may happen.
fn prepare(
    alloc: Global,
    words: &[u64],
    num_hashes: u32,
    parties: usize,
    events: usize,
) -> Result<World, FilterError>
    requires some_words { 1 ≤ length words.now }
    requires few_words { length words.now < 2 ^ 58 }
    requires hashes { 1 ≤ num_hashes }
    ensures world { IfOk result (λ world. IsWorldOf num_hashes world) }
    ensures parties { IfOk result (λ world. length world.machines.items ≡ parties) }
    ensures start { IfOk result (λ world. world.start.items ≡ words.now) }
    ensures records { IfOk result (λ world. world.records.items ≡ []) }
    ensures len { IfOk result (λ world. vec_len world.records ≡ 0) }
    ensures room { IfOk result (λ world. events ≤ vec_capacity world.records) }
    ensures refused { IsOkUnless result FilterError.Memory }
{
    let start = Vec::from_slice(alloc, words)?;
    let now = Vec::from_slice(alloc, words)?;
    let mut machines = Vec::with_capacity(alloc, parties)?;
    'parties: for _party in 0..parties {
        machines.push_reserved(None);
    }
    let records = Vec::with_capacity(alloc, events)?;
    Ok(World {
        start,
        words: now,
        machines,
        records,
    })
}

// What one event does. It needs room for one record.
fn happen(world: &mut World, num_hashes: u32, event: &Event)
    requires world { IsWorldOf num_hashes world.old }
    requires room { vec_len world.old.records < vec_capacity world.old.records }
    ensures happens { Happens num_hashes event.now world.old world.new }
    ensures capacity { vec_capacity world.new.records ≡ vec_capacity world.old.records }
    ensures count { vec_len world.new.records ≤ vec_len world.old.records + 1 }
{
    match *event {
        Event::Begin { party, call } => begin(world, num_hashes, party, call),
        Event::Go { party, given } => go(world, num_hashes, party, given),
    }
}

// Whether a party's machine runs a call.
fn runs_call(slot: &Option<Machine>) -> bool
    ensures { result ≡ slot_runs slot.now }
{
    match slot {
        Some(machine) => machine.ask().is_some(),
        None => false,
    }
}

// A party begins a call, where it is one of the run's and runs none.
fn begin(world: &mut World, num_hashes: u32, party: usize, call: Call)
    requires world { IsWorldOf num_hashes world.old }
    requires room { vec_len world.old.records < vec_capacity world.old.records }
    ensures happens { Happens num_hashes (Begin party call) world.old world.new }
    ensures capacity { vec_capacity world.new.records ≡ vec_capacity world.old.records }
    ensures count { vec_len world.new.records ≤ vec_len world.old.records + 1 }
{
    if party >= world.machines.len() {
        return;
    }
    if runs_call(&world.machines[party]) {
        return;
    }
    let machine = Machine::new(call, world.words.len(), num_hashes);
    world.machines[party] = Some(machine);
    world.records.push_reserved(Record::Began { party, call });
}

// A party makes one step, where it runs a call.
fn go(world: &mut World, num_hashes: u32, party: usize, given: u64)
    requires world { IsWorldOf num_hashes world.old }
    requires room { vec_len world.old.records < vec_capacity world.old.records }
    ensures happens { Happens num_hashes (Go party given) world.old world.new }
    ensures capacity { vec_capacity world.new.records ≡ vec_capacity world.old.records }
    ensures count { vec_len world.new.records ≤ vec_len world.old.records + 1 }
{
    if party >= world.machines.len() {
        return;
    }
    let Some(machine) = &mut world.machines[party] else {
        return;
    };
    let Some(step) = machine.ask() else {
        return;
    };
    let found = make_step(&mut world.words, given, step);
    machine.reply(found);
    let ended = machine.end();
    world.records.push_reserved(Record::Did {
        party,
        step,
        found,
        ended,
    });
}
