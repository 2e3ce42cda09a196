//! Which step of a call comes next.
ghost use Rattle.std.specs.Prelude.{◌≡◌, ◌+◌, ◌*◌, ◌^◌, ◌<◌, ◌≤◌, false};
ghost use Rattle.bloom_parts.specs.Content.{bit_is_on};
ghost use Rattle.bloom_steps.specs.Plans.{hash_of, most_steps, plan_of};

use super::vocabulary::{Call, End, Step};
use bloom_parts::bit_vector::{index, is_set, word_and_mask};
use bloom_parts::hasher::DoubleHasher;

/// A call under way: it says which step comes next, and is told what each step found.
///
/// It holds no list of the steps made; how it stands to them is the relation `StandsAt`.
#[derive(Drop)]
pub struct Machine {
    call: Call,
    num_words: usize,
    num_hashes: u32,
    // The number of steps made.
    turn: usize,
    // The chain of the call's hash, just after the position of this turn; and that position.
    chain: DoubleHasher,
    place: usize,
    // The word of the other filter that was found last.
    other: u64,
    all_on: bool,
    ended: bool,
    ghost some_words: { 1 ≤ num_words },
    ghost few_words: { num_words < 2 ^ 58 },
    ghost some_hashes: { 1 ≤ num_hashes },
    ghost within: { place < 64 * num_words },
    ghost room: { ended ≡ false → turn < most_steps num_words num_hashes (plan_of call) },
}

// Whether a position's bit is set in its word.
fn is_on(word: u64, position: usize) -> bool
    ensures { result ≡ bit_is_on word position }
{
    let (_word, mask) = word_and_mask(position);
    is_set(word, mask)
}

// The hash of a call, or 0 where it has none.
fn own_hash(call: Call) -> u64
    ensures { result ≡ hash_of (plan_of call) }
{
    match call {
        Call::Insert(hash) => hash,
        Call::Contains(hash) => hash,
        Call::Clear => 0,
        Call::Union => 0,
        Call::Intersect => 0,
        Call::Take => 0,
    }
}

impl Machine {
    ghost use Rattle.std.specs.Prelude.{[], Some, IsSome, ◌/◌, ◌%◌, ◌==◌, if◌then◌else◌};
    ghost use Rattle.bloom_steps.specs.declared.steps.vocabulary.Step.TheVariants.{Other};
    ghost use Rattle.bloom_steps.specs.declared.steps.vocabulary.Step.{Step};
    ghost use Rattle.bloom_steps.specs.Machines.{AsksRight, AnswersRight, StandsFurther};
    ghost use Rattle.bloom_steps.specs.Standing.{StandsAt, Replied, asks, answers, end_of, left};
    ghost use Rattle.bloom_steps.specs.Steps.{word_index};

    /// A call at its beginning, on a filter of this many words and hashes.
    pub fn new(call: Call, num_words: usize, num_hashes: u32) -> Machine
        requires some_words { 1 ≤ num_words }
        requires few_words { num_words < 2 ^ 58 }
        requires some_hashes { 1 ≤ num_hashes }
        ensures { StandsAt result num_words num_hashes call [] }
    {
        let mut chain = DoubleHasher::new(own_hash(call));
        let place = index(num_words * 64, chain.next());
        Machine {
            call,
            num_words,
            num_hashes,
            turn: 0,
            chain,
            place,
            other: 0,
            all_on: true,
            ended: false,
        }
    }

    /// The step that comes next, or none where the call has ended.
    pub fn ask(&self) -> Option<Step>
        ensures value { result ≡ asks self.now }
        ensures next { AsksRight self.now result }
    {
        if self.ended {
            return None;
        }
        let (word, mask) = word_and_mask(self.place);
        Some(match self.call {
            Call::Insert(_) => Step::Or(word, mask),
            Call::Contains(_) => Step::Load(word),
            Call::Clear => Step::Zero(self.turn),
            Call::Union => self.read_or(Step::Or(self.turn / 2, self.other)),
            Call::Intersect => self.read_or(Step::And(self.turn / 2, self.other)),
            Call::Take => Step::Take(self.turn),
        })
    }

    // The next step of a pair: the read of the other filter's word, or else this write.
    fn read_or(&self, write: Step) -> Step
        ensures { result ≡ if self.now.turn % 2 == 0 then Other (self.now.turn / 2) else write }
    {
        if self.turn % 2 == 0 {
            Step::Other(self.turn / 2)
        } else {
            write
        }
    }

    /// Takes the word that the step asked for found.
    pub fn reply(&mut self, found: u64)
        requires { IsSome (asks self.old) }
        ensures next { StandsFurther self.old found self.new }
        ensures left { left self.new < left self.old }
    {
        let turn = self.turn + 1;
        match self.call {
            Call::Insert(_) => {
                self.all_on &= is_on(found, self.place);
                self.place = index(self.num_words * 64, self.chain.next());
                self.ended = turn == self.num_hashes as usize;
            }
            Call::Contains(_) => {
                self.all_on = is_on(found, self.place);
                self.place = index(self.num_words * 64, self.chain.next());
                self.ended = !self.all_on || turn == self.num_hashes as usize;
            }
            Call::Clear => {
                self.ended = turn == self.num_words;
            }
            Call::Union => {
                self.other = found;
                self.ended = turn == 2 * self.num_words;
            }
            Call::Intersect => {
                self.other = found;
                self.ended = turn == 2 * self.num_words;
            }
            Call::Take => {
                self.ended = turn == self.num_words;
            }
        }
        self.turn = turn;
    }

    /// The reply of an insert or contains that has ended, and else none.
    pub fn answer(&self) -> Option<bool>
        ensures value { result ≡ answers self.now }
        ensures said { AnswersRight self.now result }
    {
        if !self.ended {
            return None;
        }
        match self.call {
            Call::Insert(_) => Some(self.all_on),
            Call::Contains(_) => Some(self.all_on),
            Call::Clear => None,
            Call::Union => None,
            Call::Intersect => None,
            Call::Take => None,
        }
    }

    // How the call stands.
    pub(super) fn end(&self) -> End
        ensures { result ≡ end_of self.now }
    {
        if !self.ended {
            return End::Running;
        }
        match self.answer() {
            Some(reply) => End::Answer(reply),
            None => End::Done,
        }
    }
}
