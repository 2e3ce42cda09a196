//! The courses, by tables.
use fastbloom::{Call, End, Event, Record, Step};

/// The words before, what is run on them, and the records and the words that this gives.
pub(super) struct Course {
    pub(super) name: &'static str,
    pub(super) words: &'static [u64],
    pub(super) num_hashes: u32,
    pub(super) parties: usize,
    pub(super) after: &'static [u64],
    pub(super) schedule: &'static [Event],
    pub(super) records: &'static [Record],
}

// An event of a party's number.
macro_rules! event {
    ($party:literal begins $call:ident $(($hash:expr))?) => {
        Event::Begin {
            party: $party,
            call: Call::$call $(($hash))?,
        }
    };
    ($party:literal goes) => {
        event!($party goes given 0)
    };
    ($party:literal goes given $given:literal) => {
        Event::Go {
            party: $party,
            given: $given,
        }
    };
}

// A record of a party's number. A step that ends its call is the last or gives the reply.
macro_rules! record {
    ($party:literal begins $call:ident $(($hash:expr))?) => {
        Record::Began {
            party: $party,
            call: Call::$call $(($hash))?,
        }
    };
    ($party:literal makes $step:ident $at:tt finding $found:literal) => {
        record!($party $step $at $found End::Running)
    };
    ($party:literal makes $step:ident $at:tt finding $found:literal ending) => {
        record!($party $step $at $found End::Done)
    };
    ($party:literal makes $step:ident $at:tt finding $found:literal answering $answer:literal) => {
        record!($party $step $at $found End::Answer($answer))
    };
    ($party:literal $step:ident $at:tt $found:literal $ended:expr) => {
        Record::Did {
            party: $party,
            step: Step::$step $at,
            found: $found,
            ended: $ended,
        }
    };
}

// A name; the words, the number of hashes, that of the parties, and the words in the end; the
// schedule; and what is recorded.
macro_rules! course {
    (
        $name:literal, $words:tt, $num_hashes:literal, $parties:literal, $after:tt;
        $([$($event:tt)+])* => $([$($record:tt)+])*
    ) => {
        Course {
            name: $name,
            words: &$words,
            num_hashes: $num_hashes,
            parties: $parties,
            after: &$after,
            schedule: &[$(event!($($event)+)),*],
            records: &[$(record!($($record)+)),*],
        }
    };
}

const DISTURBED: &'static [Course] = &[
    // Both inserts find one of their bits clear, so both reply false: inserts aren't single steps.
    // Two steps found their bit clear, and two bits were gained.
    course! {
        "two inserts of one fresh hash both answer false",
        [0], 2, 2, [1048577];
        [0 begins Insert(1)] [1 begins Insert(1)] [0 goes] [1 goes] [1 goes] [0 goes] =>
        [0 begins Insert(1)] [1 begins Insert(1)] [0 makes Or(0, 1) finding 0]
        [1 makes Or(0, 1) finding 1] [1 makes Or(0, 1048576) finding 1 answering false]
        [0 makes Or(0, 1048576) finding 1048577 answering false]
    },
    // The words were 1, 0 and 1048576, so positions 0 and 20 were never set together. The look-up
    // is disturbed: between its first step and its last the clear cleared position 0 of its hash.
    course! {
        "a disturbed contains may be true at no moment",
        [1], 2, 3, [1048576];
        [0 begins Contains(1)] [0 goes] [1 begins Clear] [1 goes] [2 begins Union]
        [2 goes given 1048576] [2 goes] [0 goes] =>
        [0 begins Contains(1)] [0 makes Load(0) finding 1] [1 begins Clear]
        [1 makes Zero(0) finding 0 ending] [2 begins Union] [2 makes Other(0) finding 1048576]
        [2 makes Or(0, 1048576) finding 0 ending] [0 makes Load(0) finding 1048576 answering true]
    },
    course! {
        "a union under way undoes a clear",
        [5], 1, 2, [5];
        [0 begins Union] [0 goes given 5] [1 begins Clear] [1 goes] [0 goes] =>
        [0 begins Union] [0 makes Other(0) finding 5] [1 begins Clear]
        [1 makes Zero(0) finding 0 ending] [0 makes Or(0, 5) finding 0 ending]
    },
    // Hash 1 has the positions 0, 40 and 64 of 128 bits. The clear clears position 64.
    course! {
        "a clear under way takes from an insert",
        [0, 0], 3, 2, [1099511627777, 0];
        [0 begins Clear] [0 goes] [1 begins Insert(1)] [1 goes] [1 goes] [1 goes] [0 goes]
        [1 begins Contains(1)] [1 goes] [1 goes] [1 goes] =>
        [0 begins Clear] [0 makes Zero(0) finding 0] [1 begins Insert(1)]
        [1 makes Or(0, 1) finding 0] [1 makes Or(0, 1099511627776) finding 1]
        [1 makes Or(1, 1) finding 0 answering false] [0 makes Zero(1) finding 0 ending]
        [1 begins Contains(1)] [1 makes Load(0) finding 1099511627777]
        [1 makes Load(0) finding 1099511627777] [1 makes Load(1) finding 0 answering false]
    },
];

const UNDISTURBED: &'static [Course] = &[
    course! {
        "events that make no sense record nothing",
        [0], 1, 1, [0];
        [0 goes] [7 begins Clear] [0 begins Clear] [0 begins Insert(0)] [0 goes] [0 goes] =>
        [0 begins Clear] [0 makes Zero(0) finding 0 ending]
    },
    course! {
        "a call that has ended makes no step",
        [1048576], 2, 1, [1048576];
        [0 begins Contains(1)] [0 goes] [0 goes] =>
        [0 begins Contains(1)] [0 makes Load(0) finding 1048576 answering false]
    },
    // Of the positions 0, 20 and 32 of hash 1 the first is set and the second clear.
    course! {
        "a contains ends with the load that finds a bit clear",
        [1], 3, 1, [1];
        [0 begins Contains(1)] [0 goes] [0 goes] [0 goes] =>
        [0 begins Contains(1)] [0 makes Load(0) finding 1]
        [0 makes Load(0) finding 1 answering false]
    },
    course! {
        "a run of no parties records nothing",
        [9], 1, 0, [9];
        [0 begins Clear] [0 goes] =>
    },
    course! {
        "a run of no event records nothing",
        [5, 6], 1, 2, [5, 6]; =>
    },
    // The look-up is undisturbed, since no step cleared a position of its hash. At the moment of
    // its last load its hash isn't contained.
    course! {
        "an undisturbed contains is false before the insert ends",
        [0], 2, 2, [1048577];
        [0 begins Contains(1)] [1 begins Insert(1)] [1 goes] [0 goes] [0 goes] [1 goes] =>
        [0 begins Contains(1)] [1 begins Insert(1)] [1 makes Or(0, 1) finding 0]
        [0 makes Load(0) finding 1] [0 makes Load(0) finding 1 answering false]
        [1 makes Or(0, 1048576) finding 1 answering false]
    },
    course! {
        "a finished insert is found",
        [0], 2, 2, [1048577];
        [0 begins Insert(1)] [0 goes] [0 goes] [1 begins Contains(1)] [1 goes] [1 goes] =>
        [0 begins Insert(1)] [0 makes Or(0, 1) finding 0]
        [0 makes Or(0, 1048576) finding 1 answering false] [1 begins Contains(1)]
        [1 makes Load(0) finding 1048577] [1 makes Load(0) finding 1048577 answering true]
    },
];

const TAKEN: &'static [Course] = &[
    course! {
        "the last of 65 parties makes its call",
        [5], 1, 65, [0];
        [64 begins Clear] [64 goes] =>
        [64 begins Clear] [64 makes Zero(0) finding 0 ending]
    },
    course! {
        "the last of 1,000 parties makes its call",
        [5], 1, 1000, [0];
        [999 begins Take] [1000 begins Clear] [999 goes] =>
        [999 begins Take] [999 makes Take(0) finding 5 ending]
    },
    // With one hash of 64 bits the position is the top six binary digits: hash 2^58 has position 1.
    course! {
        "five parties make all five calls",
        [8], 1, 5, [2];
        [0 begins Insert(1 << 58)] [1 begins Contains(1 << 58)] [2 begins Clear] [3 begins Union]
        [4 begins Intersect] [2 goes] [0 goes] [1 goes] [3 goes given 4] [4 goes given 3] [3 goes]
        [4 goes] =>
        [0 begins Insert(1 << 58)] [1 begins Contains(1 << 58)] [2 begins Clear] [3 begins Union]
        [4 begins Intersect] [2 makes Zero(0) finding 0 ending]
        [0 makes Or(0, 2) finding 0 answering false] [1 makes Load(0) finding 2 answering true]
        [3 makes Other(0) finding 4] [4 makes Other(0) finding 3]
        [3 makes Or(0, 4) finding 2 ending] [4 makes And(0, 3) finding 6 ending]
    },
    // The first step leaves the call running, the second ends it.
    course! {
        "a take finds each word and leaves none",
        [5, 2], 1, 1, [0, 0];
        [0 begins Take] [0 goes] [0 goes] =>
        [0 begins Take] [0 makes Take(0) finding 5] [0 makes Take(1) finding 2 ending]
    },
    course! {
        "two takes share no bit",
        [7], 1, 2, [0];
        [0 begins Take] [1 begins Take] [1 goes] [0 goes] =>
        [0 begins Take] [1 begins Take] [1 makes Take(0) finding 7 ending]
        [0 makes Take(0) finding 0 ending]
    },
    // Two steps found their bit clear; the take found one of the bits, and one is left.
    course! {
        "a take between two steps of an insert loses no bit",
        [0], 2, 2, [1048576];
        [0 begins Insert(1)] [0 goes] [1 begins Take] [1 goes] [0 goes] =>
        [0 begins Insert(1)] [0 makes Or(0, 1) finding 0] [1 begins Take]
        [1 makes Take(0) finding 1 ending] [0 makes Or(0, 1048576) finding 0 answering false]
    },
];

/// Calls that disturb one another.
pub(super) fn disturbed() -> &'static [Course] {
    DISTURBED
}

/// Calls that aren't disturbed, and events that aren't carried out.
pub(super) fn undisturbed() -> &'static [Course] {
    UNDISTURBED
}

/// All calls at once, and calls that take words out.
pub(super) fn taken() -> &'static [Course] {
    TAKEN
}
