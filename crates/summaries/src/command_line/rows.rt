//! The arguments of each command.

use super::{
    ABSENT, BITS, BLOCKED, FILE, FILTER, HASHES, ITEMS, JSON, KEY, MOST_HASHES, OTHER, OUTPUT,
    RATE, WORKERS, ZERO,
};
use clap::ArgAction;
use clap::builder::ValueParser;
use program_parts::{Kind, Row};

// A number of bits or keys.
const COUNT: Kind = Kind::Option("N", &[], ValueParser::Unsigned(1, 1_000_000_000_000));

const WORD: Kind = Kind::Words(ArgAction::Set, 1, 1);

const JSON_ROW: Row = (
    JSON,
    Kind::Flag,
    "Writes the filter as JSON, in place of the file form",
    &[],
    &[],
);

const OUTPUT_ROW: Row = (
    OUTPUT,
    Kind::LetterOption('o', "FILE", ValueParser::NonEmptyString),
    "Writes this file, which may be an input, in place of standard output",
    &[],
    &[],
);

const MOST_HASHES_ROW: Row = (
    MOST_HASHES,
    Kind::Option("N", &["64"], ValueParser::Signed(1, 4_294_967_295)),
    "Refuses a filter with more hashes: each costs time at every key",
    &[],
    &[],
);

const FILTER_ROW: Row = (
    FILTER,
    WORD,
    "A file with a filter, in the file form or as JSON; - is standard input",
    &[],
    &[],
);

const ZERO_ROW: Row = (
    ZERO,
    Kind::Letter('z'),
    "A zero byte ends each key, in place of a line's end",
    &[],
    &[],
);

const FILE_ROW: Row = (
    FILE,
    Kind::Words(ArgAction::Append, 0, usize::MAX),
    "Files with keys, one a line; none, or -, is standard input",
    &[],
    &[],
);

const BUILD: &'static [Row] = &[
    (
        BITS,
        COUNT,
        "At least this many bits: ten for each key give one false positive in a hundred",
        &[],
        &[],
    ),
    (
        HASHES,
        Kind::Option("N", &["7"], ValueParser::Signed(1, 1000)),
        "How many bits each key sets",
        &[],
        &[],
    ),
    (
        ITEMS,
        COUNT,
        "How many keys are expected, in place of --bits and --hashes",
        &[RATE],
        &[HASHES],
    ),
    (
        RATE,
        Kind::Option("A/B", &[], ValueParser::String),
        "The share of other keys that may be false positives",
        &[ITEMS],
        &[BITS, HASHES],
    ),
    (
        WORKERS,
        Kind::Option("N", &["1"], ValueParser::Signed(1, 1024)),
        "Threads that may fill the filter: N take N times its memory",
        &[],
        &[],
    ),
    (
        BLOCKED,
        Kind::Flag,
        "All bits of a key lie in 64 bytes: quicker where the filter is large",
        &[],
        &[JSON, WORKERS],
    ),
    JSON_ROW,
    (
        KEY,
        Kind::Option("HEX", &[], ValueParser::String),
        "The key of the hash, 32 digits, where others choose the keys; else zero",
        &[],
        &[],
    ),
    OUTPUT_ROW,
    ZERO_ROW,
    FILE_ROW,
];

const UNITE: &'static [Row] = &[
    MOST_HASHES_ROW,
    JSON_ROW,
    OUTPUT_ROW,
    (
        FILTER,
        Kind::Words(ArgAction::Append, 1, usize::MAX),
        "Files with filters of one kind, shape and key; - is standard input",
        &[],
        &[],
    ),
];

const ASK: &'static [Row] = &[
    MOST_HASHES_ROW,
    (
        ABSENT,
        Kind::Flag,
        "Writes the keys that are surely not in, in place of those that may be",
        &[],
        &[],
    ),
    OUTPUT_ROW,
    FILTER_ROW,
    ZERO_ROW,
    FILE_ROW,
];

const INFO: &'static [Row] = &[
    (
        JSON,
        Kind::Flag,
        "Prints one line of JSON, for scripts",
        &[],
        &[],
    ),
    FILTER_ROW,
];

const COMPARE: &'static [Row] = &[
    FILTER_ROW,
    (
        OTHER,
        WORD,
        "A file with another filter of the same kind, shape and key; - is standard input",
        &[],
        &[],
    ),
];

/// A command: its name, its help, its arguments, and those of which it needs one.
pub type CommandRow = (
    &'static str,
    &'static str,
    &'static [Row],
    &'static [&'static str],
);

/// The commands, in the order of the help.
pub const COMMANDS: [CommandRow; 5] = [
    (
        "build",
        "Reads keys, one a line, and writes their filter",
        BUILD,
        &[BITS, ITEMS],
    ),
    (
        "unite",
        "Writes the filter of all keys of some filters",
        UNITE,
        &[],
    ),
    (
        "ask",
        "Reads keys, one a line, and writes those that may be in a filter",
        ASK,
        &[],
    ),
    ("info", "Prints what a filter is", INFO, &[]),
    (
        "compare",
        "Prints how many keys two filters have, each and in common",
        COMPARE,
        &[],
    ),
];
