//! The arguments and the runs of the program.
use crate::engines::faulty::{
    FAILING, FLUSHED_ONCE, FULL, ROOMY, Reading, SHUT, STUCK, UNFLUSHED, WHOLE, Writing,
};
use bloom_engine::Fault;

// How a run ends.
type Ended = Result<(), Fault>;

const WELL: Ended = Ok(());

const BAD: Ended = Err(Fault::Line(1));

/// The numbers of words and of hashes, or the text and the status of the fault.
pub(super) type Asked = Result<(usize, u32), (&'static str, u8)>;

/// The words after the program's name, and what comes of them.
pub(super) type Given = (&'static [&'static str], Asked);

const USAGE: Asked = Err(("usage: bloom WORDS HASHES", 2));

/// Two numbers of 1 to 20 digits are taken: 1 to 1048576 words, and 0 to 4294967295 hashes.
pub(super) const ARGUMENTS: &'static [Given] = &[
    (&["1", "3"], Ok((1, 3))),
    (&["1", "2"], Ok((1, 2))),
    (&["2", "3"], Ok((2, 3))),
    (&["1", "1"], Ok((1, 1))),
    (&["1", "0"], Ok((1, 0))),
    (&["1048576", "4294967295"], Ok((1048576, 4294967295))),
    (&["00000000000000000001", "3"], Ok((1, 3))),
    (&["1", "00000000000000000003"], Ok((1, 3))),
    (&[], USAGE),
    (&["1"], USAGE),
    (&["1", "1", "1"], USAGE),
    (&["0", "3"], USAGE),
    (&["1048577", "1"], USAGE),
    (&["1", "4294967296"], USAGE),
    (&["18446744073709551617", "3"], USAGE),
    (&["1", "18446744073709551616"], USAGE),
    (&["000000000000000000001", "3"], USAGE),
    (&["1", "000000000000000000003"], USAGE),
    (&["x", "3"], USAGE),
    (&["+1", "3"], USAGE),
    (&["1", "-0"], USAGE),
    (&["1", ""], USAGE),
    (&[" 1", "3"], USAGE),
    (&["1 3"], USAGE),
];

/// A run over a filter.
pub(super) type Row = (usize, u32, &'static str, &'static str, Ended);

/// A run that fails.
pub(super) type Failing = (&'static str, Reading, Writing, &'static str, Fault, u64);

// A row.
macro_rules! run {
    ($words:literal, $hashes:literal: $input:literal => $output:expr, $ended:expr) => {
        ($words, $hashes, $input, $output, $ended)
    };
}

/// The numbers of words and of hashes, and input; what is written, and how the run ends. The end of
/// the input ends a line without its own.
pub(super) const RUNS: &'static [Row] = &[
    run! { 1, 3: "i 1\nc 1\nw\n" => "false\ntrue\n0000000100100001\n", WELL },
    run! { 1, 2: "i 18446744073709551615\nw\n" => "false\n8000080000000000\n", WELL },
    run! { 1, 3: "i 1\nx\n" => "false\n", Err(Fault::Line(2)) },
    run! { 2, 3: "i 1\nw\n" => "false\n0000010000000001\n0000000000000001\n", WELL },
    run! { 1, 1: "" => "", WELL },
    run! { 1, 3: "i 1\nz\nc 1\nw\n" => "false\nfalse\n0000000000000000\n", WELL },
    run! { 1, 2: "i 18446744073709551616\n" => "", BAD },
    run! { 1, 2: "c 00000000000000000001\n" => "false\n", WELL },
    run! { 1, 2: "c 000000000000000000001\n" => "", BAD },
    run! { 1, 2: "i  1\n" => "", BAD },
    run! { 1, 2: "i 1\r\n" => "", BAD },
    run! { 1, 2: "\n" => "", BAD },
    run! { 1, 3: "i 1\nc 1" => "false\ntrue\n", WELL },
    run! { 1, 0: "i 1\nw\n" => "false\n0000000000000001\n", WELL },
    run! {
        1, 2: "i 1\nc 1\ni 18446744073709551615\nw\nc 00000000000000000001\nw" =>
        "false\ntrue\nfalse\n8000080000100001\ntrue\n8000080000100001\n", WELL
    },
    run! {
        1, 2: "i 1\nc 1\nw\nz\nc 1\nx\n" =>
        "false\ntrue\n0000000000100001\nfalse\n", Err(Fault::Line(6))
    },
    run! { 1, 2: "i 1\nc 1\nw\n" => ALL, WELL },
    run! { 1, 2: "" => "", WELL },
    run! { 1, 2: "i 1\n" => ONE, WELL },
    run! { 1, 2: "i 1" => ONE, WELL },
    run! { 1, 2: "i 1\nc 1" => TWO, WELL },
    run! { 1, 2: "i 1\nc" => ONE, Err(Fault::Line(2)) },
];

// The replies to the first lines of a session: to one, to two, and to all three.
const ONE: &str = "false\n";

const TWO: &str = "false\ntrue\n";

const ALL: &str = "false\ntrue\n0000000000100001\n";

const INPUT: Fault = Fault::Input;

const OUTPUT: Fault = Fault::Output;

// The filter's word with hash 1 in it, which has the positions 0 and 20.
const WORD: u64 = 0x100001;

/// Input, and how it is read and the output is taken; what is written of it, how the run ends, and
/// the filter's word. Of the bytes before a read that fails, all whole lines get their replies.
pub(super) const FAULTS: &'static [Failing] = &[
    ("", FAILING, ROOMY, "", INPUT, 0),
    ("i", FAILING, ROOMY, "", INPUT, 0),
    ("i ", FAILING, ROOMY, "", INPUT, 0),
    ("i 1", FAILING, ROOMY, "", INPUT, 0),
    ("i 1\n", FAILING, ROOMY, ONE, INPUT, WORD),
    ("i 1\nc", FAILING, ROOMY, ONE, INPUT, WORD),
    ("i 1\nc ", FAILING, ROOMY, ONE, INPUT, WORD),
    ("i 1\nc 1", FAILING, ROOMY, ONE, INPUT, WORD),
    ("i 1\nc 1\n", FAILING, ROOMY, TWO, INPUT, WORD),
    ("i 1\nc 1\nw", FAILING, ROOMY, TWO, INPUT, WORD),
    ("i 1\nc 1\nw\n", FAILING, ROOMY, ALL, INPUT, WORD),
    ("c 1\n", WHOLE, SHUT, "", OUTPUT, 0),
    ("i 1\n", WHOLE, SHUT, "", OUTPUT, WORD),
    ("c 1\n", WHOLE, FULL, "fal", OUTPUT, 0),
    ("c 1\n", WHOLE, STUCK, "fal", OUTPUT, 0),
    // The first flush comes before the first read.
    ("i 1\n", WHOLE, UNFLUSHED, "", OUTPUT, 0),
    ("x\n", WHOLE, UNFLUSHED, "", OUTPUT, 0),
    ("x\n", WHOLE, FLUSHED_ONCE, "", OUTPUT, 0),
];
