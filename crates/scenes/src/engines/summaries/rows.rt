//! The files of filters, and acts over them: what each writes, and why it stops early.
use crate::engines::faulty::{
    FAILING, FULL, HALVES, KINDS, NARROW, ROOMY, Reading, SLOW, STUCK, UNFLUSHED, WHOLE, Writing,
};

// The files of filters of 64 bits and two hashes, of the key "a", and of "a" and "b". Their words
// were worked out by another program, from the papers on SipHash and on the multiply and shift.
// Their seals are what Python 3.11, whose hash of bytes is SipHash-1-3, returns under the key of
// zeros.
pub(crate) const A: &[u8] = b"fbloom\01\x02\0\0\0\0\0\0\0\
    \x01\0\0\0\0\0\0\0\0\0\0\0\0\0\0\0\
    \0\0\0\0\0\0\0\0>f\xd2\xf60\x19\xfb\xc8\
    \0\0\0\0\0\0\0\0\0\0\0\0\0\0\0\0\
    \0\0\x01\x10\0\0\0\0";

const BOTH: &[u8] = b"fbloom\01\x02\0\0\0\0\0\0\0\
    \x01\0\0\0\0\0\0\0\0\0\0\0\0\0\0\0\
    \0\0\0\0\0\0\0\0~o\\\x05\x08\0{\x11\
    \0\0\0\0\0\0\0\0\0\0\0\0\0\0\0\0\
    \0\0\x01\x10\x04\0\x01\0";

// The file of "a" without its last byte, with one more, and with another last byte.
const CUT: &[u8] = b"fbloom\01\x02\0\0\0\0\0\0\0\
    \x01\0\0\0\0\0\0\0\0\0\0\0\0\0\0\0\
    \0\0\0\0\0\0\0\0>f\xd2\xf60\x19\xfb\xc8\
    \0\0\0\0\0\0\0\0\0\0\0\0\0\0\0\0\
    \0\0\x01\x10\0\0\0";

const LONG: &[u8] = b"fbloom\01\x02\0\0\0\0\0\0\0\
    \x01\0\0\0\0\0\0\0\0\0\0\0\0\0\0\0\
    \0\0\0\0\0\0\0\0>f\xd2\xf60\x19\xfb\xc8\
    \0\0\0\0\0\0\0\0\0\0\0\0\0\0\0\0\
    \0\0\x01\x10\0\0\0\0\0";

const CHANGED: &[u8] = b"fbloom\01\x02\0\0\0\0\0\0\0\
    \x01\0\0\0\0\0\0\0\0\0\0\0\0\0\0\0\
    \0\0\0\0\0\0\0\0>f\xd2\xf60\x19\xfb\xc8\
    \0\0\0\0\0\0\0\0\0\0\0\0\0\0\0\0\
    \0\0\x01\x10\0\0\0\x01";

// The file of the blocked filter of one line and two hashes with the key "a", by the model of
// `dev/blocked-model`.
const LINES: &[u8] = b"fbloom\01\x02\0\0\0\0\0\0\0\x08\0\0\0\0\0\0\0\
    \0\0\0\0\0\0\0\0\0\0\0\0\0\0\0\0a/0v\xc1\xee\xc9\x18\
    \x01\0\0\0\0\0\0\0\0\0\0\0\0\0\0\0\0\0\0\0\0\0\0\0\
    \0\0\0\0\0\0\0\0\0\0\0\0\0\0\0\0\0\x02\0\x10\0\0\0\0\
    \0\0\0\0\0\0\0\0\0\0\0\0\0\0\0\0\0\0\0\0\0\0\0\0\
    \0\0\0\0\0\0\0\0";

const TEXT: &[u8] =
    b"{\"bits\":{\"bits\":[268500992]},\"num_hashes_minus_one\":1,\"k0\":0,\"k1\":0}\n";

// The file and the text of the same words under the key whose two words are 1 and 2.
const KEYED: &[u8] = b"fbloom\01\x02\0\0\0\0\0\0\0\
    \x01\0\0\0\0\0\0\0\x01\0\0\0\0\0\0\0\
    \x02\0\0\0\0\0\0\0\xa7g\xe2\x02LX\xe1\x87\
    \0\0\0\0\0\0\0\0\0\0\0\0\0\0\0\0\
    \0\0\x01\x10\0\0\0\0";

const KEYED_TEXT: &[u8] =
    b"{\"bits\":{\"bits\":[268500992]},\"num_hashes_minus_one\":1,\"k0\":1,\"k1\":2}\n";

/// What is reported about a read that fails, by the first of the kinds.
pub(crate) const UNREAD: &'static str = "odd: it can't be read: broken pipe";

// The same, of each kind.
const TOLD: [&'static str; 6] = [
    UNREAD,
    "odd: it can't be read: there is no such file",
    "odd: it can't be read: permission denied",
    "odd: it can't be read: timed out",
    "odd: it can't be read: unexpected end of file",
    "odd: it can't be read: other error",
];

/// How the input of a row is read of which so many bytes come, and why the act stops: where a read
/// fails behind them, it is of each kind in turn.
pub(crate) fn reading_of(row: &Row, end: usize) -> (Reading, &'static str) {
    if row.5 != UNREAD {
        return (row.2, row.5);
    }
    let reading = Reading {
        fails: Some(KINDS[end % 6]),
        ..row.2
    };
    (reading, TOLD[end % 6])
}

/// What is done over an input, and written.
#[derive(Clone, Copy)]
pub(crate) enum Act {
    /// The file of the filter of its keys, and of those of another input.
    Build,
    /// Those of its keys that are "a".
    Ask,
    /// The file that it is.
    Load,
    /// The text of the file that it is.
    LoadText,
    /// The file of the filter of "a", and its text.
    Put,
    PutText,
}

/// An act, its input, and how that is read and the output is taken; what is written, and why the
/// act stops early.
pub(crate) type Row = (
    Act,
    &'static [u8],
    Reading,
    Writing,
    &'static [u8],
    &'static str,
);

// A row.
macro_rules! act {
    ($act:ident $input:expr, $reading:expr, $writing:expr => $written:expr, $stop:expr) => {
        (Act::$act, $input, $reading, $writing, $written, $stop)
    };
}

/// Acts over odd inputs and outputs.
pub(crate) const ACTS: &'static [Row] = &[
    act! { Build b"b\na", SLOW, NARROW => BOTH, "" },
    act! { Build b"a\nb\n", FAILING, ROOMY => b"", UNREAD },
    act! { Ask b"b\na\nc\na", SLOW, NARROW => b"a\na\n", "" },
    act! { Ask b"a\na\na", FAILING, ROOMY => b"a\na\n", UNREAD },
    act! { Ask b"a\nthe beginning waits", HALVES, ROOMY => b"a\n", "" },
    act! { Ask b"a\na\n", WHOLE, FULL => b"a\na", "the keys can't be written: no space is left" },
    act! { Ask b"a\na\n", WHOLE, STUCK => b"a\na", "the keys can't be written: write zero" },
    act! { Load A, SLOW, NARROW => A, "" },
    act! { Load A, FAILING, ROOMY => b"", UNREAD },
    act! { Load BOTH, WHOLE, ROOMY => BOTH, "" },
    act! { Load TEXT, SLOW, NARROW => A, "" },
    act! { Load TEXT, FAILING, ROOMY => b"", UNREAD },
    act! { Load KEYED_TEXT, SLOW, NARROW => KEYED, "" },
    act! { LoadText KEYED, SLOW, NARROW => KEYED_TEXT, "" },
    act! { Load LINES, SLOW, NARROW => LINES, "" },
    act! { Load LINES, FAILING, ROOMY => b"", UNREAD },
    act! { Load LINES, WHOLE, UNFLUSHED => LINES, "the filter can't be written: broken pipe" },
    act! { Load CUT, WHOLE, ROOMY => b"", "odd: it holds no filter: the file is cut" },
    act! {
        Load LONG, WHOLE, ROOMY =>
        b"", "odd: it holds no filter: the file goes on after its last word"
    },
    act! {
        Load CHANGED, SLOW, ROOMY =>
        b"", "odd: it holds no filter: the seal is wrong: the file was changed"
    },
    act! {
        Load b"fbloom\02", SLOW, ROOMY =>
        b"", "odd: it holds no filter: a version of the file that isn't known"
    },
    act! { Put b"", WHOLE, NARROW => A, "" },
    act! { Put b"", WHOLE, FULL => b"fbl", "the filter can't be written: no space is left" },
    act! { Put b"", WHOLE, STUCK => b"fbl", "the filter can't be written: write zero" },
    act! { Put b"", WHOLE, UNFLUSHED => A, "the filter can't be written: broken pipe" },
    act! { PutText b"", WHOLE, NARROW => TEXT, "" },
    act! { PutText b"", WHOLE, FULL => b"{\"b", "the filter can't be written: no space is left" },
    act! { PutText b"", WHOLE, STUCK => b"{\"b", "the filter can't be written: write zero" },
    act! { PutText b"", WHOLE, UNFLUSHED => TEXT, "the filter can't be written: broken pipe" },
];
