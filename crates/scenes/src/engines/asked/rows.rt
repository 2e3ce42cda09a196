//! What is asked of readers and writers, by tables.
use super::Asked;
use super::Asked::{Flush, Open, Read, Write};

/// A number of words, and the most bytes of a read; what is asked where a file of them is written,
/// and where it is read.
pub(super) type File = (usize, usize, &'static [Asked], &'static [Asked]);

// A row: what is asked where a file is written, and where it is read.
macro_rules! file {
    ($words:literal by $piece:expr => $($written:expr),+; $($read:expr),+) => {
        ($words, $piece, &[$($written),+], &[$($read),+])
    };
}

/// A head has 64 bytes, and a block 512 words. The last read finds the end.
pub(super) const FILES: &'static [File] = &[
    file! { 8 by usize::MAX => Write(64), Write(64); Read(64), Read(64), Read(1) },
    file! { 512 by usize::MAX => Write(64), Write(4096); Read(64), Read(4096), Read(1) },
    file! {
        1032 by usize::MAX =>
        Write(64), Write(4096), Write(4096), Write(64);
        Read(64), Read(4096), Read(4096), Read(64), Read(1)
    },
    file! {
        520 by 2000 =>
        Write(64), Write(4096), Write(64);
        Read(64), Read(4096), Read(2096), Read(96), Read(64), Read(1)
    },
];

/// What is asked where the text of a filter is written.
pub(super) const TEXT: &'static [Asked] = &[Write(60), Write(1), Flush];

// A read of lines.
const BLOCK: Asked = Read(65536);

/// What runs over one input.
#[derive(Clone, Copy)]
pub(super) enum Engine {
    /// `serve`, over a word and three hashes.
    Serve,
    /// `keep_new`, which passes on lines of more than two bytes.
    Keep,
    /// `build`, by two workers.
    Build,
    /// `ask`, for the keys that an empty filter lacks: all.
    Ask,
}

/// What runs, its input, and the most bytes of a read; what is asked.
pub(super) type Row = (Engine, &'static str, usize, &'static [Asked]);

// A row.
macro_rules! run {
    ($engine:ident $input:literal by $piece:expr => $($asked:expr),+) => {
        (Engine::$engine, $input, $piece, &[$($asked),+])
    };
}

/// A reply of `serve` is `false` or `true`, and a word has 16 digits, each with its line's end. The
/// others write a line and then its end.
pub(super) const ROWS: &'static [Row] = &[
    run! {
        Serve "i 1\nc 1\nw\n" by usize::MAX =>
        BLOCK, Write(6), Write(5), Write(17), Flush, BLOCK
    },
    run! {
        Serve "i 1\nc 1\nw\n" by 4 =>
        BLOCK, Write(6), Flush, BLOCK, Write(5), Flush, BLOCK, Write(17), Flush, BLOCK
    },
    run! { Serve "i 1\nc 1" by 6 => BLOCK, Write(6), Flush, BLOCK, BLOCK, Write(5), Flush },
    run! {
        Serve "w\nc 1\nw\n" by 6 =>
        BLOCK, Write(17), Write(6), Flush, BLOCK, Write(17), Flush, BLOCK
    },
    run! {
        Keep "ab\nab\nc\n" by usize::MAX =>
        Open, BLOCK, Write(2), Write(1), Write(1), Write(1), Flush, BLOCK, Open
    },
    run! {
        Keep "ab\nc" by 3 =>
        Open, BLOCK, Write(2), Write(1), Flush, BLOCK, BLOCK, Write(1), Write(1), Flush, Open
    },
    run! {
        Keep "abc\nabc\nd\n" by 4 =>
        Open, BLOCK, Write(3), Write(1), Flush, BLOCK, Write(3), Write(1), Flush, BLOCK, Write(1),
        Write(1), Flush, BLOCK, Open
    },
    run! { Build "ab\nc\n" by usize::MAX => Open, BLOCK, BLOCK },
    run! { Build "ab\nc" by 3 => Open, BLOCK, BLOCK, BLOCK },
    run! {
        Ask "ab\nc\n" by usize::MAX =>
        Open, BLOCK, Write(2), Write(1), Write(1), Write(1), Flush, BLOCK
    },
    run! {
        Ask "ab\nc" by 3 =>
        Open, BLOCK, Write(2), Write(1), Flush, BLOCK, BLOCK, Write(1), Write(1), Flush
    },
];
