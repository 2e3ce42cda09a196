//! The texts of all errors, as the pages of the library and of the programs have them.
use crate::row_reports::{has_text, tell_row};
use fastbloom::{FileError, FilterError, GrowingError, LinesError};
use lines::Reason;
use std::alloc::Global;
use std::io::ErrorKind;
use summaries_engine::Stop;

// An error.
enum AnyError {
    Filter(FilterError),
    Lines(LinesError),
    Growing(GrowingError),
    File(FileError),
    Stream(Reason),
    Bloom(bloom_engine::Fault),
    Duplicates(duplicates_engine::Fault),
}

// A row.
macro_rules! text {
    ($kind:ident($error:expr) => $text:literal) => {
        (AnyError::$kind($error), $text)
    };
}

const TEXTS: &'static [(AnyError, &'static str)] = &[
    text! { Filter(FilterError::ZeroBits) => "zero bits" },
    text! { Filter(FilterError::EmptyWords) => "no words" },
    text! { Filter(FilterError::TooManyWords) => "too many words" },
    text! { Filter(FilterError::ZeroRate) => "rate with a zero part" },
    text! { Filter(FilterError::SizeOverflow) => "size too large" },
    text! { Filter(FilterError::Memory) => "no memory" },
    text! { Filter(FilterError::HashCount) => "hash count too large" },
    text! { Filter(FilterError::Worker) => "no worker" },
    text! { Lines(LinesError::EmptyWords) => "no words" },
    text! { Lines(LinesError::TooManyWords) => "too many words" },
    text! { Lines(LinesError::PartOfALine) => "words that are no whole lines" },
    text! { Growing(GrowingError::RateOverflow) => "lower part of the rate too large" },
    text! { Growing(GrowingError::TooManyItems) => "too many items" },
    // A refusal of the builders keeps its text.
    text! { Growing(GrowingError::Filter(FilterError::TooManyWords)) => "too many words" },
    text! { File(FileError::NotAFilter) => "not a filter" },
    text! { File(FileError::Version) => "a version of the file that isn't known" },
    text! { File(FileError::HashCount) => "hash count out of range" },
    text! { File(FileError::EmptyWords) => "no words" },
    text! { File(FileError::TooManyWords) => "too many words" },
    text! { File(FileError::Cut) => "the file is cut" },
    text! { File(FileError::TooLong) => "the file goes on after its last word" },
    text! { File(FileError::Reserved) => "a reserved byte isn't zero" },
    text! { File(FileError::Blocked) => "the file has a blocked filter" },
    text! { File(FileError::NotBlocked) => "the file's filter isn't blocked" },
    text! { File(FileError::PartOfALine) => "words that are no whole lines" },
    text! { File(FileError::Seal) => "the seal is wrong: the file was changed" },
    text! { File(FileError::Memory) => "no memory" },
    text! { File(FileError::Input(ErrorKind::BrokenPipe)) => "input failed: broken pipe" },
    text! { Stream(Reason(ErrorKind::NotFound)) => "there is no such file" },
    text! { Stream(Reason(ErrorKind::IsADirectory)) => "it is a folder" },
    text! { Stream(Reason(ErrorKind::StorageFull)) => "no space is left" },
    text! {
        Stream(Reason(ErrorKind::Uncategorized)) =>
        "bad file descriptor, or input/output error"
    },
    text! { Stream(Reason(ErrorKind::BrokenPipe)) => "broken pipe" },
    text! { Bloom(bloom_engine::Fault::Usage) => "usage: bloom WORDS HASHES" },
    text! { Bloom(bloom_engine::Fault::Line(1)) => "line 1: bad command" },
    text! {
        Bloom(bloom_engine::Fault::Line(u64::MAX)) =>
        "line 18446744073709551615: bad command"
    },
    text! { Bloom(bloom_engine::Fault::Memory) => "no memory" },
    text! { Bloom(bloom_engine::Fault::Input) => "input failed" },
    text! { Bloom(bloom_engine::Fault::Output) => "output failed" },
    text! { Duplicates(duplicates_engine::Fault::TooLong(7)) => "line 7 is too long" },
    text! { Duplicates(duplicates_engine::Fault::Memory) => "out of memory" },
    text! { Duplicates(duplicates_engine::Fault::Full) => "the filter can take no more lines" },
    text! {
        Duplicates(duplicates_engine::Fault::Open(ErrorKind::WriteZero)) =>
        "it can't be opened: write zero"
    },
    text! {
        Duplicates(duplicates_engine::Fault::Input(ErrorKind::WriteZero)) =>
        "it can't be read: write zero"
    },
    text! {
        Duplicates(duplicates_engine::Fault::Output(ErrorKind::WriteZero)) =>
        "the output can't be written: write zero"
    },
];

// Whether an error has its text.
fn has_its_text(alloc: Global, row: &(AnyError, &str)) -> bool {
    let (any, text) = row;
    match any {
        AnyError::Filter(error) => has_text(alloc, error, text),
        AnyError::Lines(error) => has_text(alloc, error, text),
        AnyError::Growing(error) => has_text(alloc, error, text),
        AnyError::File(error) => has_text(alloc, error, text),
        AnyError::Stream(error) => has_text(alloc, error, text),
        AnyError::Bloom(error) => has_text(alloc, error, text),
        AnyError::Duplicates(error) => has_text(alloc, error, text),
    }
}

// Whether a stop has its text.
fn is_stopped(alloc: Global, stop: Stop, text: &str) -> bool {
    has_text(alloc, &stop, text)
}

#[test]
fn each_error_has_its_text(rt: HostRuntime) {
    for (i, row) in TEXTS.iter().enumerate() {
        assert!(rt; tell_row(&rt, i, has_its_text(rt.alloc(), row)));
    }
    assert!(rt; is_stopped(rt.alloc(), Stop::Memory, "out of memory"));
}
