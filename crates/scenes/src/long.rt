//! Lines of 70,000 bytes that come, and go, a byte at a time, and as many events and words: of no
//! stream, run or filter more than 2^16 are too many.
use crate::engines::faulty::{NARROW, SLOW, Seen, Sink, Source};
use fastbloom::{Call, Event, FilterError, SeatedBloomFilter, run};
use lines::{LineReader, Next, put_line, read_full};
use std::alloc::Global;
use std::io;

// Whether two lines are read one after the other, and then the end.
fn are_read(alloc: Global, text: &[u8]) -> io::Result<bool> {
    let seen = Seen::new();
    let line = &text[..text.len().min(70_000)];
    let mut source = Source::new(text, SLOW, &seen);
    let mut lines = LineReader::new(alloc, 100_000)?;
    let next = lines.next_line(&mut source)?;
    let is_first = (next == Next::Line) & (lines.line() == line);
    let next = lines.next_line(&mut source)?;
    let is_second = (next == Next::Line) & (lines.line() == line);
    let next = lines.next_line(&mut source)?;
    Ok(is_first & is_second & (next == Next::End) & (seen.ends.get() == 1))
}

// Whether they fill a room of their length.
fn fill_room(alloc: Global, text: &[u8]) -> io::Result<bool> {
    let seen = Seen::new();
    let mut room = vec![in alloc; 0u8; text.len()]?;
    let count = read_full(&mut Source::new(text, SLOW, &seen), room.as_mut_slice())?;
    Ok((count == text.len()) & (room.as_slice() == text))
}

// Whether both are written.
fn are_written(alloc: Global, text: &[u8]) -> io::Result<bool> {
    let seen = Seen::new();
    let mut sink = Sink::new(alloc, NARROW, &seen);
    let line = &text[..text.len().min(70_000)];
    put_line(&mut sink, line)?;
    put_line(&mut sink, line)?;
    Ok(sink.has(text))
}

// Whether all this holds of two lines of 70,000 bytes.
fn are_whole(alloc: Global) -> io::Result<bool> {
    let mut text = vec![in alloc; b'a'; 140_002]?;
    for (i, byte) in text.as_mut_slice().iter_mut().enumerate() {
        if i % 70_001 == 70_000 {
            *byte = b'\n';
        }
    }
    let text = text.as_slice();
    Ok(are_read(alloc, text)? & fill_room(alloc, text)? & are_written(alloc, text)?)
}

#[test]
fn long_lines_come_and_go_a_byte_at_a_time(rt: HostRuntime) {
    assert!(rt; matches!(are_whole(rt.alloc()), Ok(true)));
}

// Whether a run records each of 70,000 events.
fn are_recorded(alloc: Global) -> Result<bool, FilterError> {
    let mut schedule = Vec::new(alloc);
    for party in 0..70_000usize {
        let call = Call::Clear;
        schedule.push(Event::Begin { party, call })?;
    }
    match run(alloc, &[0], 1, 70_000, schedule.as_slice()) {
        Ok(trace) => Ok(trace.records().len() == 70_000),
        Err(refusal) => Err(refusal),
    }
}

// Whether a seated filter is closed to its 70,000 words.
fn are_closed(alloc: Global) -> Result<bool, FilterError> {
    let words = vec![in alloc; 5u64; 70_000]?;
    let (filter, mut passes) = SeatedBloomFilter::new(alloc, words, 2, 1)?;
    let Some(pass) = passes.pop() else {
        unreachable!()
    };
    match filter.close(alloc, pass) {
        Ok(words) => Ok(words.len() == 70_000),
        Err(refusal) => Err(refusal),
    }
}

#[test]
fn many_events_and_words_lack_no_memory(rt: HostRuntime) {
    assert!(rt; matches!(are_recorded(rt.alloc()), Ok(true)));
    assert!(rt; matches!(are_closed(rt.alloc()), Ok(true)));
}
