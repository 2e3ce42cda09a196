//! Lists of commands, runs, and lines.
use super::{begin, tell};
use fastbloom::Command::Clear;
use fastbloom::{BloomFilter, Event, FilterError, run};
use lines::{LineReader, Next};
use std::io;

// The replies to six commands, and to twelve.
fn replay(rt: &HostRuntime) -> Result<(), FilterError> {
    let mut filter = BloomFilter::with_num_bits(rt.alloc(), 64)?.hashes(2);
    begin(rt);
    drop(filter.replay(rt.alloc(), &[Clear, Clear, Clear, Clear, Clear, Clear])?);
    tell(rt, "replay", 1, 6);
    let twelve = [
        Clear, Clear, Clear, Clear, Clear, Clear, Clear, Clear, Clear, Clear, Clear, Clear,
    ];
    drop(filter.replay(rt.alloc(), &twelve)?);
    tell(rt, "replay", 1, 12);
    Ok(())
}

// A run over these words, of this many parties and events.
fn run_over(rt: &HostRuntime, words: &[u64; 64], number: usize) -> Result<(), FilterError> {
    let schedule = vec![in rt.alloc(); Event::Go { party: 0, given: 0 }; number]?;
    begin(rt);
    drop(run(rt.alloc(), words, 2, number, schedule.as_slice())?);
    tell(rt, "run", words.len(), number);
    Ok(())
}

// A line of this many bytes, where a line may have ten times as many.
fn read_line(rt: &HostRuntime, length: usize) -> io::Result<bool> {
    let text = vec![in rt.alloc(); b'a'; length]?;
    begin(rt);
    let mut lines = LineReader::new(rt.alloc(), length.saturating_mul(10))?;
    tell(rt, "LineReader::new", 0, length);
    let mut rest = text.as_slice();
    let next = lines.next_line(&mut rest)?;
    tell(rt, "next_line", 0, length);
    Ok((next == Next::Line) & (lines.line().len() == length))
}

#[test]
fn lists_runs_and_lines_are_of_two_sizes(rt: HostRuntime) {
    assert!(rt; replay(&rt).is_ok());
    for number in [8, 1000] {
        assert!(rt; run_over(&rt, &[0; 64], number).is_ok());
    }
    for length in [70_000, 9_000_000] {
        assert!(rt; matches!(read_line(&rt, length), Ok(true)));
    }
}
