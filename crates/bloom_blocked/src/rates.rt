//! Rates of false positives of lines as they are, over words that lie anywhere.
ghost use Rattle.std.specs.Prelude.{◌≡◌, ◌+◌, ◌*◌, ◌/◌, ◌^◌, ◌<◌, ◌≤◌, length};
ghost use Rattle.std.specs.Int.{div_ceil};
ghost use Rattle.bloom_parts.specs.Brackets.{low_of, high_of};
ghost use Rattle.bloom_parts.specs.Content.{content};
ghost use Rattle.bloom_parts.specs.Counts.{count_on};
ghost use Rattle.bloom_parts.specs.FalsePositives.{BoundsPositives};
ghost use Rattle.bloom_blocked.specs.LineRates.{BoundsLines, BoundsLoadedLines, LineWasLoaded, line_words};

use crate::by_hash::LINE;
use bloom_parts::bit_vector::TurnWords;
use bloom_parts::math::{Bracket, false_pos_of_ones};
use bloom_parts::slices;

// Two bounds of the rate of one line.
fn rate_of_line(words: &[u64], num_hashes: u32) -> Bracket
    requires { length words.now ≡ 8 }
    ensures { BoundsPositives 512 num_hashes (count_on (content words.now) 512) result }
{
    false_pos_of_ones(num_hashes, 512, slices::count_ones(words))
}

// Two bounds of the mean of this many fractions, by the sums of their bounds.
fn mean(low: u128, high: u128, count: usize) -> Bracket
    requires some { 0 < count }
    requires ordered { low ≤ high }
    requires in_range { high ≤ 2 ^ 63 * count }
    ensures low { low_of result ≡ low / count }
    ensures high { high_of result ≡ div_ceil high count }
{
    let count = count as u128;
    Bracket::new((low / count) as u64, high.div_ceil(count) as u64)
}

/// Two bounds of the rate of false positives of the lines of these words: the part of all look-ups,
/// each a draw of a line and of positions in it, for which they return true.
pub fn false_pos_of_lines(words: &[u64], num_hashes: u32) -> Bracket
    requires some { 8 ≤ length words.now }
    requires few { length words.now < 2 ^ 58 }
    ensures { BoundsLines (line_words words.now) (length words.now / 8) num_hashes result }
{
    let lines = words.len() / LINE;
    let mut low: u128 = 0;
    let mut high: u128 = 0;
    'lines: for line in 0..lines {
        let at = LINE * line;
        let rate = rate_of_line(&words[at..at + LINE], num_hashes);
        low += rate.low() as u128;
        high += rate.high() as u128;
    }
    mean(low, high, lines)
}

// The words of a line, as they were loaded.
fn load_line<W: TurnWords>(words: &W, line: usize) -> [u64; LINE]
    requires words { 8 * line + 8 ≤ (W.vector words.now).count }
    requires few { (W.vector words.now).count < 2 ^ 58 }
    ensures { LineWasLoaded (W.vector words.now) line result }
{
    let mut loaded = [0; LINE];
    'words: for word in 0..LINE {
        loaded[word] = words.load(LINE * line + word);
    }
    loaded
}

/// The same of words that threads share, as they were loaded.
pub fn false_pos_of_shared_lines<W: TurnWords>(words: &W, num_hashes: u32) -> Bracket
    requires { 8 ≤ (W.vector words.now).count }
    ensures { let vector = W.vector words.now in
        BoundsLoadedLines vector (vector.count / 8) num_hashes result }
{
    let lines = words.len() / LINE;
    let mut low: u128 = 0;
    let mut high: u128 = 0;
    'lines: for line in 0..lines {
        let rate = rate_of_line(&load_line(words, line), num_hashes);
        low += rate.low() as u128;
        high += rate.high() as u128;
    }
    mean(low, high, lines)
}
