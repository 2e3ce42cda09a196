//! Looking ahead at lines that wait, so that the memory brings what the sieve has of them side by
//! side. The length and the hash of each are kept until it is taken.
ghost use Rattle.std.specs.Prelude.{◌≡◌, ◌≤◌, [], ◌∷◌, take, length, MatchOption};
ghost use Rattle.duplicates_engine.specs.Ahead.{AreLookedAt};

use crate::sieve::Sieve;
use lines::first_end;
use std::marker::Model;

// How many lines are looked at together: what is found of them are the bits of a word.
const LINES_TOGETHER: usize = 64;

/// What is known of a line that waits whole: how many bytes it has, without its end, and its hash.
#[derive(Clone, Copy)]
pub struct Looked {
    pub length: usize,
    pub hash: u64,
}

/// The lines that were looked at ahead and not taken yet, the next one first.
#[derive(Drop)]
pub struct Ahead {
    lines: [Looked; LINES_TOGETHER],
    hashes: [u64; LINES_TOGETHER],
    // Nothing reads it. The compiler can't tell that, so it keeps the look-ups.
    found: [u64; 1],
    at: usize,
    count: usize,
}

impl Model for Ahead {
    ghost use Rattle.std.specs.Prelude.{◌≤◌, List, take, drop};
    ghost use Rattle.duplicates_engine.specs.declared.ahead.Looked.{Looked};

    ghost Value = { List Looked };

    ghost view = { λ a. drop a.at (take a.count a.lines) };

    ghost invariant = { λ a. (a.at ≤ a.count) × (a.count ≤ 64) };
}

impl Ahead {
    /// No line was looked at.
    pub fn new() -> Self
        ensures { result ≡ [] }
    {
        Ahead {
            lines: [Looked { length: 0, hash: 0 }; LINES_TOGETHER],
            hashes: [0; LINES_TOGETHER],
            found: [0],
            at: 0,
            count: 0,
        }
    }

    /// Gives what is known of the next line that waits. It looks ahead where nothing is known any
    /// more, if that saves time.
    #[inline(always)]
    pub fn next<V: Sieve, const END: u8>(
        &mut self,
        sieve: &V,
        longest: usize,
        waiting: &[u8],
    ) -> Option<Looked>
        requires { AreLookedAt (V.has_hash sieve.now) END longest waiting.now self.old }
        ensures { MatchOption result (self.new ≡ [])
            (λ l. AreLookedAt (V.has_hash sieve.now) END longest waiting.now (l ∷ self.new)) }
    {
        if self.at < self.count {
            return self.take_first();
        }
        if !sieve.looks_ahead() {
            return None;
        }
        self.look_at::<V, END>(sieve, longest, waiting);
        self.take_first()
    }

    // Takes the first line that was looked at.
    #[inline(always)]
    fn take_first(&mut self) -> Option<Looked>
        ensures { MatchOption result ((self.old ≡ []) × (self.new ≡ []))
            (λ l. self.old ≡ l ∷ self.new) }
    {
        if self.at >= self.count {
            return None;
        }
        let looked = self.lines[self.at];
        self.at += 1;
        Some(looked)
    }

    // Looks at the first lines of the bytes that wait. It stands apart, so that what it finds is
    // written.
    #[inline(never)]
    fn look_at<V: Sieve, const END: u8>(&mut self, sieve: &V, longest: usize, waiting: &[u8])
        ensures { AreLookedAt (V.has_hash sieve.now) END longest waiting.now self.new }
    {
        let count = find_lines::<V, END>(
            sieve,
            longest,
            waiting,
            &mut self.lines,
            &mut self.hashes,
        );
        self.at = 0;
        self.count = count;
        sieve.look_up(&self.hashes[..count], &mut self.found);
    }
}

// Finds the lengths and hashes of the first lines of the bytes, and returns of how many lines.
fn find_lines<V: Sieve, const END: u8>(
    sieve: &V,
    longest: usize,
    waiting: &[u8],
    lines: &mut [Looked; LINES_TOGETHER],
    hashes: &mut [u64; LINES_TOGETHER],
) -> usize
    ensures lines { AreLookedAt (V.has_hash sieve.now) END longest waiting.now
        (take result lines.new) }
    ensures count { result ≤ 64 }
{
    let mut rest = waiting;
    let mut count: usize = 0;
    'lines: while count < LINES_TOGETHER {
        let Some(length) = first_end::<END>(rest) else {
            break;
        };
        if length > longest {
            break;
        }
        let (line, others) = rest.split_at(length);
        let hash = sieve.hash_of(line);
        lines[count] = Looked { length, hash };
        hashes[count] = hash;
        rest = &others[1..];
        count += 1;
    }
    count
}
