//! The hasher of SipHash-1-3.
ghost use Rattle.std.specs.Prelude.{◌≡◌, ◌%◌, ◌++◌, [], length, ◌≤◌, ◌+◌};
ghost use Rattle.std.specs.List.{concat};
ghost use Rattle.std.specs.Int.{w64, from_le_bytes};
ghost use Rattle.bloom_parts.specs.Buffers.{AreBytes, IsPadded, held_in};
ghost use Rattle.bloom_parts.specs.Hashed as hashed;
ghost use Rattle.bloom_parts.specs.Hashed.{Hashed};
ghost use Rattle.bloom_parts.specs.Keys.{key_low, key_high};

mod state;
mod words;
mod writes;

use state::State;
use std::marker::Model;

/// SipHash-1-3 of the bytes written, under a key. More bytes may be written after a hash was read.
///
/// It keeps the key, four words, at most seven bytes of a buffer of eight, and a length modulo 256.
#[derive(Clone, Copy, Debug)]
pub struct RandomDefaultHasher {
    k0: u64,
    k1: u64,
    state: State,
    rest: [u8; 8],
    // A whole word, though it is below 256: a byte would be slower to read again.
    length: u64,
}

impl Model for RandomDefaultHasher {
    ghost use Rattle.std.proofs.Common.{ap, sym};
    ghost use Rattle.bloom_parts.specs.Hashed.{SipState};
    ghost use Rattle.bloom_parts.specs.Buffers.{padded, held_in, IsKept};
    ghost use Rattle.bloom_parts.specs.States.{state_words, of_words};

    ghost Value = { SipState };

    ghost view = { λ h. record {
      low = h.k0;
      high = h.k1;
      words = state_words h.state;
      held = held_in h.rest h.length;
      count = h.length;
    } };

    ghost invariant = { λ h. IsKept h.rest h.length };

    ghost inverse = { λ s. record {
      k0 = s.low;
      k1 = s.high;
      state = of_words s.words;
      rest = padded s.held;
      length = s.count;
    } };

    ghost inverse_ok = { λ h is. ap (λ buffer. record h { rest = buffer }) (sym is.padding) };
}

impl RandomDefaultHasher {
    /// A hasher with the key of these bytes, which has taken in nothing.
    #[inline]
    pub fn seeded(seed: &[u8; 16]) -> Self
        ensures { Hashed result (key_low seed.now) (key_high seed.now) [] }
    {
        let [a, b, c, d, e, f, g, h, i, j, k, l, m, n, o, p] = *seed;
        RandomDefaultHasher::keyed(
            u64::from_le_bytes([a, b, c, d, e, f, g, h]),
            u64::from_le_bytes([i, j, k, l, m, n, o, p]),
        )
    }

    // A hasher with this key, which has taken in nothing.
    #[inline]
    pub(super) fn keyed(k0: u64, k1: u64) -> Self
        ensures { Hashed result k0 k1 [] }
    {
        RandomDefaultHasher {
            k0,
            k1,
            state: State::new(k0, k1),
            rest: [0; 8],
            length: 0,
        }
    }

    // The two words of the key.
    #[inline]
    pub(super) fn key(&self) -> (u64, u64)
        ensures low { result.0 ≡ self.now.low }
        ensures high { result.1 ≡ self.now.high }
    {
        (self.k0, self.k1)
    }

    // Takes in bytes that don't go past the end of a word.
    #[inline(always)]
    fn fill(&mut self, bytes: &[u8])
        requires { length self.old.held + length bytes.now ≤ 8 }
        ensures { self.new ≡ hashed.write self.old bytes.now }
    {
        let word = number_with(self.rest, self.length, bytes);
        let held = self.length % 8 + bytes.len() as u64;
        self.length = self.length.wrapping_add(bytes.len() as u64) % 256;
        if held == 8 {
            self.state.absorb(word);
            self.rest = [0; 8];
        } else {
            self.rest = word.to_le_bytes();
        }
    }

    // Takes in bytes where none is held: whole words, and then what remains.
    #[inline(always)]
    fn push(&mut self, bytes: &[u8])
        requires { self.old.held ≡ [] }
        ensures { self.new ≡ hashed.write self.old bytes.now }
    {
        let (words, others) = bytes.as_chunks::<8>();
        self.push_words(words);
        self.fill(others);
    }

    // Takes in whole words where no byte is held.
    #[inline(always)]
    fn push_words(&mut self, words: &[[u8; 8]])
        requires { self.old.held ≡ [] }
        ensures { self.new ≡ hashed.write self.old (concat words.now) }
    {
        let mut state = self.state;
        'words: for word in words {
            state.absorb(u64::from_le_bytes(*word));
        }
        self.state = state;
        self.length = self
            .length
            .wrapping_add((words.len() as u64).wrapping_mul(8))
            % 256;
    }
}

// The number of a buffer, the items of which are bytes.
#[inline(always)]
fn number_of(buffer: [u8; 8]) -> u64
    ensures value { result ≡ from_le_bytes w64 buffer }
    ensures bytes { AreBytes buffer }
{
    u64::from_le_bytes(buffer)
}

// The number of the bytes that a buffer holds and of more bytes behind them, with room for all.
#[inline(always)]
fn number_with(buffer: [u8; 8], count: u64, bytes: &[u8]) -> u64
    requires padding { IsPadded buffer count }
    requires room { count % 8 + length bytes.now ≤ 8 }
    ensures value { result ≡ from_le_bytes w64 (held_in buffer count ++ bytes.now) }
    ensures bytes { AreBytes (held_in buffer count ++ bytes.now) }
{
    let mut word = number_of(buffer);
    let mut held = (count % 8) as u32;
    'bytes: for byte in bytes {
        word |= (*byte as u64) << (8 * held);
        held += 1;
    }
    word
}

impl Default for RandomDefaultHasher {
    ghost is_default = { λ hasher. Hashed hasher 0 0 [] };

    fn default() -> Self {
        RandomDefaultHasher::keyed(0, 0)
    }
}
