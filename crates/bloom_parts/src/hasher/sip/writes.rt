//! The writes of the hasher, and its hash. A whole number counts as its bytes, the lowest first.
ghost use Rattle.std.specs.Prelude.{◌≡◌, ◌%◌, fold};
ghost use Rattle.std.specs.Hash as fed;
ghost use Rattle.std.specs.Int.{w8, w16, w32, w64, w128, to_le_bytes, cast_unsigned};
ghost use Rattle.bloom_parts.specs.Hashed as hashed;
ghost use Rattle.bloom_parts.specs.Hashed.{Takes, Answers};

use super::RandomDefaultHasher;
use std::hash::Hasher;

impl RandomDefaultHasher {
    // The hasher after it has taken in bytes, as by `write`. It isn't inlined, and takes and gives
    // the hasher by value, so that a hasher stays in registers on the common path of its callers.
    #[inline(never)]
    fn written_apart(self, bytes: &[u8]) -> Self
        ensures state { result ≡ hashed.write self bytes.now }
        ensures taken { Takes self result bytes.now }
    {
        let mut written = self;
        written.write(bytes);
        written
    }
}

impl Hasher for RandomDefaultHasher {
    ghost write = { hashed.write };

    ghost finish = { hashed.finish };

    #[inline]
    fn finish(&self) -> u64
        ensures state { result ≡ hashed.finish self.now }
        ensures hash { Answers self.now result }
    {
        let mut last = self.rest;
        last[7] = self.length as u8;
        let mut state = self.state;
        state.absorb(u64::from_le_bytes(last));
        state.answer()
    }

    // Inlined, so that what the hasher keeps stays in registers from the text to its end.
    #[inline(always)]
    fn write(&mut self, bytes: &[u8])
        ensures state { self.new ≡ hashed.write self.old bytes.now }
        ensures taken { Takes self.old self.new bytes.now }
    {
        let held = (self.length % 8) as usize;
        if held == 0 {
            self.push(bytes);
        } else if bytes.len() < 8 - held {
            self.fill(bytes);
        } else {
            let (first, others) = bytes.split_at(8 - held);
            self.fill(first);
            self.push(others);
        }
    }

    #[inline]
    fn write_u8(&mut self, i: u8)
        ensures state { self.new ≡ fold hashed.write self.old (fed.u8 i) }
        ensures taken { Takes self.old self.new (to_le_bytes w8 i) }
    {
        // A byte never goes past the end of a word.
        prove!(self.length % 8 < 8);
        self.fill(&u8::to_le_bytes(i));
    }

    #[inline]
    #[tactic(auto, using(crate::proofs::NumberLemmas::two_bytes))]
    fn write_u16(&mut self, i: u16)
        ensures state { self.new ≡ fold hashed.write self.old (fed.u16 i) }
        ensures taken { Takes self.old self.new (to_le_bytes w16 i) }
    {
        self.write(&u16::to_le_bytes(i));
    }

    #[inline]
    #[tactic(auto, using(crate::proofs::NumberLemmas::four_bytes))]
    fn write_u32(&mut self, i: u32)
        ensures state { self.new ≡ fold hashed.write self.old (fed.u32 i) }
        ensures taken { Takes self.old self.new (to_le_bytes w32 i) }
    {
        self.write(&u32::to_le_bytes(i));
    }

    // A whole word is taken in at once where no byte is held.
    #[inline]
    #[tactic(auto, using(crate::proofs::NumberLemmas::eight_bytes))]
    fn write_u64(&mut self, i: u64)
        ensures state { self.new ≡ fold hashed.write self.old (fed.u64 i) }
        ensures taken { Takes self.old self.new (to_le_bytes w64 i) }
    {
        if self.length % 8 == 0 {
            self.push_words(&[u64::to_le_bytes(i)]);
        } else {
            *self = self.written_apart(&u64::to_le_bytes(i));
        }
    }

    #[inline]
    #[tactic(auto, using(crate::proofs::NumberLemmas::sixteen_bytes))]
    fn write_u128(&mut self, i: u128)
        ensures state { self.new ≡ fold hashed.write self.old (fed.u128 i) }
        ensures taken { Takes self.old self.new (to_le_bytes w128 i) }
    {
        self.write(&u128::to_le_bytes(i));
    }

    #[inline]
    fn write_usize(&mut self, i: usize)
        ensures state { self.new ≡ fold hashed.write self.old (fed.usize i) }
        ensures taken { Takes self.old self.new (to_le_bytes w64 i) }
    {
        self.write_u64(i as u64);
    }

    #[inline]
    fn write_i8(&mut self, i: i8)
        ensures state { self.new ≡ fold hashed.write self.old (fed.i8 i) }
        ensures taken { Takes self.old self.new (to_le_bytes w8 (cast_unsigned w8 i)) }
    {
        self.write_u8(i.cast_unsigned());
    }

    #[inline]
    fn write_i16(&mut self, i: i16)
        ensures state { self.new ≡ fold hashed.write self.old (fed.i16 i) }
        ensures taken { Takes self.old self.new (to_le_bytes w16 (cast_unsigned w16 i)) }
    {
        self.write_u16(i.cast_unsigned());
    }

    #[inline]
    fn write_i32(&mut self, i: i32)
        ensures state { self.new ≡ fold hashed.write self.old (fed.i32 i) }
        ensures taken { Takes self.old self.new (to_le_bytes w32 (cast_unsigned w32 i)) }
    {
        self.write_u32(i.cast_unsigned());
    }

    #[inline]
    fn write_i64(&mut self, i: i64)
        ensures state { self.new ≡ fold hashed.write self.old (fed.i64 i) }
        ensures taken { Takes self.old self.new (to_le_bytes w64 (cast_unsigned w64 i)) }
    {
        self.write_u64(i.cast_unsigned());
    }

    #[inline]
    fn write_i128(&mut self, i: i128)
        ensures state { self.new ≡ fold hashed.write self.old (fed.i128 i) }
        ensures taken { Takes self.old self.new (to_le_bytes w128 (cast_unsigned w128 i)) }
    {
        self.write_u128(i.cast_unsigned());
    }

    #[inline]
    fn write_isize(&mut self, i: isize)
        ensures state { self.new ≡ fold hashed.write self.old (fed.isize i) }
        ensures taken { Takes self.old self.new (to_le_bytes w64 (cast_unsigned w64 i)) }
    {
        self.write_usize(i.cast_unsigned());
    }
}
