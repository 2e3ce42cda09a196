//! The four words of SipHash, and what its rounds make of them.
ghost use Rattle.std.specs.Prelude.{◌≡◌};
ghost use Rattle.bloom_parts.specs.States.{state_words};
ghost use Rattle.bloom_parts.specs.Sip as sip;

// The internal state of SipHash.
#[derive(Clone, Copy, Debug)]
pub(super) struct State {
    pub(super) v0: u64,
    pub(super) v1: u64,
    pub(super) v2: u64,
    pub(super) v3: u64,
}

impl State {
    // The state before the first word, under a key.
    #[inline]
    #[tactic(auto, unfolding(crate::specs::Sip::start))]
    pub(super) fn new(k0: u64, k1: u64) -> Self
        ensures { state_words result ≡ sip.start k0 k1 }
    {
        State {
            v0: k0 ^ 0x736f_6d65_7073_6575,
            v1: k1 ^ 0x646f_7261_6e64_6f6d,
            v2: k0 ^ 0x6c79_6765_6e65_7261,
            v3: k1 ^ 0x7465_6462_7974_6573,
        }
    }

    // One SipRound.
    #[inline(always)]
    #[tactic(auto, unfolding(crate::specs::Sip::round))]
    fn round(self) -> Self
        ensures { state_words result ≡ sip.round (state_words self) }
    {
        let mut next = self;
        next.v0 = next.v0.wrapping_add(next.v1);
        next.v2 = next.v2.wrapping_add(next.v3);
        next.v1 = next.v1.rotate_left(13) ^ next.v0;
        next.v3 = next.v3.rotate_left(16) ^ next.v2;
        next.v0 = next.v0.rotate_left(32);
        next.v2 = next.v2.wrapping_add(next.v1);
        next.v0 = next.v0.wrapping_add(next.v3);
        next.v1 = next.v1.rotate_left(17) ^ next.v2;
        next.v3 = next.v3.rotate_left(21) ^ next.v0;
        next.v2 = next.v2.rotate_left(32);
        next
    }

    // Takes in a word of the message.
    #[inline(always)]
    #[tactic(auto, unfolding(crate::specs::Sip::absorb))]
    pub(super) fn absorb(&mut self, word: u64)
        ensures { state_words self.new ≡ sip.absorb (state_words self.old) word }
    {
        self.v3 ^= word;
        *self = self.round();
        self.v0 ^= word;
    }

    // The hash, after the last word.
    #[inline]
    #[tactic(auto, unfolding(crate::specs::Sip::answer))]
    pub(super) fn answer(self) -> u64
        ensures { result ≡ sip.answer (state_words self) }
    {
        let mut last = self;
        last.v2 ^= 0xff;
        let end = last.round().round().round();
        end.v0 ^ end.v1 ^ end.v2 ^ end.v3
    }
}
