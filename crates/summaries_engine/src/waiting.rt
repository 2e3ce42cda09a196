//! Keys that wait whole in some bytes: many of them are hashed at once.
ghost use Rattle.std.specs.Prelude.{◌≡◌, ◌≤◌, ℕ, length, take, IfSome};
ghost use Rattle.bloom_parts.specs.Keys.{HasKey};
ghost use Rattle.summaries_engine.specs.Batches.{CutsKey, HashesFirst};

use crate::keys::{LONGEST, hash_of};
use fastbloom::DefaultHasher;
use lines::first_end;

/// How many keys are hashed and looked up together, so that the memory brings their words side by
/// side.
pub(crate) const TOGETHER: usize = 256;

/// The first key of some bytes and the bytes behind its end, if that is among them and the key
/// isn't too long.
#[inline(always)]
pub(crate) fn first_key<const END: u8>(bytes: &[u8]) -> Option<(&[u8], &[u8])>
    ensures { IfSome result (λ cut. CutsKey END bytes.now cut.0.now cut.1.now) }
{
    let at = first_end::<END>(bytes)?;
    if at > LONGEST {
        return None;
    }
    let (key, _) = bytes.split_at(at);
    let (_, rest) = bytes.split_at(at + 1);
    Some((key, rest))
}

/// Hashes the first keys of some bytes, each of which has its end there and isn't too long, as far
/// as there is room for hashes. Returns their number, and the bytes behind them.
pub(crate) fn hash_first<'a, const END: u8>(
    builder: &DefaultHasher,
    bytes: &'a [u8],
    hashes: &mut [u64],
) -> (usize, &'a [u8])
    ensures few { result.0 ≤ length hashes.new }
    ensures room { length hashes.new ≡ length hashes.old }
    ensures within { length result.1.now ≤ length bytes.now }
    ensures hashed { (k0 k1 : ℕ) → HasKey builder.now k0 k1 → HashesFirst k0 k1 END
        bytes.now result.1.now (take result.0 hashes.new) }
{
    let mut rest = bytes;
    let mut count: usize = 0;
    'keys: while count < hashes.len() {
        let Some((key, others)) = first_key::<END>(rest) else {
            break;
        };
        hashes[count] = hash_of(builder, key);
        rest = others;
        count += 1;
    }
    (count, rest)
}
