//! A thread's loop over a filter that threads share under a rule.
ghost use Rattle.std.specs.Prelude.{◌≡◌};

use fastbloom::{Pass, SeatedBloomFilter};

/// Inserts each hash by this pass, and counts those that set a bit. The pass finds all of them from
/// then on, and so does every pass that meets it.
pub fn insert_hashes(filter: &SeatedBloomFilter, pass: &mut Pass, hashes: &[u64]) -> u64
    requires { pass.old.filter ≡ filter.now.table }
    ensures { pass.new.filter ≡ pass.old.filter }
{
    let mut new = 0u64;
    'hashes: for hash in hashes {
        if !filter.insert_hash_as(pass, *hash) {
            new = new.saturating_add(1);
        }
    }
    new
}
