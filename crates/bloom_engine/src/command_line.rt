//! The arguments of the program.
ghost use Rattle.std.specs.Prelude.{◌≡◌, ◌≤◌, ◌^◌, map, string_bytes, IfOk, IfSome, IsOkUnless};
ghost use Rattle.std.specs.Result.{result_ok};
ghost use Rattle.bloom_engine.specs.Arguments.{asked_of, within_limits};

use crate::fault::Fault;
use crate::number::number;

// The greatest number of words that the program takes.
const MAX_WORDS: u64 = 1_048_576;

/// The numbers of words and hashes that the words after the program's name are.
///
/// # Errors
/// `Usage` where they aren't two numbers of 1 to 20 digits, or one is past its limit.
pub fn arguments(args: &[String]) -> Result<(usize, u32), Fault>
    ensures ok { result_ok result ≡ asked_of (map string_bytes args.now) }
    ensures limits { IfOk result (λ asked. (1 ≤ asked.0) × (asked.0 ≤ 2 ^ 20)) }
    ensures err { IsOkUnless result Fault.Usage }
{
    match args {
        [words, hashes] => {
            both_in_limits(number(words.as_bytes()), number(hashes.as_bytes())).ok_or(Fault::Usage)
        }
        _ => Err(Fault::Usage),
    }
}

// Both numbers, where there are two and both are within their limits.
fn both_in_limits(words: Option<u64>, hashes: Option<u64>) -> Option<(usize, u32)>
    ensures value { result ≡ within_limits words hashes }
    ensures limits { IfSome result (λ asked. (1 ≤ asked.0) × (asked.0 ≤ 2 ^ 20)) }
{
    let words = words?;
    let hashes = hashes?;
    if words < 1 || words > MAX_WORDS || hashes > 4_294_967_295 {
        return None;
    }
    Some((words as usize, hashes as u32))
}
