//! Numbers in text.
ghost use Rattle.std.specs.Prelude.{◌≡◌};
ghost use Rattle.bloom_engine.specs.Lines.{number_of};

// The most digits of a number.
const MOST_DIGITS: usize = 20;

/// The number that a text of 1 to 20 decimal digits is, if it is below 2^64.
#[tactic(auto, using(crate::proofs::NumberLemmas::no_numbers))]
pub fn number(text: &[u8]) -> Option<u64>
    ensures { result ≡ number_of text.now }
{
    if text.is_empty() || text.len() > MOST_DIGITS {
        return None;
    }
    let mut value: u128 = 0;
    'digits: for digit in text {
        if !digit.is_ascii_digit() {
            return None;
        }
        value = value * 10 + u128::from(*digit - b'0');
    }
    u64::try_from(value).ok()
}
