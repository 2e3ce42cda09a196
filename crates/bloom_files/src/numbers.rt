//! Numbers of 64 bits as little-endian bytes.
ghost use Rattle.std.specs.Prelude.{◌≡◌, ◌+◌, ◌*◌, ◌/◌, ◌%◌, ◌<◌, ◌≤◌, ◌++◌, length, vec_len};
ghost use Rattle.std.specs.Vec.{vec_capacity};
ghost use Rattle.bloom_parts.specs.Sip.{whole_words};
ghost use Rattle.bloom_files.specs.File.{bytes_of};
ghost use Rattle.bloom_files.specs.FileRefusals.{number_at};

// The number at an index, counted from 0, or 0 where there are fewer bytes.
pub(crate) fn number_at(bytes: &[u8], place: usize) -> u64
    ensures value { result ≡ number_at bytes.now place }
    ensures past { length bytes.now < 8 * place + 8 → result ≡ 0 }
{
    let (numbers, _rest) = bytes.as_chunks::<8>();
    match numbers.get(place) {
        Some(number) => u64::from_le_bytes(*number),
        None => 0,
    }
}

// Writes numbers over as many bytes as they have.
#[tactic(auto, unfolding(crate::specs::File::bytes_of))]
pub(crate) fn put_numbers(bytes: &mut [u8], numbers: &[u64])
    requires { length bytes.old ≡ 8 * length numbers.now }
    ensures { bytes.new ≡ bytes_of numbers.now }
{
    'numbers: for (place, number) in numbers.iter().enumerate() {
        bytes[8 * place..8 * place + 8].copy_from_slice(&u64::to_le_bytes(*number));
    }
}

// Appends the numbers of bytes, as far as they are whole, to words that have room for them.
pub(crate) fn push_numbers(words: &mut Vec<u64>, bytes: &[u8])
    requires room { vec_len words.old + length bytes.now / 8 ≤ vec_capacity words.old }
    ensures words { words.new.items ≡ words.old.items ++ whole_words bytes.now }
    // The bytes of these numbers are those that were read.
    ensures bytes { length bytes.now % 8 ≡ 0 → bytes_of (whole_words bytes.now) ≡ bytes.now }
    ensures capacity { vec_capacity words.new ≡ vec_capacity words.old }
{
    let (numbers, _rest) = bytes.as_chunks::<8>();
    'numbers: for number in numbers {
        words.push_reserved(u64::from_le_bytes(*number));
    }
}
