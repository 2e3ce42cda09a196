//! The text that lines write.
ghost use Rattle.std.specs.Prelude.{◌≡◌, ◌++◌, ◌∷◌, [], ◌<◌, length, OnOk, IsOkUnless};
ghost use Rattle.std.specs.Io.KnownBytes.{Appends};
ghost use Rattle.bloom_parts.specs.Content.{content};
ghost use Rattle.bloom_engine.specs.Texts.{hex_digit_of, hex_text, words_text, reply_text, words_with_content};

use crate::fault::Fault;
use std::io::Write;

fn put<W: Write>(output: &mut W, text: &[u8]) -> Result<(), Fault>
    ensures text { OnOk result (Appends (W.contents output.old) (W.contents output.new) text.now) }
    ensures fault { IsOkUnless result Fault.Output }
{
    output.write_all(text).map_err(|_| Fault::Output)
}

/// Writes a reply on a line.
pub fn put_reply<W: Write>(output: &mut W, reply: bool) -> Result<(), Fault>
    ensures text { OnOk result
        (Appends (W.contents output.old) (W.contents output.new) (reply_text reply)) }
    ensures fault { IsOkUnless result Fault.Output }
{
    if reply {
        put(output, b"true\n")
    } else {
        put(output, b"false\n")
    }
}

/// Writes each word on a line.
#[tactic(auto, using(crate::proofs::WordLemmas::words_of_content))]
pub fn put_words<W: Write>(output: &mut W, words: &[u64]) -> Result<(), Fault>
    ensures text { OnOk result
        (Appends (W.contents output.old) (W.contents output.new) (words_text words.now)) }
    ensures same { words_with_content (content words.now) (length words.now) ≡ words.now }
    ensures fault { IsOkUnless result Fault.Output }
{
    'words: for word in words {
        put(output, &hex_line(*word))?;
    }
    Ok(())
}

// The sixteen digits of a word, and the end of the line.
fn hex_line(word: u64) -> [u8; 17]
    ensures { result ≡ hex_text 16 word ++ 10 ∷ [] }
{
    let mut text = [b'\n'; 17];
    'digits: for at in 0..16 {
        text[at] = hex_digit(((word >> (60 - 4 * at)) % 16) as u8);
    }
    text
}

fn hex_digit(digit: u8) -> u8
    requires { digit < 16 }
    ensures { result ≡ hex_digit_of digit }
{
    if digit < 10 {
        b'0' + digit
    } else {
        b'a' - 10 + digit
    }
}
