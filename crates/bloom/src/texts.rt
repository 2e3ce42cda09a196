//! What the program tells of itself.

// How the program is used.
const HELP: &str = "A Bloom filter that carries out commands, one a line

Usage: bloom <WORDS> <HASHES>

Arguments:
  <WORDS>   How many words of 64 bits the filter has: 1 to 1048576
  <HASHES>  How many bits each item sets: 0 to 4294967295, where 0 counts as 1

Lines of standard input:
  i H  Inserts the hash H: prints true if all of its bits were set already, else false
  c H  Prints true if all bits of the hash H are set, else false
  z    Clears every bit, and prints nothing
  w    Prints each word on a line of its own, in sixteen hexadecimal digits, word 0 first

H is a decimal number below 2^64, which the caller makes of an item by any good hash function.

Options:
  -h, --help     Print help
  -V, --version  Print version
";

// The version of all programs and libraries of this repository.
const VERSION: &str = "bloom 0.17.0\n";

/// What an option prints, where it is the only word.
pub fn text_of_option(words: &[String]) -> Option<&'static str> {
    match words {
        [word] => {
            let word = word.as_str();
            if word == "-h" || word == "--help" {
                Some(HELP)
            } else if word == "-V" || word == "--version" {
                Some(VERSION)
            } else {
                None
            }
        }
        _ => None,
    }
}
