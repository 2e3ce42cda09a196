//! What is told on one line.

use std::fmt;
use std::fmt::{Display, Formatter, Write};

/// Shows a value on one line: each control character, as a file's name may have, is escaped.
#[derive(Drop)]
pub struct OneLine<D>(pub D);

// Writes text whose control characters are escaped.
#[derive(Drop)]
struct Escaping<'a, W> {
    to: &'a mut W,
}

impl<W: Write> Write for Escaping<'_, W> {
    fn write_str(&mut self, text: &str) -> fmt::Result {
        'letters: for letter in text.chars() {
            if letter.is_control() {
                write!(self.to, "{}", letter.escape_default())?;
            } else {
                self.to.write_char(letter)?;
            }
        }
        Ok(())
    }
}

impl<D: Display> Display for OneLine<D> {
    fn fmt<W: Write>(&self, f: &mut Formatter<W>) -> fmt::Result {
        let mut escaping = Escaping { to: f };
        write!(escaping, "{}", self.0)
    }
}
