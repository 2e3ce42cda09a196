//! The words of a bit vector, one after the other.
ghost use Rattle.std.specs.Prelude.{◌≡◌, ℕ, List, length, Some, IfSome};
ghost use Rattle.std.specs.Iterator.{UpTo, YieldsFirst, at_most, item_count};
ghost use Rattle.std.specs.Iterator.SizeHint.{IsWithinCount};

use std::marker::Model;

/// The words of a bit vector, by value. Contracts see the list of the words that are left.
#[derive(Debug, Drop)]
pub struct Words<'a> {
    rest: &'a [u64],
}

impl<'a> Model for Words<'a> {
    ghost Value = { List ℕ };

    ghost view = { λ w. w.rest.now };
}

impl<'a> Words<'a> {
    // The words of a slice.
    pub(super) fn new(words: &'a [u64]) -> Self
        ensures { result ≡ words.now }
    {
        Words { rest: words }
    }
}

impl<'a> Iterator for Words<'a> {
    type Item = u64;

    ghost next_gives = { YieldsFirst (λ w. w) };

    ghost remaining = { item_count (λ w. w) };

    fn next(&mut self) -> Option<u64> {
        let (first, others) = self.rest.split_first()?;
        self.rest = others;
        Some(*first)
    }

    // A copy asks for its room at once.
    fn size_hint(&self) -> (usize, Option<usize>)
        ensures lower { IsWithinCount result.0 (at_most (length self.now)) }
        ensures upper { IfSome result.1 (UpTo (at_most (length self.now))) }
        ensures exact { (result.0 ≡ length self.now) × (result.1 ≡ Some result.0) }
    {
        (self.rest.len(), Some(self.rest.len()))
    }
}
