//! Bytes as an item.
ghost use Rattle.std.specs.Prelude.{[], ◌∷◌};
ghost use Rattle.std.specs.Cmp.Rules.{hashing};
ghost use Rattle.std.proofs.Common.{rules};

use std::hash::{Hash, Hasher};

/// Bytes as an item that is hashed by one write of just these bytes, with no length before them and
/// no end after them.
///
/// A slice as an item writes its length and then each byte by itself, which is slower. As a part of
/// a larger item take the slice: two texts one after the other write what the joined text does.
#[derive(Clone, Copy, Debug, PartialEq, Eq)]
pub struct Text<'a>(pub &'a [u8]);

impl Hash for Text<'_> {
    ghost hash_input = { λ text. text.0.now ∷ [] };

    ghost respects_eq = { Prim.search (hashing, rules) };

    fn hash<H: Hasher>(&self, state: &mut H) {
        state.write(self.0);
    }
}
