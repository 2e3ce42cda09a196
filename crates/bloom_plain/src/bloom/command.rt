//! Lists of commands.
ghost use Rattle.std.specs.Prelude.{◌≡◌, ◌+◌, ◌<◌, ◌≤◌, ◌∷◌, ◌++◌, [], All, map, option_to_list, vec_len, vec_capacity, IfOk, IsOk, OnErr, IsOkUnless};
ghost use Rattle.bloom_plain.specs.CommandOf.{operation_of, Fits};
ghost use Rattle.bloom_plain.specs.Replies.{CarriesOut};

use super::BloomFilter;
use bloom_parts::error::FilterError;
use std::alloc::Global;

/// One call of a filter, as `replay` takes it.
#[derive(Debug, Drop)]
pub enum Command<'a, S> {
    /// `insert_hash`, which replies.
    Insert(u64),
    /// `contains_hash`, which replies.
    Contains(u64),
    /// `clear`.
    Clear,
    /// `union` with this filter.
    Union(&'a BloomFilter<S>),
    /// `intersect` with this filter.
    Intersect(&'a BloomFilter<S>),
}

// Adds the reply of a command, if it has one. There is room for it.
fn add_reply(replies: &mut Vec<bool>, reply: Option<bool>)
    requires { vec_len replies.old < vec_capacity replies.old }
    ensures reply { replies.new.items ≡ replies.old.items ++ option_to_list reply }
    ensures few { vec_len replies.new ≤ vec_len replies.old + 1 }
    ensures room { vec_capacity replies.new ≡ vec_capacity replies.old }
{
    match reply {
        Some(reply) => replies.push_reserved(reply),
        None => {}
    }
}

impl<S> BloomFilter<S> {
    // Carries out one command, and returns its reply if it has one.
    fn carry_out(&mut self, command: &Command<'_, S>) -> Option<bool>
        requires { Fits self.old command.now }
        ensures { CarriesOut self.old (operation_of command.now ∷ []) self.new
            (option_to_list result) }
    {
        match command {
            Command::Insert(hash) => Some(self.insert_hash(*hash)),
            Command::Contains(hash) => Some(self.contains_hash(*hash)),
            Command::Clear => {
                self.clear();
                None
            }
            Command::Union(other) => {
                self.union(other);
                None
            }
            Command::Intersect(other) => {
                self.intersect(other);
                None
            }
        }
    }

    /// Carries out commands in order, and returns one reply for each `Insert` and `Contains`.
    ///
    /// ```
    /// // false and true, where the filter was empty
    /// bloom.replay(alloc, &[Command::Insert(1), Command::Contains(1)])?
    /// ```
    ///
    /// # Errors
    /// `Memory` where there is no room for the replies. It is asked for before the first command,
    /// and of an empty list not at all.
    pub fn replay(
        &mut self,
        alloc: Global,
        list: &[Command<'_, S>],
    ) -> Result<Vec<bool>, FilterError>
        // Each filter that the list names has this one's shape, as `same_shape` tests.
        requires { All (Fits self.old) list.now }
        ensures ok { IfOk result (λ replies.
            CarriesOut self.old (map operation_of list.now) self.new replies.items) }
        ensures succeeds { list.now ≡ [] → IsOk result }
        ensures refused { IsOkUnless result FilterError.Memory }
        ensures unchanged { OnErr result (self.new ≡ self.old) }
    {
        let mut replies = Vec::with_capacity(alloc, list.len())?;
        'commands: for command in list {
            let reply = self.carry_out(command);
            add_reply(&mut replies, reply);
        }
        Ok(replies)
    }
}
