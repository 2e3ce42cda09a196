//! Filters in files, in either form.
ghost use Rattle.std.specs.Prelude.{◌≤◌, IfErr, IfOk};
ghost use Rattle.summaries_engine.specs.Answers.{IsKeyed};
ghost use Rattle.summaries_engine.specs.Kinds.{parts_of};
ghost use Rattle.summaries_engine.specs.Loaded.{IsUnloaded};

use crate::key_files::STANDARD;
use std::fs;
use std::rt::Files;
use summaries_engine::{AnyFilter, Form, Shelf, Stop, load, unread};

/// The filter of a file, or of standard input, by its name as it is reported, and its form. It may
/// have at most this many hashes.
///
/// # Errors
/// Out of memory, and where the file can't be read, or holds no filter, or one with more hashes;
/// each but the first tells the name.
pub fn load_named<R: Files + Input + AllocGlobal>(
    rt: &R,
    name: &str,
    most: u32,
) -> Result<(AnyFilter, Form), Stop>
    ensures keyed { IfOk result (λ read. IsKeyed read.0) }
    ensures few { IfOk result (λ read. (parts_of read.0).hashes ≤ most) }
    ensures failed { IfErr result (IsUnloaded name.now most) }
{
    if name == STANDARD {
        return load(rt.alloc(), name, most, &mut rt.reader());
    }
    match fs::open(rt, name) {
        Ok(mut file) => load(rt.alloc(), name, most, &mut file),
        Err(error) => Err(unread(name, error)),
    }
}

/// The files of a system, each with one filter, and standard input among them.
#[derive(Drop)]
pub struct Disk<'a, R> {
    pub rt: &'a R,
    /// The most hashes that a filter may have.
    pub most: u32,
}

impl<'a, R: Files + Input + AllocGlobal> Shelf for Disk<'a, R> {
    // What files hold is known to no contract; but a filter that is loaded has few hashes.
    ghost has = { λ disk name filter. (parts_of filter).hashes ≤ disk.most };

    // Each error but that of memory tells the name.
    ghost fails = { λ disk name stop. IsUnloaded name disk.most stop };

    fn load(&self, name: &str) -> Result<AnyFilter, Stop> {
        let (filter, _form) = load_named(self.rt, name, self.most)?;
        Ok(filter)
    }
}
