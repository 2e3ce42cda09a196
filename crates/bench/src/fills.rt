//! A filter that workers fill. A round is timed from its start to the whole filter, so threads,
//! memory and unions count.

use crate::keys::hash_of;
use crate::plan::Unit;
use crate::table::{Made, Measured, Rows};
use fastbloom::{Gate, Shape, fill};
use std::alloc::{AllocError, Global};
use std::mem;
use std::sync::Arc;
use std::thread::Threads;

// Lets every worker through at once.
#[derive(Drop)]
struct Open;

impl Gate for Open {
    fn pass(&self, _worker: usize) {}
}

// The hashes of the keys, split into this many parts.
fn parts_of(alloc: Global, keys: u64, parts: u64) -> Result<Vec<Vec<u64>>, AllocError> {
    let size = keys.checked_div(parts).unwrap_or(0);
    let mut cut = Vec::new(alloc);
    'parts: for part in 0..parts {
        let first = size.wrapping_mul(part);
        let mut hashes = Vec::new(alloc);
        'keys: for key in 0..size {
            hashes.push(hash_of(first.wrapping_add(key)))?;
        }
        cut.push(hashes)?;
    }
    Ok(cut)
}

/// The rows of one, two and four workers.
pub const TABLE: [Rows<()>; 1] = [
    row! { (), "fill by workers:", &[1, 2, 4] => Key, "found after it" },
];

/// The hashes of the keys, in a part for each worker.
#[derive(Drop)]
pub struct Calls<'a, R> {
    rt: &'a R,
    keys: u32,
    parts: Vec<Vec<u64>>,
}

impl<'a, R: AllocGlobal + Threads> Measured for Calls<'a, R> {
    type Call = ();

    fn prepare(&mut self, _call: (), workers: u32, _round: u32) -> anyhow::Result<()> {
        self.parts = parts_of(self.rt.alloc(), self.keys as u64, workers as u64)?;
        Ok(())
    }

    fn make(&mut self, _call: (), _workers: u32, _round: u32) -> anyhow::Result<Made> {
        let alloc = self.rt.alloc();
        let shape = Shape::new((self.keys as usize * 10).max(1), 7)?;
        let gate = Arc::new(alloc, Open)?;
        let parts = mem::replace(&mut self.parts, Vec::new(alloc));
        let filter = fill(self.rt, alloc, gate, shape, parts)?;
        Ok(Made::Filled(filter, self.keys as u64))
    }
}

/// No hashes yet.
pub fn calls_for<'a, R: AllocGlobal>(rt: &'a R, keys: u32) -> Calls<'a, R> {
    Calls {
        rt,
        keys,
        parts: Vec::new(rt.alloc()),
    }
}
