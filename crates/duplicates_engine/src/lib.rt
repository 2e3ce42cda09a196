//! Writes each line of its inputs that is certainly new, by a sieve of those before it.
//!
//! - `keep`: `keep_new`, over any sieve, inputs and writer.
//! - `sieve`: what tells of a line whether it may have come before: a filter that is plain
//!   (`plain`), blocked (`blocked`), growing (`growing`) or rotating (`rotating`).
//! - `options`, `output`: what a run is to do, and how it writes lines.
//! - `ahead`: looking ahead at lines that wait, for the memory's sake. Each line is hashed once.
//! - `inputs`, `opened`: inputs, one after the other, and the one that is open; `steps` goes from
//!   line to line and from input to input.
//! - `tally`, `counted`, `progress`: counts of lines, and who is told of them and warned.
//! - `fault`: why a run ends early.
//! - `laws`: the laws of sieves.
#![tactic(auto)]

mod ahead;
mod blocked;
mod counted;
mod fault;
mod growing;
mod inputs;
mod keep;
pub mod laws;
mod opened;
mod options;
mod output;
mod plain;
mod progress;
mod rotating;
mod sieve;
mod steps;
mod tally;

pub use fault::Fault;
pub use inputs::Inputs;
pub use keep::keep_new;
pub use options::{Options, Written};
pub use progress::Progress;
pub use sieve::Sieve;
pub use tally::{Tally, Total};
