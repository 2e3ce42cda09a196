//! Calls on a filter as word steps: each step is one operation on one word.
//!
//! A machine says which step of a call comes next, a store carries steps out, `drive` makes a whole
//! call over a store, and `run` makes the steps of many calls in any order that a schedule says.

pub mod calls;
mod driver;
mod keeping_store;
mod machine;
mod masks;
mod memory;
mod runner;
mod span_store;
mod store;
mod trace;
mod vocabulary;

pub use driver::drive;
pub use machine::Machine;
pub use masks::set_masks;
pub use memory::MemoryStore;
pub use runner::run;
pub use span_store::SpanStore;
pub use store::WordStore;
pub use trace::Trace;
pub use vocabulary::{Call, End, Event, Record, Step};
