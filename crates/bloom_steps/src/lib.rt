//! Calls on a filter as steps on single words: what they ask, find and reply, in any order.
//!
//! - `vocabulary` of `steps`: calls, steps, and what a run records.
//! - `machine`: a call under way, which asks for its next step and is told what each found.
//! - `driver`: makes all steps of a call over a store, with a loop for each kind of call.
//! - `masks`: an insert by whole words, one step for each.
//! - `store`, `memory`, `span_store`: where steps are carried out: in memory, and on words that
//!   threads share.
//! - `keeping_store`: the same words, where each word that is taken out is kept.
//! - `runner`, `trace`: runs the calls of several threads in a given order, and what a run leaves
//!   behind.
//! - `calls`: the calls on words that threads share.
//! - `laws`: the laws of steps.
#![tactic(auto)]

pub mod laws;
mod steps;

pub use steps::{
    Call, End, Event, Machine, MemoryStore, Record, SpanStore, Step, Trace, WordStore, calls,
    drive, run, set_masks,
};
