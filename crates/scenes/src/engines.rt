//! Tests of the engines of the programs, over readers, writers and sieves that fail or are odd.
mod asked;
pub(crate) mod bloom;
mod duplicates;
pub(crate) mod faulty;
mod summaries;
