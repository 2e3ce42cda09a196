//! Tests of the filters, of their parts, and of the programs' engines: values from outside, and
//! what no contract says.
//!
//! - `scripted`, `rows`: scripted tests, by tables. A row says how a plain and a shared filter are
//!   made, and what both return from the same calls. `follow` makes them (`scripted_filters`) and
//!   their calls (`answers`, and `memory` for those that take some), and compares all words after
//!   each.
//! - `hashing`, `numbers`, `steps`: hashers, arithmetic and word steps at values from outside, or
//!   worked out by hand.
//! - `recorded`: calls on words that threads share, over words that write every operation down.
//! - `concrete`: generic calls at concrete types.
//! - `odd_hasher`, `odd_iterator`: a hasher that tells no items apart, and an iterator that says
//!   more than comes.
//! - `blocked`, `growing`, `rotating`, `seated`, `fills`, `files`: one kind of filter, or its
//!   files.
//! - `between`: an iterator that clears the filter into which its items go.
//! - `threads`: threads that share a filter.
//! - `room`: requests for memory refused, one or all, by `dev/starve`; `counted`: the bytes of all
//!   requests, by the same.
//! - `long`: lines of which each byte comes and goes alone.
//! - `engines`: the programs' engines over readers, writers and sieves that fail or are odd.
//! - `texts`: the texts of all errors.
//! - `page_examples`: the examples of the pages.
//! - `row_reports`, `drawn`: how a test tells which row is wrong, and hashes for tests.
#![tactic(auto)]

// A scripted test: its name, how its filters are made, and its lines.
#[cfg(test)]
macro_rules! scripted_test {
    ($name:expr, $make:expr, $($line:expr),+ $(,)?) => {
        ScriptedTest {
            name: $name,
            make: $make,
            lines: &[$($line),+],
        }
    };
}

#[cfg(test)]
mod answers;
#[cfg(test)]
mod between;
#[cfg(test)]
mod blocked;
#[cfg(test)]
mod concrete;
#[cfg(test)]
mod counted;
#[cfg(test)]
mod drawn;
#[cfg(test)]
mod engines;
#[cfg(test)]
mod files;
#[cfg(test)]
mod fills;
#[cfg(test)]
mod follow;
#[cfg(test)]
mod growing;
#[cfg(test)]
mod hashing;
#[cfg(test)]
mod long;
#[cfg(test)]
mod memory;
#[cfg(test)]
mod numbers;
#[cfg(test)]
mod odd_hasher;
#[cfg(test)]
mod odd_iterator;
#[cfg(test)]
mod page_examples;
#[cfg(test)]
mod recorded;
#[cfg(test)]
mod room;
#[cfg(test)]
mod rotating;
#[cfg(test)]
mod row_reports;
#[cfg(test)]
mod rows;
#[cfg(test)]
mod scripted;
#[cfg(test)]
mod scripted_filters;
#[cfg(test)]
mod seated;
#[cfg(test)]
mod steps;
#[cfg(test)]
mod texts;
#[cfg(test)]
mod threads;
