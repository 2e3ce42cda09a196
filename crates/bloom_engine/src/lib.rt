//! The service of lines: commands to a Bloom filter, one a line, and the replies to them.
//!
//! - `engine`: `serve`, over any reader and writer: good lines (`line`), what the next one asks for
//!   (`commands`), and the text that it writes (`text`).
//! - `command_line`: the two numbers that the program takes.
//! - `number`: numbers in text.
//! - `fault`: why the program ends early.
#![tactic(auto)]

mod command_line;
mod engine;
mod fault;
mod number;

pub use command_line::arguments;
pub use engine::serve;
pub use fault::Fault;
