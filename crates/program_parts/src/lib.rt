//! What the programs `duplicates` and `summaries` share.
//!
//! - `rows`: arguments as rows of a table, of which `clap` makes its own.
//! - `values`: rates and keys among them.
//! - `inputs`: whether an input is the output.
//! - `output`, `target`: standard output, a stream, or a file that takes the place of another.
//! - `one_line`: what is told, on one line.
#![tactic(auto)]

mod inputs;
mod one_line;
mod output;
mod rows;
mod target;
mod values;

pub use inputs::first_output;
pub use one_line::OneLine;
pub use output::{Output, Writer, close, open_output};
pub use rows::{Kind, Row, arguments_of};
pub use values::{key_of, rate_of};

/// The version that the programs tell: that of the Rust crate that the library was made from.
pub const VERSION: &str = "0.17.0";
