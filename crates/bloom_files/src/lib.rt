//! Files of Bloom filters: 64 bytes, and then the words.
//!
//! All numbers are little-endian, of eight bytes each: `fbloom`, 0 and the version `1`; the number
//! of hashes; the number of words; the key's two words; the seal; the number of the layout of the
//! words, which is 1 for lines and else 0; a zero; then the words.
//!
//! - `filter`: the calls of a filter on its file, for Bloom filters (`plain`) and blocked ones
//!   (`blocked`).
//! - `bytes`, `streams`: files in memory, and of readers and writers: a head and words.
//! - `head`: the head of a file, and its seal, over numbers of 64 bits as bytes (`numbers`).
//! - `layout`: how the words lie.
//! - `error`: why bytes are no file.
//! - `laws`: the law of files.
#![tactic(auto)]

mod blocked;
mod bytes;
mod error;
mod filter;
mod head;
pub mod laws;
mod layout;
mod numbers;
mod plain;
mod streams;

pub use bytes::{parts_from_bytes, parts_to_bytes};
pub use error::FileError;
pub use filter::FilterFile;
pub use head::{Head, head_bytes, head_bytes_in, read_head, read_head_in, right_seal, seal};
pub use layout::Layout;
pub use streams::{read_parts, write_parts};
