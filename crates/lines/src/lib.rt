//! The lines of a reader, one after the other, in constant memory; bytes, read and written whole.
//!
//! - `reader`: `LineReader`, which reads into a block of bytes (`block`). A line that waits whole
//!   stays there; another is joined piece by piece (`piece`).
//! - `reads`: some bytes, or as many as there is room for.
//! - `writer`: a line or some bytes, written as far as the writer takes them.
//! - `reason`: why a stream failed.
#![tactic(auto)]

mod block;
mod piece;
mod reader;
mod reads;
mod reason;
mod writer;

pub use piece::first_end;
pub use reader::{LineReader, LineReaderBy, Next};
pub use reads::{read_full, read_some};
pub use reason::Reason;
pub use writer::{put_bytes, put_line, put_line_by};
