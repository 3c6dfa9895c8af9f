//! Bytes in, lines, bytes out: whole inputs up to a limit, their lines one by one, lines of an
//! input that is still being written, and texts out through a loop of its own over `write`.
#![tactic(auto)]

mod feed;
mod input;
pub mod laws;
mod output;
mod split;
mod windows;

pub use feed::next_line;
pub use input::{InputFault, read_limited};
pub use output::{OutputFault, write_bytes, write_parts};
pub use split::{first_line, split_at_newline};
pub use windows::{NextLine, WINDOW_BYTES, Window};
