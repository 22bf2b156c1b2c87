//! Content lines both ways (RFC 5545, 3.1).
//!
//! It is given the octets of a text and gives its logical lines, read into names, parameters and
//! values, or the place of the first fault; and it is given a logical line and writes it, folded.
//! The reader of component trees builds on what is read, its printer on what is written.
#![tactic(auto)]

mod line_text;
mod physical;
mod split;
mod write;

pub use split::{LineFault, line_place, split_lines};
pub use write::write_line;
