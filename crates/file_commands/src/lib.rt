//! The commands over calendar files, `expand` and `check`.
//!
//! Given: the words of a command, and files and an output that lie outside. Gives: how the command
//! ended, and the line that tells why a file is not taken. What a file has goes to the output, as
//! `ics_tool` tells it. Used by: the program.
#![tactic(auto)]

mod check;
mod expand;
mod file_end;

pub use check::run_check;
pub use expand::run_expand;
pub use file_end::ToolEnd;
