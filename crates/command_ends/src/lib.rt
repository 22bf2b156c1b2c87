//! How a command of the program ended.
//!
//! Given: nothing. Gives: the status that a command ends with, and a place beside it. It stands below
//! all crates with a command, so that commands which know nothing of each other end alike. Used by:
//! the crates with commands, and the program.
#![tactic(auto)]

/// How a command ended. What a status means, and which of them have a place, each command says.
#[derive(Debug, Clone, Copy, PartialEq, Eq)]
pub struct ScriptEnd {
    /// The status of the program: 0 where all was done.
    pub status: u8,
    /// The place of which the status tells: an octet of a file or of the input, or a number of words;
    /// 0 where it tells of none.
    pub place: u64,
}
