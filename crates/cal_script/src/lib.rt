//! Scripts: frames of octets in, and frames of replies out.
//!
//! Given: the words of the command `script`, and files, an input and an output that lie outside.
//! Gives: how the run ended. The replies to the requests that the input's frames complete on sixteen
//! connections go to the output; the frames of workers make claims of the book, expand them and
//! publish them. Used by: the program.
#![tactic(auto)]

mod answering;
mod command;
mod connections;
mod frame;
mod frames;
mod head;
mod laws;
mod number;
mod reply_frame;
mod replying;
mod running;
mod script;
mod slots;
mod split;
mod users;
mod words;

pub use command::run_script;
pub use command_ends::ScriptEnd;
pub use laws::{readers_see_alike, script_laws};
pub use running::{FrameEnd, FramesOn, frames_on, run_frames};
pub use users::{NoUsers, take_users};
