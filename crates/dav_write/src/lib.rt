//! Paths both ways, and XML as it is written (RFC 3986, 2.1 and 3.3; RFC 4918, 14).
//!
//! Given: a path, an element or a refusal. Gives: the octets that stand for it in a reply; and of the
//! target of a request, or an href of a body, the path that it names. What is written is read back as
//! what was given: `read_back_laws` says so of paths and of elements. Used by: the crates that read requests
//! and those that build replies.
#![tactic(auto)]

mod elements;
mod laws;
mod names;
mod paths;
mod refusals;
mod reserved_paths;
mod tags;
mod targets;

pub use elements::write_body;
pub use laws::read_back_laws;
pub use names::{push_end, push_name, push_own_declaration, push_text};
pub use paths::{append_path, write_path};
pub use refusals::{error_body, need_privileges};
pub use targets::read_path;
