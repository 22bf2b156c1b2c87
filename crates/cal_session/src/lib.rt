//! A session: one connection, from its first octet to its end.
//!
//! Given: a connection, a clock, a pass of the lock round the book, and the users. Gives: how the
//! connection ended, and at which place of the journal each of its requests was answered. A request
//! is read before its turn at the book, and its reply is written after it; one that only reads is
//! answered from a look once the turn was given back. Beside it stands the book
//! that is kept in a file (`Kept`), at which sessions are served as at any desk, and its loading. Used
//! by: what accepts connections, which runs each in a thread, and what runs scripts over a file.
#![tactic(auto)]

mod answering;
mod context;
mod counts;
mod kept;
mod loading;
mod served;
mod service;
mod session;
mod turn;
mod writing;

pub use kept::Kept;
pub use loading::{Loaded, load_kept};
pub use served::{Ended, How, OnEnd, Served};
pub use service::{Service, serve_connection};
pub use session::{serve_behind, serve_on};
