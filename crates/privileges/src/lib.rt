//! The users of the server and what each may do.
//!
//! Given: the octets of a users file, and the grants of a calendar. Gives: the users by number and by
//! name, whether a password is a user's, and the privileges that a user holds. Used by: what reads
//! requests, which asks who sent one; what answers them, which asks what is held.
#![tactic(auto)]

mod digests;
mod grants;
mod lines;
mod reading;
mod users;

pub use grants::held;
pub use reading::{UsersFault, read_users};
pub use users::Users;
