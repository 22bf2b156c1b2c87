//! What the sessions of the command `load` ask: each puts drawn events into its own calendar, and
//! asks for busy times and for events.
//!
//! Given: how many events a session puts, and its number. Gives: the octets of its requests, of which
//! it is proved that they are read as the definition's requests; and the users, one for each session.
//! Used by: the command `load`, which serves the octets to a session.
#![tactic(auto)]

mod reading;
mod requests;
mod texts;
mod users;

pub use requests::requests_of;
pub use texts::MOMENT;
pub use users::load_users;
