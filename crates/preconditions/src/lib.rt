//! What a PUT of a calendar object must meet (RFC 4791, 5.3.2.1).
//!
//! Given: whether the octets were sent as a calendar, the octets, and the kinds of components that
//! the calendar takes. Gives: the object that the octets are, or the refusal that names the first
//! precondition that they do not meet. What needs no state, reading and counting, may be done before. The crate that keeps the state uses it; whether another object
//! has the same UID, and whether there is room for the change, is looked at there.
#![tactic(auto)]

mod check;
mod content;
mod counted_object;
mod found;
mod precondition;
mod put_reading;

pub use check::{PutCheck, check_put};
pub use put_reading::PutReading;
