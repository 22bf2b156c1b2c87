//! What becomes of a request that changes something (RFC 4791, 5.3; RFC 4918, 9; RFC 3744, 8.1).
//!
//! Given: a state with its users, as a book shows it, and an event whose request is a PUT, DELETE,
//! MKCALENDAR, PROPPATCH or ACL. Gives: the reply that refuses it, or the change that it asks for and
//! the reply to that. Nothing is changed here. Used by: the book, which makes the change and keeps it.

mod acl;
mod answers;
mod check;
mod conflicts;
mod copies;
mod delete;
mod make;
mod patch;
mod places;
mod put;
mod room;

pub(crate) use check::{ChangeCheck, check_change};
