//! What a request asks for, and who asks (RFC 9110; RFC 4918; RFC 4791; RFC 3744; RFC 7617).
//!
//! Given: a request as it came on the wire, and the users. Gives: the user's number and the request
//! with its content read, or the reply that refuses it before anything stored is looked at.
//! `request_laws` says what holds of all requests. Used by: what serves connections and scripts, which
//! hand the request to the book.
#![tactic(auto)]

mod bodies;
mod conditions;
mod credentials;
mod laws;
mod media;
mod methods;
mod requests;
mod tags;

pub use laws::request_laws;
pub use requests::{Asked, read_request};
