//! The replies to requests that only read: OPTIONS, GET, HEAD, PROPFIND and REPORT (RFC 9110, 9.3;
//! RFC 4918, 9.1; RFC 3253, 3.6; RFC 4791, 7).
//!
//! Given: a state as a user sees it, the pieces of rows that are held, and a request that only reads.
//! Gives: the one reply that the definitions have for it. Used by: the book, which serves requests.

mod finding;
mod given_zone;
mod reading;
mod reports;

pub(crate) use reading::answer_reading;
