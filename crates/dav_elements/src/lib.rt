//! What the body of a request asks for (RFC 4918, 14; RFC 4791, 9; RFC 3744, 5.5).
//!
//! Given: the root element of a body, and, for an ACL, the users. Gives: the content of the request
//! for each of the five methods whose body is XML, or the refusal of that body. Used by:
//! `dav_request`, which reads the fields of a request and takes the body's content from here.
#![tactic(auto)]

mod aces;
mod acl;
mod calendar_data;
mod filter_faults;
mod filters;
mod parts;
mod picks;
mod properties;
mod ranges;
mod refusals;
mod reports;
mod settings;

pub use acl::read_acl;
pub use properties::read_find;
pub use refusals::{bad_request, dav_refusal, unsupported_media};
pub use reports::read_report;
pub use settings::{read_make, read_patch};
