//! The body of a reply of status 207, written straight into one buffer (RFC 4918, 13 and 14.16).
//!
//! Given: paths or hrefs of resources, and of each resource a status, or its properties as they are
//! answered one after another, each with a status. Gives: the body, in which the properties of a
//! resource stand by their statuses; and names of properties without those that stand twice. Used by:
//! the crates that answer what is asked of properties, and reports.
#![tactic(auto)]

mod bodies;
mod hrefs;
mod names;
mod propstats;
mod responses;
mod statuses;
mod tags;

pub use bodies::{begin_multistatus, end_multistatus};
pub use hrefs::{push_home, push_href, push_principal};
pub use names::once;
pub use propstats::{push_empty_property, push_text_property};
pub use responses::{Response, push_status_response};
pub use statuses::PropStatus;
pub use tags::{push_close, push_open};
