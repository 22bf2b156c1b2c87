//! The calendar data that a report shows of an object (RFC 4791, 9.6).
//!
//! Given: the stored octets of an object, the object, rows of it, what is selected, and the zone in
//! which floating times are read. Gives: the octets that are shown: the stored ones where nothing is
//! selected, else the text of the tree that the options (`expand`, `limit-recurrence-set`,
//! `limit-freebusy-set`) and then the picks leave. The crate that answers reports stands on it.
#![tactic(auto)]

mod busy;
mod calendar_data;
mod component_names;
mod ends;
mod expand;
mod instance;
mod kept;
mod left;
mod limit;
mod lines;
mod picks;
mod tree;

pub use calendar_data::{shown, takes_all};
