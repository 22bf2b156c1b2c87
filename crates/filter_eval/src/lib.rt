//! Whether an object matches the filter of a query (RFC 4791, 9.7 and 9.9).
//!
//! It is given a filter, an object, rows of it, and the zone in which floating times are read; it
//! says whether the object matches, as far as those rows tell. A filter is prepared once for all
//! objects of a query. The crate that answers reports builds on it.
#![tactic(auto)]

mod alarms;
mod asked;
mod components;
mod dated;
mod dates;
mod ends;
mod links;
mod matching;
mod moments;
mod params;
mod place;
mod prepared;
mod props;
mod ranges;
mod ready;
mod stamps;
mod subject;
mod texts;
mod walks;

pub use matching::matches;
pub use prepared::Prepared;
