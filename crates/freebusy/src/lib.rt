//! When a calendar is busy within a range (RFC 4791, 7.10).
//!
//! It is given the busy times of a calendar, each with its class, and a range; it gives the longest
//! runs of one class in the range, in order. Where the times come one by one they are gathered in
//! memory in proportion to the runs. The crate that answers a query for free and busy time gathers the
//! times and prints the runs.
#![tactic(auto)]

mod busy;
mod ends;
mod gathering;
mod left;
mod sweep;

pub use busy::{BusyRow, Run, busy_runs};
pub use gathering::Gathered;
