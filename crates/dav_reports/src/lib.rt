//! The answers of reports (RFC 4791, 7.8 to 7.10).
//!
//! Given: what a caller sees of a calendar, the rows of its objects as far as pieces of them are kept,
//! and a report. Gives: the reply, and the runs of busy time of a calendar. Rows are looked at in those
//! windows alone that a range of the report may need; where no piece has them they are found anew. The
//! crate that answers requests uses it.
#![tactic(auto)]

mod busy;
mod dates;
mod free_busy;
mod laws;
mod multiget;
mod names;
mod query;
mod ranges;
mod refusals;
mod report;
mod report_zones;
mod rows;
mod runs;
mod shown_response;
mod text;

pub use laws::held_reports_are_free;
pub use report::run_report;
pub use runs::calendar_runs;
