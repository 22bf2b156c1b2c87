//! The rows of overrides among those of a master (RFC 5545, 3.8.4.4).
//!
//! Given: a calendar object, and the rows of its master. Gives: these rows with the overrides put in,
//! in order; and for the crates that make the master's rows and find the windows in which rows may lie
//! the parts that they need too: the start of a component, a stamp beside a start, the end of an
//! instance, and which starts are named.
#![tactic(auto)]

pub mod days;
pub mod ends;
mod merged;
pub mod names;
pub mod order;
pub mod rows;
pub mod stamps;
pub mod starts;
pub mod zones;

pub use merged::{has_overrides, merge, merged_rows, put_asked_rows, unnamed};
