//! The windows of 64 days in which ranges may meet the rows of an object (RFC 4791, 7.8 and 9.9).
//!
//! Given: an object that was read, and ranges. Gives: the windows whose rows the ranges may meet, in
//! order: those that meet a range, widened by how far from its start a row can be met, and those in
//! which an override starts; of an object that happens once, whether the window of its row is one.
//! Reports use it, which look at the rows of these windows and at no others.
#![tactic(auto)]

mod margin;
mod windows;

pub use windows::{is_needed, windows_needed};
