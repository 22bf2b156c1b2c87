//! Tests of what the values of lines say, and of the filters that ask for them: `ical_values` and
//! `filter_eval`.
//!
//! Given: the public calls of those crates. Gives: nothing; no crate stands on this one, so a test
//! costs its own proof and no other. A test shows what no clause can: that values are read where there
//! is memory, and that the definitions mean what the standards' examples mean. Values and their places
//! are those of RFC 5545, 3.3 and 3.8, filters and what they match those of RFC 4791, 7.8 and appendix
//! B, and else both are worked out by hand.
#![tactic(auto)]

#[cfg(test)]
mod alarms;
#[cfg(test)]
mod event;
#[cfg(test)]
mod filter_examples;
#[cfg(test)]
mod filters;
#[cfg(test)]
mod line;
#[cfg(test)]
mod line_values;
#[cfg(test)]
mod long_values;
#[cfg(test)]
mod plain_values;
