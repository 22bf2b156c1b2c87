//! Tests of when things are: rules in both bodies, tables of time zones and conversions in them,
//! overrides among the rows of a master, which ranges rows and alarms meet, when a calendar is busy, and
//! when several are free.
//!
//! Given: the public calls of `rrule_filter`, `rrule_step`, `vtimezone`, `override_merge`,
//! `overlap_rules`, `freebusy`, `slot_finder`, and those of `cal_model` that convert times. Gives:
//! nothing; no crate stands on this one. Rules and their moments are the examples of RFC 5545, 3.8.5.3,
//! overlaps the table of RFC 4791, 9.9, and else times are worked out by hand; the two bodies of a rule
//! are held against one another.
#![tactic(auto)]

#[cfg(test)]
mod alarms;
#[cfg(test)]
mod busy_times;
#[cfg(test)]
mod common_times;
#[cfg(test)]
mod overlaps;
#[cfg(test)]
mod overrides;
#[cfg(test)]
mod rule_cases;
#[cfg(test)]
mod rule_walks;
#[cfg(test)]
mod zone_tables;
#[cfg(test)]
mod zoned_rows;
#[cfg(test)]
mod zones;
