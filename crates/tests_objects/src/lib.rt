//! Tests of calendar objects: how they are read, what a PUT must meet, and which calendar data is shown
//! of them: `cal_object`, `preconditions` and `expand_limit`.
//!
//! Given: the public calls of those crates, and rows that `rrule_sets` finds. Gives: nothing; no crate
//! stands on this one. A test shows what no clause can: that calendars as programs write them are read,
//! taken and shown where there is memory, that each fault and each precondition is told as the standards
//! mean it, and that options and picks leave what they are to leave, octet for octet. Calendar data is
//! that of RFC 4791, 7.8.1 to 7.8.4, over objects of its appendix B; other objects, and what is to be
//! told and shown of them, are worked out by hand.
#![tactic(auto)]

#[cfg(test)]
mod expansions;
#[cfg(test)]
mod faults;
#[cfg(test)]
mod limits;
#[cfg(test)]
mod meetings;
#[cfg(test)]
mod objects;
#[cfg(test)]
mod picks;
#[cfg(test)]
mod put_checks;
#[cfg(test)]
mod selections;
#[cfg(test)]
mod showing;
#[cfg(test)]
mod shown_examples;
#[cfg(test)]
mod telling;
