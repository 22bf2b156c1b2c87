//! Tests of what the server keeps: users and what they may do, journals, entity tags, the store, and the
//! index of pieces: `privileges`, `cal_journal`, `collections`, `piece_index`, and of `cal_model` the
//! tags.
//!
//! Given: the public calls of those crates. Gives: nothing; no crate stands on this one. A test shows
//! what no clause can: that a call succeeds where there is memory, and that the definitions of the state
//! at the start say what was meant. Digests are those of FIPS 180 and of the program sha256sum; the
//! answers of the index are worked out by hand, and those of a plain list, which keeps the same contract
//! as a yardstick.
#![tactic(auto)]

#[cfg(test)]
mod journals;
#[cfg(test)]
mod opening;
#[cfg(test)]
mod pieces;
#[cfg(test)]
mod plain_list;
#[cfg(test)]
mod tags;
#[cfg(test)]
mod users;
#[cfg(test)]
mod users_view;
