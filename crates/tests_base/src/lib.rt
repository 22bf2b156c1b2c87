//! Tests of the layer of octets, texts and lines, and of the turn lock: `cal_base`, `cal_moment`,
//! `ical_lines`, `ical_objects`, `dav_body` and `turn_lock`.
//!
//! Given: the public calls of those crates. Gives: nothing; no crate stands on this one, so a test
//! costs its own proof, and the crates are not proved once more for it. A test shows what no clause
//! can: that a call succeeds where there is memory, that a definition means what the standard's own
//! examples mean, and that the real streams, files, connections and threads do what the contracts
//! trust. Texts are the examples of RFC 5545, RFC 4918, XML 1.0 and Namespaces in XML 1.0; day numbers
//! are those of a second calendar; faults are placed, and counts made, by hand.
#![tactic(auto)]

#[cfg(test)]
mod door_threads;
#[cfg(test)]
mod lines;
#[cfg(test)]
mod link_times;
#[cfg(test)]
mod moments;
#[cfg(test)]
mod objects;
#[cfg(test)]
mod outside;
#[cfg(test)]
mod shared_values;
#[cfg(test)]
mod streams;
#[cfg(test)]
mod tcp;
#[cfg(test)]
mod turns;
#[cfg(test)]
mod values;
#[cfg(test)]
mod wanted;
#[cfg(test)]
mod xml_bodies;
