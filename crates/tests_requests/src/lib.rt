//! Tests of what is read from connections and written to them: streams in any pieces, paths, bodies,
//! requests, replies, and XML as it is written: `http_wire`, `dav_write`, `dav_elements` and
//! `dav_request`.
//!
//! Given: the public calls of those crates. Gives: nothing; no crate stands on this one. A test shows
//! what no clause can: that what a request asks for is what its sender means, and that requests are read
//! and replies written where there is memory. The moment of replies is that of RFC 9110, 5.6.7; bodies
//! are those of RFC 4791, RFC 4918 and RFC 3744; digests and credentials are by the programs sha256sum
//! and base64; limits and other octets are counted by hand.
#![tactic(auto)]

#[cfg(test)]
mod asking;
#[cfg(test)]
mod element_bodies;
#[cfg(test)]
mod element_details;
#[cfg(test)]
mod element_words;
#[cfg(test)]
mod fields;
#[cfg(test)]
mod method_bodies;
#[cfg(test)]
mod paths;
#[cfg(test)]
mod streams_read;
#[cfg(test)]
mod wanted;
#[cfg(test)]
mod written_bodies;
