//! Bodies of requests (XML 1.0; Namespaces in XML 1.0; RFC 4918, 8.2).
//!
//! It is given the octets of a body and gives the element that they spell, with its namespaces
//! resolved, or the place of the first fault and why it is one. The reader of requests looks for
//! named elements in what is read.
#![tactic(auto)]

mod attributes;
mod bindings;
mod blanks;
mod characters;
mod cut;
mod ends;
mod fault;
mod front;
mod markup;
mod names;
mod open_elements;
mod progress;
mod read;
mod references;
mod repeats;
mod resolve;
mod room;
mod scoped_tag;
mod splits;
mod tag_references;
mod tags;
mod values;

pub use fault::{BodyFault, Why};
pub use read::read_body;
