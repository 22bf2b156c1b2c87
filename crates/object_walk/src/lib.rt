//! Walks over the objects of a calendar, one after another.
//!
//! Given: the objects of a calendar by their names, as a store keeps them, or in pages, as looks share
//! them. Gives: what goes over them in the order of their names, and what those who show a state are
//! asked for to give it. `walk_laws` says that they meet all. Used by: the store, which makes the walks,
//! and the replies and the book, which go over all objects of a calendar.
#![tactic(auto)]

mod entry;
mod laws;
mod walk;
mod walks;

pub use entry::ObjectEntry;
pub use laws::walk_laws;
pub use walk::ObjectWalk;
pub use walks::Walks;
