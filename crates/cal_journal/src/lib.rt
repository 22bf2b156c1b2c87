//! The journal: the changes that were accepted, in their order.
//!
//! Given: accepted changes, each with the session, the user and the moment of its request and with
//! its status. Gives: the entries by number, and the state that they lead to, made anew in a store or
//! followed so many entries at a time. Used by: the book, which keeps one journal beside its store.
#![tactic(auto)]

mod entries;
mod replaying;

pub use entries::{Entry, Journal};
pub use replaying::{follow, replay};
