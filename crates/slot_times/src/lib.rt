//! The times at which several calendars are all free, as a user sees them, and the text that tells them.
//!
//! Given: a view of a state; the name of a user, a range, how long a time has to be, how many are wanted,
//! and the paths of the calendars. Gives: a line for each of the first free times, or the number of the
//! word that is refused. Used by: the command `slot`.
#![tactic(auto)]

mod slot_calendars;
mod slot_text;
mod slot_view;

pub use slot_calendars::Unseen;
pub use slot_view::{Question, slots_are_alike, text_in_view};
