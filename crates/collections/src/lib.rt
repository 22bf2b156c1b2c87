//! The store: homes with their calendars and the objects in these.
//!
//! Given: changes that were accepted, each with the number of its entry in the journal. Gives: the
//! state that they lead to, looked at by names: a calendar, an object and its origin, the next one
//! above a name, all of a calendar one after another, the object that has a UID, and what a home's
//! changes cost. Used by: the book, which keeps one store beside its journal.
//!
//! Beside the store stands the state that looks share, which follows the same changes: a store is shared
//! with nobody, so a deletion takes no memory in it, whoever looks.
#![tactic(auto)]

mod calendar;
mod calendar_data;
mod home;
mod homes;
mod kinds;
mod objects;
mod settings;
mod shown_calendar;
mod shown_calendars;
mod shown_home;
mod shown_homes;
mod shown_state;
mod shown_view;
mod store;
mod zone;
mod zone_pool;

pub use shown_state::ShownState;
pub use shown_view::ShownView;
pub use store::Store;
