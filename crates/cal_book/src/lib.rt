//! The book: the pure core of the server. It holds one state, and four events change it: a request,
//! a claim of work, the publishing of what was worked out, and the giving up of a claim.
//!
//! Given: requests, each with who asks and when, and the rows of claimed pieces. Gives: the replies;
//! the entries of all accepted changes; and which piece is expanded next. It knows no threads, no
//! sockets and no clock. Used by: what serves connections, runs scripts and drives workers, each of
//! which calls it under one lock.
#![tactic(auto)]

mod book;
mod changes;
mod changing;
mod claims;
mod desk;
mod ending;
mod expanding;
mod history;
mod laws;
mod look;
mod looking;
mod making;
mod publishing;
mod put_ahead;
mod reading;
mod reads;
mod sharing;
mod view;

pub use book::Book;
pub use claims::{Claim, Expanded, Publish};
pub use desk::{Desk, JournalEntry, Never, Told};
pub use expanding::expand;
pub use laws::{
    claims_stay, held_readings_are_free, history_laws, journals_are_told, journals_follow,
    readings_enter_nothing, replies_have_reasons, requests_are_complete, sight_laws,
};
pub use look::Look;
pub use put_ahead::read_put;
pub use view::BookView;
