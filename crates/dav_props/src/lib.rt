//! The properties of resources (RFC 4918, 4, 9.1 and 9.2; RFC 3744, 5; RFC 4791, 5.2).
//!
//! Given: a state as a user sees it, and what is asked of a path; or settings of a calendar. Gives:
//! the reply to a PROPFIND, the answer to one property, which reports ask, and what refuses settings.
//! Used by: the book, which serves requests, and which hands the answers to reports.
#![tactic(auto)]

mod access;
mod answers;
mod contents;
mod groups;
mod kept_texts;
mod members;
mod privileges_held;
mod replies;
mod rows;
mod setting_checks;
mod setting_faults;
mod setting_names;
mod setting_replies;
mod subjects;
mod telling;
mod texts;

pub use answers::DavAnswers;
pub use replies::find;
pub use setting_checks::{PatchCheck, check_make, check_patch};
