//! What refuses any request, and what a request is about (RFC 9110, 9.3, 13.1 and 15.5; RFC 3744, 3
//! and 7.1.1; RFC 4791, 6.1).
//!
//! Given: a state as a user sees it, and a request. Gives: what stands at each part of its path as far
//! as its caller sees it, the first refusal that all methods share, its reply, and the replies of GET,
//! HEAD and OPTIONS. Used by: the book, which serves requests.
#![tactic(auto)]

mod accepted;
mod conditions;
mod looks;
mod needs;
mod path_names;
mod refusals;
mod replies;
mod scenes;
mod sightings;
mod walks;

pub use accepted::accepted_status;
pub use looks::Look;
pub use refusals::{SharedRefusal, shared_refusal};
pub use replies::{get_reply, options_reply, refusal_reply, refuse, tagged_reply};
pub use scenes::{Scene, scene_at};
