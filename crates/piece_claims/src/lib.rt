//! Which piece is expanded next: the pairs of a live object and a window of the horizon that have
//! no piece and are not claimed out, kept up to date; and the pieces, within their limit of rows.
//!
//! Given: what becomes of the journal's entries, the moments of requests, and the pieces that are
//! published. Gives: the next claim, in a logarithm of the number of objects, the rows of pieces, and
//! looks at all of them. Used by: the book.
#![tactic(auto)]

mod aging;
mod claimed;
mod claims;
mod counts;
mod lanes;
mod law;
mod shelving;

pub use claims::Claims;
pub use law::{entry_is_shown, next_is_of_work, pieces_follow, publication_is_right};
