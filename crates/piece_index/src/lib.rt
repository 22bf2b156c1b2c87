//! Pieces by object and window, and by age, within a budget of rows.
//!
//! Given: pieces (the rows of one object in one window). Gives: a piece's rows again; where there is
//! no room for a new one, the oldest go. Used by: the book, which keeps one index. A piece stands in
//! a node of one slab, and the nodes are linked by number in two chains: one of all nodes by age, and
//! one of each object's nodes.
#![tactic(auto)]

mod chains;
mod index;
mod links;
mod node;

pub use index::{Added, Index};
