//! Pieces by object, kept for looks: whoever took a look has the pieces that were there, whatever
//! becomes of the shelf later.
//!
//! Given: the pieces of objects, one object after another. Gives: the rows of an object in a window,
//! and looks at all of it in constant time. Used by: the keeping of claims, which writes the pieces of
//! an object anew at each change of them, and the book, whose looks are answered from it. The pieces
//! stand in pages of 256 objects by origin. What looks share is copied before it is changed: the list
//! of pages and one page, however many there are.
#![tactic(auto)]

mod page;
mod pages;
mod shelf;

pub use shelf::Shelf;
