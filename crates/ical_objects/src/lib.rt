//! Component trees of calendar objects, both ways (RFC 5545, 3.4 and 3.6).
//!
//! Given the content lines of a text, `build` makes the tree of its components, or tells the first
//! line at which they are not nested. Given such a tree, `print` writes its text, which is read as
//! that tree again. The readers of calendar objects build, and what answers calendar data prints.
#![tactic(auto)]

mod fault;
mod from_lines;
mod open_component;
mod to_text;

pub use fault::TreeFault;
pub use from_lines::build;
pub use to_text::print;
