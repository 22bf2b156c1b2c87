//! An ordered map from octet strings to values that looks share page by page.
//!
//! Given: names and values. Gives: the map that `cal_base::NameMap` is, in pages of at most 128 pairs. One
//! more map with the same pairs takes constant time and shares all pages; a change behind it copies the
//! list of the pages and the page that it changes. Used by: the state that looks share, for the objects of
//! a calendar, and the walks over these.
#![tactic(auto)]

mod map;
mod page;
mod pages;
mod split;

pub use map::NamePages;
pub use page::Page;
