//! Sets of numbers below a bound, whose least number is found in a logarithm.
//!
//! Given: numbers that come and go. Gives: which are there, and the least of them. Used by: the
//! keeping of claims, which has a set of the objects that are open in each window.
#![tactic(auto)]

mod set;
mod tree;

pub use set::NumberSet;
