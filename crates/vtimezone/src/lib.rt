//! The tables of time zones (RFC 5545, 3.6.5).
//!
//! Given: the STANDARD and DAYLIGHT parts of a VTIMEZONE, and a body of `Rules`. Gives: the offsets
//! that hold in the zone from each of its onsets on, in rising order, and how much the parts count.
//! Used by: the reader of calendar objects. The conversions over a table stand in `cal_model`.
//!
//! The changes of all parts are gathered in the order of the text, counted as they are made, and put
//! in order by one sort that keeps that order where two stand at one moment.
#![tactic(auto)]

mod change;
mod fault;
mod gather;
mod table;
mod until;

pub use fault::TableFault;
pub use table::make_table;
