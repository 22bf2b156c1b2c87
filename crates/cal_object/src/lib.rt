//! Calendar objects from octets (RFC 5545, 3.4 to 3.6 and 3.8; RFC 4791, 4.1).
//!
//! Given: the octets of a text. Gives: the calendar object that they are, or the first fault in the
//! one order in which faults are looked at; and the zone that the text of a time zone is. Used by:
//! what stores calendar objects, and what is given the time zone of a calendar.
#![tactic(auto)]

mod alarms;
mod aligned;
mod busy;
mod calendar_zones;
mod component;
mod component_fault;
mod contents;
mod dates;
mod extents;
mod fault;
mod identifiers;
mod kinds;
mod line_dates;
mod local_times;
mod marks;
mod missing_zone;
mod named;
mod object_fault;
mod object_reading;
mod outline;
mod outside;
mod own_fault;
mod property;
mod resource_fault;
mod scan;
mod seen_names;
mod settled;
mod value_tests;
mod zone;
mod zone_dates;
mod zone_reading;
mod zones;

pub use fault::ReadFault;
pub use object_reading::read_object;
pub use zone_reading::read_zone;
