//! The data that all layers share, and what the server is held to.
//!
//! Given: the base types and the dates of the crates below. Gives: the types of calendar objects,
//! recurrence, filters, requests as they come and as they are understood, replies and stored
//! collections, the conversions of time zones, and in `specs/` the definitions that every public call
//! above is measured by: what texts of values and rules spell, which calendar object octets are, its
//! instances and which of them a range meets, filters, calendar data, busy time and privileges; which
//! requests the octets of a connection are, who sent them and what they ask for; and the state of the
//! server, what a request does to it and what the reply to it is, the octets of a reply, and what a
//! script prints. Used by: every crate above.
#![tactic(auto)]

pub mod answers;
pub mod change;
pub mod cuts;
pub mod filter;
pub mod limits;
mod local_span;
mod local_times;
pub mod next_passing;
pub mod object;
pub mod path;
pub mod piece;
pub mod privilege;
pub mod property;
pub mod reply;
pub mod report;
pub mod request;
pub mod resource_name;
pub mod row;
pub mod rule;
pub mod selection;
pub mod stamp_digits;
pub mod store;
pub mod stored;
mod utc_moments;
pub mod view;
pub mod walk;
pub mod wire;
pub mod zone;
mod zone_time;
pub mod zones_at_hand;

pub use answers::{PropAnswers, Seen};
pub use change::Change;
pub use cuts::{cut, octets_before, text_before, trimmed};
pub use filter::{
    Collation, CompFilter, Filter, ParamFilter, ParamTest, PropFilter, PropTest, TextMatch,
};
pub use limits::{ANSWER_LIMIT, CHANGE_COST, FIRST_DATE, LAST_DATE, RESOURCE_LIMIT};
pub use local_times::LocalTimes;
pub use next_passing::{ReadyRule, Rules};
pub use object::{Alarm, Class, Component, Extent, Kind, NotResource, Object, Related, Trigger};
pub use path::{ObjectPath, Path};
pub use piece::Piece;
pub use privilege::{Acl, Grant, PrivilegeSet, Who};
pub use property::{PropName, PropSet, Props, copy_name, copy_setting};
pub use reply::{Cond, Etag, Media, Refusal, Reply, bare_reply, date_value};
pub use report::ReportRequest;
pub use request::{Content, Event, Method, Request, Tags};
pub use resource_name::is_resource_name;
pub use row::{Fixed, Range, Row, RowKind};
pub use rule::{DayPart, Freq, Rule, Until};
pub use selection::{CompPick, PropPick, Recur, Selection};
pub use stamp_digits::{local_of, written_value};
pub use store::CalendarData;
pub use stored::Stored;
pub use utc_moments::{range_between, utc_of};
pub use wire::{WireFault, WireRequest};
pub use zone::{Onset, ZonePart, ZoneTable};
pub use zone_time::{exists, offset_at, to_utc};
pub use zones_at_hand::local_times_of;
