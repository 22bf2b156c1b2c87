//! What is kept of a calendar beside its objects.

use crate::privilege::Acl;
use crate::property::PropSet;
use crate::zone::ZoneTable;
use cal_base::List;

/// A calendar without its objects.
#[derive(Drop)]
pub struct CalendarData {
    /// The number of the user whose home it is in.
    pub owner: u32,
    pub acl: Acl,
    /// The kinds of objects that it takes: a sum of 1 for VEVENT, 2 for VTODO, 4 for VJOURNAL and 8
    /// for VFREEBUSY.
    pub kinds: u8,
    /// Its own zone, where it has one.
    pub zone: Option<ZoneTable>,
    /// The properties that were set and not removed, each with its value.
    pub texts: List<PropSet>,
}
