//! Reports (RFC 4791, 7.8 to 7.10).

use crate::filter::Filter;
use crate::property::Props;
use crate::row::Range;
use crate::selection::Selection;
use cal_base::{List, Octets};

/// What a REPORT asks for.
#[derive(Drop)]
pub enum ReportRequest {
    /// calendar-query: the objects that match a filter.
    Query {
        props: Props,
        select: Selection,
        filter: Filter,
        /// The text of the zone in which floating times are read.
        zone: Option<Octets>,
    },
    /// calendar-multiget: the objects at these hrefs.
    Multiget {
        props: Props,
        select: Selection,
        hrefs: List<Octets>,
    },
    /// free-busy-query: when the calendar is busy.
    FreeBusy {
        range: Range,
    },
}
