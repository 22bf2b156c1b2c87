//! Whether a request is the one that is meant: it is read as a session reads it, and looked at part
//! by part.
ghost use Rattle.std.specs.Prelude.{◌≡◌, true, false, [], ◌∷◌, length, None, Some, codes, pos, IsTrue};
ghost use Rattle.cal_model.specs.Load.LoadRequests as spec;
ghost use Rattle.cal_model.specs.Replies.WireReplies.{is_head};
ghost use Rattle.cal_model.specs.Properties.PropertyTable.{in_dav, in_caldav};
ghost use Rattle.load_requests.specs.Meanings.{meaning_of};

use crate::texts::{BUSY_YEAR, EVENTS_OF_MARCH};
use cal_base::Name;
use cal_model::{
    CompFilter, Content, Filter, Method, Path, PropName, Props, Range, Recur, ReportRequest,
    Request, Selection, WireRequest,
};

/// Whether a request as it came goes on behind its reply, and its reply has a body.
pub(crate) fn is_plain(wire: &WireRequest) -> bool
    ensures { IsTrue result → (wire.now.close ≡ false) × (is_head wire.now ≡ false) }
{
    !wire.close && wire.method.as_slice() != b"HEAD".as_slice()
}

/// What a request is to ask for.
#[derive(Clone, Copy)]
pub(crate) enum Meaning<'a> {
    /// A put of an event with this name of its object.
    Put { name: &'a [u8], event: &'a [u8] },
    /// The busy times of the year.
    BusyYear,
    /// The events of March.
    EventsOfMarch,
}

/// Whether a request asks a user's calendar for what is meant.
pub(crate) fn is_meant(request: &Request, user: &[u8], meaning: &Meaning<'_>) -> bool
    ensures { IsTrue result → request.now ≡ meaning_of user.now meaning.now }
{
    match meaning {
        Meaning::Put { name, event } => is_put(request, user, name, event),
        Meaning::BusyYear => is_busy_year(request, user),
        Meaning::EventsOfMarch => is_events_of_march(request, user),
    }
}

/// Whether a request puts an event with this name of its object into the calendar of a user.
fn is_put(request: &Request, user: &[u8], name: &[u8], event: &[u8]) -> bool
    ensures { IsTrue result → request.now ≡ record { method = Method.Put; path = Path.Object user.now (codes "calendar") name.now; if_match = None; if_none = None; size = length event.now; content = Content.Put true event.now } }
{
    request.method == Method::Put
        && request.if_match.is_none()
        && request.if_none.is_none()
        && request.size as usize == event.len()
        && is_object(&request.path, user, name)
        && has_octets(&request.content, event)
}

fn is_object(path: &Path, user: &[u8], name: &[u8]) -> bool
    ensures { IsTrue result → path.now ≡ Path.Object user.now (codes "calendar") name.now }
{
    match path {
        Path::Object(owner, calendar, object) => {
            owner.as_slice() == user
                && calendar.as_slice() == b"calendar".as_slice()
                && object.as_slice() == name
        }
        _ => false,
    }
}

fn has_octets(content: &Content, event: &[u8]) -> bool
    ensures { IsTrue result → content.now ≡ Content.Put true event.now }
{
    match content {
        Content::Put { media_ok, octets } => *media_ok && octets.as_slice() == event,
        _ => false,
    }
}

/// Whether a request asks for the busy times of the year on the calendar of a user.
fn is_busy_year(request: &Request, user: &[u8]) -> bool
    ensures { IsTrue result → request.now ≡ record { method = Method.Report; path = Path.Calendar user.now (codes "calendar"); if_match = None; if_none = None; size = 142; content = Content.Report (ReportRequest.FreeBusy (spec.seconds 1_735_689_600 1_767_225_600)) } }
{
    request.method == Method::Report
        && request.if_match.is_none()
        && request.if_none.is_none()
        && request.size as usize == BUSY_YEAR.len()
        && is_calendar(&request.path, user)
        && is_free_busy(&request.content)
}

/// Whether a request asks for the events of March on the calendar of a user.
fn is_events_of_march(request: &Request, user: &[u8]) -> bool
    ensures { IsTrue result → request.now ≡ record { method = Method.Report; path = Path.Calendar user.now (codes "calendar"); if_match = None; if_none = None; size = 316; content = Content.Report (spec.events_in (spec.seconds 1_740_787_200 1_743_465_600)) } }
{
    request.method == Method::Report
        && request.if_match.is_none()
        && request.if_none.is_none()
        && request.size as usize == EVENTS_OF_MARCH.len()
        && is_calendar(&request.path, user)
        && is_query(&request.content)
}

fn is_calendar(path: &Path, user: &[u8]) -> bool
    ensures { IsTrue result → path.now ≡ Path.Calendar user.now (codes "calendar") }
{
    match path {
        Path::Calendar(owner, calendar) => {
            owner.as_slice() == user && calendar.as_slice() == b"calendar".as_slice()
        }
        _ => false,
    }
}

fn is_free_busy(content: &Content) -> bool
    ensures { IsTrue result → content.now ≡ Content.Report (ReportRequest.FreeBusy (spec.seconds 1_735_689_600 1_767_225_600)) }
{
    match content {
        Content::Report(ReportRequest::FreeBusy { range }) => is_year(*range),
        _ => false,
    }
}

fn is_query(content: &Content) -> bool
    ensures { IsTrue result → content.now ≡ Content.Report (spec.events_in (spec.seconds 1_740_787_200 1_743_465_600)) }
{
    match content {
        Content::Report(
            ReportRequest::Query {
                props,
                select,
                filter,
                zone,
            },
        ) => zone.is_none() && asks_data(props) && is_whole(select) && is_of_march(filter),
        _ => false,
    }
}

/// The year 2025.
fn is_year(range: Range) -> bool
    ensures { IsTrue result → range ≡ spec.seconds 1_735_689_600 1_767_225_600 }
{
    range.start.0 == 1_735_689_600 && range.end.0 == 1_767_225_600
}

/// March 2025.
fn is_march(range: Range) -> bool
    ensures { IsTrue result → range ≡ spec.seconds 1_740_787_200 1_743_465_600 }
{
    range.start.0 == 1_740_787_200 && range.end.0 == 1_743_465_600
}

/// The properties `getetag` and `calendar-data`.
fn asks_data(props: &Props) -> bool
    ensures { IsTrue result → props.now ≡ Props.Some (in_dav (codes "getetag") ∷ in_caldav (codes "calendar-data") ∷ []) }
{
    match props {
        Props::Some(names) => are_data(names.as_slice()),
        _ => false,
    }
}

fn are_data(names: &[PropName]) -> bool
    ensures { IsTrue result → names.now ≡ in_dav (codes "getetag") ∷ in_caldav (codes "calendar-data") ∷ [] }
{
    match names {
        [first, second] => is_tag(first) && is_data(second),
        _ => false,
    }
}

fn is_tag(prop: &PropName) -> bool
    ensures { IsTrue result → prop.now ≡ in_dav (codes "getetag") }
{
    prop.space.as_slice() == b"DAV:".as_slice() && prop.name.as_slice() == b"getetag".as_slice()
}

fn is_data(prop: &PropName) -> bool
    ensures { IsTrue result → prop.now ≡ in_caldav (codes "calendar-data") }
{
    prop.space.as_slice() == b"urn:ietf:params:xml:ns:caldav".as_slice()
        && prop.name.as_slice() == b"calendar-data".as_slice()
}

/// All of each object, as it is stored.
fn is_whole(select: &Selection) -> bool
    ensures { IsTrue result → select.now ≡ record { comp = None; recur = Recur.Whole; busy = None } }
{
    select.comp.is_none() && select.busy.is_none() && select.recur == Recur::Whole
}

/// The objects with an event that March meets.
fn is_of_march(filter: &Filter) -> bool
    ensures { IsTrue result → filter.now ≡ record { top = spec.calendar_filter (spec.event_filter (spec.seconds 1_740_787_200 1_743_465_600)) } }
{
    is_calendar_filter(&filter.top)
}

fn is_calendar_filter(filter: &CompFilter) -> bool
    ensures { IsTrue result → filter.now ≡ spec.calendar_filter (spec.event_filter (spec.seconds 1_740_787_200 1_743_465_600)) }
{
    filter.name.as_slice() == b"VCALENDAR".as_slice()
        && !filter.absent
        && filter.time.is_none()
        && filter.props.as_slice().is_empty()
        && has_event(filter.comps.as_slice())
}

fn has_event(comps: &[CompFilter]) -> bool
    ensures { IsTrue result → comps.now ≡ spec.event_filter (spec.seconds 1_740_787_200 1_743_465_600) ∷ [] }
{
    match comps {
        [event] => is_event_filter(event),
        _ => false,
    }
}

fn is_event_filter(filter: &CompFilter) -> bool
    ensures { IsTrue result → filter.now ≡ spec.event_filter (spec.seconds 1_740_787_200 1_743_465_600) }
{
    filter.name.as_slice() == b"VEVENT".as_slice()
        && !filter.absent
        && filter.props.as_slice().is_empty()
        && filter.comps.as_slice().is_empty()
        && is_in_march(filter.time)
}

fn is_in_march(time: Option<Range>) -> bool
    ensures { IsTrue result → time ≡ Some (spec.seconds 1_740_787_200 1_743_465_600) }
{
    match time {
        Some(range) => is_march(range),
        None => false,
    }
}
