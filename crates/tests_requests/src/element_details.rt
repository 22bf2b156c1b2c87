//! What is read from bodies, to the last value. The moments are by the program date.

use crate::element_bodies::Row;
use cal_base::Octets;
use cal_model::{
    Collation, CompFilter, CompPick, Content, Grant, ParamFilter, ParamTest, PrivilegeSet,
    PropFilter, PropSet, PropTest, Range, Recur, ReportRequest, TextMatch, Who,
};
use cal_moment::Utc;

/// A filter like those of RFC 4791, 7.8.5 to 7.8.7.
pub const ONE_FILTER: &[Row] = &[(
    b"<C:calendar-query><D:allprop/><C:filter><C:comp-filter name=\"vCalendar\"><C:comp-filter name=\"VEVENT\"><C:time-range start=\"20060104T000000Z\" end=\"20060105T000000Z\"/><C:prop-filter name=\"attendee\"><C:text-match collation=\"i;octet\" negate-condition=\"yes\">mailto:lisa@example.com</C:text-match><C:param-filter name=\"PartStat\"><C:text-match>NEEDS<x/>-ACTION</C:text-match></C:param-filter></C:prop-filter></C:comp-filter></C:comp-filter></C:filter><C:timezone>zone</C:timezone></C:calendar-query>",
    b"query all",
)];

/// Calendar-data like that of RFC 4791, 7.8.1 and 7.8.3.
pub const CALENDAR_DATA: &[Row] = &[(
    b"<C:calendar-multiget><D:prop><C:calendar-data><C:comp name=\"VCALENDAR\"><C:prop name=\"version\"/><C:comp name=\"VEVENT\"><C:allprop/></C:comp></C:comp><C:expand start=\"20060104T000000Z\" end=\"20060105T000000Z\"/></C:calendar-data></D:prop><D:href>/a%20b</D:href></C:calendar-multiget>",
    b"multiget 1 expanded of 1",
)];

/// Values that are set: text with references, a component set, and content that is not text alone.
pub const VALUES: &[Row] = &[(
    b"<D:propertyupdate><D:set><D:prop><D:displayname>a &amp; b</D:displayname><C:supported-calendar-component-set><C:comp name=\"vevent\"/><C:comp name=\"VTODO\"/></C:supported-calendar-component-set><D:x>a<D:y/></D:x></D:prop></D:set><D:remove><D:prop><D:z>a</D:z></D:prop></D:remove></D:propertyupdate>",
    b"4 set",
)];

/// Grants to bob, whose number is 1, to the group team, whose number is 1 too, and to all.
pub const THREE_GRANTS: &[Row] = &[(
    b"<D:acl><D:ace><D:principal><D:href>/principals/bob/</D:href></D:principal><D:grant><D:privilege><D:read/></D:privilege><D:privilege><D:bind/></D:privilege></D:grant></D:ace><D:ace><D:principal><D:href>/principals/team</D:href></D:principal><D:grant><D:privilege><D:read/></D:privilege></D:grant></D:ace><D:ace><D:principal><D:all/></D:principal><D:grant><D:privilege><C:read-free-busy/></D:privilege></D:grant></D:ace></D:acl>",
    b"3 granted",
)];

/// Whether that is asked for by these bodies, by each of what kind it is.
pub fn is_that_content(content: &Content) -> bool {
    match content {
        Content::Report(report) => is_that_report(report),
        Content::Patch(settings) => are_those_values(settings.as_slice()),
        Content::Acl(grants) => are_those_grants(grants.as_slice()),
        _ => false,
    }
}

fn is_that_report(report: &ReportRequest) -> bool {
    match report {
        ReportRequest::Query {
            filter,
            zone: Some(zone),
            ..
        } => is_that_filter(&filter.top) && zone.as_slice() == b"zone".as_slice(),
        ReportRequest::Multiget { select, hrefs, .. } => {
            select.recur == Recur::Expand(ONE_DAY)
                && are_those_picks(&select.comp)
                && are_those_hrefs(hrefs.as_slice())
        }
        _ => false,
    }
}

/// 20060104T000000Z to 20060105T000000Z.
const ONE_DAY: Range = Range {
    start: Utc(1_136_332_800),
    end: Utc(1_136_419_200),
};

fn is_that_filter(top: &CompFilter) -> bool {
    match top.comps.as_slice() {
        [event] => top.name.as_slice() == b"VCALENDAR".as_slice() && is_that_event(event),
        _ => false,
    }
}

fn is_that_event(event: &CompFilter) -> bool {
    match event.props.as_slice() {
        [attendee] => event.time == Some(ONE_DAY) && is_that_attendee(attendee),
        _ => false,
    }
}

fn is_that_attendee(attendee: &PropFilter) -> bool {
    match (&attendee.test, attendee.params.as_slice()) {
        (PropTest::Text(text), [state]) => {
            attendee.name.as_slice() == b"ATTENDEE".as_slice()
                && is_text(text, b"mailto:lisa@example.com", Collation::Octet, true)
                && is_that_state(state)
        }
        _ => false,
    }
}

fn is_that_state(state: &ParamFilter) -> bool {
    match &state.test {
        ParamTest::Text(text) => {
            state.name.as_slice() == b"PARTSTAT".as_slice()
                && is_text(text, b"NEEDS-ACTION", Collation::AsciiCasemap, false)
        }
        _ => false,
    }
}

fn is_text(text: &TextMatch, wanted: &[u8], collation: Collation, negate: bool) -> bool {
    text.text.as_slice() == wanted && text.collation == collation && text.negate == negate
}

fn are_those_picks(comp: &Option<CompPick>) -> bool {
    match comp {
        Some(calendar) => match (calendar.props.as_slice(), calendar.comps.as_slice()) {
            ([version], [event]) => {
                version.name.as_slice() == b"VERSION".as_slice()
                    && event.name.as_slice() == b"VEVENT".as_slice()
                    && event.all_props
                    && !calendar.all_props
            }
            _ => false,
        },
        None => false,
    }
}

fn are_those_hrefs(hrefs: &[Octets]) -> bool {
    match hrefs {
        [href] => href.as_slice() == b"/a%20b".as_slice(),
        _ => false,
    }
}

fn are_those_values(settings: &[PropSet]) -> bool {
    match settings {
        [name, set, markup, removed] => {
            is_value(name, b"a & b")
                && is_value(set, b"VEVENT,VTODO")
                && is_value(markup, b"\0")
                && removed.value.is_none()
        }
        _ => false,
    }
}

fn is_value(setting: &PropSet, wanted: &[u8]) -> bool {
    match &setting.value {
        Some(value) => value.as_slice() == wanted,
        None => false,
    }
}

fn are_those_grants(grants: &[Grant]) -> bool {
    match grants {
        [bob, team, all] => {
            bob.who == Who::Principal(1)
                && bob.held == PrivilegeSet(19)
                && team.who == Who::Group(1)
                && team.held == PrivilegeSet(3)
                && all.who == Who::Everyone
                && all.held == PrivilegeSet(1)
        }
        _ => false,
    }
}
