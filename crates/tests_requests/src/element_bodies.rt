//! Bodies, and what each asks for or is refused for. `D` and `C` are the two namespaces.

use crate::element_details::{CALENDAR_DATA, ONE_FILTER, THREE_GRANTS, VALUES};
use crate::element_words::is_told;
use cal_model::Method;
use std::alloc::Global;

/// A body without the declarations of the prefixes, and what is told of it.
pub type Row = (&'static [u8], &'static [u8]);

/// Properties that are asked for (RFC 4918, 9.1).
const FIND: &[Row] = &[
    (
        b"<D:propfind><D:prop><D:resourcetype/><D:owner/><x/></D:prop></D:propfind>",
        b"3",
    ),
    (
        b"<D:propfind><D:propname/><D:allprop/></D:propfind>",
        b"names",
    ),
    (b"<D:propfind><D:prop/></D:propfind>", b"0"),
    (b"<D:propfind/>", b"bad request"),
    (b"<C:propfind><D:allprop/></C:propfind>", b"bad request"),
    (b"<D:propfind>>", b"not read"),
    (
        b"<D:propfind><x/><D:prop><D:owner/></D:prop><D:allprop/></D:propfind>",
        b"1",
    ),
];

/// Properties that are set (RFC 4918, 9.2).
const PATCH: &[Row] = &[
    (
        b"<D:propertyupdate><D:set><D:prop><D:displayname>a</D:displayname><x/></D:prop></D:set><D:remove><D:prop><y/></D:prop></D:remove></D:propertyupdate>",
        b"3 set",
    ),
    (
        b"<D:propertyupdate><D:set/></D:propertyupdate>",
        b"bad request",
    ),
    (b"<D:propertyupdate/>", b"bad request"),
    (
        b"<D:propertyupdate><D:set><D:prop><C:supported-calendar-component-set><C:comp/></C:supported-calendar-component-set></D:prop></D:set></D:propertyupdate>",
        b"bad request",
    ),
];

/// Properties of a new calendar (RFC 4791, 5.3.1).
const MAKE: &[Row] = &[
    (
        b"<C:mkcalendar><D:set><D:prop><D:displayname/></D:prop></D:set></C:mkcalendar>",
        b"1 set",
    ),
    (b"<C:mkcalendar/>", b"bad request"),
];

/// Reports (RFC 4791, 7.8 to 7.10).
const REPORTS: &[Row] = &[
    (
        b"<C:calendar-query><D:prop><D:getetag/><C:calendar-data/></D:prop><C:filter><C:comp-filter name=\"VCALENDAR\"><C:comp-filter name=\"VEVENT\"><C:time-range start=\"20060104T000000Z\" end=\"20060105T000000Z\"/></C:comp-filter></C:comp-filter></C:filter></C:calendar-query>",
        b"query 2",
    ),
    (
        b"<C:calendar-query><C:filter><C:comp-filter name=\"vcalendar\"/></C:filter></C:calendar-query>",
        b"query no properties",
    ),
    (
        b"<C:calendar-query><C:filter><C:comp-filter name=\"VEVENT\"/></C:filter></C:calendar-query>",
        b"<C:valid-filter/>",
    ),
    (
        b"<C:calendar-query><C:filter/></C:calendar-query>",
        b"bad request",
    ),
    (
        b"<C:calendar-query><C:filter><C:comp-filter name=\"VCALENDAR\"><C:comp-filter name=\"VEVENT\"><C:time-range start=\"20060104T000000Z\" end=\"20060104T000000Z\"/></C:comp-filter></C:comp-filter></C:filter></C:calendar-query>",
        b"<C:valid-filter/>",
    ),
    (
        b"<C:calendar-query><C:filter><C:comp-filter name=\"VCALENDAR\"><C:comp-filter name=\"VTIMEZONE\"><C:time-range start=\"20060104T000000Z\"/></C:comp-filter></C:comp-filter></C:filter></C:calendar-query>",
        b"<C:valid-filter/>",
    ),
    (
        b"<C:calendar-query><C:filter><C:comp-filter name=\"VCALENDAR\"><C:comp-filter name=\"VTODO\"><C:prop-filter name=\"COMPLETED\"><C:is-not-defined/></C:prop-filter><C:prop-filter name=\"STATUS\"><C:text-match negate-condition=\"yes\">CANCELLED</C:text-match></C:prop-filter></C:comp-filter></C:comp-filter></C:filter></C:calendar-query>",
        b"query no properties",
    ),
    (
        b"<C:calendar-query><C:filter><C:comp-filter name=\"VCALENDAR\"><C:comp-filter name=\"VTODO\"><C:prop-filter name=\"X\"><C:is-not-defined/><C:text-match/></C:prop-filter></C:comp-filter></C:comp-filter></C:filter></C:calendar-query>",
        b"<C:valid-filter/>",
    ),
    (
        b"<C:calendar-query><C:filter><C:comp-filter name=\"VCALENDAR\"><C:comp-filter name=\"VTODO\"><C:prop-filter name=\"X\"><C:text-match collation=\"i;unicode\"/></C:prop-filter></C:comp-filter></C:comp-filter></C:filter></C:calendar-query>",
        b"<C:supported-collation/>",
    ),
    (
        b"<C:calendar-query><C:filter><C:comp-filter name=\"VCALENDAR\"><C:comp-filter name=\"VTODO\"><C:prop-filter name=\"SUMMARY\"><C:time-range start=\"20060104T000000Z\"/></C:prop-filter></C:comp-filter></C:comp-filter></C:filter></C:calendar-query>",
        b"<C:supported-filter/>",
    ),
    (
        b"<C:calendar-query><C:filter><C:comp-filter name=\"VCALENDAR\"><C:comp-filter><C:prop-filter name=\"SUMMARY\"><C:time-range/></C:prop-filter></C:comp-filter></C:comp-filter></C:filter></C:calendar-query>",
        b"bad request",
    ),
    (
        b"<C:calendar-multiget><D:prop><C:calendar-data><C:expand start=\"20060104T000000Z\" end=\"20060105T000000Z\"/></C:calendar-data></D:prop><D:href>/a</D:href><D:href>/a</D:href></C:calendar-multiget>",
        b"multiget 1 expanded of 2",
    ),
    (
        b"<C:calendar-multiget><D:prop><C:calendar-data><C:limit-recurrence-set start=\"20060104T000000Z\" end=\"20060105T000000Z\"/></C:calendar-data></D:prop><D:href>/a</D:href></C:calendar-multiget>",
        b"multiget 1 limited of 1",
    ),
    (
        b"<C:calendar-multiget><D:prop><C:calendar-data><C:expand start=\"20060104T000000Z\"/><C:limit-recurrence-set/></C:calendar-data></D:prop><D:href>/a</D:href></C:calendar-multiget>",
        b"bad request",
    ),
    (
        b"<C:calendar-multiget><D:allprop/></C:calendar-multiget>",
        b"bad request",
    ),
    (
        b"<C:calendar-multiget><D:prop><C:calendar-data version=\"1.0\"/></D:prop><D:href>/a</D:href></C:calendar-multiget>",
        b"<C:supported-calendar-data/>",
    ),
    (
        b"<C:calendar-multiget><D:prop><C:calendar-data><C:comp name=\"VCALENDAR\"><C:comp name=\"VEVENT\"><C:prop/></C:comp></C:comp></C:calendar-data></D:prop><D:href>/a</D:href></C:calendar-multiget>",
        b"bad request",
    ),
    (
        b"<C:free-busy-query><C:time-range start=\"20060104T140000Z\" end=\"20060105T220000Z\"/></C:free-busy-query>",
        b"free-busy",
    ),
    (
        b"<C:free-busy-query><C:time-range/></C:free-busy-query>",
        b"<C:valid-filter/>",
    ),
    (b"<C:free-busy-query/>", b"bad request"),
    (b"<D:principal-property-search/>", b"<D:supported-report/>"),
];

/// Grants (RFC 3744, 8.1).
const GRANTS: &[Row] = &[
    (b"<D:acl/>", b"0 granted"),
    (
        b"<D:acl><D:ace><D:principal><D:href>/principals/bob/</D:href></D:principal><D:grant><D:privilege><D:read/></D:privilege></D:grant></D:ace><D:ace><D:principal><D:all/></D:principal><D:grant><D:privilege><C:read-free-busy/></D:privilege></D:grant><D:protected/></D:ace></D:acl>",
        b"1 granted",
    ),
    (
        b"<D:acl><D:ace><D:principal><D:href>/principals/bob/</D:href></D:principal><D:deny><D:privilege><D:read/></D:privilege></D:deny></D:ace></D:acl>",
        b"<D:grant-only/>",
    ),
    (
        b"<D:acl><D:ace><D:invert><D:principal><D:href>/x</D:href></D:principal></D:invert><D:grant><D:privilege><D:read/></D:privilege></D:grant></D:ace><D:ace><D:principal><D:href>/x</D:href></D:principal><D:grant><D:privilege><D:read/></D:privilege></D:grant></D:ace></D:acl>",
        b"<D:no-invert/>",
    ),
    (
        b"<D:acl><D:ace><D:principal><D:href>/principals/team/</D:href></D:principal><D:grant><D:privilege><D:read/></D:privilege></D:grant></D:ace></D:acl>",
        b"1 granted",
    ),
    (
        b"<D:acl><D:ace><D:principal><D:href>/principals/crew/</D:href></D:principal><D:grant><D:privilege><D:read/></D:privilege></D:grant></D:ace></D:acl>",
        b"<D:recognized-principal/>",
    ),
    (
        b"<D:acl><D:ace><D:principal><D:self/></D:principal><D:grant><D:privilege><D:read/></D:privilege></D:grant></D:ace></D:acl>",
        b"<D:allowed-principal/>",
    ),
    (
        b"<D:acl><D:ace><D:principal><D:all/></D:principal><D:grant><D:privilege><D:unlock/></D:privilege></D:grant></D:ace></D:acl>",
        b"<D:not-supported-privilege/>",
    ),
];

/// What bodies ask for, the method, whether it is looked at to the last value, and the bodies.
const BODIES: &[(&str, Method, bool, &[Row])] = &[
    ("properties", Method::Propfind, false, FIND),
    ("settings", Method::Proppatch, false, PATCH),
    ("a calendar", Method::Mkcalendar, false, MAKE),
    ("reports", Method::Report, false, REPORTS),
    ("grants", Method::Acl, false, GRANTS),
    ("a filter", Method::Report, true, ONE_FILTER),
    ("calendar data", Method::Report, true, CALENDAR_DATA),
    ("values", Method::Proppatch, true, VALUES),
    ("three grants", Method::Acl, true, THREE_GRANTS),
];

/// What the first bodies ask for of which something else is told, or nothing.
fn first_wrong(alloc: Global) -> &'static str {
    for (name, method, to_the_last_value, rows) in BODIES {
        for (bare, words) in *rows {
            if !is_told(alloc, *method, bare, words, *to_the_last_value) {
                return *name;
            }
        }
    }
    ""
}

#[test]
fn bodies_are_told(rt: HostRuntime) {
    let wrong = first_wrong(rt.alloc());
    assert!(rt; wrong.is_empty(), "{wrong}");
}
