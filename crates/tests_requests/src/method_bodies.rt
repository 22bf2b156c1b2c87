//! That the body of each method is read: what bodies say is tested with the crate that reads elements.

use crate::asking::{Field, Row};

const CALENDAR: &[u8] = b"/calendars/alice/work/";

/// Methods on a calendar with their bodies, and a PUT, whose octets are kept.
pub const BODIES: &[Row] = &[
    (
        b"PROPFIND",
        CALENDAR,
        Field::Body,
        b"<propfind xmlns=\"DAV:\"><prop><owner/></prop></propfind>",
        (b"find", 0),
    ),
    (
        b"PROPFIND",
        CALENDAR,
        Field::Body,
        b"<propfind xmlns=\"DAV:\">",
        (b"bad", 400),
    ),
    (b"PROPFIND", CALENDAR, Field::Body, b"", (b"find", 0)),
    (
        b"PROPPATCH",
        CALENDAR,
        Field::Body,
        b"<propertyupdate xmlns=\"DAV:\"><set><prop><displayname>a</displayname></prop></set></propertyupdate>",
        (b"patch", 1),
    ),
    (
        b"MKCALENDAR",
        CALENDAR,
        Field::Body,
        b"<C:mkcalendar xmlns=\"DAV:\" xmlns:C=\"urn:ietf:params:xml:ns:caldav\"><set><prop><displayname/></prop></set></C:mkcalendar>",
        (b"make", 1),
    ),
    (
        b"REPORT",
        CALENDAR,
        Field::Body,
        b"<free-busy-query xmlns=\"urn:ietf:params:xml:ns:caldav\"><time-range start=\"20060104T140000Z\" end=\"20060105T220000Z\"/></free-busy-query>",
        (b"report", 0),
    ),
    (
        b"REPORT",
        CALENDAR,
        Field::Body,
        b"<sync-collection xmlns=\"DAV:\"/>",
        (b"<D:supported-report/>", 403),
    ),
    (
        b"ACL",
        CALENDAR,
        Field::Body,
        b"<acl xmlns=\"DAV:\"><ace><principal><all/></principal><grant><privilege><read/></privilege></grant></ace></acl>",
        (b"acl", 1),
    ),
    (b"DELETE", CALENDAR, Field::Body, b"<x", (b"nothing", 0)),
    (
        b"PUT",
        b"/calendars/alice/work/a.ics",
        Field::Body,
        b"BEGIN:VCALENDAR\r\n",
        (b"put", 17),
    ),
];
