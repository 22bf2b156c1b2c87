//! What the line of a request and its fields ask for, and the order of refusals.

use crate::asking::{Field, Row, Told, USERS, is_told};
use crate::method_bodies::BODIES;
use privileges::{Users, read_users};
use std::alloc::Global;
use std::test::Fail;

const CALENDAR: &[u8] = b"/calendars/alice/work/";

const OBJECT: &[u8] = b"/calendars/alice/work/a.ics";

const NOTHING: Told = (b"nothing", 0);

const NOBODY: Told = (b"refused", 401);

const NO_PATH: Told = (b"refused", 404);

const NOT_ALLOWED: Told = (b"refused", 405);

const NO_METHOD: Told = (b"refused", 501);

const MALFORMED: Told = (b"bad", 400);

const OTHER_MEDIA: Told = (b"bad", 415);

const INFINITE: Told = (b"<D:propfind-finite-depth/>", 403);

/// Credentials (RFC 7617, 2; by the program base64): `YWxpY2U6YWJk` is `alice:abd`, `Ym9iOg==` is
/// `bob:`, `Ym9iOmFiYw==` is `bob:abc`, and `YWxpY2U=` is `alice`.
const CREDENTIALS: &[Row] = &[
    (
        b"GET",
        OBJECT,
        Field::Authorization,
        b"basic YWxpY2U6YWJj",
        NOTHING,
    ),
    (
        b"GET",
        OBJECT,
        Field::Authorization,
        b"BASIC   YWxpY2U6YWJj",
        NOTHING,
    ),
    (
        b"GET",
        OBJECT,
        Field::Authorization,
        b"Basic Ym9iOg==",
        NOTHING,
    ),
    (
        b"GET",
        OBJECT,
        Field::Authorization,
        b"Basic Ym9iOg",
        NOBODY,
    ),
    (
        b"GET",
        OBJECT,
        Field::Authorization,
        b"Basic Ym9iOmFiYw==",
        NOBODY,
    ),
    (
        b"GET",
        OBJECT,
        Field::Authorization,
        b"Basic YWxpY2U6YWJk",
        NOBODY,
    ),
    (
        b"GET",
        OBJECT,
        Field::Authorization,
        b"Basic YWxpY2U=",
        NOBODY,
    ),
    (
        b"GET",
        OBJECT,
        Field::Authorization,
        b"Bearer YWxpY2U6YWJj",
        NOBODY,
    ),
    (b"GET", OBJECT, Field::Authorization, b"Basic", NOBODY),
];

/// Media types of a PUT, and whether they are a calendar's; and those of a MKCALENDAR.
const MEDIA: &[Row] = &[
    (
        b"PUT",
        OBJECT,
        Field::Media,
        b"text/calendar; charset=utf-8",
        (b"put", 0),
    ),
    (
        b"PUT",
        OBJECT,
        Field::Media,
        b" Text/Calendar\t;x",
        (b"put", 0),
    ),
    (b"PUT", OBJECT, Field::Media, b"text/plain", (b"odd", 0)),
    (b"PUT", OBJECT, Field::Media, b"text/calendars", (b"odd", 0)),
    (
        b"MKCALENDAR",
        CALENDAR,
        Field::Media,
        b"APPLICATION/xml;a=b",
        (b"make", 0),
    ),
    (
        b"MKCALENDAR",
        CALENDAR,
        Field::Media,
        b"text/plain",
        OTHER_MEDIA,
    ),
];

/// Fields of requests for the root, and what is told of them.
const OF_THE_ROOT: &[Row] = &[
    (b"OPTIONS", b"/", Field::Coding, b"identity", NOTHING),
    (b"OPTIONS", b"/", Field::Coding, b"gzip", OTHER_MEDIA),
    (b"OPTIONS", b"/", Field::Coding, b"", OTHER_MEDIA),
    (b"OPTIONS", b"/", Field::IfMatch, b"x", MALFORMED),
    (b"OPTIONS", b"/", Field::IfMatch, b"*", NOTHING),
    (b"OPTIONS", b"/", Field::IfNoneMatch, b"\"a\",", MALFORMED),
    (
        b"OPTIONS",
        b"/",
        Field::IfNoneMatch,
        b"\"a,b\" ,\tW/\"c\"",
        NOTHING,
    ),
    (b"PROPFIND", b"/", Field::Depth, b"0", (b"find", 0)),
    (b"PROPFIND", b"/", Field::Depth, b"1", (b"find", 1)),
    (b"PROPFIND", b"/", Field::Depth, b"infinity", INFINITE),
    (b"PROPFIND", b"/", Field::Depth, b"2", MALFORMED),
    (b"OPTIONS", b"/", Field::Depth, b"2", NOTHING),
];

/// Requests of alice without another field, and what is told of them.
const LINES: &[Row] = &[
    (b"POST", b"x", Field::None, b"", NO_METHOD),
    (b"get", OBJECT, Field::None, b"", NO_METHOD),
    (b"GET", b"x", Field::None, b"", NO_PATH),
    (
        b"GET",
        b"/calendars/alice/work/a/b",
        Field::None,
        b"",
        NO_PATH,
    ),
    (
        b"GET",
        b"/principals/nobody/",
        Field::None,
        b"",
        NOT_ALLOWED,
    ),
    (b"PUT", CALENDAR, Field::None, b"", NOT_ALLOWED),
    (b"MKCALENDAR", OBJECT, Field::None, b"", NOT_ALLOWED),
    (b"ACL", b"/calendars/alice/", Field::None, b"", NOT_ALLOWED),
    (b"OPTIONS", b"/", Field::None, b"", NOTHING),
    (b"HEAD", OBJECT, Field::None, b"", NOTHING),
    (b"REPORT", CALENDAR, Field::None, b"", MALFORMED),
    (b"PROPFIND", b"/", Field::None, b"", INFINITE),
];

/// The tables, by what of a request is read.
const TABLES: &[(&str, &[Row])] = &[
    ("credentials", CREDENTIALS),
    ("media types", MEDIA),
    ("other fields", OF_THE_ROOT),
    ("lines", LINES),
    ("bodies", BODIES),
];

/// The table with the first request of which something else is told, or nothing.
fn first_wrong(alloc: Global, users: &Users) -> &'static str {
    for (name, rows) in TABLES {
        for row in *rows {
            if is_told(alloc, users, row) != Ok(true) {
                return *name;
            }
        }
    }
    ""
}

#[test]
fn requests_are_read(rt: HostRuntime) -> Result<(), Fail> {
    let users = read_users(rt.alloc(), USERS)?;
    let wrong = first_wrong(rt.alloc(), &users);
    assert!(rt; wrong.is_empty(), "{wrong}");
    Ok(())
}
