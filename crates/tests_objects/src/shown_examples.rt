//! The examples of calendar data of RFC 4791, 7.8.1 to 7.8.4, over objects of its appendix B.

use crate::picks::{CALENDAR, EVENT};
use crate::selections::{Pick, Span, busy, pick_of, range, whole};
use crate::showing::is_shown;
use cal_base::{NoMemory, Octets};
use cal_model::{Recur, Selection};
use std::alloc::Global;
use std::test::Fail;

/// The window of 64 days from 3 December 2005.
const WINDOW: i32 = 205;

/// The days of January 2006 that the examples ask for.
const DAYS: Span = (b"20060103T000000Z", b"20060105T000000Z");

/// A daily meeting at noon in the east of the United States from 2 to 6 January 2006, up to its second
/// override.
const MEETING: &[u8] = b"BEGIN:VCALENDAR\r\n\
    VERSION:2.0\r\n\
    PRODID:-//Example Corp.//CalDAV Client//EN\r\n\
    BEGIN:VTIMEZONE\r\n\
    LAST-MODIFIED:20040110T032845Z\r\n\
    TZID:US/Eastern\r\n\
    BEGIN:DAYLIGHT\r\n\
    DTSTART:20000404T020000\r\n\
    RRULE:FREQ=YEARLY;BYDAY=1SU;BYMONTH=4\r\n\
    TZNAME:EDT\r\n\
    TZOFFSETFROM:-0500\r\n\
    TZOFFSETTO:-0400\r\n\
    END:DAYLIGHT\r\n\
    BEGIN:STANDARD\r\n\
    DTSTART:20001026T020000\r\n\
    RRULE:FREQ=YEARLY;BYDAY=-1SU;BYMONTH=10\r\n\
    TZNAME:EST\r\n\
    TZOFFSETFROM:-0400\r\n\
    TZOFFSETTO:-0500\r\n\
    END:STANDARD\r\n\
    END:VTIMEZONE\r\n\
    BEGIN:VEVENT\r\n\
    DTSTAMP:20060206T001121Z\r\n\
    DTSTART;TZID=US/Eastern:20060102T120000\r\n\
    DURATION:PT1H\r\n\
    RRULE:FREQ=DAILY;COUNT=5\r\n\
    SUMMARY:Event #2\r\n\
    UID:00959BC664CA650E933C892C@example.com\r\n\
    END:VEVENT\r\n\
    BEGIN:VEVENT\r\n\
    DTSTAMP:20060206T001121Z\r\n\
    DTSTART;TZID=US/Eastern:20060104T140000\r\n\
    DURATION:PT1H\r\n\
    RECURRENCE-ID;TZID=US/Eastern:20060104T120000\r\n\
    SUMMARY:Event #2 bis\r\n\
    UID:00959BC664CA650E933C892C@example.com\r\n\
    END:VEVENT\r\n";

/// Its second override.
const LATER: &[u8] = b"BEGIN:VEVENT\r\n\
    DTSTAMP:20060206T001121Z\r\n\
    DTSTART;TZID=US/Eastern:20060106T140000\r\n\
    DURATION:PT1H\r\n\
    RECURRENCE-ID;TZID=US/Eastern:20060106T120000\r\n\
    SUMMARY:Event #2 bis bis\r\n\
    UID:00959BC664CA650E933C892C@example.com\r\n\
    END:VEVENT\r\n";

/// The end of a calendar.
const END: &[u8] = b"END:VCALENDAR\r\n";

/// The meeting, with or without its second override.
fn meeting(alloc: Global, has_later: bool) -> Result<Octets, NoMemory> {
    let mut text = Octets::of(alloc, MEETING)?;
    if has_later {
        text.extend_from_slice(LATER)?;
    }
    text.extend_from_slice(END)?;
    Ok(text)
}

/// What is picked of its events, and of its zone. The example names the zone alone and shows all of it;
/// here that is said.
const PARTS: [Pick; 2] = [
    Pick {
        props: &[
            (b"SUMMARY", false),
            (b"UID", false),
            (b"DTSTART", false),
            (b"DTEND", false),
            (b"DURATION", false),
            (b"RRULE", false),
            (b"RDATE", false),
            (b"EXRULE", false),
            (b"EXDATE", false),
            (b"RECURRENCE-ID", false),
        ],
        ..EVENT
    },
    Pick {
        name: b"VTIMEZONE",
        all_props: true,
        all_comps: true,
        ..CALENDAR
    },
];

/// What is shown by these picks (RFC 4791, 7.8.1).
const PICKED: &[u8] = b"BEGIN:VCALENDAR\r\n\
    VERSION:2.0\r\n\
    BEGIN:VTIMEZONE\r\n\
    LAST-MODIFIED:20040110T032845Z\r\n\
    TZID:US/Eastern\r\n\
    BEGIN:DAYLIGHT\r\n\
    DTSTART:20000404T020000\r\n\
    RRULE:FREQ=YEARLY;BYDAY=1SU;BYMONTH=4\r\n\
    TZNAME:EDT\r\n\
    TZOFFSETFROM:-0500\r\n\
    TZOFFSETTO:-0400\r\n\
    END:DAYLIGHT\r\n\
    BEGIN:STANDARD\r\n\
    DTSTART:20001026T020000\r\n\
    RRULE:FREQ=YEARLY;BYDAY=-1SU;BYMONTH=10\r\n\
    TZNAME:EST\r\n\
    TZOFFSETFROM:-0400\r\n\
    TZOFFSETTO:-0500\r\n\
    END:STANDARD\r\n\
    END:VTIMEZONE\r\n\
    BEGIN:VEVENT\r\n\
    DTSTART;TZID=US/Eastern:20060102T120000\r\n\
    DURATION:PT1H\r\n\
    RRULE:FREQ=DAILY;COUNT=5\r\n\
    SUMMARY:Event #2\r\n\
    UID:00959BC664CA650E933C892C@example.com\r\n\
    END:VEVENT\r\n\
    BEGIN:VEVENT\r\n\
    DTSTART;TZID=US/Eastern:20060104T140000\r\n\
    DURATION:PT1H\r\n\
    RECURRENCE-ID;TZID=US/Eastern:20060104T120000\r\n\
    SUMMARY:Event #2 bis\r\n\
    UID:00959BC664CA650E933C892C@example.com\r\n\
    END:VEVENT\r\n\
    BEGIN:VEVENT\r\n\
    DTSTART;TZID=US/Eastern:20060106T140000\r\n\
    DURATION:PT1H\r\n\
    RECURRENCE-ID;TZID=US/Eastern:20060106T120000\r\n\
    SUMMARY:Event #2 bis bis\r\n\
    UID:00959BC664CA650E933C892C@example.com\r\n\
    END:VEVENT\r\n\
    END:VCALENDAR\r\n";

#[test]
fn parts_of_a_meeting(rt: HostRuntime) -> Result<(), Fail> {
    let text = meeting(rt.alloc(), true)?;
    let outer = Pick {
        props: &[(b"VERSION", false)],
        ..CALENDAR
    };
    let select = Selection {
        comp: Some(pick_of(rt.alloc(), &outer, &PARTS)?),
        recur: Recur::Whole,
        busy: None,
    };
    let so = is_shown(rt.alloc(), text.as_slice(), WINDOW, select, false, PICKED)?;
    assert!(rt; so);
    Ok(())
}

/// The second override, that of the 6th, is left out (RFC 4791, 7.8.2).
#[test]
fn overrides_of_two_days(rt: HostRuntime) -> Result<(), Fail> {
    let text = meeting(rt.alloc(), true)?;
    let wanted = meeting(rt.alloc(), false)?;
    let select = whole(Recur::Limit(range(DAYS)));
    let so = is_shown(
        rt.alloc(),
        text.as_slice(),
        WINDOW,
        select,
        false,
        wanted.as_slice(),
    )?;
    assert!(rt; so);
    Ok(())
}

/// The instances of the two days (RFC 4791, 7.8.3). The end stands where DURATION stood, which the
/// example keeps, and the id of an instance directly behind DTSTART.
const EXPANDED: &[u8] = b"BEGIN:VCALENDAR\r\n\
    VERSION:2.0\r\n\
    PRODID:-//Example Corp.//CalDAV Client//EN\r\n\
    BEGIN:VEVENT\r\n\
    DTSTAMP:20060206T001121Z\r\n\
    DTSTART:20060103T170000Z\r\n\
    RECURRENCE-ID:20060103T170000Z\r\n\
    DTEND:20060103T180000Z\r\n\
    SUMMARY:Event #2\r\n\
    UID:00959BC664CA650E933C892C@example.com\r\n\
    END:VEVENT\r\n\
    BEGIN:VEVENT\r\n\
    DTSTAMP:20060206T001121Z\r\n\
    DTSTART:20060104T190000Z\r\n\
    DTEND:20060104T200000Z\r\n\
    RECURRENCE-ID:20060104T170000Z\r\n\
    SUMMARY:Event #2 bis\r\n\
    UID:00959BC664CA650E933C892C@example.com\r\n\
    END:VEVENT\r\n\
    END:VCALENDAR\r\n";

#[test]
fn instances_of_two_days(rt: HostRuntime) -> Result<(), Fail> {
    let text = meeting(rt.alloc(), true)?;
    let select = whole(Recur::Expand(range(DAYS)));
    let so = is_shown(rt.alloc(), text.as_slice(), WINDOW, select, false, EXPANDED)?;
    assert!(rt; so);
    Ok(())
}

/// Busy times.
const BUSY: &[u8] = b"BEGIN:VCALENDAR\r\n\
    VERSION:2.0\r\n\
    PRODID:-//Example Corp.//CalDAV Client//EN\r\n\
    BEGIN:VFREEBUSY\r\n\
    ORGANIZER;CN=\"Bernard Desruisseaux\":mailto:bernard@example.com\r\n\
    UID:76ef34-54a3d2@example.com\r\n\
    DTSTAMP:20050530T123421Z\r\n\
    DTSTART:20060101T000000Z\r\n\
    DTEND:20060108T000000Z\r\n\
    FREEBUSY:20050531T230000Z/20050601T010000Z\r\n\
    FREEBUSY;FBTYPE=BUSY-TENTATIVE:20060102T100000Z/20060102T120000Z\r\n\
    FREEBUSY:20060103T100000Z/20060103T120000Z\r\n\
    FREEBUSY:20060104T100000Z/20060104T120000Z\r\n\
    FREEBUSY;FBTYPE=BUSY-UNAVAILABLE:20060105T100000Z/20060105T120000Z\r\n\
    FREEBUSY:20060106T100000Z/20060106T120000Z\r\n\
    END:VFREEBUSY\r\n\
    END:VCALENDAR\r\n";

/// What is shown of them for 2 January (RFC 4791, 7.8.4).
const BUSY_SHOWN: &[u8] = b"BEGIN:VCALENDAR\r\n\
    VERSION:2.0\r\n\
    PRODID:-//Example Corp.//CalDAV Client//EN\r\n\
    BEGIN:VFREEBUSY\r\n\
    ORGANIZER;CN=\"Bernard Desruisseaux\":mailto:bernard@example.com\r\n\
    UID:76ef34-54a3d2@example.com\r\n\
    DTSTAMP:20050530T123421Z\r\n\
    DTSTART:20060101T000000Z\r\n\
    DTEND:20060108T000000Z\r\n\
    FREEBUSY;FBTYPE=BUSY-TENTATIVE:20060102T100000Z/20060102T120000Z\r\n\
    END:VFREEBUSY\r\n\
    END:VCALENDAR\r\n";

#[test]
fn busy_times_of_a_day(rt: HostRuntime) -> Result<(), Fail> {
    let select = busy((b"20060102T000000Z", b"20060103T000000Z"));
    let so = is_shown(rt.alloc(), BUSY, WINDOW, select, false, BUSY_SHOWN)?;
    assert!(rt; so);
    Ok(())
}
