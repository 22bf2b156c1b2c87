//! Objects as single instances (RFC 4791, 9.6.5), worked out by hand.

use crate::meetings::{WEEKLY, WINDOW, daily, moving};
use crate::selections::{Span, range, whole};
use crate::showing::is_shown;
use cal_base::{NoMemory, Octets};
use cal_model::Recur;
use std::alloc::Global;
use std::test::Fail;

/// Whether this is shown of an object as its instances in a range.
fn is_expanded(
    alloc: Global,
    text: &[u8],
    window: i32,
    span: Span,
    is_ahead: bool,
    wanted: &[u8],
) -> Result<bool, NoMemory> {
    let select = whole(Recur::Expand(range(span)));
    is_shown(alloc, text, window, select, is_ahead, wanted)
}

/// Ranges over the daily meeting, and what is shown.
const DAYS: [(Span, &[u8]); 5] = [
    // from the 7th to the 10th: the 8th is left out, and the 10th is moved
    (
        (b"20250307T000000Z", b"20250311T000000Z"),
        b"BEGIN:VCALENDAR\r\n\
        VERSION:2.0\r\n\
        PRODID:-//Example//EN\r\n\
        BEGIN:X-NOTE\r\n\
        X-TEXT:first\r\n\
        END:X-NOTE\r\n\
        BEGIN:VEVENT\r\n\
        UID:daily\r\n\
        DTSTART:20250307T150000Z\r\n\
        RECURRENCE-ID:20250307T150000Z\r\n\
        DTEND:20250307T160000Z\r\n\
        SUMMARY:Daily\r\n\
        BEGIN:VALARM\r\n\
        TRIGGER:-PT10M\r\n\
        END:VALARM\r\n\
        END:VEVENT\r\n\
        BEGIN:VEVENT\r\n\
        UID:daily\r\n\
        DTSTART:20250309T140000Z\r\n\
        RECURRENCE-ID:20250309T140000Z\r\n\
        DTEND:20250309T150000Z\r\n\
        SUMMARY:Daily\r\n\
        BEGIN:VALARM\r\n\
        TRIGGER:-PT10M\r\n\
        END:VALARM\r\n\
        END:VEVENT\r\n\
        BEGIN:VEVENT\r\n\
        UID:daily\r\n\
        RECURRENCE-ID:20250310T140000Z\r\n\
        DTSTART:20250310T180000Z\r\n\
        DTEND:20250310T193000Z\r\n\
        SUMMARY:Moved\r\n\
        END:VEVENT\r\n\
        BEGIN:X-NOTE\r\n\
        X-TEXT:last\r\n\
        END:X-NOTE\r\n\
        END:VCALENDAR\r\n",
    ),
    // from the end of the 7th's up to the first second of the 9th's
    (
        (b"20250307T160000Z", b"20250309T140001Z"),
        b"BEGIN:VCALENDAR\r\n\
        VERSION:2.0\r\n\
        PRODID:-//Example//EN\r\n\
        BEGIN:X-NOTE\r\n\
        X-TEXT:first\r\n\
        END:X-NOTE\r\n\
        BEGIN:VEVENT\r\n\
        UID:daily\r\n\
        DTSTART:20250309T140000Z\r\n\
        RECURRENCE-ID:20250309T140000Z\r\n\
        DTEND:20250309T150000Z\r\n\
        SUMMARY:Daily\r\n\
        BEGIN:VALARM\r\n\
        TRIGGER:-PT10M\r\n\
        END:VALARM\r\n\
        END:VEVENT\r\n\
        BEGIN:X-NOTE\r\n\
        X-TEXT:last\r\n\
        END:X-NOTE\r\n\
        END:VCALENDAR\r\n",
    ),
    // up to the start of the 9th's
    ((b"20250307T160000Z", b"20250309T140000Z"), NONE_SHOWN),
    // the time at which the 8th's would be
    ((b"20250308T150000Z", b"20250308T160000Z"), NONE_SHOWN),
    // the time from which the 10th's was moved
    ((b"20250310T140000Z", b"20250310T150000Z"), NONE_SHOWN),
];

/// None of the instances of the daily meeting.
const NONE_SHOWN: &[u8] = b"BEGIN:VCALENDAR\r\n\
    VERSION:2.0\r\n\
    PRODID:-//Example//EN\r\n\
    BEGIN:X-NOTE\r\n\
    X-TEXT:first\r\n\
    END:X-NOTE\r\n\
    BEGIN:X-NOTE\r\n\
    X-TEXT:last\r\n\
    END:X-NOTE\r\n\
    END:VCALENDAR\r\n";

#[test]
fn daily_meeting_is_expanded(rt: HostRuntime) -> Result<(), Fail> {
    let text = daily(rt.alloc(), true)?;
    for (place, case) in DAYS.iter().enumerate() {
        let (span, wanted) = *case;
        let so = is_expanded(rt.alloc(), text.as_slice(), WINDOW, span, false, wanted)?;
        assert!(rt; so, "range {place}");
    }
    Ok(())
}

/// What is shown of the weekly meeting from 1 to 28 March, over its rows of each of two windows: the
/// second begins on 13 March.
const WEEKS: [(i32, &[u8]); 2] = [
    (
        WINDOW,
        b"BEGIN:VCALENDAR\r\n\
        VERSION:2.0\r\n\
        PRODID:-//a//EN\r\n\
        BEGIN:VEVENT\r\n\
        UID:meet\r\n\
        DTSTART:20250304T150000Z\r\n\
        RECURRENCE-ID:20250304T150000Z\r\n\
        DTEND:20250304T160000Z\r\n\
        SUMMARY:Plan\r\n\
        END:VEVENT\r\n\
        BEGIN:VEVENT\r\n\
        UID:meet\r\n\
        DTSTART:20250311T140000Z\r\n\
        RECURRENCE-ID:20250311T140000Z\r\n\
        DTEND:20250311T150000Z\r\n\
        SUMMARY:Plan\r\n\
        END:VEVENT\r\n\
        END:VCALENDAR\r\n",
    ),
    (
        WINDOW + 1,
        b"BEGIN:VCALENDAR\r\n\
        VERSION:2.0\r\n\
        PRODID:-//a//EN\r\n\
        BEGIN:VEVENT\r\n\
        UID:meet\r\n\
        RECURRENCE-ID:20250325T140000Z\r\n\
        DTSTART:20250326T180000Z\r\n\
        DTEND:20250326T190000Z\r\n\
        SUMMARY:Plan moved\r\n\
        END:VEVENT\r\n\
        END:VCALENDAR\r\n",
    ),
];

#[test]
fn weekly_meeting_is_expanded(rt: HostRuntime) -> Result<(), Fail> {
    let march = (
        b"20250301T000000Z".as_slice(),
        b"20250329T000000Z".as_slice(),
    );
    for (window, wanted) in WEEKS {
        let so = is_expanded(rt.alloc(), WEEKLY, window, march, false, wanted)?;
        assert!(rt; so, "window {window}");
    }
    Ok(())
}

/// A calendar with one component of a name, with these lines.
fn calendar(alloc: Global, name: &[u8], lines: &[u8]) -> Result<Octets, NoMemory> {
    let mut text = Octets::of(alloc, b"BEGIN:VCALENDAR\r\nBEGIN:")?;
    text.extend_from_slice(name)?;
    text.extend_from_slice(b"\r\nUID:a\r\n")?;
    text.extend_from_slice(lines)?;
    text.extend_from_slice(b"END:")?;
    text.extend_from_slice(name)?;
    text.extend_from_slice(b"\r\nEND:VCALENDAR\r\n")?;
    Ok(text)
}

/// A name and lines of a component, a range, whether floating times are an hour ahead of UTC, and the
/// lines of the one instance that is shown, if one is.
type Single = (
    &'static [u8],
    &'static [u8],
    Span,
    bool,
    Option<&'static [u8]>,
);

/// Components alone in a calendar.
const SINGLE: [Single; 16] = [
    // each week on a day, which is the one of the zone
    (
        b"VEVENT",
        b"DTSTART;VALUE=DATE:20250203\r\nDTEND;VALUE=DATE:20250204\r\nRRULE:FREQ=WEEKLY;COUNT=3\r\n",
        (b"20250210T235959Z", b"20250211T000000Z"),
        false,
        Some(
            b"DTSTART;VALUE=DATE:20250210\r\nRECURRENCE-ID;VALUE=DATE:20250210\r\nDTEND;VALUE=DATE:20250211\r\n",
        ),
    ),
    (
        b"VEVENT",
        b"DTSTART;VALUE=DATE:20250203\r\nDTEND;VALUE=DATE:20250204\r\nRRULE:FREQ=WEEKLY;COUNT=3\r\n",
        (b"20250209T230000Z", b"20250209T230001Z"),
        true,
        Some(
            b"DTSTART;VALUE=DATE:20250210\r\nRECURRENCE-ID;VALUE=DATE:20250210\r\nDTEND;VALUE=DATE:20250211\r\n",
        ),
    ),
    (
        b"VEVENT",
        b"DTSTART;VALUE=DATE:20250203\r\nDTEND;VALUE=DATE:20250204\r\nRRULE:FREQ=WEEKLY;COUNT=3\r\n",
        (b"20250209T230000Z", b"20250209T230001Z"),
        false,
        None,
    ),
    // a day alone has no line for its end
    (
        b"VEVENT",
        b"DTSTART;VALUE=DATE:20250203\r\nSUMMARY:day\r\n",
        (b"20250203T120000Z", b"20250203T130000Z"),
        false,
        Some(b"DTSTART;VALUE=DATE:20250203\r\nSUMMARY:day\r\n"),
    ),
    // lengths of days, of hours, and of nothing
    (
        b"VEVENT",
        b"DTSTART;VALUE=DATE:20250203\r\nDURATION:P2D\r\n",
        (b"20250204T120000Z", b"20250204T130000Z"),
        false,
        Some(b"DTSTART;VALUE=DATE:20250203\r\nDTEND;VALUE=DATE:20250205\r\n"),
    ),
    (
        b"VEVENT",
        b"DURATION:PT1H30M\r\nDTSTART:20250203T090000Z\r\nSUMMARY:b\r\n",
        (b"20250203T102959Z", b"20250203T110000Z"),
        false,
        Some(b"DTEND:20250203T103000Z\r\nDTSTART:20250203T090000Z\r\nSUMMARY:b\r\n"),
    ),
    (
        b"VEVENT",
        b"DTSTART:20250203T090000Z\r\nDURATION:P0D\r\n",
        (b"20250203T090000Z", b"20250203T090001Z"),
        false,
        Some(b"DTSTART:20250203T090000Z\r\nDURATION:PT0S\r\n"),
    ),
    // a floating time keeps its digits, and is read an hour ahead of UTC
    (
        b"VEVENT",
        b"DTSTART:20250203T090000\r\nDTEND:20250203T100000\r\nRRULE:FREQ=DAILY;COUNT=2\r\n",
        (b"20250204T080000Z", b"20250204T080001Z"),
        true,
        Some(
            b"DTSTART:20250204T090000\r\nRECURRENCE-ID:20250204T090000\r\nDTEND:20250204T100000\r\n",
        ),
    ),
    // a period of an RDATE gives an end
    (
        b"VEVENT",
        b"DTSTART:20250203T090000Z\r\nRDATE;VALUE=PERIOD:20250205T090000Z/PT2H\r\nSUMMARY:c\r\n",
        (b"20250205T090000Z", b"20250206T000000Z"),
        false,
        Some(
            b"DTSTART:20250205T090000Z\r\nRECURRENCE-ID:20250205T090000Z\r\nDTEND:20250205T110000Z\r\nSUMMARY:c\r\n",
        ),
    ),
    // an override without a master; its id is a day
    (
        b"VEVENT",
        b"RECURRENCE-ID;VALUE=DATE:20250204\r\nDTSTART;VALUE=DATE:20250206\r\n",
        (b"20250206T000000Z", b"20250207T000000Z"),
        false,
        Some(b"RECURRENCE-ID;VALUE=DATE:20250204\r\nDTSTART;VALUE=DATE:20250206\r\n"),
    ),
    // a to-do ends by DUE
    (
        b"VTODO",
        b"DTSTART:20250203T090000Z\r\nDURATION:PT1H\r\n",
        (b"20250203T090000Z", b"20250203T093000Z"),
        false,
        Some(b"DTSTART:20250203T090000Z\r\nDUE:20250203T100000Z\r\n"),
    ),
    (
        b"VTODO",
        b"DTSTART;VALUE=DATE:20250203\r\nDUE;VALUE=DATE:20250204\r\nRRULE:FREQ=DAILY;COUNT=2\r\n",
        (b"20250204T120000Z", b"20250204T130000Z"),
        false,
        Some(
            b"DTSTART;VALUE=DATE:20250204\r\nRECURRENCE-ID;VALUE=DATE:20250204\r\nDUE;VALUE=DATE:20250205\r\n",
        ),
    ),
    // one without dates is in each range; its length says nothing and stays
    (
        b"VTODO",
        b"DURATION:PT1H\r\nSUMMARY:d\r\n",
        (b"20250203T090000Z", b"20250203T093000Z"),
        false,
        Some(b"DURATION:PT1H\r\nSUMMARY:d\r\n"),
    ),
    (
        b"VTODO",
        b"COMPLETED:20250203T100000Z\r\nSUMMARY:d\r\n",
        (b"20250203T110000Z", b"20250203T120000Z"),
        false,
        None,
    ),
    (
        b"VJOURNAL",
        b"DTSTART:20250203T090000Z\r\nRRULE:FREQ=DAILY;COUNT=2\r\n",
        (b"20250204T000000Z", b"20250205T000000Z"),
        false,
        Some(b"DTSTART:20250204T090000Z\r\nRECURRENCE-ID:20250204T090000Z\r\n"),
    ),
    // an event without DTSTART is in no range
    (
        b"VEVENT",
        b"SUMMARY:e\r\n",
        (b"20250203T000000Z", b"20250205T000000Z"),
        false,
        None,
    ),
];

/// Whether that one instance of a component is shown, or none.
fn is_single(alloc: Global, single: &Single) -> Result<bool, NoMemory> {
    let (name, lines, span, is_ahead, instance) = *single;
    let text = calendar(alloc, name, lines)?;
    let wanted = match instance {
        Some(instance) => calendar(alloc, name, instance)?,
        None => Octets::of(alloc, b"BEGIN:VCALENDAR\r\nEND:VCALENDAR\r\n")?,
    };
    is_expanded(
        alloc,
        text.as_slice(),
        WINDOW,
        span,
        is_ahead,
        wanted.as_slice(),
    )
}

#[test]
fn single_components_are_expanded(rt: HostRuntime) -> Result<(), Fail> {
    for (place, case) in SINGLE.iter().enumerate() {
        assert!(rt; is_single(rt.alloc(), case)?, "component {place}");
    }
    Ok(())
}

/// An override that names its instance by the day alone.
const BY_DAY: &[u8] = b"BEGIN:VCALENDAR\r\n\
    BEGIN:VEVENT\r\n\
    UID:a\r\n\
    DTSTART:20250203T090000Z\r\n\
    RRULE:FREQ=DAILY;COUNT=3\r\n\
    END:VEVENT\r\n\
    BEGIN:VEVENT\r\n\
    UID:a\r\n\
    RECURRENCE-ID;VALUE=DATE:20250204\r\n\
    DTSTART:20250204T120000Z\r\n\
    END:VEVENT\r\n\
    END:VCALENDAR\r\n";

/// Its id is the time of the instance, so the text before the colon no longer says that it is a day.
const BY_DAY_SHOWN: &[u8] = b"BEGIN:VCALENDAR\r\n\
    BEGIN:VEVENT\r\n\
    UID:a\r\n\
    RECURRENCE-ID:20250204T090000Z\r\n\
    DTSTART:20250204T120000Z\r\n\
    END:VEVENT\r\n\
    END:VCALENDAR\r\n";

#[test]
fn day_becomes_a_time(rt: HostRuntime) -> Result<(), Fail> {
    let span: Span = (b"20250204T000000Z", b"20250205T000000Z");
    assert!(rt; is_expanded(rt.alloc(), BY_DAY, WINDOW, span, false, BY_DAY_SHOWN)?);
    Ok(())
}

/// An event with parameters and names as they may be written.
const WRITTEN: &[u8] = b"begin:vcalendar\n\
    begin:vtimezone\n\
    tzid:Fixed\n\
    begin:standard\n\
    dtstart:20000101T000000\n\
    tzoffsetfrom:+0530\n\
    tzoffsetto:+0530\n\
    end:standard\n\
    end:vtimezone\n\
    begin:vevent\n\
    uid:a\n\
    dtstart;X-A=\"b;c:d\";tzid=Fixed:20250203T090000\n\
    dtend;value=date-time;tzid=Fixed;x-e=f:20250203T100000\n\
    end:vevent\n\
    end:vcalendar\n";

/// Names of components are printed in capitals, and the text of a line up to its colon stays.
const WRITTEN_SHOWN: &[u8] = b"BEGIN:VCALENDAR\r\n\
    BEGIN:VEVENT\r\n\
    uid:a\r\n\
    dtstart;X-A=\"b;c:d\":20250203T033000Z\r\n\
    dtend;value=date-time;x-e=f:20250203T043000Z\r\n\
    END:VEVENT\r\n\
    END:VCALENDAR\r\n";

#[test]
fn front_of_a_line_stays(rt: HostRuntime) -> Result<(), Fail> {
    let span: Span = (b"20250203T000000Z", b"20250204T000000Z");
    assert!(rt; is_expanded(rt.alloc(), WRITTEN, WINDOW, span, false, WRITTEN_SHOWN)?);
    Ok(())
}

/// The instances of the meeting that is moved from 17 March to 8 April: RANGE goes, and what it was moved
/// by and how long it is held come from the override that governs each.
const MOVING_SHOWN: &[u8] = b"BEGIN:VCALENDAR\r\n\
    BEGIN:VEVENT\r\n\
    UID:u\r\n\
    RECURRENCE-ID;X-A=b:20250317T090000Z\r\n\
    DTSTART:20250318T110000Z\r\n\
    DTEND:20250318T123000Z\r\n\
    END:VEVENT\r\n\
    BEGIN:VEVENT\r\n\
    UID:u\r\n\
    RECURRENCE-ID:20250324T090000Z\r\n\
    DTSTART:20250324T150000Z\r\n\
    DTEND:20250324T160000Z\r\n\
    END:VEVENT\r\n\
    BEGIN:VEVENT\r\n\
    UID:u\r\n\
    RECURRENCE-ID;X-A=b:20250331T090000Z\r\n\
    DTSTART:20250401T110000Z\r\n\
    DTEND:20250401T123000Z\r\n\
    END:VEVENT\r\n\
    BEGIN:VEVENT\r\n\
    UID:u\r\n\
    recurrence-id:20250407T090000Z\r\n\
    DTSTART:20250406T080000Z\r\n\
    DTEND:20250406T081500Z\r\n\
    END:VEVENT\r\n\
    END:VCALENDAR\r\n";

#[test]
fn moved_instances_are_expanded(rt: HostRuntime) -> Result<(), Fail> {
    let text = moving(rt.alloc(), [true, true, true])?;
    let span: Span = (b"20250317T000000Z", b"20250409T000000Z");
    assert!(rt;
        is_expanded(
            rt.alloc(),
            text.as_slice(),
            WINDOW + 1,
            span,
            false,
            MOVING_SHOWN
        )?
    );
    Ok(())
}
