//! A recurring meeting for the tests, with an override.

use cal_base::{NoMemory, Octets};
use std::alloc::Global;

/// The window of 64 days from 8 January 2025.
pub const WINDOW: i32 = 314;

/// A daily meeting at ten in New York, from 6 to 11 March 2025 without the 8th, up to its override.
/// The clocks go forward on the 9th.
const DAILY: &[u8] = b"BEGIN:VCALENDAR\r\n\
    VERSION:2.0\r\n\
    PRODID:-//Example//EN\r\n\
    BEGIN:X-NOTE\r\n\
    RRULE:FREQ=DAILY\r\n\
    X-TEXT:first\r\n\
    END:X-NOTE\r\n\
    BEGIN:VEVENT\r\n\
    UID:daily\r\n\
    DTSTART;TZID=NY:20250306T100000\r\n\
    DTEND;TZID=NY:20250306T110000\r\n\
    RRULE:FREQ=DAILY;COUNT=6\r\n\
    EXDATE;TZID=NY:20250308T100000\r\n\
    SUMMARY:Daily\r\n\
    BEGIN:VALARM\r\n\
    TRIGGER:-PT10M\r\n\
    END:VALARM\r\n\
    END:VEVENT\r\n\
    BEGIN:VTIMEZONE\r\n\
    TZID:NY\r\n\
    BEGIN:DAYLIGHT\r\n\
    DTSTART:20070311T020000\r\n\
    RRULE:FREQ=YEARLY;BYMONTH=3;BYDAY=2SU\r\n\
    TZOFFSETFROM:-0500\r\n\
    TZOFFSETTO:-0400\r\n\
    END:DAYLIGHT\r\n\
    BEGIN:STANDARD\r\n\
    DTSTART:20071104T020000\r\n\
    RRULE:FREQ=YEARLY;BYMONTH=11;BYDAY=1SU\r\n\
    TZOFFSETFROM:-0400\r\n\
    TZOFFSETTO:-0500\r\n\
    END:STANDARD\r\n\
    END:VTIMEZONE\r\n";

/// Its override: on the 10th it is held from 14:00 to 15:30.
const DAILY_MOVED: &[u8] = b"BEGIN:VEVENT\r\n\
    UID:daily\r\n\
    RECURRENCE-ID;TZID=NY:20250310T100000\r\n\
    DTSTART;TZID=NY:20250310T140000\r\n\
    DTEND;TZID=NY:20250310T153000\r\n\
    SUMMARY:Moved\r\n\
    END:VEVENT\r\n";

/// A component of another kind behind it, and the end.
const DAILY_END: &[u8] = b"BEGIN:X-NOTE\r\n\
    X-TEXT:last\r\n\
    END:X-NOTE\r\n\
    END:VCALENDAR\r\n";

/// The daily meeting, with or without its override.
pub fn daily(alloc: Global, has_override: bool) -> Result<Octets, NoMemory> {
    let mut text = Octets::of(alloc, DAILY)?;
    if has_override {
        text.extend_from_slice(DAILY_MOVED)?;
    }
    text.extend_from_slice(DAILY_END)?;
    Ok(text)
}

/// A weekly meeting at ten in New York, five times from 4 March 2025 on, without the 18th; that of the
/// 25th is moved to 14:00 on the 26th. The clocks go forward on the 9th.
pub const WEEKLY: &[u8] = b"BEGIN:VCALENDAR\r\n\
    VERSION:2.0\r\n\
    PRODID:-//a//EN\r\n\
    BEGIN:VTIMEZONE\r\n\
    TZID:NY\r\n\
    BEGIN:DAYLIGHT\r\n\
    DTSTART:16010101T020000\r\n\
    RRULE:FREQ=YEARLY;BYDAY=2SU;BYMONTH=3\r\n\
    TZOFFSETFROM:-0500\r\n\
    TZOFFSETTO:-0400\r\n\
    END:DAYLIGHT\r\n\
    BEGIN:STANDARD\r\n\
    DTSTART:16010101T020000\r\n\
    RRULE:FREQ=YEARLY;BYDAY=1SU;BYMONTH=11\r\n\
    TZOFFSETFROM:-0400\r\n\
    TZOFFSETTO:-0500\r\n\
    END:STANDARD\r\n\
    END:VTIMEZONE\r\n\
    BEGIN:VEVENT\r\n\
    UID:meet\r\n\
    DTSTART;TZID=NY:20250304T100000\r\n\
    DTEND;TZID=NY:20250304T110000\r\n\
    RRULE:FREQ=WEEKLY;COUNT=5\r\n\
    EXDATE;TZID=NY:20250318T100000\r\n\
    SUMMARY:Plan\r\n\
    END:VEVENT\r\n\
    BEGIN:VEVENT\r\n\
    UID:meet\r\n\
    RECURRENCE-ID;TZID=NY:20250325T100000\r\n\
    DTSTART;TZID=NY:20250326T140000\r\n\
    DTEND;TZID=NY:20250326T150000\r\n\
    SUMMARY:Plan moved\r\n\
    END:VEVENT\r\n\
    END:VCALENDAR\r\n";

/// A weekly meeting from nine to ten, seven times from 3 March 2025 on, up to its overrides.
const MOVING: &[u8] = b"BEGIN:VCALENDAR\r\n\
    BEGIN:VEVENT\r\n\
    UID:u\r\n\
    DTSTART:20250303T090000Z\r\n\
    DTEND:20250303T100000Z\r\n\
    RRULE:FREQ=WEEKLY;COUNT=7\r\n\
    END:VEVENT\r\n";

/// Its overrides. From the 17th on it is held a day later, from eleven to half past twelve; the 24th's
/// is held at three that day; from 7 April on it is held a day earlier, for a quarter from eight on.
const MOVING_OVERRIDES: [&[u8]; 3] = [
    b"BEGIN:VEVENT\r\n\
    UID:u\r\n\
    RECURRENCE-ID;X-A=b;RANGE=THISANDFUTURE:20250317T090000Z\r\n\
    DTSTART:20250318T110000Z\r\n\
    DTEND:20250318T123000Z\r\n\
    END:VEVENT\r\n",
    b"BEGIN:VEVENT\r\n\
    UID:u\r\n\
    RECURRENCE-ID;RANGE=THISONLY:20250324T090000Z\r\n\
    DTSTART:20250324T150000Z\r\n\
    DTEND:20250324T160000Z\r\n\
    END:VEVENT\r\n",
    b"BEGIN:VEVENT\r\n\
    UID:u\r\n\
    recurrence-id;range=\"ThisAndFuture\":20250407T090000Z\r\n\
    DTSTART:20250406T080000Z\r\n\
    DURATION:PT15M\r\n\
    END:VEVENT\r\n",
];

/// That meeting, with those of its overrides that stay.
pub fn moving(alloc: Global, stays: [bool; 3]) -> Result<Octets, NoMemory> {
    let mut text = Octets::of(alloc, MOVING)?;
    for (event, stays) in MOVING_OVERRIDES.iter().zip(stays.iter()) {
        if *stays {
            text.extend_from_slice(event)?;
        }
    }
    text.extend_from_slice(b"END:VCALENDAR\r\n")?;
    Ok(text)
}
