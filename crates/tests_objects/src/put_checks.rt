//! Objects as they are put, and the condition that refuses each.

use cal_base::{NoMemory, Octets};
use cal_model::{Cond, Refusal};
use preconditions::{PutCheck, PutReading, check_put};
use std::alloc::Global;
use std::test::Fail;

/// All four kinds.
const ALL_KINDS: u8 = 15;

/// What stands before and behind the lines of the one event of an object.
const HEAD: &[u8] = b"BEGIN:VCALENDAR\r\nVERSION:2.0\r\nPRODID:-//a//EN\r\nBEGIN:VEVENT\r\n";

const TAIL: &[u8] = b"END:VEVENT\r\nEND:VCALENDAR\r\n";

/// The most octets of an object.
const MOST_OCTETS: usize = 262_144;

/// An object with one event of these lines.
fn event(alloc: Global, lines: &[u8]) -> Result<Octets, NoMemory> {
    let mut octets = Octets::of(alloc, HEAD)?;
    octets.extend_from_slice(lines)?;
    octets.extend_from_slice(TAIL)?;
    Ok(octets)
}

/// The condition of an answer as it is written, or a word in its place.
fn told(check: &PutCheck) -> &[u8] {
    match check {
        PutCheck::Fine(_) => b"fine",
        PutCheck::Refused(refusal) => told_refusal(refusal),
        PutCheck::NoMemory => b"no memory",
    }
}

fn told_refusal(refusal: &Refusal) -> &[u8] {
    match &refusal.cond {
        Cond::Cal(condition) if refusal.status == 403 => condition.as_slice(),
        _ => b"another refusal",
    }
}

/// Whether this is told of octets that are put, sent as a calendar or not, where the calendar takes
/// those kinds: without a reading, with one of them, and with one of other octets.
fn is_told(alloc: Global, media_ok: bool, octets: &[u8], kinds: u8, wanted: &[u8]) -> bool {
    let mut own = PutReading::of(alloc, octets);
    let mut other = PutReading::of(alloc, HEAD);
    told(&check_put(alloc, media_ok, octets, kinds, &mut None)) == wanted
        && told(&check_put(alloc, media_ok, octets, kinds, &mut own)) == wanted
        && told(&check_put(alloc, media_ok, octets, kinds, &mut other)) == wanted
}

/// The lines of an event, and what is told of an object that has it.
const EVENTS: [(&[u8], &[u8]); 14] = [
    (b"UID:a\r\nDTSTART:20250310T090000Z\r\n", b"fine"),
    (
        b"UID:a\r\nDTSTART;VALUE=DATE:16040229\r\nRRULE:FREQ=YEARLY\r\n",
        b"fine",
    ),
    (
        b"UID:a\r\nDTSTART:20250310T250000Z\r\n",
        b"<C:valid-calendar-data/>",
    ),
    (b"UID:a\r\nDTSTART", b"<C:valid-calendar-data/>"),
    (
        b"DTSTART:20250310T090000Z\r\n",
        b"<C:valid-calendar-object-resource/>",
    ),
    (
        b"UID:a\r\nDTSTART;TZID=Nowhere:20250310T090000\r\n",
        b"<C:valid-calendar-object-resource/>",
    ),
    (
        b"UID:a\r\nDTSTART:15991231T235959Z\r\n",
        b"<C:min-date-time/>",
    ),
    (b"UID:a\r\nDTSTART:16000101T000000Z\r\n", b"fine"),
    (b"UID:a\r\nDTSTART:21001231T235959Z\r\n", b"fine"),
    (
        b"UID:a\r\nDTSTART:21010101T000000Z\r\n",
        b"<C:max-date-time/>",
    ),
    // Of two dates outside the one that is too early decides.
    (
        b"UID:a\r\nDTSTART:21010101T000000Z\r\nRDATE:15991231T235959Z\r\n",
        b"<C:min-date-time/>",
    ),
    // The 250,001st hour ends in the year 2053.
    (
        b"UID:a\r\nDTSTART:20250101T000000Z\r\nRRULE:FREQ=HOURLY\r\n",
        b"<C:max-instances/>",
    ),
    (
        b"UID:a\r\nDTSTART:20250101T000000Z\r\nRRULE:FREQ=MINUTELY;COUNT=2\r\n",
        b"<C:max-instances/>",
    ),
    (
        b"UID:a\r\nDTSTART:20250101T000000Z\r\nRRULE:FREQ=SECONDLY;COUNT=1\r\n",
        b"<C:max-instances/>",
    ),
];

#[test]
fn events_are_checked(rt: HostRuntime) -> Result<(), Fail> {
    for (lines, wanted) in EVENTS {
        let octets = event(rt.alloc(), lines)?;
        assert!(rt; is_told(rt.alloc(), true, octets.as_slice(), ALL_KINDS, wanted));
    }
    Ok(())
}

/// Octets that are no object are read beforehand as well as others, and a reading is used up.
#[test]
fn a_reading_is_used_up(rt: HostRuntime) -> Result<(), Fail> {
    let mut reading = PutReading::of(rt.alloc(), HEAD);
    assert!(rt; reading.is_some());
    let found = check_put(rt.alloc(), true, HEAD, ALL_KINDS, &mut reading);
    assert!(rt; told(&found) == b"<C:valid-calendar-data/>".as_slice());
    assert!(rt; reading.is_none());
    Ok(())
}

/// Rules by the hour that end so that they give so many instances.
const COUNTS: [(&[u8], &[u8]); 2] = [
    (
        b"UID:a\r\nDTSTART:20250101T000000Z\r\nRRULE:FREQ=HOURLY;COUNT=250000\r\n",
        b"fine",
    ),
    (
        b"UID:a\r\nDTSTART:20250101T000000Z\r\nRRULE:FREQ=HOURLY;COUNT=250001\r\n",
        b"<C:max-instances/>",
    ),
];

#[test]
fn instances_are_counted(rt: HostRuntime) -> Result<(), Fail> {
    for (lines, wanted) in COUNTS {
        let octets = event(rt.alloc(), lines)?;
        assert!(rt; is_told(rt.alloc(), true, octets.as_slice(), ALL_KINDS, wanted));
    }
    Ok(())
}

/// Whether an event was sent as a calendar, the kinds that the calendar takes, the lines of the event,
/// and what is told. The bits are those of VEVENT, VTODO, VJOURNAL and VFREEBUSY.
const CALENDARS: [(bool, u8, &[u8], &[u8]); 6] = [
    (true, 1, b"UID:a\r\nDTSTART:20250310T090000Z\r\n", b"fine"),
    (
        true,
        14,
        b"UID:a\r\nDTSTART:20250310T090000Z\r\n",
        b"<C:supported-calendar-component/>",
    ),
    (
        true,
        14,
        b"UID:a\r\nDTSTART:21010101T000000Z\r\n",
        b"<C:supported-calendar-component/>",
    ),
    (
        true,
        14,
        b"UID:a\r\nDTSTART:20250101T000000Z\r\nRRULE:FREQ=SECONDLY\r\n",
        b"<C:supported-calendar-component/>",
    ),
    (
        true,
        0,
        b"DTSTART:20250310T090000Z\r\n",
        b"<C:valid-calendar-object-resource/>",
    ),
    (false, 15, b"DTSTART", b"<C:supported-calendar-data/>"),
];

#[test]
fn calendars_take_their_kinds(rt: HostRuntime) -> Result<(), Fail> {
    for (media_ok, kinds, lines, wanted) in CALENDARS {
        let octets = event(rt.alloc(), lines)?;
        assert!(rt; is_told(rt.alloc(), media_ok, octets.as_slice(), kinds, wanted));
    }
    Ok(())
}

/// An event whose comment makes its object so long.
fn event_of_length(alloc: Global, length: usize) -> Result<Octets, NoMemory> {
    let mut lines = Octets::of(alloc, b"UID:a\r\nDTSTART:20250310T090000Z\r\nCOMMENT:")?;
    let others = HEAD.len() + lines.len() + 2 + TAIL.len();
    for _ in others..length {
        lines.push(b'a')?;
    }
    lines.extend_from_slice(b"\r\n")?;
    event(alloc, lines.as_slice())
}

#[test]
fn octets_are_counted(rt: HostRuntime) -> Result<(), Fail> {
    let largest = event_of_length(rt.alloc(), MOST_OCTETS)?;
    assert_eq!(rt; largest.len(), 262_144);
    assert!(rt; is_told(rt.alloc(), true, largest.as_slice(), ALL_KINDS, b"fine"));
    let larger = event_of_length(rt.alloc(), MOST_OCTETS + 1)?;
    assert!(rt;
        is_told(
            rt.alloc(),
            true,
            larger.as_slice(),
            ALL_KINDS,
            b"<C:max-resource-size/>"
        )
    );
    assert!(rt;
        is_told(
            rt.alloc(),
            false,
            larger.as_slice(),
            ALL_KINDS,
            b"<C:supported-calendar-data/>"
        )
    );
    Ok(())
}
