//! Calendars that are read, as programs write them.

use crate::telling::{read, told_object};
use cal_model::{Class, Component, Extent, Kind, Object};
use cal_moment::{Local, Stamp};
use std::alloc::Global;

/// Calendars that are read, with the kind of their object and how many components and zones it has.
const READ: [(&[u8], Kind, u64, usize); 12] = [
    // METHOD in a component
    (
        b"BEGIN:VCALENDAR\nBEGIN:VEVENT\nUID:a\nMETHOD:REQUEST\nEND:VEVENT\nEND:VCALENDAR\n",
        Kind::Event,
        1,
        0,
    ),
    // a TZID that no date needs
    (
        b"BEGIN:VCALENDAR\nBEGIN:VEVENT\nUID:a\nDTSTART;TZID=X:20250101T120000Z\nDTEND;TZID=X;VALUE=DATE-TIME:20250101T130000Z\nEND:VEVENT\nEND:VCALENDAR\n",
        Kind::Event,
        1,
        0,
    ),
    // a date of a zone, long ago, and an UNTIL far away
    (
        b"BEGIN:VCALENDAR\nBEGIN:VTIMEZONE\nTZID:Z\nBEGIN:STANDARD\nDTSTART:14000101T000000\nTZOFFSETFROM:+0100\nTZOFFSETTO:+0100\nEND:STANDARD\nEND:VTIMEZONE\nBEGIN:VEVENT\nUID:a\nDTSTART;TZID=Z:20250101T120000\nRRULE:FREQ=DAILY;UNTIL=99991231T000000Z\nEND:VEVENT\nEND:VCALENDAR\n",
        Kind::Event,
        1,
        1,
    ),
    // two instances in one zone
    (
        b"BEGIN:VCALENDAR\nBEGIN:VTIMEZONE\nTZID:Z\nBEGIN:STANDARD\nDTSTART:20200101T000000\nTZOFFSETFROM:+0100\nTZOFFSETTO:+0100\nEND:STANDARD\nEND:VTIMEZONE\nBEGIN:VEVENT\nUID:a\nDTSTART;TZID=Z:20250101T120000\nRRULE:FREQ=DAILY\nEND:VEVENT\nBEGIN:VEVENT\nUID:a\nRECURRENCE-ID;TZID=Z:20250102T120000\nEND:VEVENT\nBEGIN:VEVENT\nUID:a\nRECURRENCE-ID;TZID=Z:20250103T120000\nEND:VEVENT\nEND:VCALENDAR\n",
        Kind::Event,
        3,
        1,
    ),
    // an end that equals the start
    (
        b"BEGIN:VCALENDAR\nBEGIN:VEVENT\nUID:a\nDTSTART:20250101T120000\nDTEND:20250101T120000\nEND:VEVENT\nEND:VCALENDAR\n",
        Kind::Event,
        1,
        0,
    ),
    // eight rules
    (
        b"BEGIN:VCALENDAR\nBEGIN:VEVENT\nUID:a\nDTSTART:20250101\nRRULE:FREQ=YEARLY\nRRULE:FREQ=YEARLY\nRRULE:FREQ=YEARLY\nRRULE:FREQ=YEARLY\nRRULE:FREQ=YEARLY\nRRULE:FREQ=YEARLY\nRRULE:FREQ=YEARLY\nRRULE:FREQ=YEARLY\nEND:VEVENT\nEND:VCALENDAR\n",
        Kind::Event,
        1,
        0,
    ),
    // a to-do
    (
        b"BEGIN:VCALENDAR\nBEGIN:VTODO\nUID:a\nDUE:20250101T120000Z\nCOMPLETED:20250101T110000Z\nEND:VTODO\nEND:VCALENDAR\n",
        Kind::Todo,
        1,
        0,
    ),
    // a journal entry
    (
        b"BEGIN:VCALENDAR\nBEGIN:VJOURNAL\nUID:a\nDTSTART;VALUE=DATE:20250101\nEND:VJOURNAL\nEND:VCALENDAR\n",
        Kind::Journal,
        1,
        0,
    ),
    // a free-busy time
    (
        b"BEGIN:VCALENDAR\nBEGIN:VFREEBUSY\nUID:a\nFREEBUSY;FBTYPE=BUSY-TENTATIVE:20250101T000000Z/PT1H,20250102T000000Z/20250102T010000Z\nEND:VFREEBUSY\nEND:VCALENDAR\n",
        Kind::FreeBusy,
        1,
        0,
    ),
    // names in lower case, and lines that end in CRLF
    (
        b"BEGIN:VCALENDAR\r\nversion:2.0\r\nbegin:vevent\r\nUID:a\r\ndtstart:20250101\r\nEND:VEVENT\r\nEND:VCALENDAR\r\n",
        Kind::Event,
        1,
        0,
    ),
    // a component of another kind
    (
        b"BEGIN:VCALENDAR\nBEGIN:X-NOTE\nX:y\nEND:X-NOTE\nBEGIN:VEVENT\nUID:a\nEND:VEVENT\nEND:VCALENDAR\n",
        Kind::Event,
        1,
        0,
    ),
    // the first and the last moment that are served
    (
        b"BEGIN:VCALENDAR\nBEGIN:VEVENT\nUID:a\nDTSTART:16000101T000000\nDTEND:21001231T235959\nEND:VEVENT\nEND:VCALENDAR\n",
        Kind::Event,
        1,
        0,
    ),
];

/// Whether a text is read as an object of a kind with so many components and zones.
fn is_read_so(alloc: Global, text: &[u8], kind: Kind, components: u64, zones: usize) -> bool {
    let found = told_object(alloc, text);
    let is_read = found.word == b"read".as_slice() && found.kind == Some(kind);
    is_read && found.number == components && found.zones == zones
}

#[test]
fn calendars_are_read(rt: HostRuntime) {
    for (text, kind, components, zones) in READ {
        assert!(rt; is_read_so(rt.alloc(), text, kind, components, zones));
    }
}

/// Objects with overrides, and which of their components move all later instances (RFC 5545, 3.2.13).
const LATER: [(&[u8], &[bool]); 15] = [
    // both words without ASCII case, over dates
    (
        b"BEGIN:VCALENDAR\nBEGIN:VEVENT\nUID:a\nDTSTART:20250101\nEND:VEVENT\nBEGIN:VEVENT\nUID:a\nRECURRENCE-ID;Range=thisandFuture:20250102\nDTSTART:20250103\nEND:VEVENT\nEND:VCALENDAR\n",
        &[false, true],
    ),
    // floating times
    (
        b"BEGIN:VCALENDAR\nBEGIN:VEVENT\nUID:a\nDTSTART:20250101T090000\nEND:VEVENT\nBEGIN:VEVENT\nUID:a\nRECURRENCE-ID;RANGE=THISANDFUTURE:20250102T090000\nDTSTART:20250102T100000\nEND:VEVENT\nEND:VCALENDAR\n",
        &[false, true],
    ),
    // instants, in a zone beside UTC
    (
        b"BEGIN:VCALENDAR\nBEGIN:VTIMEZONE\nTZID:Z\nBEGIN:STANDARD\nDTSTART:20200101T000000\nTZOFFSETFROM:+0100\nTZOFFSETTO:+0100\nEND:STANDARD\nEND:VTIMEZONE\nBEGIN:VEVENT\nUID:a\nDTSTART:20250101T090000Z\nEND:VEVENT\nBEGIN:VEVENT\nUID:a\nRECURRENCE-ID;RANGE=THISANDFUTURE:20250102T090000Z\nDTSTART;TZID=Z:20250102T120000\nEND:VEVENT\nEND:VCALENDAR\n",
        &[false, true],
    ),
    // an id that is a day, beside instants
    (
        b"BEGIN:VCALENDAR\nBEGIN:VEVENT\nUID:a\nDTSTART:20250101T090000Z\nEND:VEVENT\nBEGIN:VEVENT\nUID:a\nRECURRENCE-ID;VALUE=DATE;RANGE=THISANDFUTURE:20250102\nDTSTART:20250102T100000Z\nEND:VEVENT\nEND:VCALENDAR\n",
        &[false, true],
    ),
    // two, and one between them that moves itself alone
    (
        b"BEGIN:VCALENDAR\nBEGIN:VEVENT\nUID:a\nDTSTART:20250101\nEND:VEVENT\nBEGIN:VEVENT\nUID:a\nRECURRENCE-ID;RANGE=THISANDFUTURE:20250102\nDTSTART:20250103\nEND:VEVENT\nBEGIN:VEVENT\nUID:a\nRECURRENCE-ID:20250103\nDTSTART:20250104\nEND:VEVENT\nBEGIN:VEVENT\nUID:a\nRECURRENCE-ID;RANGE=THISANDFUTURE:20250104\nDTSTART:20250106\nEND:VEVENT\nEND:VCALENDAR\n",
        &[false, true, false, true],
    ),
    // any of several values, and a quoted one
    (
        b"BEGIN:VCALENDAR\nBEGIN:VEVENT\nUID:a\nDTSTART:20250101\nEND:VEVENT\nBEGIN:VEVENT\nUID:a\nRECURRENCE-ID;RANGE=X-ALL,THISANDFUTURE:20250102\nDTSTART:20250103\nEND:VEVENT\nBEGIN:VEVENT\nUID:a\nRECURRENCE-ID;RANGE=\"THISANDFUTURE\":20250103\nDTSTART:20250104\nEND:VEVENT\nEND:VCALENDAR\n",
        &[false, true, true],
    ),
    // the parameter behind one of its name
    (
        b"BEGIN:VCALENDAR\nBEGIN:VEVENT\nUID:a\nDTSTART:20250101\nEND:VEVENT\nBEGIN:VEVENT\nUID:a\nRECURRENCE-ID;RANGE=X-ALL;RANGE=THISANDFUTURE:20250102\nDTSTART:20250103\nEND:VEVENT\nEND:VCALENDAR\n",
        &[false, true],
    ),
    // other values are passed by, and a part of the word
    (
        b"BEGIN:VCALENDAR\nBEGIN:VEVENT\nUID:a\nDTSTART:20250101\nEND:VEVENT\nBEGIN:VEVENT\nUID:a\nRECURRENCE-ID;RANGE=THISANDPRIOR:20250102\nDTSTART:20250103\nEND:VEVENT\nBEGIN:VEVENT\nUID:a\nRECURRENCE-ID;RANGE=THISANDFUTURES:20250103\nDTSTART:20250104\nEND:VEVENT\nBEGIN:VEVENT\nUID:a\nRECURRENCE-ID;RANGE=:20250104\nDTSTART:20250105\nEND:VEVENT\nEND:VCALENDAR\n",
        &[false, false, false, false],
    ),
    // parameters of other names, and of other lines
    (
        b"BEGIN:VCALENDAR\nBEGIN:VEVENT\nUID:a\nDTSTART;RANGE=THISANDFUTURE:20250101\nEND:VEVENT\nBEGIN:VEVENT\nUID:a\nRECURRENCE-ID;X-RANGE=THISANDFUTURE:20250102\nDTSTART;RANGE=THISANDFUTURE:20250103\nEND:VEVENT\nEND:VCALENDAR\n",
        &[false, false],
    ),
    // no DTSTART
    (
        b"BEGIN:VCALENDAR\nBEGIN:VEVENT\nUID:a\nDTSTART:20250101\nEND:VEVENT\nBEGIN:VEVENT\nUID:a\nRECURRENCE-ID;RANGE=THISANDFUTURE:20250102\nSUMMARY:b\nEND:VEVENT\nEND:VCALENDAR\n",
        &[false, false],
    ),
    // DUE alone
    (
        b"BEGIN:VCALENDAR\nBEGIN:VTODO\nUID:a\nDTSTART:20250101T090000Z\nEND:VTODO\nBEGIN:VTODO\nUID:a\nRECURRENCE-ID;RANGE=THISANDFUTURE:20250102T090000Z\nDUE:20250103T090000Z\nEND:VTODO\nEND:VCALENDAR\n",
        &[false, false],
    ),
    // a DTSTART of another kind: a day, a floating time, and an instant
    (
        b"BEGIN:VCALENDAR\nBEGIN:VEVENT\nUID:a\nDTSTART:20250101T090000Z\nEND:VEVENT\nBEGIN:VEVENT\nUID:a\nRECURRENCE-ID;RANGE=THISANDFUTURE:20250102T090000Z\nDTSTART:20250102\nEND:VEVENT\nBEGIN:VEVENT\nUID:a\nRECURRENCE-ID;RANGE=THISANDFUTURE:20250103T090000Z\nDTSTART:20250103T100000\nEND:VEVENT\nBEGIN:VEVENT\nUID:a\nRECURRENCE-ID;RANGE=THISANDFUTURE:20250104T090000Z\nDTSTART:20250104T100000Z\nEND:VEVENT\nEND:VCALENDAR\n",
        &[false, false, false, true],
    ),
    // ids beside the DUE of a to-do that has no DTSTART
    (
        b"BEGIN:VCALENDAR\nBEGIN:VTODO\nUID:a\nDUE:20250101T090000Z\nEND:VTODO\nBEGIN:VTODO\nUID:a\nRECURRENCE-ID;RANGE=THISANDFUTURE:20250102T090000Z\nDTSTART:20250102T100000Z\nEND:VTODO\nBEGIN:VTODO\nUID:a\nRECURRENCE-ID;RANGE=THISANDFUTURE:20250103T090000Z\nDTSTART:20250103\nEND:VTODO\nEND:VCALENDAR\n",
        &[false, true, false],
    ),
    // no master: ids are of the kind of the first
    (
        b"BEGIN:VCALENDAR\nBEGIN:VEVENT\nUID:a\nRECURRENCE-ID:20250102\nDTSTART:20250102\nEND:VEVENT\nBEGIN:VEVENT\nUID:a\nRECURRENCE-ID;RANGE=THISANDFUTURE:20250103T090000Z\nDTSTART:20250103T100000Z\nEND:VEVENT\nBEGIN:VEVENT\nUID:a\nRECURRENCE-ID;RANGE=THISANDFUTURE:20250104\nDTSTART:20250105\nEND:VEVENT\nEND:VCALENDAR\n",
        &[false, false, true],
    ),
    // the master behind them: ids are of its kind
    (
        b"BEGIN:VCALENDAR\nBEGIN:VEVENT\nUID:a\nRECURRENCE-ID;RANGE=THISANDFUTURE:20250102\nDTSTART:20250102\nEND:VEVENT\nBEGIN:VEVENT\nUID:a\nRECURRENCE-ID;RANGE=THISANDFUTURE:20250103T090000Z\nDTSTART:20250103T100000Z\nEND:VEVENT\nBEGIN:VEVENT\nUID:a\nDTSTART:20250101T090000Z\nEND:VEVENT\nEND:VCALENDAR\n",
        &[false, true, false],
    ),
];

/// Whether a text is read as an object of whose components just these move all later instances.
fn moves_later(alloc: Global, text: &[u8], wanted: &[bool]) -> bool {
    match read(alloc, text) {
        Some(object) => are_moving(object.components.as_slice(), wanted),
        None => false,
    }
}

/// Whether just these of some components move all later instances.
fn are_moving(components: &[Component], wanted: &[bool]) -> bool {
    components.len() == wanted.len()
        && components
            .iter()
            .zip(wanted)
            .all(|(component, moves)| component.future == *moves)
}

#[test]
fn overrides_move_later_instances(rt: HostRuntime) {
    for (place, case) in LATER.iter().enumerate() {
        let (text, wanted) = *case;
        assert!(rt; moves_later(rt.alloc(), text, wanted), "object {place}");
    }
}

/// A weekly meeting in Vienna that ends by New York's clock, with two alarms and one instance moved.
const WORK: &[u8] = b"BEGIN:VCALENDAR\n\
    PRODID:-//Mozilla.org/NONSGML Mozilla Calendar V1.1//EN\n\
    VERSION:2.0\n\
    BEGIN:VTIMEZONE\n\
    TZID:Europe/Vienna\n\
    X-TZINFO:Europe/Vienna[2025a]\n\
    BEGIN:DAYLIGHT\n\
    TZOFFSETTO:+020000\n\
    TZOFFSETFROM:+010000\n\
    TZNAME:CEST\n\
    DTSTART:19810329T020000\n\
    RRULE:FREQ=YEARLY;BYMONTH=3;BYDAY=-1SU\n\
    END:DAYLIGHT\n\
    BEGIN:STANDARD\n\
    TZOFFSETTO:+010000\n\
    TZOFFSETFROM:+020000\n\
    TZNAME:CET\n\
    DTSTART:19961027T030000\n\
    RRULE:FREQ=YEARLY;BYMONTH=10;BYDAY=-1SU\n\
    END:STANDARD\n\
    END:VTIMEZONE\n\
    BEGIN:VTIMEZONE\n\
    TZID:America/New_York\n\
    BEGIN:DAYLIGHT\n\
    DTSTART:20070311T020000\n\
    RRULE:FREQ=YEARLY;BYMONTH=3;BYDAY=2SU\n\
    TZOFFSETFROM:-0500\n\
    TZOFFSETTO:-0400\n\
    END:DAYLIGHT\n\
    BEGIN:STANDARD\n\
    DTSTART:20071104T020000\n\
    RRULE:FREQ=YEARLY;BYMONTH=11;BYDAY=1SU\n\
    TZOFFSETFROM:-0400\n\
    TZOFFSETTO:-0500\n\
    END:STANDARD\n\
    END:VTIMEZONE\n\
    BEGIN:VEVENT\n\
    CREATED:20250102T081500Z\n\
    LAST-MODIFIED:20250103T101500Z\n\
    DTSTAMP:20250103T101500Z\n\
    UID:4f6c0f0e-9c1b-4a6e-8f0a-3a5d7b1c2e9f\n\
    SUMMARY:Besprechung mit Zo\xc3\xab\n\
    RRULE:FREQ=WEEKLY;BYDAY=MO\n\
    EXDATE;TZID=Europe/Vienna:20250113T090000,20250120T090000\n\
    DTSTART;TZID=Europe/Vienna:20250106T090000\n\
    DTEND;TZID=America/New_York:20250106T040000\n\
    LOCATION:Raum 3\\, zweiter Stock\n\
    DESCRIPTION:Eine Beschreibung\\, die l\xc3\xa4nger ist als eine Zeile sein soll un\n d deshalb gefaltet wird\\nund noch eine Zeile hat\n\
    ATTENDEE;CN=\"Maier, Hans\";PARTSTAT=ACCEPTED;ROLE=REQ-PARTICIPANT:mailto:hans@e\n xample.com\n\
    X-MOZ-GENERATION:2\n\
    TRANSP:OPAQUE\n\
    BEGIN:VALARM\n\
    ACTION:DISPLAY\n\
    TRIGGER;VALUE=DURATION:-PT15M\n\
    DESCRIPTION:Mozilla Standardbeschreibung\n\
    END:VALARM\n\
    BEGIN:VALARM\n\
    ACTION:AUDIO\n\
    TRIGGER;RELATED=END:PT5M\n\
    REPEAT:2\n\
    DURATION:PT1M\n\
    END:VALARM\n\
    END:VEVENT\n\
    BEGIN:VEVENT\n\
    DTSTAMP:20250103T101500Z\n\
    UID:4f6c0f0e-9c1b-4a6e-8f0a-3a5d7b1c2e9f\n\
    RECURRENCE-ID;TZID=Europe/Vienna:20250127T090000\n\
    DTSTART;TZID=Europe/Vienna:20250127T140000\n\
    DTEND;TZID=Europe/Vienna:20250127T150000\n\
    END:VEVENT\n\
    END:VCALENDAR\n";

/// 6 January 2025, by the program date.
const JANUARY_6: i32 = 20_094;

/// A time of that day in the zone of a number.
fn zoned(second: u32, zone: u32) -> Stamp {
    let local = Local {
        day: JANUARY_6,
        second,
    };
    Stamp::Zoned(local, zone)
}

/// Whether the component is the meeting as it recurs.
fn is_the_meeting(meeting: &Component) -> bool {
    let is_placed = meeting.child == 2
        && meeting.start == Some(zoned(32_400, 0))
        && meeting.extent == Extent::End(zoned(14_400, 1));
    let is_filled = meeting.rules.len() == 1
        && meeting.except.len() == 2
        && meeting.alarms.len() == 2;
    is_placed && is_filled && meeting.busy == Some(Class::Busy)
}

/// Whether an object is the meeting with its two zones and its one override.
fn is_the_object(object: &Object) -> bool {
    let uid = b"4f6c0f0e-9c1b-4a6e-8f0a-3a5d7b1c2e9f".as_slice();
    match object.components.as_slice() {
        [meeting, _] => {
            object.uid.as_slice() == uid && object.zones.len() == 2 && is_the_meeting(meeting)
        }
        _ => false,
    }
}

#[test]
fn a_meeting_is_read(rt: HostRuntime) {
    let object = read(rt.alloc(), WORK);
    assert!(rt; matches!(&object, Some(object) if is_the_object(object)));
}
