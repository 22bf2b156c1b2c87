//! Faults of calendars: each with its place, and which of two is told.

use crate::telling::{told_object, told_zone};
use cal_model::Kind;
use std::alloc::Global;

/// A text, the word that is told of it, and a place, or 0.
type Case = (&'static [u8], &'static [u8], u64);

/// Texts that are no calendars, each with the place of the line at which its fault stands.
const NO_CALENDARS: [(&[u8], u64); 26] = [
    // a line without a colon
    (
        b"BEGIN:VCALENDAR\nBEGIN:VEVENT\nUID:a\nDTSTART\nEND:VEVENT\nEND:VCALENDAR\n",
        35,
    ),
    // a control within a line
    (
        b"BEGIN:VCALENDAR\nBEGIN:VEVENT\nUID:a\nSUMMARY:a\x01b\nEND:VEVENT\nEND:VCALENDAR\n",
        35,
    ),
    // a component that is not closed
    (b"BEGIN:VCALENDAR\n", 0),
    // an inner one that is not closed
    (b"BEGIN:VCALENDAR\nBEGIN:VEVENT\nUID:a\n", 16),
    // an END of another name
    (
        b"BEGIN:VCALENDAR\nBEGIN:VEVENT\nEND:VTODO\nEND:VCALENDAR\n",
        29,
    ),
    // a line behind the outermost END
    (
        b"BEGIN:VCALENDAR\nBEGIN:VEVENT\nUID:a\nEND:VEVENT\nEND:VCALENDAR\nX:y\n",
        60,
    ),
    // a component within four others
    (
        b"BEGIN:VCALENDAR\nBEGIN:A\nBEGIN:B\nBEGIN:C\nBEGIN:D\nEND:D\nEND:C\nEND:B\nEND:A\nEND:VCALENDAR\n",
        40,
    ),
    // no line at all
    (b"", 0),
    // another outermost component
    (b"BEGIN:VEVENT\nUID:a\nEND:VEVENT\n", 0),
    // a date that is none
    (
        b"BEGIN:VCALENDAR\nBEGIN:VEVENT\nUID:a\nDTSTAMP:20250101T000000Z\nDTSTART:20250230\nEND:VEVENT\nEND:VCALENDAR\n",
        60,
    ),
    // a length above 200,000 days
    (
        b"BEGIN:VCALENDAR\nBEGIN:VEVENT\nUID:a\nDURATION:P200001D\nEND:VEVENT\nEND:VCALENDAR\n",
        35,
    ),
    // a negative REPEAT
    (
        b"BEGIN:VCALENDAR\nBEGIN:VEVENT\nUID:a\nBEGIN:VALARM\nTRIGGER:PT0S\nREPEAT:-1\nEND:VALARM\nEND:VEVENT\nEND:VCALENDAR\n",
        61,
    ),
    // a second DTSTART
    (
        b"BEGIN:VCALENDAR\nBEGIN:VEVENT\nUID:a\nDTSTART:20250101\nDTSTART:20250102\nEND:VEVENT\nEND:VCALENDAR\n",
        52,
    ),
    // a rule that is none
    (
        b"BEGIN:VCALENDAR\nBEGIN:VEVENT\nUID:a\nRRULE:FREQ=OFTEN\nEND:VEVENT\nEND:VCALENDAR\n",
        35,
    ),
    // an offset that is none, in a zone
    (
        b"BEGIN:VCALENDAR\nBEGIN:VTIMEZONE\nTZID:Z\nBEGIN:STANDARD\nDTSTART:20200101T000000\nTZOFFSETFROM:+0100\nTZOFFSETTO:1\nEND:STANDARD\nEND:VTIMEZONE\nBEGIN:VEVENT\nUID:a\nEND:VEVENT\nEND:VCALENDAR\n",
        97,
    ),
    // a zone without a name
    (
        b"BEGIN:VCALENDAR\nBEGIN:VTIMEZONE\nBEGIN:STANDARD\nDTSTART:20200101T000000\nTZOFFSETFROM:+0100\nTZOFFSETTO:+0100\nEND:STANDARD\nEND:VTIMEZONE\nBEGIN:VEVENT\nUID:a\nEND:VEVENT\nEND:VCALENDAR\n",
        16,
    ),
    // a zone without a part that is whole
    (
        b"BEGIN:VCALENDAR\nBEGIN:VTIMEZONE\nTZID:Z\nBEGIN:STANDARD\nDTSTART:20200101T000000\nTZOFFSETFROM:+0100\nTZOFFSETTO:+0100\nEND:STANDARD\nEND:VTIMEZONE\nBEGIN:VTIMEZONE\nTZID:Y\nBEGIN:STANDARD\nDTSTART:20200101T000000\nTZOFFSETFROM:+0200\nEND:STANDARD\nEND:VTIMEZONE\nBEGIN:VEVENT\nUID:a\nEND:VEVENT\nEND:VCALENDAR\n",
        141,
    ),
    // a rule of a zone within the hour
    (
        b"BEGIN:VCALENDAR\nBEGIN:VTIMEZONE\nTZID:Z\nBEGIN:STANDARD\nDTSTART:20200101T000000\nTZOFFSETFROM:+0100\nTZOFFSETTO:+0100\nRRULE:FREQ=MINUTELY\nEND:STANDARD\nEND:VTIMEZONE\nBEGIN:VEVENT\nUID:a\nEND:VEVENT\nEND:VCALENDAR\n",
        16,
    ),
    // nine rules of a part
    (
        b"BEGIN:VCALENDAR\nBEGIN:VTIMEZONE\nTZID:Z\nBEGIN:STANDARD\nDTSTART:20200101T000000\nTZOFFSETFROM:+0100\nTZOFFSETTO:+0100\nRRULE:FREQ=YEARLY\nRRULE:FREQ=YEARLY\nRRULE:FREQ=YEARLY\nRRULE:FREQ=YEARLY\nRRULE:FREQ=YEARLY\nRRULE:FREQ=YEARLY\nRRULE:FREQ=YEARLY\nRRULE:FREQ=YEARLY\nRRULE:FREQ=YEARLY\nEND:STANDARD\nEND:VTIMEZONE\nBEGIN:VEVENT\nUID:a\nEND:VEVENT\nEND:VCALENDAR\n",
        16,
    ),
    // nine rules
    (
        b"BEGIN:VCALENDAR\nBEGIN:VEVENT\nUID:a\nDTSTART:20250101\nRRULE:FREQ=YEARLY\nRRULE:FREQ=YEARLY\nRRULE:FREQ=YEARLY\nRRULE:FREQ=YEARLY\nRRULE:FREQ=YEARLY\nRRULE:FREQ=YEARLY\nRRULE:FREQ=YEARLY\nRRULE:FREQ=YEARLY\nRRULE:FREQ=YEARLY\nEND:VEVENT\nEND:VCALENDAR\n",
        16,
    ),
    // two ends, of the second component
    (
        b"BEGIN:VCALENDAR\nBEGIN:VEVENT\nUID:a\nDTSTART:20250101\nEND:VEVENT\nBEGIN:VEVENT\nUID:a\nDTSTART:20250101\nDTEND:20250102\nDURATION:P1D\nEND:VEVENT\nEND:VCALENDAR\n",
        63,
    ),
    // a DATE beside a time
    (
        b"BEGIN:VCALENDAR\nBEGIN:VEVENT\nUID:a\nDTSTART:20250101T000000\nDTEND:20250102\nEND:VEVENT\nEND:VCALENDAR\n",
        16,
    ),
    // an end before the start, in two zones
    (
        b"BEGIN:VCALENDAR\nBEGIN:VTIMEZONE\nTZID:Z\nBEGIN:STANDARD\nDTSTART:20200101T000000\nTZOFFSETFROM:+0100\nTZOFFSETTO:+0100\nEND:STANDARD\nEND:VTIMEZONE\nBEGIN:VTIMEZONE\nTZID:Y\nBEGIN:STANDARD\nDTSTART:20200101T000000\nTZOFFSETFROM:+0200\nTZOFFSETTO:+0200\nEND:STANDARD\nEND:VTIMEZONE\nBEGIN:VEVENT\nUID:a\nDTSTART;TZID=Z:20250101T120000\nDTEND;TZID=Y:20250101T123000\nEND:VEVENT\nEND:VCALENDAR\n",
        266,
    ),
    // a period that ends before it starts
    (
        b"BEGIN:VCALENDAR\nBEGIN:VEVENT\nUID:a\nDTSTART:20250101T000000\nRDATE;VALUE=PERIOD:20250101T010000/20250101T000000\nEND:VEVENT\nEND:VCALENDAR\n",
        16,
    ),
    // a negative length
    (
        b"BEGIN:VCALENDAR\nBEGIN:VEVENT\nUID:a\nDTSTART:20250101\nDURATION:-P1D\nEND:VEVENT\nEND:VCALENDAR\n",
        16,
    ),
    // half a day beside a DATE
    (
        b"BEGIN:VCALENDAR\nBEGIN:VEVENT\nUID:a\nDTSTART:20250101\nDURATION:PT12H\nEND:VEVENT\nEND:VCALENDAR\n",
        16,
    ),
];

/// Whether a text is told as an object by this word and number.
fn is_told(alloc: Global, text: &[u8], word: &[u8], number: u64) -> bool {
    let found = told_object(alloc, text);
    found.word == word && found.number == number
}

#[test]
fn faults_have_places(rt: HostRuntime) {
    for (text, place) in NO_CALENDARS {
        assert!(rt; is_told(rt.alloc(), text, b"no calendar", place));
    }
}

/// Calendars that are not stored as objects.
const NOT_STORED: [Case; 10] = [
    // METHOD of the calendar
    (
        b"BEGIN:VCALENDAR\nMETHOD:REQUEST\nBEGIN:VEVENT\nUID:a\nDTSTART:20250101\nEND:VEVENT\nEND:VCALENDAR\n",
        b"METHOD",
        0,
    ),
    // no component of the four kinds
    (
        b"BEGIN:VCALENDAR\nBEGIN:VTIMEZONE\nTZID:Z\nBEGIN:STANDARD\nDTSTART:20200101T000000\nTZOFFSETFROM:+0100\nTZOFFSETTO:+0100\nEND:STANDARD\nEND:VTIMEZONE\nEND:VCALENDAR\n",
        b"no component",
        0,
    ),
    // two kinds
    (
        b"BEGIN:VCALENDAR\nBEGIN:VEVENT\nUID:a\nEND:VEVENT\nBEGIN:VTODO\nUID:a\nEND:VTODO\nEND:VCALENDAR\n",
        b"two kinds",
        0,
    ),
    // no UID
    (
        b"BEGIN:VCALENDAR\nBEGIN:VEVENT\nUID:a\nEND:VEVENT\nBEGIN:VEVENT\nEND:VEVENT\nEND:VCALENDAR\n",
        b"no UID",
        0,
    ),
    // two UIDs
    (
        b"BEGIN:VCALENDAR\nBEGIN:VEVENT\nUID:a\nRECURRENCE-ID:20250101\nEND:VEVENT\nBEGIN:VEVENT\nUID:b\nEND:VEVENT\nEND:VCALENDAR\n",
        b"two UIDs",
        0,
    ),
    // two without RECURRENCE-ID
    (
        b"BEGIN:VCALENDAR\nBEGIN:VEVENT\nUID:a\nEND:VEVENT\nBEGIN:VEVENT\nUID:a\nEND:VEVENT\nEND:VCALENDAR\n",
        b"two masters",
        0,
    ),
    // one instance in two zones
    (
        b"BEGIN:VCALENDAR\nBEGIN:VTIMEZONE\nTZID:Z\nBEGIN:STANDARD\nDTSTART:20200101T000000\nTZOFFSETFROM:+0100\nTZOFFSETTO:+0100\nEND:STANDARD\nEND:VTIMEZONE\nBEGIN:VTIMEZONE\nTZID:Y\nBEGIN:STANDARD\nDTSTART:20200101T000000\nTZOFFSETFROM:+0200\nTZOFFSETTO:+0200\nEND:STANDARD\nEND:VTIMEZONE\nBEGIN:VEVENT\nUID:a\nDTSTART;TZID=Z:20250101T120000\nEND:VEVENT\nBEGIN:VEVENT\nUID:a\nRECURRENCE-ID;TZID=Z:20250102T120000\nEND:VEVENT\nBEGIN:VEVENT\nUID:a\nRECURRENCE-ID;TZID=Y:20250102T130000\nEND:VEVENT\nEND:VCALENDAR\n",
        b"one instance twice",
        0,
    ),
    // one day, twice
    (
        b"BEGIN:VCALENDAR\nBEGIN:VEVENT\nUID:a\nDTSTART:20250101T120000\nEND:VEVENT\nBEGIN:VEVENT\nUID:a\nRECURRENCE-ID;VALUE=DATE:20250102\nEND:VEVENT\nBEGIN:VEVENT\nUID:a\nRECURRENCE-ID;VALUE=DATE:20250102\nEND:VEVENT\nEND:VCALENDAR\n",
        b"one instance twice",
        0,
    ),
    // a zone that is not there
    (
        b"BEGIN:VCALENDAR\nBEGIN:VTIMEZONE\nTZID:Z\nBEGIN:STANDARD\nDTSTART:20200101T000000\nTZOFFSETFROM:+0100\nTZOFFSETTO:+0100\nEND:STANDARD\nEND:VTIMEZONE\nBEGIN:VEVENT\nUID:a\nDTSTART;TZID=X:20250101T120000\nEND:VEVENT\nEND:VCALENDAR\n",
        b"no zone",
        0,
    ),
    // an EXRULE
    (
        b"BEGIN:VCALENDAR\nBEGIN:VEVENT\nUID:a\nDTSTART:20250101\nEXRULE:FREQ=DAILY\nEND:VEVENT\nEND:VCALENDAR\n",
        b"EXRULE",
        0,
    ),
];

#[test]
fn what_is_not_stored_is_told(rt: HostRuntime) {
    for (text, word, number) in NOT_STORED {
        assert!(rt; is_told(rt.alloc(), text, word, number));
    }
}

/// Texts with two faults, and the one that is told.
const ORDERS: [Case; 17] = [
    // a line comes before the nesting
    (
        b"BEGIN:VCALENDAR\nEND:VEVENT\nX\nEND:VCALENDAR\n",
        b"no calendar",
        27,
    ),
    // the nesting comes before the name
    (b"BEGIN:VEVENT\nEND:VTODO\n", b"no calendar", 13),
    // the name comes before values
    (b"BEGIN:VEVENT\nDTSTART:x\nEND:VEVENT\n", b"no calendar", 0),
    // values come before zones
    (
        b"BEGIN:VCALENDAR\nBEGIN:VTIMEZONE\nEND:VTIMEZONE\nBEGIN:VEVENT\nUID:a\nDTSTART:x\nEND:VEVENT\nEND:VCALENDAR\n",
        b"no calendar",
        65,
    ),
    // zones come before components
    (
        b"BEGIN:VCALENDAR\nBEGIN:VEVENT\nUID:a\nDURATION:-PT1S\nEND:VEVENT\nBEGIN:VTIMEZONE\nEND:VTIMEZONE\nEND:VCALENDAR\n",
        b"no calendar",
        61,
    ),
    // components come before what is not stored
    (
        b"BEGIN:VCALENDAR\nMETHOD:PUBLISH\nBEGIN:VEVENT\nUID:a\nDURATION:-PT1S\nEND:VEVENT\nEND:VCALENDAR\n",
        b"no calendar",
        31,
    ),
    // METHOD comes before no component
    (
        b"BEGIN:VCALENDAR\nMETHOD:PUBLISH\nEND:VCALENDAR\n",
        b"METHOD",
        0,
    ),
    // two kinds come before no UID
    (
        b"BEGIN:VCALENDAR\nBEGIN:VTODO\nEND:VTODO\nBEGIN:VEVENT\nUID:a\nEND:VEVENT\nEND:VCALENDAR\n",
        b"two kinds",
        0,
    ),
    // no UID comes before two UIDs
    (
        b"BEGIN:VCALENDAR\nBEGIN:VEVENT\nUID:a\nEND:VEVENT\nBEGIN:VEVENT\nUID:b\nEND:VEVENT\nBEGIN:VEVENT\nEND:VEVENT\nEND:VCALENDAR\n",
        b"no UID",
        0,
    ),
    // two UIDs come before two masters
    (
        b"BEGIN:VCALENDAR\nBEGIN:VEVENT\nUID:a\nEND:VEVENT\nBEGIN:VEVENT\nUID:b\nEND:VEVENT\nEND:VCALENDAR\n",
        b"two UIDs",
        0,
    ),
    // two masters come before one instance twice
    (
        b"BEGIN:VCALENDAR\nBEGIN:VEVENT\nUID:a\nDTSTART:20250101\nEND:VEVENT\nBEGIN:VEVENT\nUID:a\nEND:VEVENT\nBEGIN:VEVENT\nUID:a\nRECURRENCE-ID:20250102\nEND:VEVENT\nBEGIN:VEVENT\nUID:a\nRECURRENCE-ID:20250102\nEND:VEVENT\nEND:VCALENDAR\n",
        b"two masters",
        0,
    ),
    // one instance twice comes before a missing zone
    (
        b"BEGIN:VCALENDAR\nBEGIN:VEVENT\nUID:a\nDTSTART:20250101\nEND:VEVENT\nBEGIN:VEVENT\nUID:a\nRECURRENCE-ID:20250102\nDTSTART;TZID=X:20250101T120000\nEND:VEVENT\nBEGIN:VEVENT\nUID:a\nRECURRENCE-ID:20250102\nEND:VEVENT\nEND:VCALENDAR\n",
        b"one instance twice",
        0,
    ),
    // a missing zone comes before an EXRULE
    (
        b"BEGIN:VCALENDAR\nBEGIN:VEVENT\nUID:a\nDTSTART;TZID=X:20250101T120000\nEXRULE:FREQ=DAILY\nEND:VEVENT\nEND:VCALENDAR\n",
        b"no zone",
        0,
    ),
    // an EXRULE comes before a date outside
    (
        b"BEGIN:VCALENDAR\nBEGIN:VEVENT\nUID:a\nRECURRENCE-ID;RANGE=THISANDFUTURE:15000102\nEXRULE:FREQ=DAILY\nEND:VEVENT\nEND:VCALENDAR\n",
        b"EXRULE",
        0,
    ),
    // the first line comes first
    (
        b"BEGIN:VCALENDAR\nBEGIN:VEVENT\nUID:a\nDTEND:x\nDTSTART:y\nEND:VEVENT\nEND:VCALENDAR\n",
        b"no calendar",
        35,
    ),
    // the first zone comes first
    (
        b"BEGIN:VCALENDAR\nBEGIN:VTIMEZONE\nBEGIN:STANDARD\nDTSTART:20200101T000000\nTZOFFSETFROM:+0100\nTZOFFSETTO:+0100\nEND:STANDARD\nEND:VTIMEZONE\nBEGIN:VTIMEZONE\nBEGIN:STANDARD\nDTSTART:20200101T000000\nTZOFFSETFROM:+0200\nTZOFFSETTO:+0200\nEND:STANDARD\nEND:VTIMEZONE\nBEGIN:VEVENT\nUID:a\nEND:VEVENT\nEND:VCALENDAR\n",
        b"no calendar",
        16,
    ),
    // the first component comes first
    (
        b"BEGIN:VCALENDAR\nBEGIN:VEVENT\nUID:a\nDURATION:-PT1S\nEND:VEVENT\nBEGIN:VEVENT\nUID:a\nDURATION:-PT1S\nEND:VEVENT\nEND:VCALENDAR\n",
        b"no calendar",
        16,
    ),
];

#[test]
fn the_first_of_two_faults_is_told(rt: HostRuntime) {
    for (text, word, number) in ORDERS {
        assert!(rt; is_told(rt.alloc(), text, word, number));
    }
}

/// Objects with a date outside those that are served: their kind, and the day of the date that is told, from 1970.
const OUTSIDE: [(&[u8], Kind, i64); 8] = [
    // a DATE that is too early
    (
        b"BEGIN:VCALENDAR\nBEGIN:VEVENT\nUID:a\nDTSTART:15991231\nEND:VEVENT\nEND:VCALENDAR\n",
        Kind::Event,
        -135141,
    ),
    // the last second that is too early, and the first that is too late
    (
        b"BEGIN:VCALENDAR\nBEGIN:VEVENT\nUID:a\nDTSTART:15991231T235959Z\nEND:VEVENT\nEND:VCALENDAR\n",
        Kind::Event,
        -135141,
    ),
    (
        b"BEGIN:VCALENDAR\nBEGIN:VEVENT\nUID:a\nDTSTART:21010101T000000Z\nEND:VEVENT\nEND:VCALENDAR\n",
        Kind::Event,
        47847,
    ),
    // that of a to-do
    (
        b"BEGIN:VCALENDAR\nBEGIN:VTODO\nUID:a\nDUE:21010101T000000Z\nEND:VTODO\nEND:VCALENDAR\n",
        Kind::Todo,
        47847,
    ),
    // an early date behind a late one
    (
        b"BEGIN:VCALENDAR\nBEGIN:VEVENT\nUID:a\nDTSTART:22000101\nRDATE;VALUE=DATE:15000101\nEND:VEVENT\nEND:VCALENDAR\n",
        Kind::Event,
        -171664,
    ),
    // the first of two late ones
    (
        b"BEGIN:VCALENDAR\nBEGIN:VEVENT\nUID:a\nDTSTART:20250101\nEXDATE:22000101,22010101\nEND:VEVENT\nEND:VCALENDAR\n",
        Kind::Event,
        84006,
    ),
    // the moment of an alarm
    (
        b"BEGIN:VCALENDAR\nBEGIN:VEVENT\nUID:a\nDTSTART:20250101\nBEGIN:VALARM\nTRIGGER;VALUE=DATE-TIME:23000101T000000Z\nEND:VALARM\nEND:VEVENT\nEND:VCALENDAR\n",
        Kind::Event,
        120530,
    ),
    // that of an override that moves all later instances
    (
        b"BEGIN:VCALENDAR\nBEGIN:VEVENT\nUID:a\nRECURRENCE-ID;RANGE=THISANDFUTURE:15000102\nEND:VEVENT\nEND:VCALENDAR\n",
        Kind::Event,
        -171663,
    ),
];

/// Whether a text is told as an object of a kind with a date of this day outside.
fn is_outside(alloc: Global, text: &[u8], kind: Kind, day: i64) -> bool {
    let found = told_object(alloc, text);
    found.word == b"outside".as_slice() && found.kind == Some(kind) && found.day == day
}

#[test]
fn dates_outside_are_told(rt: HostRuntime) {
    for (text, kind, day) in OUTSIDE {
        assert!(rt; is_outside(rt.alloc(), text, kind, day));
    }
}

/// Texts of time zones.
const ZONES: [Case; 6] = [
    // the first zone counts
    (
        b"BEGIN:VCALENDAR\nBEGIN:VTIMEZONE\nTZID:Z\nBEGIN:STANDARD\nDTSTART:20200101T000000\nTZOFFSETFROM:+0100\nTZOFFSETTO:+0100\nEND:STANDARD\nEND:VTIMEZONE\nBEGIN:VTIMEZONE\nTZID:Y\nBEGIN:STANDARD\nDTSTART:20200101T000000\nTZOFFSETFROM:+0200\nTZOFFSETTO:+0200\nEND:STANDARD\nEND:VTIMEZONE\nEND:VCALENDAR\n",
        b"read",
        0,
    ),
    // components beside it are not looked at
    (
        b"BEGIN:VCALENDAR\nBEGIN:VEVENT\nUID:a\nDURATION:-PT1S\nEND:VEVENT\nBEGIN:VTIMEZONE\nTZID:Z\nBEGIN:STANDARD\nDTSTART:20200101T000000\nTZOFFSETFROM:+0100\nTZOFFSETTO:+0100\nEND:STANDARD\nEND:VTIMEZONE\nMETHOD:PUBLISH\nEND:VCALENDAR\n",
        b"read",
        0,
    ),
    // there is none
    (
        b"BEGIN:VCALENDAR\nBEGIN:VEVENT\nUID:a\nDTSTART:20250101\nEND:VEVENT\nEND:VCALENDAR\n",
        b"no zone",
        0,
    ),
    // it has no name
    (
        b"BEGIN:VCALENDAR\nBEGIN:VTIMEZONE\nBEGIN:STANDARD\nDTSTART:20200101T000000\nTZOFFSETFROM:+0100\nTZOFFSETTO:+0100\nEND:STANDARD\nEND:VTIMEZONE\nEND:VCALENDAR\n",
        b"no calendar",
        16,
    ),
    // a value beside it
    (
        b"BEGIN:VCALENDAR\nBEGIN:VTIMEZONE\nTZID:Z\nBEGIN:STANDARD\nDTSTART:20200101T000000\nTZOFFSETFROM:+0100\nTZOFFSETTO:+0100\nEND:STANDARD\nEND:VTIMEZONE\nBEGIN:VEVENT\nUID:a\nDTSTART:x\nEND:VEVENT\nEND:VCALENDAR\n",
        b"no calendar",
        160,
    ),
    // a line
    (
        b"BEGIN:VCALENDAR\nBEGIN:VTIMEZONE\nTZID:Z\nBEGIN:STANDARD\nDTSTART:20200101T000000\nTZOFFSETFROM:+0100\nTZOFFSETTO:+0100\nEND:STANDARD\nEND:VTIMEZONE\nX\nEND:VCALENDAR\n",
        b"no calendar",
        141,
    ),
];

/// Whether a text is told as a zone by this word and number.
fn is_told_as_zone(alloc: Global, text: &[u8], word: &[u8], number: u64) -> bool {
    let found = told_zone(alloc, text);
    found.word == word && found.number == number
}

#[test]
fn zones_are_read(rt: HostRuntime) {
    for (text, word, number) in ZONES {
        assert!(rt; is_told_as_zone(rt.alloc(), text, word, number));
    }
}
