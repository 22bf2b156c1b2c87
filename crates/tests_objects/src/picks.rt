//! The octets of an object that are stored, and the parts of it that are picked (RFC 4791, 9.6.1 to
//! 9.6.4), worked out by hand.

use crate::meetings::{WINDOW, daily};
use crate::selections::{Pick, Span, pick_of, range, whole};
use crate::showing::is_shown;
use cal_base::NoMemory;
use cal_model::{Recur, Selection};
use std::alloc::Global;
use std::test::Fail;

/// Whether this is shown of an object by a pick of a component and of components in it.
fn is_picked(
    alloc: Global,
    text: &[u8],
    outer: &Pick,
    inner: &[Pick],
    recur: Recur,
    wanted: &[u8],
) -> Result<bool, NoMemory> {
    let select = Selection {
        comp: Some(pick_of(alloc, outer, inner)?),
        recur,
        busy: None,
    };
    is_shown(alloc, text, WINDOW, select, false, wanted)
}

/// An object whose lines end in LF, with folds where no program would put them, and without an end of
/// its last line.
const STORED: &[u8] = b"BEGIN:VCALENDAR\n\
    begin:vevent\n\
    uid:a\n\
    SUM\n MARY:0123456789012345678901234567890123456789\n\t012345678901234567890123456789012345678901234567890123456789\n\
    DESCRIPTION:xxxxxxxxxxxxxxxxxxxxxxxxxxxxxxxxxxxxxxxxxxxxxxxxxxxxxxxxxxxxxx\xc3\xa9yy\n\
    COMMENT:zzzzzzzzzzzzzzzzzzzzzzzzzzzzzzzzzzzzzzzzzzzzzzzzzzzzzzzzzzzzzzzzzzz\n\
    LOCATION:01234567890123456789012345678901234567890123456789012345678901234567890123456789012345678901234567890123456789012345678901234567890123456789\n\
    END:VEVENT\n\
    END:VCALENDAR";

/// Its lines folded at 75 octets, and never within a character.
const PRINTED: &[u8] = b"BEGIN:VCALENDAR\r\n\
    BEGIN:VEVENT\r\n\
    uid:a\r\n\
    SUMMARY:0123456789012345678901234567890123456789012345678901234567890123456\r\n 789012345678901234567890123456789\r\n\
    DESCRIPTION:xxxxxxxxxxxxxxxxxxxxxxxxxxxxxxxxxxxxxxxxxxxxxxxxxxxxxxxxxxxxxx\r\n \xc3\xa9yy\r\n\
    COMMENT:zzzzzzzzzzzzzzzzzzzzzzzzzzzzzzzzzzzzzzzzzzzzzzzzzzzzzzzzzzzzzzzzzzz\r\n\
    LOCATION:012345678901234567890123456789012345678901234567890123456789012345\r\n 67890123456789012345678901234567890123456789012345678901234567890123456789\r\n\
    END:VEVENT\r\n\
    END:VCALENDAR\r\n";

/// Without a selection the octets are those that are stored; whatever is selected, they are printed.
#[test]
fn stored_octets_are_shown(rt: HostRuntime) -> Result<(), Fail> {
    let select = whole(Recur::Whole);
    assert!(rt; is_shown(rt.alloc(), STORED, WINDOW, select, false, STORED)?);
    let all = Pick {
        all_props: true,
        all_comps: true,
        ..CALENDAR
    };
    assert!(rt; is_picked(rt.alloc(), STORED, &all, &[], Recur::Whole, PRINTED)?);
    let span: Span = (b"20250203T000000Z", b"20250204T000000Z");
    let select = whole(Recur::Limit(range(span)));
    assert!(rt; is_shown(rt.alloc(), STORED, WINDOW, select, false, PRINTED)?);
    Ok(())
}

/// A lunch with an alarm.
const LUNCH: &[u8] = b"BEGIN:VCALENDAR\r\n\
    VERSION:2.0\r\n\
    PRODID:-//Example//EN\r\n\
    BEGIN:VEVENT\r\n\
    UID:one\r\n\
    DTSTART:20250203T090000Z\r\n\
    SUMMARY;LANGUAGE=en:Lunch\r\n\
    ATTENDEE:mailto:anna@example.org\r\n\
    ATTENDEE;PARTSTAT=DECLINED:mailto:ben@example.org\r\n\
    BEGIN:VALARM\r\n\
    ACTION:DISPLAY\r\n\
    TRIGGER:-PT10M\r\n\
    END:VALARM\r\n\
    BEGIN:X-NOTE\r\n\
    X-TEXT:more\r\n\
    END:X-NOTE\r\n\
    END:VEVENT\r\n\
    END:VCALENDAR\r\n";

/// Nothing of the calendar, and nothing of its events.
pub const CALENDAR: Pick = Pick {
    name: b"VCALENDAR",
    all_props: false,
    props: &[],
    all_comps: false,
    marks: &[],
};

pub const EVENT: Pick = Pick {
    name: b"VEVENT",
    ..CALENDAR
};

/// What is picked of the calendar, what is picked of components in it, and what is shown.
const PICKS: [(Pick, &[Pick], &[u8]); 16] = [
    // nothing in the calendar; another component than the calendar
    (CALENDAR, &[], b"BEGIN:VCALENDAR\r\nEND:VCALENDAR\r\n"),
    (EVENT, &[], b""),
    // all its properties; all its components
    (
        Pick {
            all_props: true,
            ..CALENDAR
        },
        &[],
        b"BEGIN:VCALENDAR\r\nVERSION:2.0\r\nPRODID:-//Example//EN\r\nEND:VCALENDAR\r\n",
    ),
    (
        Pick {
            all_comps: true,
            ..CALENDAR
        },
        &[],
        b"BEGIN:VCALENDAR\r\n\
        BEGIN:VEVENT\r\n\
        UID:one\r\n\
        DTSTART:20250203T090000Z\r\n\
        SUMMARY;LANGUAGE=en:Lunch\r\n\
        ATTENDEE:mailto:anna@example.org\r\n\
        ATTENDEE;PARTSTAT=DECLINED:mailto:ben@example.org\r\n\
        BEGIN:VALARM\r\n\
        ACTION:DISPLAY\r\n\
        TRIGGER:-PT10M\r\n\
        END:VALARM\r\n\
        BEGIN:X-NOTE\r\n\
        X-TEXT:more\r\n\
        END:X-NOTE\r\n\
        END:VEVENT\r\n\
        END:VCALENDAR\r\n",
    ),
    // a component of which nothing is picked
    (
        Pick {
            marks: &[b"VEVENT"],
            ..CALENDAR
        },
        &[],
        b"BEGIN:VCALENDAR\r\nBEGIN:VEVENT\r\nEND:VEVENT\r\nEND:VCALENDAR\r\n",
    ),
    // one that is not there
    (
        Pick {
            marks: &[b"VTODO"],
            ..CALENDAR
        },
        &[],
        b"BEGIN:VCALENDAR\r\nEND:VCALENDAR\r\n",
    ),
    // properties in the order of the object, each as often as it stands there
    (
        Pick {
            props: &[(b"VERSION", false)],
            ..CALENDAR
        },
        &[Pick {
            props: &[(b"ATTENDEE", false), (b"LOCATION", false), (b"UID", false)],
            ..EVENT
        }],
        b"BEGIN:VCALENDAR\r\n\
        VERSION:2.0\r\n\
        BEGIN:VEVENT\r\n\
        UID:one\r\n\
        ATTENDEE:mailto:anna@example.org\r\n\
        ATTENDEE;PARTSTAT=DECLINED:mailto:ben@example.org\r\n\
        END:VEVENT\r\n\
        END:VCALENDAR\r\n",
    ),
    // without their values
    (
        Pick {
            props: &[(b"PRODID", true)],
            ..CALENDAR
        },
        &[Pick {
            props: &[(b"SUMMARY", true), (b"ATTENDEE", true)],
            ..EVENT
        }],
        b"BEGIN:VCALENDAR\r\n\
        PRODID:\r\n\
        BEGIN:VEVENT\r\n\
        SUMMARY;LANGUAGE=en:\r\n\
        ATTENDEE:\r\n\
        ATTENDEE;PARTSTAT=DECLINED:\r\n\
        END:VEVENT\r\n\
        END:VCALENDAR\r\n",
    ),
    // with and without
    (
        CALENDAR,
        &[Pick {
            props: &[(b"SUMMARY", true), (b"SUMMARY", false)],
            ..EVENT
        }],
        b"BEGIN:VCALENDAR\r\nBEGIN:VEVENT\r\nSUMMARY;LANGUAGE=en:Lunch\r\nEND:VEVENT\r\nEND:VCALENDAR\r\n",
    ),
    // names in lower case
    (
        Pick {
            name: b"vcalendar",
            ..CALENDAR
        },
        &[Pick {
            name: b"vevent",
            props: &[(b"dtstart", false)],
            ..EVENT
        }],
        b"BEGIN:VCALENDAR\r\nBEGIN:VEVENT\r\nDTSTART:20250203T090000Z\r\nEND:VEVENT\r\nEND:VCALENDAR\r\n",
    ),
    // all properties of the event and none of its components
    (
        CALENDAR,
        &[Pick {
            all_props: true,
            ..EVENT
        }],
        b"BEGIN:VCALENDAR\r\n\
        BEGIN:VEVENT\r\n\
        UID:one\r\n\
        DTSTART:20250203T090000Z\r\n\
        SUMMARY;LANGUAGE=en:Lunch\r\n\
        ATTENDEE:mailto:anna@example.org\r\n\
        ATTENDEE;PARTSTAT=DECLINED:mailto:ben@example.org\r\n\
        END:VEVENT\r\n\
        END:VCALENDAR\r\n",
    ),
    // all its components and none of its properties
    (
        CALENDAR,
        &[Pick {
            all_comps: true,
            ..EVENT
        }],
        b"BEGIN:VCALENDAR\r\n\
        BEGIN:VEVENT\r\n\
        BEGIN:VALARM\r\n\
        ACTION:DISPLAY\r\n\
        TRIGGER:-PT10M\r\n\
        END:VALARM\r\n\
        BEGIN:X-NOTE\r\n\
        X-TEXT:more\r\n\
        END:X-NOTE\r\n\
        END:VEVENT\r\n\
        END:VCALENDAR\r\n",
    ),
    // a property, and a component in the event of which nothing is picked
    (
        CALENDAR,
        &[Pick {
            props: &[(b"UID", false)],
            marks: &[b"VALARM"],
            ..EVENT
        }],
        b"BEGIN:VCALENDAR\r\nBEGIN:VEVENT\r\nUID:one\r\nBEGIN:VALARM\r\nEND:VALARM\r\nEND:VEVENT\r\nEND:VCALENDAR\r\n",
    ),
    // two picks of the events: each keeps its part
    (
        CALENDAR,
        &[
            Pick {
                props: &[(b"SUMMARY", true), (b"DTSTART", true)],
                marks: &[b"VALARM"],
                ..EVENT
            },
            Pick {
                props: &[(b"UID", true), (b"SUMMARY", false)],
                ..EVENT
            },
        ],
        b"BEGIN:VCALENDAR\r\n\
        BEGIN:VEVENT\r\n\
        UID:\r\n\
        DTSTART:\r\n\
        SUMMARY;LANGUAGE=en:Lunch\r\n\
        BEGIN:VALARM\r\n\
        END:VALARM\r\n\
        END:VEVENT\r\n\
        END:VCALENDAR\r\n",
    ),
    // the pick of nothing takes nothing from another of the same name
    (
        Pick {
            marks: &[b"VEVENT"],
            ..CALENDAR
        },
        &[Pick {
            props: &[(b"UID", false)],
            ..EVENT
        }],
        b"BEGIN:VCALENDAR\r\nBEGIN:VEVENT\r\nUID:one\r\nEND:VEVENT\r\nEND:VCALENDAR\r\n",
    ),
    // a name within another counts for nothing
    (
        CALENDAR,
        &[Pick {
            props: &[(b"DT", false), (b"SUMMARYS", false)],
            ..EVENT
        }],
        b"BEGIN:VCALENDAR\r\nBEGIN:VEVENT\r\nEND:VEVENT\r\nEND:VCALENDAR\r\n",
    ),
];

#[test]
fn parts_are_picked(rt: HostRuntime) -> Result<(), Fail> {
    for (place, case) in PICKS.iter().enumerate() {
        let (outer, inner, wanted) = *case;
        let so = is_picked(rt.alloc(), LUNCH, &outer, inner, Recur::Whole, wanted)?;
        assert!(rt; so, "pick {place}");
    }
    Ok(())
}

/// Of the daily meeting on 9 and 10 March the starts and, without their values, the ids.
const STARTS: &[u8] = b"BEGIN:VCALENDAR\r\n\
    BEGIN:VEVENT\r\n\
    DTSTART:20250309T140000Z\r\n\
    RECURRENCE-ID:\r\n\
    END:VEVENT\r\n\
    BEGIN:VEVENT\r\n\
    RECURRENCE-ID:\r\n\
    DTSTART:20250310T180000Z\r\n\
    END:VEVENT\r\n\
    END:VCALENDAR\r\n";

/// Picks look at instances; a zone is no longer there to be picked.
#[test]
fn parts_of_instances_are_picked(rt: HostRuntime) -> Result<(), Fail> {
    let text = daily(rt.alloc(), true)?;
    let outer = Pick {
        marks: &[b"VTIMEZONE"],
        ..CALENDAR
    };
    let inner = [Pick {
        props: &[(b"RECURRENCE-ID", true), (b"DTSTART", false)],
        ..EVENT
    }];
    let span: Span = (b"20250309T000000Z", b"20250311T000000Z");
    let recur = Recur::Expand(range(span));
    assert!(rt; is_picked(rt.alloc(), text.as_slice(), &outer, &inner, recur, STARTS)?);
    Ok(())
}
