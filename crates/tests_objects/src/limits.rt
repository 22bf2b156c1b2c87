//! Overrides and busy periods limited to a range (RFC 4791, 9.6.6 and 9.6.7), worked out by hand.

use crate::meetings::{WINDOW, daily, moving};
use crate::selections::{Span, busy, range, whole};
use crate::showing::is_shown;
use cal_base::{NoMemory, Octets};
use cal_model::Recur;
use std::alloc::Global;
use std::test::Fail;

/// Ranges, and whether the override stays that moves an hour from 14:00 UTC to an hour and a half from
/// 18:00.
const RANGES: [(Span, bool); 9] = [
    // its own time
    ((b"20250310T180000Z", b"20250310T180001Z"), true),
    ((b"20250310T192959Z", b"20250310T200000Z"), true),
    ((b"20250310T193000Z", b"20250310T200000Z"), false),
    // the time of the instance in whose place it stands
    ((b"20250310T130000Z", b"20250310T140001Z"), true),
    ((b"20250310T145959Z", b"20250310T150000Z"), true),
    ((b"20250310T130000Z", b"20250310T140000Z"), false),
    // between the two
    ((b"20250310T150000Z", b"20250310T180000Z"), false),
    // another instance, and no instance
    ((b"20250307T150000Z", b"20250307T160000Z"), false),
    ((b"20250201T000000Z", b"20250202T000000Z"), false),
];

#[test]
fn overrides_are_limited(rt: HostRuntime) -> Result<(), Fail> {
    let text = daily(rt.alloc(), true)?;
    for (place, case) in RANGES.iter().enumerate() {
        let (span, stays) = *case;
        let wanted = daily(rt.alloc(), stays)?;
        let select = whole(Recur::Limit(range(span)));
        let so = is_shown(
            rt.alloc(),
            text.as_slice(),
            WINDOW,
            select,
            false,
            wanted.as_slice(),
        )?;
        assert!(rt; so, "range {place}");
    }
    Ok(())
}

/// Ranges, and which overrides stay of the meeting that is moved from two of them on.
const MOVED: [(Span, [bool; 3]); 9] = [
    // the times of the overrides themselves, and of the instances in whose places they stand
    (
        (b"20250318T110000Z", b"20250318T110001Z"),
        [true, false, false],
    ),
    (
        (b"20250317T095959Z", b"20250317T100000Z"),
        [true, false, false],
    ),
    (
        (b"20250324T090000Z", b"20250324T100000Z"),
        [false, true, false],
    ),
    (
        (b"20250407T090000Z", b"20250407T100000Z"),
        [false, false, true],
    ),
    // an instance that is moved, where it is moved to
    (
        (b"20250401T122959Z", b"20250402T000000Z"),
        [true, false, false],
    ),
    (
        (b"20250413T080000Z", b"20250413T081500Z"),
        [false, false, true],
    ),
    // where it is moved from
    (
        (b"20250331T090000Z", b"20250331T100000Z"),
        [false, false, false],
    ),
    // where the first would move the 24th's and that of 7 April
    (
        (b"20250325T110000Z", b"20250325T123000Z"),
        [false, false, false],
    ),
    (
        (b"20250408T110000Z", b"20250408T123000Z"),
        [false, false, false],
    ),
];

#[test]
fn moving_overrides_are_limited(rt: HostRuntime) -> Result<(), Fail> {
    let text = moving(rt.alloc(), [true, true, true])?;
    for (place, case) in MOVED.iter().enumerate() {
        let (span, stays) = *case;
        let wanted = moving(rt.alloc(), stays)?;
        let select = whole(Recur::Limit(range(span)));
        let so = is_shown(
            rt.alloc(),
            text.as_slice(),
            WINDOW + 1,
            select,
            false,
            wanted.as_slice(),
        )?;
        assert!(rt; so, "range {place}");
    }
    Ok(())
}

/// A calendar with these lines of busy times.
fn busy_calendar(alloc: Global, lines: &[u8]) -> Result<Octets, NoMemory> {
    let mut text = Octets::of(
        alloc,
        b"BEGIN:VCALENDAR\r\nBEGIN:VFREEBUSY\r\nUID:a\r\nDTSTAMP:20250101T000000Z\r\n",
    )?;
    text.extend_from_slice(lines)?;
    text.extend_from_slice(b"END:VFREEBUSY\r\nEND:VCALENDAR\r\n")?;
    Ok(text)
}

/// Lines with three periods, and with one in which its owner is free.
const PERIODS: &[u8] =
    b"freebusy:20250203T090000Z/PT1H,20250204T090000Z/20250204T100000Z,20250205T090000Z/PT1H\r\n\
    FREEBUSY;FBTYPE=FREE:20250206T090000Z/PT1H\r\n";

/// Ranges, and the lines that are left, folded at 75 octets. A period that ends where the range starts,
/// or starts where it ends, does not meet it.
const PERIODS_SHOWN: [(Span, &[u8]); 5] = [
    (
        (b"20250203T095959Z", b"20250206T090001Z"),
        b"freebusy:20250203T090000Z/PT1H,20250204T090000Z/20250204T100000Z,20250205T0\r\n 90000Z/PT1H\r\nFREEBUSY;FBTYPE=FREE:20250206T090000Z/PT1H\r\n",
    ),
    (
        (b"20250203T100000Z", b"20250205T090001Z"),
        b"freebusy:20250204T090000Z/20250204T100000Z,20250205T090000Z/PT1H\r\n",
    ),
    (
        (b"20250204T095959Z", b"20250205T090000Z"),
        b"freebusy:20250204T090000Z/20250204T100000Z\r\n",
    ),
    ((b"20250204T100000Z", b"20250205T090000Z"), b""),
    (
        (b"20250206T000000Z", b"20250207T000000Z"),
        b"FREEBUSY;FBTYPE=FREE:20250206T090000Z/PT1H\r\n",
    ),
];

#[test]
fn busy_times_are_limited(rt: HostRuntime) -> Result<(), Fail> {
    let text = busy_calendar(rt.alloc(), PERIODS)?;
    for (place, case) in PERIODS_SHOWN.iter().enumerate() {
        let (span, lines) = *case;
        let wanted = busy_calendar(rt.alloc(), lines)?;
        let select = busy(span);
        let so = is_shown(
            rt.alloc(),
            text.as_slice(),
            WINDOW,
            select,
            false,
            wanted.as_slice(),
        )?;
        assert!(rt; so, "range {place}");
    }
    Ok(())
}
