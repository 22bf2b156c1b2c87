//! Values that depend on their line: stamps, periods, triggers and the class of busy time.

use crate::line::{line, names};
use cal_base::{Line, NoMemory};
use cal_model::{Class, Related, Trigger};
use cal_moment::{Bad, Day, Length, Local, Period, PeriodEnd, Stamp, Utc};
use ical_values::{
    ValueFault, ZoneNames, read_busy_type, read_periods, read_stamp, read_stamps,
    read_stamps_of_any_zone, read_trigger,
};
use std::alloc::Global;
use std::test::Fail;

const NEW_YORK: &[u8] = b"America/New_York";

/// New York twice, and a zone of no name.
fn zones(alloc: Global) -> Result<ZoneNames, NoMemory> {
    let list = names(alloc, &[b"Europe/Paris", NEW_YORK, b"", NEW_YORK])?;
    ZoneNames::of(alloc, &list)
}

/// Lines of stamps: name, parameters and value, and the stamps or the bad place.
const STAMPS: [(&[u8], &[(&[u8], &[u8])], &[u8], Result<&[Stamp], u64>); 27] = [
    (
        b"DTSTART",
        &[],
        b"19980118T230000",
        Ok(&[Stamp::Floating(Local {
            day: 10_244,
            second: 82_800,
        })]),
    ),
    (
        b"DTSTART",
        &[],
        b"19980119T070000Z",
        Ok(&[Stamp::Utc(Utc(885_193_200))]),
    ),
    (
        b"DTSTART",
        &[(b"TZID", NEW_YORK)],
        b"19980119T020000",
        Ok(&[Stamp::Zoned(
            Local {
                day: 10_245,
                second: 7_200,
            },
            1,
        )]),
    ),
    (
        b"DTSTART",
        &[(b"TZID", NEW_YORK)],
        b"19980119T070000Z",
        Ok(&[Stamp::Utc(Utc(885_193_200))]),
    ),
    (
        b"DTSTART",
        &[(b"TZID", b"")],
        b"19980119T020000",
        Ok(&[Stamp::Zoned(
            Local {
                day: 10_245,
                second: 7_200,
            },
            2,
        )]),
    ),
    (
        b"DTSTART",
        &[(b"TZID", b"america/new_york")],
        b"19980119T020000",
        Err(0),
    ),
    (
        b"DTSTART",
        &[(b"TZID", b"Nowhere")],
        b"19980119T070000Z",
        Ok(&[Stamp::Utc(Utc(885_193_200))]),
    ),
    (
        b"DTSTART",
        &[(b"TZID", b"Nowhere")],
        b"19980118",
        Ok(&[Stamp::Date(Day(10_244))]),
    ),
    (
        b"DTSTART",
        &[(b"VALUE", b"date")],
        b"19980118",
        Ok(&[Stamp::Date(Day(10_244))]),
    ),
    (b"DUE", &[], b"19980118", Ok(&[Stamp::Date(Day(10_244))])),
    (
        b"DUE",
        &[(b"VALUE", b"DATE-TIME")],
        b"19980118",
        Ok(&[Stamp::Date(Day(10_244))]),
    ),
    (b"DUE", &[(b"VALUE", b"DATE")], b"19980118T000000", Err(8)),
    (b"DUE", &[], b"19980132", Err(7)),
    (b"DUE", &[], b"1998011", Err(7)),
    (b"DUE", &[], b"19980118T2400", Err(10)),
    (b"DUE", &[], b"19980118T230000z", Err(15)),
    (b"DUE", &[], b"19980118,19980119", Err(8)),
    (b"DUE", &[], b"", Err(0)),
    (b"COMPLETED", &[(b"VALUE", b"DATE")], b"19980118", Err(8)),
    (
        b"COMPLETED",
        &[(b"TZID", NEW_YORK)],
        b"19980119T070000",
        Ok(&[Stamp::Utc(Utc(885_193_200))]),
    ),
    (
        b"EXDATE",
        &[],
        b"19960402T010000Z,19960403T010000Z,19960404",
        Ok(&[
            Stamp::Utc(Utc(828_406_800)),
            Stamp::Utc(Utc(828_493_200)),
            Stamp::Date(Day(9_590)),
        ]),
    ),
    (b"RDATE", &[], b"19960402T010000Z,", Err(17)),
    (
        b"RDATE",
        &[],
        b"19960402T010000Z,,19960404T010000Z",
        Err(17),
    ),
    (b"RDATE", &[], b",19960402T010000Z", Err(0)),
    (b"RDATE", &[], b"19960402T010000Z,19960431T000000", Err(24)),
    (b"RDATE", &[], b"19960402T010000Z/PT1H", Err(16)),
    (b"RDATE", &[], b"", Err(0)),
];

/// Whether a line has these stamps, or its first bad octet there.
fn has_stamps(alloc: Global, line: &Line, wanted: Result<&[Stamp], u64>) -> Result<bool, NoMemory> {
    match (read_stamps(alloc, line, &zones(alloc)?), wanted) {
        (Ok(stamps), Ok(wanted)) => Ok(stamps.as_slice() == wanted),
        (Err(ValueFault::Bad { place }), Err(at)) => Ok(place == at),
        _ => Ok(false),
    }
}

#[test]
fn stamps_are_read(rt: HostRuntime) -> Result<(), Fail> {
    for (name, params, value, wanted) in STAMPS {
        let line = line(rt.alloc(), name, params, value)?;
        assert!(rt; has_stamps(rt.alloc(), &line, wanted)?);
    }
    Ok(())
}

/// Whether a line has this one stamp in a zone that is not among those of its calendar.
fn has_stamp_of_any_zone(alloc: Global, line: &Line, stamp: Stamp) -> Result<bool, NoMemory> {
    let zones = zones(alloc)?;
    let is_listed = match read_stamps_of_any_zone(alloc, line, &zones) {
        Ok(stamps) => stamps.as_slice() == [stamp].as_slice(),
        Err(_) => false,
    };
    Ok(is_listed && read_stamp(line, &zones) == Ok(stamp))
}

#[test]
fn unknown_zones_have_the_number_behind_the_last(rt: HostRuntime) -> Result<(), Fail> {
    let line = line(
        rt.alloc(),
        b"DTSTART",
        &[(b"TZID", b"Nowhere")],
        b"19980119T020000",
    )?;
    let local = Local {
        day: 10_245,
        second: 7_200,
    };
    assert!(rt; has_stamp_of_any_zone(rt.alloc(), &line, Stamp::Zoned(local, 4))?);
    Ok(())
}

const AS_PERIOD: &[(&[u8], &[u8])] = &[(b"VALUE", b"PERIOD")];

/// Lines of periods: name, parameters and value, and the periods or the bad place.
const PERIODS: [(&[u8], &[(&[u8], &[u8])], &[u8], Result<&[Period], u64>); 12] = [
    (
        b"FREEBUSY",
        &[(b"TZID", NEW_YORK)],
        b"19970308T160000/PT3H,19970308T200000Z/19970308T210000Z",
        Ok(&[
            Period {
                start: Stamp::Utc(Utc(857_836_800)),
                end: PeriodEnd::After(Length {
                    days: 0,
                    seconds: 10_800,
                }),
            },
            Period {
                start: Stamp::Utc(Utc(857_851_200)),
                end: PeriodEnd::At(Stamp::Utc(Utc(857_854_800))),
            },
        ]),
    ),
    (b"RDATE", AS_PERIOD, b"19960403T020000Z", Err(16)),
    (b"RDATE", AS_PERIOD, b"19960403T02", Err(11)),
    (b"RDATE", AS_PERIOD, b"19960403/PT1H", Err(8)),
    (b"RDATE", AS_PERIOD, b"19960403T020000Z/", Err(17)),
    (b"RDATE", AS_PERIOD, b"19960403T020000Z/-PT1H", Err(17)),
    (b"RDATE", AS_PERIOD, b"19960403T020000Z/+P1H", Err(20)),
    (b"RDATE", AS_PERIOD, b"19960403T020000Z/19960403", Err(25)),
    (b"RDATE", AS_PERIOD, b"19960403T020000Z/PT1H,", Err(22)),
    (b"RDATE", AS_PERIOD, b"19960403T020000Z/PT1H/PT1H", Err(21)),
    (
        b"RDATE",
        AS_PERIOD,
        b"19960403T020000Z/PT1H,19960403T020000/P1W,x",
        Err(42),
    ),
    (
        b"RDATE",
        &[(b"VALUE", b"PERIOD"), (b"TZID", b"Nowhere")],
        b"19960403T020000Z/PT1H,19960403T020000Z/19960403T040000",
        Err(0),
    ),
];

/// Whether a line has these periods, or its first bad octet there.
fn has_periods(
    alloc: Global,
    line: &Line,
    wanted: Result<&[Period], u64>,
) -> Result<bool, NoMemory> {
    match (read_periods(alloc, line, &zones(alloc)?), wanted) {
        (Ok(periods), Ok(wanted)) => Ok(periods.as_slice() == wanted),
        (Err(ValueFault::Bad { place }), Err(at)) => Ok(place == at),
        _ => Ok(false),
    }
}

#[test]
fn periods_are_read(rt: HostRuntime) -> Result<(), Fail> {
    for (name, params, value, wanted) in PERIODS {
        let line = line(rt.alloc(), name, params, value)?;
        assert!(rt; has_periods(rt.alloc(), &line, wanted)?);
    }
    Ok(())
}

/// Triggers: parameters and value.
const TRIGGERS: [(&[(&[u8], &[u8])], &[u8], Result<Trigger, u64>); 7] = [
    (
        &[],
        b"-PT15M",
        Ok(Trigger::From(
            Related::Start,
            Length {
                days: 0,
                seconds: -900,
            },
        )),
    ),
    (
        &[(b"RELATED", b"end")],
        b"PT5M",
        Ok(Trigger::From(
            Related::End,
            Length {
                days: 0,
                seconds: 300,
            },
        )),
    ),
    (
        &[(b"RELATED", b"START")],
        b"P1W",
        Ok(Trigger::From(
            Related::Start,
            Length {
                days: 7,
                seconds: 0,
            },
        )),
    ),
    (
        &[(b"VALUE", b"DATE-TIME"), (b"RELATED", b"END")],
        b"19980101T050000Z",
        Ok(Trigger::At(Utc(883_630_800))),
    ),
    (&[], b"19980101T050000Z", Err(0)),
    (&[(b"VALUE", b"DATE-TIME")], b"-PT15M", Err(0)),
    (&[(b"VALUE", b"DATE-TIME")], b"19980101", Err(8)),
];

/// Whether a line has this trigger, or its first bad octet there.
fn has_trigger(line: &Line, wanted: Result<Trigger, u64>) -> bool {
    match (read_trigger(line), wanted) {
        (Ok(found), Ok(trigger)) => found == trigger,
        (Err(Bad { place }), Err(at)) => place == at,
        _ => false,
    }
}

#[test]
fn triggers_are_read(rt: HostRuntime) -> Result<(), Fail> {
    for (params, value, wanted) in TRIGGERS {
        let line = line(rt.alloc(), b"TRIGGER", params, value)?;
        assert!(rt; has_trigger(&line, wanted));
    }
    Ok(())
}

/// The parameters of a line FREEBUSY, and the class of its time.
const CLASSES: [(&[(&[u8], &[u8])], Option<Class>); 7] = [
    (&[(b"FBTYPE", b"FREE")], None),
    (&[(b"FBTYPE", b"busy")], Some(Class::Busy)),
    (
        &[(b"FBTYPE", b"Busy-Unavailable")],
        Some(Class::Unavailable),
    ),
    (&[(b"FBTYPE", b"BUSY-TENTATIVE")], Some(Class::Tentative)),
    (&[(b"FBTYPE", b"BUSY-TENTATIV")], Some(Class::Busy)),
    (&[(b"FBTYPE", b"X-OUT")], Some(Class::Busy)),
    (&[], Some(Class::Busy)),
];

#[test]
fn classes_of_busy_time_are_read(rt: HostRuntime) -> Result<(), Fail> {
    for (params, class) in CLASSES {
        let line = line(rt.alloc(), b"FREEBUSY", params, b"")?;
        assert!(rt; read_busy_type(&line) == class);
    }
    Ok(())
}
