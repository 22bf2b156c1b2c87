//! Vectors from outside: the examples of RFC 5545, day numbers of a second calendar, and the places
//! of bad texts.

use cal_moment::{
    Bad, Day, Length, Local, Utc, day_of, fields_of, read_date, read_date_time, read_length,
    read_offset, weekday, write_date, write_local, write_utc,
};

/// Dates of the years 1 to 9999, their days since 1970, and their days of the week.
const DATES: &[(i32, u8, u8, i32, u8)] = &[
    (1, 1, 1, -719_162, 0),
    (1600, 2, 29, -135_081, 1),
    (1900, 2, 28, -25_509, 2),
    (1900, 3, 1, -25_508, 3),
    (1969, 12, 31, -1, 2),
    (1970, 1, 1, 0, 3),
    (1997, 7, 14, 10_056, 0),
    (1998, 1, 18, 10_244, 6),
    (2000, 2, 29, 11_016, 1),
    (2100, 2, 28, 47_540, 6),
    (2100, 3, 1, 47_541, 0),
    (9999, 12, 31, 2_932_896, 4),
];

/// Numbers that are no date of these years.
const NO_DATES: &[(i32, u8, u8)] = &[
    (0, 12, 31),
    (10_000, 1, 1),
    (1900, 2, 29),
    (2023, 4, 31),
    (2023, 0, 1),
    (2023, 13, 1),
    (2023, 1, 0),
    (-1, 1, 1),
];

/// The months, and the days of each in a common year.
const MONTHS: &[(u8, u8)] = &[
    (1, 31),
    (2, 28),
    (3, 31),
    (4, 30),
    (5, 31),
    (6, 30),
    (7, 31),
    (8, 31),
    (9, 30),
    (10, 31),
    (11, 30),
    (12, 31),
];

/// Whether a date has this number, this day of the week, and is given back by its number.
fn is_counted(year: i32, month: u8, day: u8, number: i32, week: u8) -> bool {
    match day_of(year, month, day) {
        Some(found) => {
            found.0 == number && weekday(found) == week && fields_of(found) == (year, month, day)
        }
        None => false,
    }
}

/// Whether the days of a month have the numbers from this one on.
fn counts_month(year: i32, month: u8, days: u8, first: i32) -> bool {
    let mut number = first;
    for day in 1..=days {
        match day_of(year, month, day) {
            Some(found) if found.0 == number && fields_of(found) == (year, month, day) => {}
            _ => return false,
        }
        number = number.saturating_add(1);
    }
    true
}

/// Whether each day of a year has its number, from that of the first one.
fn counts_year(year: i32, first: i32, february: u8) -> bool {
    let mut number = first;
    for (month, days) in MONTHS {
        let days = if *month == 2 { february } else { *days };
        if !counts_month(year, *month, days, number) {
            return false;
        }
        number = number.saturating_add(days as i32);
    }
    true
}

#[test]
fn days_are_counted(rt: HostRuntime) {
    for (year, month, day, number, week) in DATES {
        assert!(rt; is_counted(*year, *month, *day, *number, *week), "a date");
    }
    for (year, month, day) in NO_DATES {
        assert!(rt; day_of(*year, *month, *day) == None, "no date");
    }
    assert!(rt; counts_year(2023, 19_358, 28) && counts_year(2024, 19_723, 29));
}

/// Texts of a date and a time, with the day, the second and whether it is of UTC.
const DATE_TIMES: &[(&str, i32, u32, bool)] = &[
    ("19980118T230000", 10_244, 82_800, false),
    ("19980119T070000Z", 10_245, 25_200, true),
    ("19970630T235960Z", 10_042, 86_399, true),
    ("00010101T000000", -719_162, 0, false),
    ("99991231T235959Z", 2_932_896, 86_399, true),
];

/// Texts of lengths, with their days and seconds.
const LENGTHS: &[(&str, i64, i64)] = &[
    ("P15DT5H0M20S", 15, 18_020),
    ("P7W", 49, 0),
    ("-PT15M", 0, -900),
    ("+P1D", 1, 0),
    ("-P1DT1S", -1, -1),
    ("PT1H1S", 0, 3601),
    ("PT999999999H999999999M999999999S", 0, 3_660_999_996_339),
    ("P000000001W", 7, 0),
];

/// Texts of offsets, with their seconds.
const OFFSETS: &[(&str, i32)] = &[
    ("-0500", -18_000),
    ("+0100", 3600),
    ("-0000", 0),
    ("-000000", 0),
    ("+005328", 3208),
    ("+235959", 86_399),
];

#[test]
fn texts_are_read(rt: HostRuntime) {
    assert!(rt; read_date(b"19970714") == Ok(Day(10_056)));
    for (text, day, second, utc) in DATE_TIMES {
        let local = Local {
            day: *day,
            second: *second,
        };
        assert!(rt; read_date_time(text.as_bytes()) == Ok((local, *utc)));
    }
    for (text, days, seconds) in LENGTHS {
        let length = Length {
            days: *days,
            seconds: *seconds,
        };
        assert!(rt; read_length(text.as_bytes()) == Ok(length));
    }
    for (text, seconds) in OFFSETS {
        assert!(rt; read_offset(text.as_bytes()) == Ok(*seconds));
    }
}

/// Texts that are no date, with their places.
const BAD_DATES: &[(&str, u64)] = &[
    ("", 0),
    ("2025031", 7),
    ("20250230", 6),
    ("19000229", 7),
    ("00000101", 3),
    ("20251301", 5),
    ("20250001", 5),
    ("20252001", 4),
    ("20250100", 7),
    ("2025-101", 4),
    ("202501011", 8),
    (" 20250101", 0),
];

/// Texts that are no date and time, with their places.
const BAD_DATE_TIMES: &[(&str, u64)] = &[
    ("19980119", 8),
    ("19980119t230000", 8),
    ("19980119T240000", 10),
    ("19980119T235960z", 15),
    ("19980119T235961", 14),
    ("19980119T236000", 11),
    ("19980119T230000-0800", 15),
    ("19980119T230000ZZ", 16),
    ("19980119T2300", 13),
];

/// Texts that are no length, with their places.
const BAD_LENGTHS: &[(&str, u64)] = &[
    ("", 0),
    ("-", 1),
    ("P", 1),
    ("P1", 2),
    ("PT", 2),
    ("P1W2D", 3),
    ("P1DT", 4),
    ("P1D2", 3),
    ("P1H", 2),
    ("PT1D", 3),
    ("PT1M2H", 5),
    ("PT1M2M", 5),
    ("PT1S2", 4),
    ("P1234567890D", 10),
    ("p1D", 0),
    ("+-P1D", 1),
];

/// Texts that are no offset, with their places.
const BAD_OFFSETS: &[(&str, u64)] = &[
    ("0500", 0),
    ("+24", 2),
    ("+3000", 1),
    ("+0060", 3),
    ("+05", 3),
    ("+05305", 6),
    ("+053060", 5),
    ("+0530590", 7),
    ("+05:30", 3),
];

/// What a text is to be.
enum Kind {
    Date,
    DateTime,
    Length,
    Offset,
}

/// Texts that are none of a kind, with their places.
const BAD: &[(&str, Kind, &[(&str, u64)])] = &[
    ("dates", Kind::Date, BAD_DATES),
    ("dates and times", Kind::DateTime, BAD_DATE_TIMES),
    ("lengths", Kind::Length, BAD_LENGTHS),
    ("offsets", Kind::Offset, BAD_OFFSETS),
];

/// Whether a text is none of a kind, and is refused at this place.
fn is_refused(kind: &Kind, text: &[u8], place: u64) -> bool {
    let bad = Bad { place };
    match kind {
        Kind::Date => read_date(text) == Err(bad),
        Kind::DateTime => read_date_time(text) == Err(bad),
        Kind::Length => read_length(text) == Err(bad),
        Kind::Offset => read_offset(text) == Err(bad),
    }
}

#[test]
fn texts_are_refused(rt: HostRuntime) {
    for (name, kind, texts) in BAD {
        for (text, place) in *texts {
            assert!(rt; is_refused(kind, text.as_bytes(), *place), "{name}");
        }
    }
}

/// 1 hour, 1 minute and 1 second after midnight of 3 February of the year 1.
fn writes_dates_and_times() -> bool {
    let day = Day(-719_129);
    let local = Local {
        day: day.0,
        second: 3661,
    };
    let is_date = day_of(1, 2, 3) == Some(day) && write_date(day) == *b"00010203";
    is_date && write_local(local) == *b"00010203T010101"
}

fn writes_moments() -> bool {
    write_utc(Utc(885_193_200)) == *b"19980119T070000Z"
        && write_utc(Utc(-62_135_596_800)) == *b"00010101T000000Z"
        && write_utc(Utc(253_402_300_799)) == *b"99991231T235959Z"
}

#[test]
fn texts_are_written(rt: HostRuntime) {
    assert!(rt; writes_dates_and_times());
    assert!(rt; writes_moments());
}
