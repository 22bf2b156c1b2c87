//! Values that need no line: texts, numbers, lengths, offsets and moments, most of them the
//! examples of RFC 5545.

use cal_base::is_word;
use cal_moment::{Bad, Length, Utc};
use ical_values::{
    read_duration, read_integer, read_moment, read_repeat, read_utc_offset, unescape,
};
use std::test::Fail;

/// Texts with their escapes, and what they stand for.
const TEXTS: [(&[u8], &[u8]); 10] = [
    (b"", b""),
    (
        b"Project XYZ Final Review\\nConference Room - 3B\\nCome Prepared.",
        b"Project XYZ Final Review\nConference Room - 3B\nCome Prepared.",
    ),
    (b"\\N", b"\n"),
    (b"\\,\\;\\\\", b",;\\"),
    (b"\\\\n", b"\\n"),
    (b"\\\\\\n", b"\\\n"),
    (b"\\t\\:", b"\\t\\:"),
    (b"ends with \\", b"ends with \\"),
    (b"\\", b"\\"),
    (b"\xc3\xa9\\,n", b"\xc3\xa9,n"),
];

#[test]
fn texts_lose_their_escapes(rt: HostRuntime) -> Result<(), Fail> {
    for (text, plain) in TEXTS {
        let found = unescape(rt.alloc(), text)?;
        assert!(rt; found.as_slice() == plain);
    }
    Ok(())
}

/// Texts of integers, and their numbers.
const INTEGERS: [(&[u8], Option<i32>); 14] = [
    (b"432109876", Some(432_109_876)),
    (b"-999999999", Some(-999_999_999)),
    (b"+000000001", Some(1)),
    (b"007", Some(7)),
    (b"-0", Some(0)),
    (b"1234567890", None),
    (b"0000000001", None),
    (b"", None),
    (b"+", None),
    (b"-", None),
    (b"--1", None),
    (b"1.5", None),
    (b" 1", None),
    (b"12a", None),
];

/// Texts of REPEAT, and their numbers.
const REPEATS: [(&[u8], Option<u32>); 4] = [
    (b"4", Some(4)),
    (b"-0", Some(0)),
    (b"-1", None),
    (b"x", None),
];

#[test]
fn integers_are_read(rt: HostRuntime) {
    for (text, number) in INTEGERS {
        assert!(rt; read_integer(text) == number);
    }
    for (text, number) in REPEATS {
        assert!(rt; read_repeat(text) == number);
    }
}

/// Texts of lengths, and their days and seconds or the bad place.
const DURATIONS: [(&[u8], Result<Length, Bad>); 10] = [
    (
        b"P15DT5H0M20S",
        Ok(Length {
            days: 15,
            seconds: 18_020,
        }),
    ),
    (
        b"P7W",
        Ok(Length {
            days: 49,
            seconds: 0,
        }),
    ),
    (
        b"-PT15M",
        Ok(Length {
            days: 0,
            seconds: -900,
        }),
    ),
    (
        b"+PT0S",
        Ok(Length {
            days: 0,
            seconds: 0,
        }),
    ),
    (b"", Err(Bad { place: 0 })),
    (b"PT", Err(Bad { place: 2 })),
    (b"P15D5H", Err(Bad { place: 4 })),
    (b"P1WT1H", Err(Bad { place: 3 })),
    (b"PT1H1H", Err(Bad { place: 5 })),
    (b"P1234567890D", Err(Bad { place: 10 })),
];

#[test]
fn durations_are_read(rt: HostRuntime) {
    for (text, length) in DURATIONS {
        assert!(rt; read_duration(text) == length);
    }
}

/// Texts of offsets, and their seconds or the bad place.
const OFFSETS: [(&[u8], Result<i32, Bad>); 7] = [
    (b"-0500", Ok(-18_000)),
    (b"+0100", Ok(3_600)),
    (b"+053028", Ok(19_828)),
    (b"0100", Err(Bad { place: 0 })),
    (b"+2400", Err(Bad { place: 2 })),
    (b"+0160", Err(Bad { place: 3 })),
    (b"+01000", Err(Bad { place: 6 })),
];

#[test]
fn offsets_are_read(rt: HostRuntime) {
    for (text, offset) in OFFSETS {
        assert!(rt; read_utc_offset(text) == offset);
    }
}

/// Texts of moments, and their seconds or the bad place. A leap second is the second before it.
const MOMENTS: [(&[u8], Result<Utc, Bad>); 6] = [
    (b"19980119T070000Z", Ok(Utc(885_193_200))),
    (b"19980119T070000", Ok(Utc(885_193_200))),
    (b"19970630T235960Z", Ok(Utc(867_715_199))),
    (b"19980119", Err(Bad { place: 8 })),
    (b"19980119T230000-0800", Err(Bad { place: 15 })),
    (b"19980229T000000Z", Err(Bad { place: 7 })),
];

#[test]
fn moments_are_read(rt: HostRuntime) {
    for (text, moment) in MOMENTS {
        assert!(rt; read_moment(text) == moment);
    }
}

/// Texts, and whether they are the word CANCELLED.
const WORDS: [(&[u8], bool); 5] = [
    (b"cancelled", true),
    (b"CANCELLED", true),
    (b"CANCELLE", false),
    (b"CANCELLEDX", false),
    (b"", false),
];

#[test]
fn words_have_no_case(rt: HostRuntime) {
    for (text, is_it) in WORDS {
        assert!(rt; is_word(text, b"CANCELLED") == is_it);
    }
}
