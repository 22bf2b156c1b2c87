//! Filters over one event, with the answers worked out by hand from RFC 4791, 9.7 and 9.9: each row
//! of a table is a filter and whether the event matches it.
ghost use Rattle.std.specs.Prelude.{◌≡◌, [], All};
ghost use Rattle.cal_model.specs.TimeZones.TableBounds.{IsTable};
ghost use Rattle.overlap_rules.specs.Bounds.{IsNearRow};

use crate::event::{MIDNIGHT, object, rows, utc};
use cal_base::{List, Name, NoMemory, Octets};
use cal_model::{
    Collation, CompFilter, Filter, Object, ParamFilter, ParamTest, PropFilter, PropTest, Range,
    Row, TextMatch, ZoneTable,
};
use cal_moment::Utc;
use filter_eval::{Prepared, matches};
use std::alloc::Global;
use std::test::Fail;

/// Some minutes of the day, from one up to another.
fn minutes(from: u16, to: u16) -> Range {
    Range {
        start: Utc(MIDNIGHT + i64::from(from) * 60),
        end: Utc(MIDNIGHT + i64::from(to) * 60),
    }
}

/// A test of the components of one name, without tests inside.
pub fn comp(
    alloc: Global,
    name: &[u8],
    absent: bool,
    time: Option<Range>,
) -> Result<CompFilter, NoMemory> {
    Ok(CompFilter {
        name: Name::of(alloc, name)?,
        absent,
        time,
        props: List::new(alloc),
        comps: List::new(alloc),
    })
}

/// A filter of VCALENDAR with one test inside.
pub fn calendar(alloc: Global, inner: CompFilter) -> Result<Filter, NoMemory> {
    let mut top = comp(alloc, b"VCALENDAR", false, None)?;
    top.comps.push(inner)?;
    Ok(Filter { top })
}

/// So many tests of texts that those of the event are made ready. It passes each.
fn passed_tests(alloc: Global) -> Result<List<PropFilter>, NoMemory> {
    let mut props = List::new(alloc);
    for _ in 0..20 {
        props.push(PropFilter {
            name: Name::of(alloc, b"SUMMARY")?,
            test: PropTest::Text(text(alloc, b"", Collation::Octet, false)?),
            params: List::new(alloc),
        })?;
    }
    Ok(props)
}

/// A filter of the events with one test of a property, behind many others that the event passes or
/// alone.
fn property(
    alloc: Global,
    name: &[u8],
    test: PropTest,
    params: List<ParamFilter>,
    many: bool,
) -> Result<Filter, NoMemory> {
    let mut inner = comp(alloc, b"VEVENT", false, None)?;
    if many {
        inner.props = passed_tests(alloc)?;
    }
    let name = Name::of(alloc, name)?;
    inner.props.push(PropFilter { name, test, params })?;
    calendar(alloc, inner)
}

pub fn text(
    alloc: Global,
    text: &[u8],
    collation: Collation,
    negate: bool,
) -> Result<TextMatch, NoMemory> {
    Ok(TextMatch {
        text: Octets::of(alloc, text)?,
        collation,
        negate,
    })
}

/// Whether an object matches a filter that is made ready.
fn matches_ready(
    alloc: Global,
    filter: &Filter,
    object: &Object,
    rows: &List<Row>,
    zone: &ZoneTable,
) -> Result<bool, NoMemory>
    requires zones { object.now.zones ≡ [] }
    requires rows { All IsNearRow rows.now }
    requires zone { IsTable zone.now }
{
    let prepared = Prepared::of(alloc, filter)?;
    prepared.matches(alloc, object, rows, zone)
}

/// Whether an object matches a filter or not, as it is said, by the call for one object and by a
/// filter made ready.
pub fn answer_so(
    alloc: Global,
    filter: &Filter,
    object: &Object,
    rows: &List<Row>,
    expected: bool,
) -> Result<bool, NoMemory>
    requires zones { object.now.zones ≡ [] }
    requires rows { All IsNearRow rows.now }
{
    let zone = utc(alloc);
    let alone = matches(alloc, filter, object, rows, &zone)?;
    let ready = matches_ready(alloc, filter, object, rows, &zone)?;
    Ok(alone == expected && ready == expected)
}

/// The same of the event, which is not looked at again.
fn answers(alloc: Global, filter: Filter, expected: bool) -> Result<bool, NoMemory> {
    let rows = rows(alloc)?;
    match object(alloc) {
        Ok(object) => answer_so(alloc, &filter, &object, &rows, expected),
        Err(NoMemory) => Err(NoMemory),
    }
}

/// Components in ranges: the name, whether it is not to be there, the range, the answer.
const RANGES: [(&[u8], bool, Option<(u16, u16)>, bool); 7] = [
    (b"VEVENT", false, Some((540, 600)), true),
    (b"VEVENT", false, Some((480, 540)), false),
    (b"VEVENT", false, Some((600, 660)), false),
    (b"VEVENT", false, None, true),
    (b"VEVENT", true, None, false),
    (b"VTODO", true, None, true),
    (b"VTODO", false, None, false),
];

#[test]
fn component_in_range(rt: HostRuntime) -> Result<(), Fail> {
    let alloc = rt.alloc();
    for (name, absent, range, expected) in RANGES {
        let time = range.map(|range| minutes(range.0, range.1));
        let filter = calendar(alloc, comp(alloc, name, absent, time)?)?;
        assert!(rt; answers(alloc, filter, expected)?);
    }
    Ok(())
}

/// Ranges of the event and of its alarm, and the answer. The alarm goes off at 08:45, 08:50 and
/// 08:55, before the event, and each range is asked by itself.
const ALARMS: [((u16, u16), (u16, u16), bool); 6] = [
    ((540, 600), (525, 526), true),
    ((540, 600), (530, 531), true),
    ((540, 600), (535, 536), true),
    ((540, 600), (526, 530), false),
    ((540, 600), (536, 600), false),
    ((480, 540), (525, 526), false),
];

/// A filter of the events of a range that have an alarm in another.
fn alarm(alloc: Global, outer: Range, inner: Range) -> Result<Filter, NoMemory> {
    let mut event = comp(alloc, b"VEVENT", false, Some(outer))?;
    event
        .comps
        .push(comp(alloc, b"VALARM", false, Some(inner))?)?;
    calendar(alloc, event)
}

#[test]
fn alarm_in_range(rt: HostRuntime) -> Result<(), Fail> {
    let alloc = rt.alloc();
    for (outer, inner, expected) in ALARMS {
        let filter = alarm(alloc, minutes(outer.0, outer.1), minutes(inner.0, inner.1))?;
        assert!(rt; answers(alloc, filter, expected)?);
    }
    Ok(())
}

/// Texts of properties: the name, the text, how it is compared, whether the test is negated, the
/// answer.
const TEXTS: [(&[u8], &[u8], Collation, bool, bool); 23] = [
    (
        b"SUMMARY",
        b"lunch, CAF",
        Collation::AsciiCasemap,
        false,
        true,
    ),
    (b"SUMMARY", b"lunch", Collation::Octet, false, false),
    (
        b"SUMMARY",
        b"Lunch, caf\xc3\xa9",
        Collation::Octet,
        false,
        true,
    ),
    (
        b"SUMMARY",
        b"CAF\xc3\x89",
        Collation::AsciiCasemap,
        false,
        false,
    ),
    (b"SUMMARY", b"lunch", Collation::AsciiCasemap, true, false),
    (b"SUMMARY", b"", Collation::Octet, false, true),
    (b"ATTENDEE", b"BEN", Collation::AsciiCasemap, false, true),
    (b"ATTENDEE", b"ben", Collation::AsciiCasemap, true, true),
    (b"LOCATION", b"ben", Collation::AsciiCasemap, true, false),
    (b"SUMMARY", b"LUNCH", Collation::Octet, false, false),
    (b"SUMMARY", b"LUNCH", Collation::Octet, true, true),
    (b"SUMMARY", b"\\", Collation::Octet, false, false),
    (b"COMMENT", b"", Collation::AsciiCasemap, false, true),
    (b"COMMENT", b"", Collation::Octet, true, false),
    (b"COMMENT", b"x", Collation::AsciiCasemap, false, false),
    (b"COMMENT", b"x", Collation::Octet, true, true),
    (b"DESCRIPTION", b"e\nTwo\nt", Collation::Octet, false, true),
    (b"DESCRIPTION", b"E\ntwo\nT", Collation::Octet, false, false),
    (
        b"DESCRIPTION",
        b"E\ntwo\nT",
        Collation::AsciiCasemap,
        false,
        true,
    ),
    (
        b"DESCRIPTION",
        b"three;\\\\x",
        Collation::Octet,
        false,
        true,
    ),
    (
        b"DESCRIPTION",
        b"THREE\\;",
        Collation::AsciiCasemap,
        false,
        false,
    ),
    (b"DESCRIPTION", b"\\n", Collation::Octet, true, true),
    (b"DESCRIPTION", b"\\X", Collation::AsciiCasemap, true, false),
];

/// Whether a text of a property is answered as it is said, alone and behind many others.
fn text_answers(
    alloc: Global,
    name: &[u8],
    wanted: &[u8],
    collation: Collation,
    negate: bool,
    expected: bool,
) -> Result<bool, NoMemory> {
    let test = PropTest::Text(text(alloc, wanted, collation, negate)?);
    let alone = property(alloc, name, test, List::new(alloc), false)?;
    if !answers(alloc, alone, expected)? {
        return Ok(false);
    }
    let test = PropTest::Text(text(alloc, wanted, collation, negate)?);
    let behind = property(alloc, name, test, List::new(alloc), true)?;
    answers(alloc, behind, expected)
}

#[test]
fn text_of_property(rt: HostRuntime) -> Result<(), Fail> {
    let alloc = rt.alloc();
    for (name, wanted, collation, negate, expected) in TEXTS {
        assert!(rt; text_answers(alloc, name, wanted, collation, negate, expected)?);
    }
    Ok(())
}

/// Texts of a line of an alarm in the event, and the answer.
const TRIGGERS: [(&[u8], Collation, bool); 3] = [
    (b"pt15m", Collation::AsciiCasemap, true),
    (b"pt15m", Collation::Octet, false),
    (b"PT15M", Collation::Octet, true),
];

/// A filter of the events with an alarm whose trigger has a text, behind many tests of the event.
fn trigger(alloc: Global, wanted: &[u8], collation: Collation) -> Result<Filter, NoMemory> {
    let mut alarm = comp(alloc, b"VALARM", false, None)?;
    alarm.props.push(PropFilter {
        name: Name::of(alloc, b"TRIGGER")?,
        test: PropTest::Text(text(alloc, wanted, collation, false)?),
        params: List::new(alloc),
    })?;
    let mut event = comp(alloc, b"VEVENT", false, None)?;
    event.props = passed_tests(alloc)?;
    event.comps.push(alarm)?;
    calendar(alloc, event)
}

#[test]
fn text_of_alarm(rt: HostRuntime) -> Result<(), Fail> {
    let alloc = rt.alloc();
    for (wanted, collation, expected) in TRIGGERS {
        let filter = trigger(alloc, wanted, collation)?;
        assert!(rt; answers(alloc, filter, expected)?);
    }
    Ok(())
}

/// Dates in ranges: the name, the range, the answer. The end is that which DTSTART and DURATION make.
const DATES: [(&[u8], (u16, u16), bool); 5] = [
    (b"DTSTART", (540, 541), true),
    (b"DTSTART", (480, 540), false),
    (b"DTEND", (600, 601), true),
    (b"DTEND", (540, 600), false),
    (b"DUE", (600, 601), false),
];

#[test]
fn date_in_range(rt: HostRuntime) -> Result<(), Fail> {
    let alloc = rt.alloc();
    for (name, range, expected) in DATES {
        for many in [false, true] {
            let test = PropTest::Time(minutes(range.0, range.1));
            let filter = property(alloc, name, test, List::new(alloc), many)?;
            assert!(rt; answers(alloc, filter, expected)?);
        }
    }
    Ok(())
}

/// A line of a name with a text in its value and one of whose parameters holds a test, behind many
/// tests or alone.
fn parameter(
    alloc: Global,
    name: &[u8],
    wanted: &[u8],
    param: &[u8],
    test: ParamTest,
    many: bool,
) -> Result<Filter, NoMemory> {
    let mut params = List::new(alloc);
    let param = Name::of(alloc, param)?;
    params.push(ParamFilter { name: param, test })?;
    let test = PropTest::Text(text(alloc, wanted, Collation::AsciiCasemap, false)?);
    property(alloc, name, test, params, many)
}

/// An attendee with `ben` in its value, whose PARTSTAT holds a test.
fn ben(alloc: Global, test: ParamTest, many: bool) -> Result<Filter, NoMemory> {
    parameter(alloc, b"ATTENDEE", b"ben", b"PARTSTAT", test, many)
}

/// The attendee whose value passes has no PARTSTAT, and the other one's counts for nothing. A
/// parameter that is not there passes no text-match, also not a negated one.
#[test]
fn parameter_of_the_same_line(rt: HostRuntime) -> Result<(), Fail> {
    let alloc = rt.alloc();
    for many in [false, true] {
        let defined = ben(alloc, ParamTest::Defined, many)?;
        assert!(rt; answers(alloc, defined, false)?);
        let absent = ben(alloc, ParamTest::Absent, many)?;
        assert!(rt; answers(alloc, absent, true)?);
        let test = text(alloc, b"declined", Collation::AsciiCasemap, true)?;
        let negated = ben(alloc, ParamTest::Text(test), many)?;
        assert!(rt; answers(alloc, negated, false)?);
    }
    Ok(())
}

/// Texts of parameters: the name of the line, a text in its value, the parameter, the text in its
/// value, how that is compared, whether the test is negated, the answer.
const PARAMETERS: [(&[u8], &[u8], &[u8], &[u8], Collation, bool, bool); 8] = [
    (
        b"ATTENDEE",
        b"anna",
        b"PARTSTAT",
        b"accepted",
        Collation::AsciiCasemap,
        false,
        true,
    ),
    (
        b"ATTENDEE",
        b"anna",
        b"PARTSTAT",
        b"accepted",
        Collation::Octet,
        false,
        false,
    ),
    (
        b"ATTENDEE",
        b"anna",
        b"PARTSTAT",
        b"ACCEPTED",
        Collation::Octet,
        true,
        false,
    ),
    (
        b"ATTENDEE",
        b"anna",
        b"PARTSTAT",
        b"declined",
        Collation::AsciiCasemap,
        true,
        true,
    ),
    (
        b"COMMENT",
        b"",
        b"LANGUAGE",
        b"",
        Collation::Octet,
        false,
        true,
    ),
    (
        b"COMMENT",
        b"",
        b"LANGUAGE",
        b"en",
        Collation::AsciiCasemap,
        false,
        false,
    ),
    (
        b"DESCRIPTION",
        b"three",
        b"ALTREP",
        b"a,B",
        Collation::AsciiCasemap,
        false,
        true,
    ),
    (
        b"DESCRIPTION",
        b"three",
        b"ALTREP",
        b"\\",
        Collation::Octet,
        false,
        false,
    ),
];

#[test]
fn text_of_parameter(rt: HostRuntime) -> Result<(), Fail> {
    let alloc = rt.alloc();
    for (name, value, param, wanted, collation, negate, expected) in PARAMETERS {
        for many in [false, true] {
            let test = ParamTest::Text(text(alloc, wanted, collation, negate)?);
            let filter = parameter(alloc, name, value, param, test, many)?;
            assert!(rt; answers(alloc, filter, expected)?);
        }
    }
    Ok(())
}
