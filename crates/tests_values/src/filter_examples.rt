//! Queries by properties over the objects of RFC 4791, appendix B, with the answers that it gives
//! (7.8.6 to 7.8.9).

ghost use Rattle.std.specs.Prelude.{◌≡◌, [], IfOk};

use crate::event::{node, utc};
use crate::filters::{calendar, comp, text};
use crate::line::line;
use cal_base::{Line, List, Name, NoMemory, Octets};
use cal_model::{
    Collation, CompFilter, Filter, Kind, Object, ParamFilter, ParamTest, PropFilter, PropTest,
};
use filter_eval::Prepared;
use std::alloc::Global;
use std::test::Fail;

/// A line: its name, its parameters and its value.
type Text = (
    &'static [u8],
    &'static [(&'static [u8], &'static [u8])],
    &'static [u8],
);

/// The objects: the digit of each, the kind and the name of its first component, and those lines of it
/// that are looked at.
const OBJECTS: [(u8, Kind, &[u8], &[Text]); 8] = [
    (
        b'1',
        Kind::Event,
        b"VEVENT",
        &[
            (b"SUMMARY", &[], b"Event #1"),
            (b"UID", &[], b"74855313FA803DA593CD579A@example.com"),
        ],
    ),
    (
        b'2',
        Kind::Event,
        b"VEVENT",
        &[
            (b"SUMMARY", &[], b"Event #2"),
            (b"UID", &[], b"00959BC664CA650E933C892C@example.com"),
        ],
    ),
    (
        b'3',
        Kind::Event,
        b"VEVENT",
        &[
            (
                b"ATTENDEE",
                &[(b"PARTSTAT", b"ACCEPTED"), (b"ROLE", b"CHAIR")],
                b"mailto:cyrus@example.com",
            ),
            (
                b"ATTENDEE",
                &[(b"PARTSTAT", b"NEEDS-ACTION")],
                b"mailto:lisa@example.com",
            ),
            (b"ORGANIZER", &[], b"mailto:cyrus@example.com"),
            (b"STATUS", &[], b"TENTATIVE"),
            (b"SUMMARY", &[], b"Event #3"),
            (b"UID", &[], b"DC6C50A017428C5216A2F1CD@example.com"),
        ],
    ),
    (
        b'4',
        Kind::Todo,
        b"VTODO",
        &[
            (b"STATUS", &[], b"NEEDS-ACTION"),
            (b"SUMMARY", &[], b"Task #1"),
            (b"UID", &[], b"DDDEEB7915FA61233B861457@example.com"),
        ],
    ),
    (
        b'5',
        Kind::Todo,
        b"VTODO",
        &[
            (b"STATUS", &[], b"NEEDS-ACTION"),
            (b"SUMMARY", &[], b"Task #2"),
            (b"UID", &[], b"E10BA47467C5C69BB74E8720@example.com"),
        ],
    ),
    (
        b'6',
        Kind::Todo,
        b"VTODO",
        &[
            (b"COMPLETED", &[], b"20051223T122322Z"),
            (b"STATUS", &[], b"COMPLETED"),
            (b"SUMMARY", &[], b"Task #3"),
            (b"UID", &[], b"E10BA47467C5C69BB74E8722@example.com"),
        ],
    ),
    (
        b'7',
        Kind::Todo,
        b"VTODO",
        &[
            (b"STATUS", &[], b"CANCELLED"),
            (b"SUMMARY", &[], b"Task #4"),
            (b"UID", &[], b"E10BA47467C5C69BB74E8725@example.com"),
        ],
    ),
    (
        b'8',
        Kind::FreeBusy,
        b"VFREEBUSY",
        &[(b"UID", &[], b"76ef34-54a3d2@example.com")],
    ),
];

fn lines(alloc: Global, texts: &[Text]) -> Result<List<Line>, NoMemory> {
    let mut lines = List::new(alloc);
    for (name, params, value) in texts {
        lines.push(line(alloc, name, params, value)?)?;
    }
    Ok(lines)
}

/// A calendar with one component, of which no rows are looked at.
fn object(alloc: Global, kind: Kind, name: &[u8], texts: &[Text]) -> Result<Object, NoMemory>
    ensures { IfOk result (λ object. object.zones ≡ []) }
{
    let mut children = List::new(alloc);
    let lines = lines(alloc, texts)?;
    children.push(node(alloc, name, lines, List::new(alloc))?)?;
    Ok(Object {
        kind,
        uid: Octets::new(alloc),
        tree: node(alloc, b"VCALENDAR", List::new(alloc), children)?,
        zones: List::new(alloc),
        components: List::new(alloc),
    })
}

/// Whether an object matches a filter that is made ready.
fn matches_ready(alloc: Global, prepared: &Prepared<'_>, object: &Object) -> Result<bool, NoMemory>
    requires { object.now.zones ≡ [] }
{
    prepared.matches(alloc, object, &List::new(alloc), &utc(alloc))
}

/// Whether the object of a kind and a component matches.
fn is_found(
    alloc: Global,
    prepared: &Prepared<'_>,
    kind: Kind,
    name: &[u8],
    texts: &[Text],
) -> Result<bool, NoMemory> {
    match object(alloc, kind, name, texts) {
        Ok(object) => matches_ready(alloc, prepared, &object),
        Err(NoMemory) => Err(NoMemory),
    }
}

/// The digits of the objects that match.
fn found(alloc: Global, prepared: &Prepared<'_>) -> Result<Octets, NoMemory> {
    let mut digits = Octets::new(alloc);
    for (digit, kind, name, texts) in OBJECTS {
        if is_found(alloc, prepared, kind, name, texts)? {
            digits.push(digit)?;
        }
    }
    Ok(digits)
}

/// Whether the objects of these digits match a filter made ready, and no other.
fn finds_ready(alloc: Global, prepared: &Prepared<'_>, digits: &[u8]) -> Result<bool, NoMemory> {
    let found = found(alloc, prepared)?;
    Ok(found.as_slice() == digits)
}

/// Whether the objects of these digits match a filter, and no other.
fn finds(alloc: Global, filter: Filter, digits: &[u8]) -> Result<bool, NoMemory> {
    match Prepared::of(alloc, &filter) {
        Ok(prepared) => finds_ready(alloc, &prepared, digits),
        Err(NoMemory) => Err(NoMemory),
    }
}

/// A test of a property of a name, with one of its parameters, if one is given.
fn property(
    alloc: Global,
    name: &[u8],
    test: PropTest,
    param: Option<ParamFilter>,
) -> Result<PropFilter, NoMemory> {
    let mut params = List::new(alloc);
    if let Some(param) = param {
        params.push(param)?;
    }
    Ok(PropFilter {
        name: Name::of(alloc, name)?,
        test,
        params,
    })
}

/// A test of the components of a name with two tests of properties at most.
fn component(
    alloc: Global,
    name: &[u8],
    first: Option<PropFilter>,
    second: Option<PropFilter>,
) -> Result<CompFilter, NoMemory> {
    let mut inner = comp(alloc, name, false, None)?;
    if let Some(first) = first {
        inner.props.push(first)?;
    }
    if let Some(second) = second {
        inner.props.push(second)?;
    }
    Ok(inner)
}

/// An event by its UID (RFC 4791, 7.8.6).
#[test]
fn event_by_uid(rt: HostRuntime) -> Result<(), Fail> {
    let alloc = rt.alloc();
    let uid = b"DC6C50A017428C5216A2F1CD@example.com";
    let test = PropTest::Text(text(alloc, uid, Collation::Octet, false)?);
    let uids = property(alloc, b"UID", test, None)?;
    let filter = calendar(alloc, component(alloc, b"VEVENT", Some(uids), None)?)?;
    assert!(rt; finds(alloc, filter, b"3")?);
    Ok(())
}

/// Events in which someone has not answered yet (RFC 4791, 7.8.7).
#[test]
fn events_by_answer(rt: HostRuntime) -> Result<(), Fail> {
    let alloc = rt.alloc();
    let answer = text(alloc, b"NEEDS-ACTION", Collation::AsciiCasemap, false)?;
    let param = ParamFilter {
        name: Name::of(alloc, b"PARTSTAT")?,
        test: ParamTest::Text(answer),
    };
    let lisa = b"mailto:lisa@example.com";
    let test = PropTest::Text(text(alloc, lisa, Collation::AsciiCasemap, false)?);
    let attendees = property(alloc, b"ATTENDEE", test, Some(param))?;
    let filter = calendar(alloc, component(alloc, b"VEVENT", Some(attendees), None)?)?;
    assert!(rt; finds(alloc, filter, b"3")?);
    Ok(())
}

/// Events alone (RFC 4791, 7.8.8).
#[test]
fn events_alone(rt: HostRuntime) -> Result<(), Fail> {
    let alloc = rt.alloc();
    let filter = calendar(alloc, component(alloc, b"VEVENT", None, None)?)?;
    assert!(rt; finds(alloc, filter, b"123")?);
    Ok(())
}

/// To-dos that are neither completed nor cancelled (RFC 4791, 7.8.9).
#[test]
fn pending_to_dos(rt: HostRuntime) -> Result<(), Fail> {
    let alloc = rt.alloc();
    let completed = property(alloc, b"COMPLETED", PropTest::Absent, None)?;
    let cancelled = text(alloc, b"CANCELLED", Collation::AsciiCasemap, true)?;
    let status = property(alloc, b"STATUS", PropTest::Text(cancelled), None)?;
    let to_dos = component(alloc, b"VTODO", Some(completed), Some(status))?;
    let filter = calendar(alloc, to_dos)?;
    assert!(rt; finds(alloc, filter, b"45")?);
    Ok(())
}
