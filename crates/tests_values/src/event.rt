//! An event from nine to ten on 2 January 2025 in UTC, with its row, for tests of filters.

ghost use Rattle.std.specs.Prelude.{◌≡◌, [], IfOk, All};
ghost use Rattle.cal_model.specs.TimeZones.TableBounds.{IsTable};
ghost use Rattle.overlap_rules.specs.Bounds.{IsNearRow};

use crate::line::line;
use cal_base::{Line, List, Name, NoMemory, Node, Octets, SharedList};
use cal_model::{
    Alarm, Component, Extent, Kind, Object, Related, Row, RowKind, Trigger, ZoneTable,
};
use cal_moment::{Length, Stamp, Utc};
use std::alloc::Global;

/// 2025-01-02T00:00:00Z.
pub const MIDNIGHT: i64 = 1_735_776_000;

/// The clock of UTC.
pub fn utc(alloc: Global) -> ZoneTable
    ensures { IsTable result }
{
    ZoneTable {
        name: Octets::new(alloc),
        before: 0,
        onsets: SharedList::new(),
    }
}

/// A component of a name, with its lines and the components in it.
pub fn node(
    alloc: Global,
    name: &[u8],
    lines: List<Line>,
    children: List<Node>,
) -> Result<Node, NoMemory> {
    Ok(Node {
        name: Name::of(alloc, name)?,
        lines,
        children,
    })
}

/// An alarm fifteen minutes before the start, and twice more, each five minutes after.
fn alarm_node(alloc: Global) -> Result<Node, NoMemory> {
    let mut lines = List::new(alloc);
    lines.push(line(alloc, b"TRIGGER", &[], b"-PT15M")?)?;
    lines.push(line(alloc, b"REPEAT", &[], b"2")?)?;
    lines.push(line(alloc, b"DURATION", &[], b"PT5M")?)?;
    node(alloc, b"VALARM", lines, List::new(alloc))
}

/// From nine to ten, with two attendees, a comment without text and a description with escapes.
fn event_lines(alloc: Global) -> Result<List<Line>, NoMemory> {
    let mut lines = List::new(alloc);
    lines.push(line(alloc, b"DTSTART", &[], b"20250102T090000Z")?)?;
    lines.push(line(alloc, b"DURATION", &[], b"PT1H")?)?;
    lines.push(line(alloc, b"SUMMARY", &[], b"Lunch\\, caf\xc3\xa9")?)?;
    let anna = line(
        alloc,
        b"ATTENDEE",
        &[(b"PARTSTAT", b"ACCEPTED")],
        b"mailto:anna@example.org",
    )?;
    lines.push(anna)?;
    lines.push(line(alloc, b"ATTENDEE", &[], b"mailto:ben@example.org")?)?;
    lines.push(line(alloc, b"COMMENT", &[(b"LANGUAGE", b"")], b"")?)?;
    let description = line(
        alloc,
        b"DESCRIPTION",
        &[(b"ALTREP", b"A\\,b")],
        b"One\\nTwo\\Nthree\\;\\\\\\x",
    )?;
    lines.push(description)?;
    Ok(lines)
}

pub fn event_node(alloc: Global) -> Result<Node, NoMemory> {
    let lines = event_lines(alloc)?;
    let mut alarms = List::new(alloc);
    alarms.push(alarm_node(alloc)?)?;
    node(alloc, b"VEVENT", lines, alarms)
}

fn seconds(seconds: i64) -> Length {
    Length { days: 0, seconds }
}

/// The event as the component of a child of its calendar, with an alarm.
pub fn event(alloc: Global, child: u32, alarm: Alarm) -> Result<Component, NoMemory> {
    let mut alarms = List::new(alloc);
    alarms.push(alarm)?;
    Ok(Component {
        kind: Kind::Event,
        child,
        start: Some(Stamp::Utc(Utc(MIDNIGHT + 32_400))),
        extent: Extent::Lasting(seconds(3_600)),
        recurrence_id: None,
        rules: List::new(alloc),
        dates: List::new(alloc),
        periods: List::new(alloc),
        except: List::new(alloc),
        completed: None,
        created: None,
        busy: None,
        stored_busy: List::new(alloc),
        alarms,
        future: false,
    })
}

pub fn object(alloc: Global) -> Result<Object, NoMemory>
    ensures { IfOk result (λ object. object.zones ≡ []) }
{
    let mut children = List::new(alloc);
    children.push(event_node(alloc)?)?;
    let tree = node(alloc, b"VCALENDAR", List::new(alloc), children)?;
    let alarm = Alarm {
        trigger: Trigger::From(Related::Start, seconds(-900)),
        repeat: 2,
        gap: seconds(300),
    };
    let mut components = List::new(alloc);
    components.push(event(alloc, 0, alarm)?)?;
    Ok(Object {
        kind: Kind::Event,
        uid: Octets::new(alloc),
        tree,
        zones: List::new(alloc),
        components,
    })
}

pub fn rows(alloc: Global) -> Result<List<Row>, NoMemory>
    ensures { IfOk result (All IsNearRow) }
{
    let mut rows = List::new(alloc);
    rows.push(Row {
        id: 1_735_808_400,
        start: 1_735_808_400,
        end: 1_735_812_000,
        component: 0,
        id_kind: RowKind::Instant,
        kind: RowKind::Instant,
    })?;
    Ok(rows)
}
