//! A component of the four kinds, from its lines and its alarms (RFC 5545, 3.6.1 to 3.6.4 and 3.6.6).
ghost use Rattle.std.specs.Prelude.{◌≡◌, codes, IfOk};
ghost use Rattle.cal_model.specs.Objects.ComponentLines.{lines_of};
ghost use Rattle.cal_model.specs.Objects.ComponentReading as spec;
ghost use Rattle.cal_model.specs.Objects.LineValues.{value_at};
ghost use Rattle.cal_model.specs.Values.ValueTexts.{moment_of};
ghost use Rattle.cal_object.specs.Recurrences.{recurrence_of};

use crate::alarms::alarms_of;
use crate::busy::{busy_of, stored_busy_of};
use crate::extents::read_extent;
use crate::kinds::has_future;
use crate::line_dates::{periods_at, stamp_at, stamps_at};
use crate::zone_dates::rules_of;
use cal_base::{Line, List, NoMemory, Node};
use cal_model::{Component, Kind, Rule};
use cal_moment::{Period, Stamp, Utc};
use ical_values::{ZoneNames, one_of, read_moment};
use std::alloc::Global;

/// What the lines of a component say of its further instances.
#[derive(Drop)]
pub struct Recurrence {
    /// The RRULE lines that can be read.
    pub rules: List<Rule>,
    /// The RDATE values that are dates or moments.
    pub dates: List<Stamp>,
    /// The RDATE values that are periods.
    pub periods: List<Period>,
    /// The EXDATE values.
    pub except: List<Stamp>,
}

/// What the lines of a component say of its further instances.
fn read_recurrence(alloc: Global, zones: &ZoneNames, lines: &[Line]) -> Result<Recurrence, NoMemory>
    ensures { IfOk result (λ recurrence. recurrence ≡ recurrence_of zones.now lines.now) }
{
    let rules = rules_of(alloc, lines)?;
    let dates = stamps_at(alloc, zones, lines, b"RDATE")?;
    let periods = periods_at(alloc, zones, lines, b"RDATE")?;
    let except = stamps_at(alloc, zones, lines, b"EXDATE")?;
    Ok(Recurrence {
        rules,
        dates,
        periods,
        except,
    })
}

/// The moment that the first line of a name says, in UTC.
fn moment_at(lines: &[Line], name: &[u8]) -> Option<Utc>
    ensures { result ≡ value_at moment_of name.now lines.now }
{
    let Some(line) = one_of(lines, name) else {
        return None;
    };
    match read_moment(line.value.as_slice()) {
        Ok(moment) => Some(moment),
        Err(_) => None,
    }
}

/// The component of a kind that a child of a calendar is, beside the names of the object's zones. A
/// line whose value cannot be read says nothing, and of lines that may stand once the first that can
/// be read counts.
pub fn read_component(
    alloc: Global,
    zones: &ZoneNames,
    child: u32,
    kind: Kind,
    node: &Node,
) -> Result<Component, NoMemory>
    ensures { IfOk result (λ component. component ≡ spec.component_of zones.now child kind node.now) }
{
    let lines = node.lines.as_slice();
    let recurrence = read_recurrence(alloc, zones, lines)?;
    let stored_busy = stored_busy_of(alloc, zones, lines)?;
    let alarms = alarms_of(alloc, node.children.as_slice())?;
    let Recurrence {
        rules,
        dates,
        periods,
        except,
    } = recurrence;
    Ok(Component {
        kind,
        child,
        start: stamp_at(zones, lines, b"DTSTART"),
        extent: read_extent(zones, kind, lines),
        recurrence_id: stamp_at(zones, lines, b"RECURRENCE-ID"),
        rules,
        dates,
        periods,
        except,
        completed: moment_at(lines, b"COMPLETED"),
        created: moment_at(lines, b"CREATED"),
        busy: busy_of(kind, lines),
        stored_busy,
        alarms,
        future: has_future(lines),
    })
}
