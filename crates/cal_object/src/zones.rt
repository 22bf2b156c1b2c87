//! The zones of a calendar, each as a table (RFC 5545, 3.6.5).
ghost use Rattle.std.specs.Prelude.{◌≡◌, ◌+◌, ◌++◌, ℕ, List, [], None, Some, true, false, filter, get_or, map, All, IfOk, OnOk, IsErrOf};
ghost use Rattle.cal_base.specs.Lines.ContentLines.{Placed};
ghost use Rattle.cal_model.specs.Recurrence.RecurrenceSet.{every_moment};
ghost use Rattle.cal_model.specs.TimeZones.TableBounds.{IsTable};
ghost use Rattle.cal_model.specs.Objects.ZoneFaults.{zone_fault};
ghost use Rattle.cal_model.specs.Objects.CalendarChildren.{child_places, children_in, zones_among};
ghost use Rattle.cal_model.specs.Objects.ZoneReading as spec;
ghost use Rattle.cal_object.specs.ZoneFaults.{first_bad, is_bad_zone, room_behind, tables_from, IsMadeOf};

use crate::named::is_named;
use crate::zone::{has_zone_fault, parts_of_zone, zone_name};
use cal_base::{List, NoMemory, Node};
use cal_model::ZoneTable;
use ical_values::ZoneNames;
use rrule_step::PeriodStep;
use std::alloc::Global;
use vtimezone::{TableFault, make_table};

/// The most that the zones of an object may count.
const ONSET_LIMIT: u32 = 50_000;

/// Why the zones of a calendar are not read.
#[derive(Debug, Clone, Copy, PartialEq, Eq)]
pub enum ZoneFault {
    /// A VTIMEZONE cannot stand, or counts too much with those before it.
    Bad {
        /// Its place among the children of the calendar, counted from 0.
        child: usize,
    },
    /// There was no memory.
    NoMemory,
}

impl From<NoMemory> for ZoneFault {
    ghost use Rattle.cal_object.specs.declared.zones.ZoneFault.TheVariants.{NoMemory};

    ghost from_gives = { λ error fault. fault ≡ NoMemory };

    fn from(_error: NoMemory) -> ZoneFault {
        ZoneFault::NoMemory
    }
}

/// The table of a zone, and what may still be counted behind it; none where it cannot stand.
fn table_within(
    alloc: Global,
    names: &ZoneNames,
    zone: &Node,
    room: u32,
) -> Result<Option<(ZoneTable, u32)>, NoMemory>
    requires { names.now ≡ [] }
    ensures { IfOk result (λ made. IsMadeOf zone.now room made) }
{
    let parts = parts_of_zone(alloc, names, zone)?;
    if has_zone_fault(zone, parts.as_slice()) {
        return Ok(None);
    }
    match make_table(alloc, zone_name(zone), &parts, room, &PeriodStep) {
        Ok((table, count)) => Ok(Some((table, room - count))),
        Err(TableFault::TooMany) => Ok(None),
        Err(TableFault::NoMemory) => Err(NoMemory),
    }
}

/// Puts the table of a component that is a zone behind those of the zones before it. `child` is its
/// number among the components of its calendar.
fn put_zone(
    alloc: Global,
    names: &ZoneNames,
    child: usize,
    node: &Node,
    room: &mut u32,
    tables: &mut List<ZoneTable>,
) -> Result<(), ZoneFault>
    requires { names.now ≡ [] }
    ensures good { OnOk result (is_bad_zone room.old node.now ≡ false) }
    ensures room { OnOk result (room.new ≡ room_behind room.old node.now) }
    ensures tables { OnOk result (tables.new ≡ tables.old ++ tables_from node.now) }
    ensures convertible { OnOk result (All IsTable tables.old → All IsTable tables.new) }
    ensures bad { (number : ℕ) → IsErrOf result (ZoneFault.Bad number) → (number ≡ child) × (is_bad_zone room.old node.now ≡ true) }
{
    if !is_named(node, b"VTIMEZONE") {
        return Ok(());
    }
    match table_within(alloc, names, node, *room)? {
        Some((table, left)) => {
            *room = left;
            tables.push(table)?;
            Ok(())
        }
        None => Err(ZoneFault::Bad { child }),
    }
}

/// The tables of the zones among the components of a calendar.
fn tables_of(alloc: Global, names: &ZoneNames, nodes: &[Node]) -> Result<List<ZoneTable>, ZoneFault>
    requires { names.now ≡ [] }
    ensures tables { IfOk result (λ tables. tables ≡ map (spec.zone_table every_moment) (filter spec.is_zone nodes.now)) }
    ensures convertible { IfOk result (λ tables. All IsTable tables) }
    ensures good { IfOk result (λ _. first_bad 0 50_000 nodes.now ≡ None) }
    ensures bad { (child : ℕ) → IsErrOf result (ZoneFault.Bad child) → first_bad 0 50_000 nodes.now ≡ Some child }
{
    let mut tables = List::new(alloc);
    let mut room = ONSET_LIMIT;
    let mut child = 0usize;
    let mut rest = nodes;
    'nodes: while let Some((node, behind)) = rest.split_first() {
        put_zone(alloc, names, child, node, &mut room, &mut tables)?;
        child += 1;
        rest = behind;
    }
    Ok(tables)
}

/// The zones of a calendar, in order, as tables. The first VTIMEZONE that cannot stand is told, by
/// its place among the components of the calendar: one without TZID or without a part, one with a
/// rule that repeats within the hour or with more than eight rules in a part, and one at which the
/// zones together count more than 50,000 onsets. Each rule is taken once.
pub fn read_zones(alloc: Global, calendar: &Node) -> Result<List<ZoneTable>, ZoneFault>
    ensures tables { IfOk result (λ tables. tables ≡ spec.zones_of every_moment calendar.now) }
    ensures convertible { IfOk result (λ tables. All IsTable tables) }
    ensures good { IfOk result (λ _. (placed : List Placed) → zone_fault every_moment (zones_among (children_in placed calendar.now)) ≡ None) }
    ensures bad { (child : ℕ) → IsErrOf result (ZoneFault.Bad child) → (placed : List Placed) → zone_fault every_moment (zones_among (children_in placed calendar.now)) ≡ Some (get_or (child_places placed) child 0) }
{
    let names = ZoneNames::of(alloc, &List::new(alloc))?;
    tables_of(alloc, &names, calendar.children.as_slice())
}
