//! An object with those overrides alone that bear on a range (RFC 4791, 9.6.6).
ghost use Rattle.std.specs.Prelude.{◌≡◌, ℕ, ◌<◌, ◌≤◌, ◌^◌, ◌||◌, suc, List, ◌∷◌, ◌++◌, [], All, length, flat_map, option_to_list, get_or, MatchOption, OnOk, IfOk, false, unwrap_or};
ghost use Rattle.std.specs.List.{list_any};
ghost use Rattle.cal_moment.specs.Calendar.{IsCalendarMoment};
ghost use Rattle.cal_model.specs.declared.selection.CompPick.{CompPick as Pick};
ghost use Rattle.cal_model.specs.Instances.Rows as rows;
ghost use Rattle.cal_model.specs.Objects.ComponentLines as component;
ghost use Rattle.cal_model.specs.Objects.ObjectFacts.{IsRead, IsReadComponent};
ghost use Rattle.cal_model.specs.Selections.LimitedSets as spec;
ghost use Rattle.cal_model.specs.TimeZones.TableBounds.{IsTable};
ghost use Rattle.expand_limit.specs.InstanceLines.{IsShownRow};
ghost use Rattle.expand_limit.specs.KeptParts.{IsKept};
ghost use Rattle.expand_limit.specs.SeenRows as seen_rows;
ghost use Rattle.expand_limit.specs.ShownTexts.{body_text, node_text};
ghost use Rattle.ical_objects.specs.Printing.{IsPrintable, ArePrintable};
ghost use Rattle.overlap_rules.specs.Bounds.{IsNearRow};
ghost use Rattle.override_merge.specs.AlignedStamps.{aligned_by, HasDigits};
ghost use Rattle.override_merge.specs.Conversions.{tables_of, HasConvertibleRow, HasZone, IsConvertible};

use crate::ends::end_from;
use crate::kept::Kept;
use crate::lines::{Options, write_lines};
use crate::tree::{write_child, write_mark};
use cal_base::{NoMemory, Node, Octets};
use cal_model::{Component, LocalTimes, Object, Range, Row, RowKind, ZoneTable};
use cal_moment::Stamp;
use overlap_rules::row_overlaps;
use override_merge::stamps::{Aligned, align, kind_of};
use override_merge::starts::ids_start;
use override_merge::zones::instant_beside;
use std::alloc::Global;

/// What the rows of a component say, as far as a range asks.
#[derive(Clone, Copy, Drop)]
pub struct Seen {
    /// Whether some row overlaps the range.
    pub meets: bool,
    /// The id of the first row with a date, in seconds since 1970.
    pub id: Option<i64>,
}

/// An object, and the range that its overrides have to bear on.
#[derive(Clone, Copy)]
pub struct Limit<'a> {
    pub object: &'a Object,
    /// The zone in which floating times are read.
    pub zone: &'a ZoneTable,
    pub range: Range,
}

/// Whether a row overlaps the range.
fn meets(limit: &Limit<'_>, row: &Row) -> bool
    requires zone { IsTable limit.now.zone.now }
    requires row { IsNearRow row.now }
    ensures { result ≡ seen_rows.meets limit.now row.now }
{
    match limit.object.components.get(row.component as usize) {
        Some(component) => row_overlaps(component, row, limit.range, limit.zone),
        None => false,
    }
}

/// The id of the first row that has a date, where one more row is seen.
fn id_with(row: &Row, before: Option<i64>) -> Option<i64>
    requires { IsShownRow row.now }
    ensures { result ≡ seen_rows.id_with row.now before }
{
    if before.is_some() {
        return before;
    }
    if row.kind == RowKind::Undated {
        return None;
    }
    Some(row.id)
}

/// What is seen of a component with one more row of it.
fn seen_row(limit: &Limit<'_>, row: &Row, before: Seen) -> Seen
    requires zone { IsTable limit.now.zone.now }
    requires row { IsShownRow row.now }
    ensures { result ≡ seen_rows.seen_row limit.now row.now before }
{
    Seen {
        meets: before.meets || meets(limit, row),
        id: id_with(row, before.id),
    }
}

/// Notes what a row says of its component.
fn note_row(limit: &Limit<'_>, row: &Row, seen: &mut [Seen])
    requires zone { IsTable limit.now.zone.now }
    requires row { IsShownRow row.now }
    ensures size { length seen.new ≡ length seen.old }
    ensures seen { (number : ℕ) → number < length seen.old → get_or seen.new number seen_rows.nothing_seen ≡ seen_rows.seen_more limit.now number row.now (get_or seen.old number seen_rows.nothing_seen) }
{
    let number = row.component as usize;
    if number < seen.len() {
        seen[number] = seen_row(limit, row, seen[number]);
    }
}

/// Nothing seen yet of so many components.
pub fn nothing_seen(alloc: Global, size: usize) -> Result<Vec<Seen>, NoMemory>
    ensures size { IfOk result (λ seen. length seen.items ≡ size) }
    ensures seen { IfOk result (λ seen. (number : ℕ) → get_or seen.items number seen_rows.nothing_seen ≡ seen_rows.nothing_seen) }
{
    let nothing = Seen {
        meets: false,
        id: None,
    };
    match vec![in alloc; nothing; size] {
        Ok(seen) => Ok(seen),
        Err(_) => Err(NoMemory),
    }
}

/// What the rows say of each component, in one pass over them.
pub fn seen_of_rows(limit: &Limit<'_>, rows: &[Row], seen: &mut [Seen])
    requires zone { IsTable limit.now.zone.now }
    requires rows { All IsShownRow rows.now }
    ensures size { length seen.new ≡ length seen.old }
    ensures seen { (number : ℕ) → number < length seen.old → get_or seen.new number seen_rows.nothing_seen ≡ seen_rows.seen_over limit.now number rows.now (get_or seen.old number seen_rows.nothing_seen) }
{
    let mut rest = rows;
    'rows: while let Some((row, behind)) = rest.split_first() {
        note_row(limit, row, seen);
        rest = behind;
    }
}

/// The id that a RECURRENCE-ID gives by itself.
fn id_said(zones: &[LocalTimes<'_>], ids: Stamp, name: Aligned) -> i64
    requires ids { HasZone (length zones.now) ids }
    requires name { HasDigits name }
    ensures { result ≡ seen_rows.id_said (tables_of zones.now) ids (aligned_by name) }
{
    match name {
        Aligned::At(value) => value,
        Aligned::OnDay(midnight) => instant_beside(zones, ids, midnight),
    }
}

/// The id of an override: that of its first row that has a date, else what its RECURRENCE-ID says;
/// beside a start that is no date a local day counts as that day's midnight.
pub fn id_of(zones: &[LocalTimes<'_>], ids: Stamp, name: Stamp, seen: Option<i64>) -> i64
    requires ids { IsConvertible (length zones.now) ids }
    requires name { IsConvertible (length zones.now) name }
    ensures { result ≡ unwrap_or seen (seen_rows.named_id (tables_of zones.now) ids name) }
{
    match seen {
        Some(id) => id,
        None => id_said(zones, ids, align(zones, name, ids)),
    }
}

/// Whether the instance of the master at an id overlaps the range: from that start, with the master's
/// own length.
pub fn instance_meets(
    zones: &[LocalTimes<'_>],
    limit: &Limit<'_>,
    ids: Stamp,
    id: i64,
    master: &Component,
    number: u32,
) -> bool
    requires zones { limit.now.object.now.zones ≡ tables_of zones.now }
    requires zone { IsTable limit.now.zone.now }
    requires read { IsRead limit.now.object.now }
    requires component { IsReadComponent limit.now.object.now master.now }
    requires master { HasConvertibleRow (length zones.now) master.now }
    requires id { IsCalendarMoment id }
    ensures { result ≡ seen_rows.meets limit.now (spec.original_row limit.now.object.now ids id (record { number = number; component = master.now })) }
{
    let row = Row {
        id,
        start: id,
        end: end_from(zones, master, id),
        component: number,
        id_kind: kind_of(ids),
        kind: kind_of(ids),
    };
    meets(limit, &row)
}
