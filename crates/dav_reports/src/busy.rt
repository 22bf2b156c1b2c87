//! The busy times of an object (RFC 4791, 7.10), gathered for the runs of a range: what comes out is
//! alike in the range to the times put behind one another.
ghost use Rattle.std.specs.Prelude.{◌≡◌, ◌+◌, ◌≤◌, All, OnOk, flat_map, map, sum};
ghost use Rattle.cal_model.specs.declared.object.Component.{Component};
ghost use Rattle.cal_model.specs.declared.report.ReportRequest.TheVariants.{FreeBusy};
ghost use Rattle.cal_model.specs.Busy.BusyTimes as spec;
ghost use Rattle.cal_model.specs.Ranges.Cost.{cost};
ghost use Rattle.cal_model.specs.Reports.NeededWindows.{windows_needed};
ghost use Rattle.cal_model.specs.TimeZones.TableBounds.{IsTable};
ghost use Rattle.freebusy.specs.Gathering.{Gathers};
ghost use Rattle.overlap_rules.specs.Bounds.{IsNearRow};
ghost use Rattle.dav_reports.specs.ObjectTimes.{IsNearStored, stored_times, times_by_windows, times_in, times_of_rows};
ghost use Rattle.dav_reports.specs.PieceRows.{AreRowsOf, IsKept, needed_cost, windows_cost};

use crate::rows::{missing_first, windows_for};
use cal_base::{NoMemory, Steps};
use cal_model::view::Pieces;
use cal_model::{Class, Component, Kind, Object, Range, Row, ZoneTable};
use cal_moment::Period;
use freebusy::{BusyRow, Gathered};
use needed_windows::is_needed;
use overlap_rules::{fixed, stored_period};
use rrule_sets::{only_row, windows_rows};
use std::alloc::Global;
use std::sync::ledger::Ledger;

/// The class of a row: that of its component; none for one that counts as free.
fn class_of(object: &Object, row: &Row) -> Option<Class>
    ensures { result ≡ spec.class_of_row object.now row.now }
{
    match object.components.get(row.component as usize) {
        Some(component) => component.busy,
        None => None,
    }
}

/// Puts the time of a row behind others, where it makes busy. Floating times are read in the zone.
fn put_row(object: &Object, row: &Row, zone: &ZoneTable, out: &mut Gathered) -> Result<(), NoMemory>
    requires zone { IsTable zone.now }
    requires near { IsNearRow row.now }
    ensures { OnOk result (Gathers out.old out.new (spec.times_of_row zone.now object.now row.now)) }
{
    match class_of(object, row) {
        Some(class) => {
            let at = fixed(row, zone);
            out.push(BusyRow {
                class,
                start: at.start,
                end: at.end,
            })
        }
        None => Ok(()),
    }
}

/// Puts the times of some rows behind others.
fn put_rows(
    object: &Object,
    rows: &[Row],
    zone: &ZoneTable,
    out: &mut Gathered,
) -> Result<(), NoMemory>
    requires zone { IsTable zone.now }
    requires near { All IsNearRow rows.now }
    ensures { OnOk result (Gathers out.old out.new (times_of_rows zone.now object.now rows.now)) }
{
    let mut rest = rows;
    'rows: while let Some((row, behind)) = rest.split_first() {
        put_row(object, row, zone, out)?;
        rest = behind;
    }
    Ok(())
}

/// Puts the times of an object's rows in several windows behind others. The rows are those of pieces,
/// where there are some, and else they are found anew, those of windows that follow one another in one
/// walk.
fn put_windows<P: Pieces, L: Ledger>(
    alloc: Global,
    pieces: &P,
    origin: u64,
    object: &Object,
    windows: &[i32],
    zone: &ZoneTable,
    out: &mut Gathered,
    steps: &mut Steps<L>,
) -> Result<(), NoMemory>
    requires object { IsKept object.now }
    requires right { AreRowsOf (P.held pieces.now) origin object.now }
    requires zone { IsTable zone.now }
    ensures steps { steps.new ≤ steps.old + windows_cost (P.held pieces.now) origin object.now windows.now }
    ensures times { OnOk result (Gathers out.old out.new (times_in zone.now object.now windows.now)) }
{
    let mut rest = windows;
    'windows: while let Some((window, behind)) = rest.split_first() {
        if let Some(rows) = pieces.rows(origin, *window) {
            put_rows(object, rows.as_slice(), zone, out)?;
            rest = behind;
            continue 'windows;
        }
        let (missing, left) = rest.split_at(1 + missing_first(pieces, origin, behind));
        put_missing(alloc, object, missing, zone, out, steps)?;
        rest = left;
    }
    Ok(())
}

/// Puts the times of an object's rows in windows without a piece behind others.
fn put_missing<L: Ledger>(
    alloc: Global,
    object: &Object,
    windows: &[i32],
    zone: &ZoneTable,
    out: &mut Gathered,
    steps: &mut Steps<L>,
) -> Result<(), NoMemory>
    requires object { IsKept object.now }
    requires zone { IsTable zone.now }
    ensures steps { steps.new ≤ steps.old + sum (map (cost object.now) windows.now) }
    ensures times { OnOk result (Gathers out.old out.new (times_in zone.now object.now windows.now)) }
{
    let rows = windows_rows(alloc, object, windows, steps)?;
    put_rows(object, rows.as_slice(), zone, out)
}

/// Puts the times of an object's rows in the windows that a range may need behind others. Of an object
/// that happens once the row is found without looking for them.
fn put_needed<P: Pieces, L: Ledger>(
    alloc: Global,
    pieces: &P,
    origin: u64,
    object: &Object,
    range: Range,
    zone: &ZoneTable,
    out: &mut Gathered,
    steps: &mut Steps<L>,
) -> Result<(), NoMemory>
    requires object { IsKept object.now }
    requires right { AreRowsOf (P.held pieces.now) origin object.now }
    requires zone { IsTable zone.now }
    ensures steps { steps.new ≤ steps.old + needed_cost (P.held pieces.now) origin object.now (windows_needed object.now (FreeBusy range)) }
    ensures times { OnOk result (Gathers out.old out.new (times_in zone.now object.now (windows_needed object.now (FreeBusy range)))) }
{
    let Some((row, window)) = only_row(object) else {
        let windows = windows_for(alloc, object, &[range])?;
        return put_windows(
            alloc,
            pieces,
            origin,
            object,
            windows.as_slice(),
            zone,
            out,
            steps,
        );
    };
    if is_needed(object, &row, &[range], window) {
        put_row(object, &row, zone, out)
    } else {
        Ok(())
    }
}

/// Puts a stored period behind other times, unless it is free.
fn put_period(stored: &(Option<Class>, Period), out: &mut Gathered) -> Result<(), NoMemory>
    requires { IsNearStored stored.now }
    ensures { OnOk result (Gathers out.old out.new (spec.times_of_stored stored.now)) }
{
    match stored.0 {
        Some(class) => {
            let (start, end) = stored_period(&stored.1);
            out.push(BusyRow {
                class,
                start: start as i64,
                end: end as i64,
            })
        }
        None => Ok(()),
    }
}

/// The same of several.
fn put_periods(stored: &[(Option<Class>, Period)], out: &mut Gathered) -> Result<(), NoMemory>
    requires { All IsNearStored stored.now }
    ensures { OnOk result (Gathers out.old out.new (flat_map spec.times_of_stored stored.now)) }
{
    let mut rest = stored;
    'periods: while let Some((period, behind)) = rest.split_first() {
        put_period(period, out)?;
        rest = behind;
    }
    Ok(())
}

/// The stored periods of a component: a VFREEBUSY alone has some.
fn periods_of(component: &Component) -> &[(Option<Class>, Period)]
    ensures { result.now ≡ spec.stored_periods component.now.kind component.now }
{
    match component.kind {
        Kind::FreeBusy => component.stored_busy.as_slice(),
        _ => &[],
    }
}

/// Puts the stored periods of some components behind other times.
fn put_stored(components: &[Component], out: &mut Gathered) -> Result<(), NoMemory>
    requires { All (λ (c : Component). All IsNearStored c.stored_busy) components.now }
    ensures { OnOk result (Gathers out.old out.new (stored_times components.now)) }
{
    let mut rest = components;
    'components: while let Some((component, behind)) = rest.split_first() {
        put_periods(periods_of(component), out)?;
        rest = behind;
    }
    Ok(())
}

/// Puts the times at which an object may make busy in a range behind others: those of its rows in the
/// windows that the range may need, and those that it stores.
pub(crate) fn put_object<P: Pieces, L: Ledger>(
    alloc: Global,
    pieces: &P,
    origin: u64,
    object: &Object,
    range: Range,
    zone: &ZoneTable,
    out: &mut Gathered,
    steps: &mut Steps<L>,
) -> Result<(), NoMemory>
    requires object { IsKept object.now }
    requires right { AreRowsOf (P.held pieces.now) origin object.now }
    requires zone { IsTable zone.now }
    ensures steps { steps.new ≤ steps.old + needed_cost (P.held pieces.now) origin object.now (windows_needed object.now (FreeBusy range)) }
    ensures times { OnOk result (Gathers out.old out.new (times_by_windows zone.now object.now (windows_needed object.now (FreeBusy range)))) }
{
    put_needed(alloc, pieces, origin, object, range, zone, out, steps)?;
    put_stored(object.components.as_slice(), out)
}
