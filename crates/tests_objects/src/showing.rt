//! What is shown of a text, with the rows that are found for it.
ghost use Rattle.std.specs.Prelude.{◌≡◌, ◌<◌, ◌^◌, ◌++◌, false, length, All, IfOk, Ok};
ghost use Rattle.cal_model.specs.Instances.Rows.{has_fine_rule, rows_in, undated_rows};
ghost use Rattle.cal_model.specs.Objects.ObjectFacts.{IsRead};
ghost use Rattle.cal_model.specs.Objects.ObjectReading.{read_object};
ghost use Rattle.cal_model.specs.TimeZones.TableBounds.{IsTable};
ghost use Rattle.expand_limit.specs.InstanceLines.{IsShownRow};

use cal_base::{List, NoMemory, Octets, SharedList, Steps};
use cal_model::{Object, Row, Selection, ZoneTable};
use cal_object::read_object;
use expand_limit::shown;
use rrule_sets::{has_fine_rule, undated_rows, window_rows};
use std::alloc::Global;
use std::marker::Brand;
use std::sync::ledger::{Blank, Ledger};

/// The most octets of a text.
const MOST_OCTETS: usize = 1_048_576;

/// The clock that is always an hour ahead of UTC, or that of UTC.
pub fn clock(alloc: Global, is_ahead: bool) -> ZoneTable
    ensures { IsTable result }
{
    ZoneTable {
        name: Octets::new(alloc),
        before: if is_ahead { 3_600 } else { 0 },
        onsets: SharedList::new(),
    }
}

/// The rows of an object that have no date, and those of a window of 64 days behind them.
fn rows_counted<L: Ledger>(
    alloc: Global,
    object: &Object,
    window: i32,
    blank: Blank,
) -> Result<List<Row>, NoMemory>
    requires read { IsRead object.now }
    requires few { length object.now.components < 2 ^ 32 }
    requires coarse { has_fine_rule object.now ≡ false }
    requires name { L.name ≡ blank.name }
    requires parts { L.parts ≡ blank.parts }
    requires some { 0 < blank.parts }
    ensures { IfOk result (λ rows. rows ≡ undated_rows object.now ++ rows_in object.now window) }
{
    let mut steps = Steps::<L>::open(blank);
    let dated = window_rows(alloc, object, window, &mut steps)?;
    let mut rows = undated_rows(alloc, object)?;
    rows.extend_from_slice(dated.as_slice())?;
    Ok(rows)
}

/// The same, on a count of steps of its own.
fn rows(alloc: Global, object: &Object, window: i32) -> Result<List<Row>, NoMemory>
    requires read { IsRead object.now }
    requires few { length object.now.components < 2 ^ 32 }
    requires coarse { has_fine_rule object.now ≡ false }
    ensures { IfOk result (All IsShownRow) }
{
    rows_counted::<Brand>(alloc, object, window, Blank::new(1))
}

/// What is shown of an object that was read.
fn shown_of_object(
    alloc: Global,
    text: &[u8],
    object: &Object,
    window: i32,
    select: &Selection,
    zone: &ZoneTable,
) -> Result<Octets, NoMemory>
    requires read { read_object text.now ≡ Ok object.now }
    requires few { length object.now.components < 2 ^ 32 }
    requires zone { IsTable zone.now }
{
    if has_fine_rule(object) {
        return Octets::of(alloc, b"not expanded");
    }
    let rows = rows(alloc, object, window)?;
    shown(alloc, text, object, &rows, select, zone)
}

/// What is shown of the object that a text is, over its rows of one window of 64 days; floating times
/// are read an hour ahead of UTC, or in UTC. Two words where it is no object.
fn shown_of(
    alloc: Global,
    text: &[u8],
    window: i32,
    select: &Selection,
    is_ahead: bool,
) -> Result<Octets, NoMemory> {
    if text.len() > MOST_OCTETS {
        return Octets::of(alloc, b"too long");
    }
    match read_object(alloc, text) {
        Ok(object) => {
            let zone = clock(alloc, is_ahead);
            shown_of_object(alloc, text, &object, window, select, &zone)
        }
        Err(_) => Octets::of(alloc, b"no object"),
    }
}

/// Whether this is shown of a text, by a selection that nothing else needs.
pub fn is_shown(
    alloc: Global,
    text: &[u8],
    window: i32,
    select: Selection,
    is_ahead: bool,
    wanted: &[u8],
) -> Result<bool, NoMemory> {
    match shown_of(alloc, text, window, &select, is_ahead) {
        Ok(found) => Ok(found.as_slice() == wanted),
        Err(NoMemory) => Err(NoMemory),
    }
}
