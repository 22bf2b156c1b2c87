//! The lines of rows.
ghost use Rattle.std.specs.Prelude.{◌≡◌, ◌++◌, codes, decimal, filter, All, OnOk, if◌then◌else◌, []};
ghost use Rattle.cal_moment.specs.Calendar.{IsCalendarMoment};
ghost use Rattle.cal_model.specs.Ranges.RowRanges.{row_in_range};
ghost use Rattle.cal_model.specs.TimeZones.TableBounds.{IsTable};
ghost use Rattle.expand_limit.specs.InstanceLines.{IsShownRow};
ghost use Rattle.ics_tool.specs.RowTexts.{moment_text, row_line, rows_text};

use cal_base::{NoMemory, Octets};
use cal_model::{Object, Range, Row, RowKind, ZoneTable};
use cal_moment::{Utc, write_utc};
use itoa::Buffer;
use overlap_rules::row_overlaps;

/// Appends a number in decimal digits.
pub(crate) fn put_number(number: u32, out: &mut Octets) -> Result<(), NoMemory>
    ensures { OnOk result (out.new ≡ out.old ++ decimal number) }
{
    let mut digits = Buffer::new();
    out.extend_from_slice(digits.format(number).as_bytes())
}

/// Appends a moment of a row: an instant in UTC, a floating time by its local digits, a date by the
/// digits of its day.
fn put_moment(kind: RowKind, seconds: i64, out: &mut Octets) -> Result<(), NoMemory>
    requires { IsCalendarMoment seconds }
    ensures { OnOk result (out.new ≡ out.old ++ moment_text kind seconds) }
{
    let text = write_utc(Utc(seconds));
    match kind {
        RowKind::Instant => out.extend_from_slice(&text),
        RowKind::Floating => out.extend_from_slice(&text[..15]),
        RowKind::Date => out.extend_from_slice(&text[..8]),
        RowKind::Undated => out.push(b'-'),
    }
}

/// Appends a moment of a row, and a space.
fn put_word(kind: RowKind, seconds: i64, out: &mut Octets) -> Result<(), NoMemory>
    requires { IsCalendarMoment seconds }
    ensures { OnOk result (out.new ≡ out.old ++ (moment_text kind seconds ++ codes " ")) }
{
    put_moment(kind, seconds, out)?;
    out.push(b' ')
}

/// Appends the line of a row.
fn put_row(row: &Row, out: &mut Octets) -> Result<(), NoMemory>
    requires { IsShownRow row.now }
    ensures { OnOk result (out.new ≡ out.old ++ row_line row.now) }
{
    put_word(row.id_kind, row.id, out)?;
    put_word(row.kind, row.start, out)?;
    put_word(row.kind, row.end, out)?;
    put_number(row.component, out)?;
    out.push(b'\n')
}

/// Whether a row of an object overlaps a range. Floating times and dates are read in the zone.
fn is_met(object: &Object, zone: &ZoneTable, range: Range, row: &Row) -> bool
    requires zone { IsTable zone.now }
    requires row { IsShownRow row.now }
    ensures { result ≡ row_in_range object.now zone.now range row.now }
{
    match object.components.get(row.component as usize) {
        Some(component) => row_overlaps(component, row, range, zone),
        None => false,
    }
}

/// Appends the line of a row, if it overlaps the range.
fn put_if_met(
    object: &Object,
    zone: &ZoneTable,
    range: Range,
    row: &Row,
    out: &mut Octets,
) -> Result<(), NoMemory>
    requires zone { IsTable zone.now }
    requires row { IsShownRow row.now }
    ensures { OnOk result (out.new ≡ out.old ++ (if row_in_range object.now zone.now range row.now then row_line row.now else [])) }
{
    if is_met(object, zone, range, row) {
        put_row(row, out)
    } else {
        Ok(())
    }
}

/// Appends the lines of those rows that overlap the range.
pub(crate) fn put_met(
    object: &Object,
    zone: &ZoneTable,
    range: Range,
    rows: &[Row],
    out: &mut Octets,
) -> Result<(), NoMemory>
    requires zone { IsTable zone.now }
    requires rows { All IsShownRow rows.now }
    ensures { OnOk result (out.new ≡ out.old ++ rows_text (filter (row_in_range object.now zone.now range) rows.now)) }
{
    let mut rest = rows;
    'rows: while let Some((row, behind)) = rest.split_first() {
        put_if_met(object, zone, range, row, out)?;
        rest = behind;
    }
    Ok(())
}
