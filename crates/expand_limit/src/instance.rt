//! The lines of an instance, as `expand` shows them (RFC 4791, 9.6.5).
ghost use Rattle.std.specs.Prelude.{◌≡◌, ℕ, suc, List, ◌∷◌, ◌++◌, [], flat_map, OnOk, IsTrue, bytes_eq, codes, true, false, ◌||◌, Option};
ghost use Rattle.std.specs.List.{AllByRecursion};
ghost use Rattle.cal_base.specs.Lines.ContentLines.{is_name};
ghost use Rattle.cal_base.specs.Lines.LineGrammar.{IsReadLine};
ghost use Rattle.cal_moment.specs.Calendar.{IsCalendarMoment};
ghost use Rattle.cal_model.specs.declared.selection.CompPick.{CompPick as Pick};
ghost use Rattle.cal_model.specs.Selections.Expansion.{end_line, plain_lines};
ghost use Rattle.cal_model.specs.declared.row.Range.{Range as RangeSpec};
ghost use Rattle.cal_model.specs.Selections.RowLines as lines;
ghost use Rattle.expand_limit.specs.KeptParts.{IsKept};
ghost use Rattle.expand_limit.specs.ShownTexts.{line_text};
ghost use Rattle.expand_limit.specs.InstanceLines.{IsShownRow, instance_line_by, lines_after_start_by};
ghost use Rattle.ical_objects.specs.Printing.{IsOwnLine};

use crate::component_names::{is_named, is_of_recurrence};
use crate::kept::{Kept, portion};
use crate::lines::write_shown;
use cal_base::{Line, NoMemory, Octets};
use cal_model::{Component, Kind, Range, Row, RowKind};
use shown_lines::{write_new, write_no_length, write_rewritten};
use std::alloc::Global;

/// An instance that has a date: a row, and its component.
#[derive(Clone, Copy)]
pub struct Instance<'a> {
    pub row: &'a Row,
    pub component: &'a Component,
    /// Whether its RECURRENCE-ID is put behind its DTSTART: it is a master's, in an object that
    /// recurs.
    pub shows_id: bool,
    /// Whether its end is put there too: an RDATE period gave it.
    pub shows_end: bool,
}

/// Writes a line with a value of a row in place of its own.
fn write_changed(
    alloc: Global,
    kept: Option<&Kept>,
    line: &Line,
    kind: RowKind,
    seconds: i64,
    out: &mut Octets,
) -> Result<(), NoMemory>
    requires line { IsReadLine line.now }
    requires moment { IsCalendarMoment seconds }
    requires other { bytes_eq line.now.name (codes "FREEBUSY") ≡ false }
    ensures { OnOk result ((levels : ℕ) (picks : List Pick) (busy : Option RangeSpec) → IsKept (suc levels) kept.entry picks → out.new ≡ out.old ++ line_text picks busy (lines.rewritten kind seconds line.now)) }
{
    let portion = portion(kept, line.name.as_slice());
    write_rewritten(alloc, line, kind, seconds, portion, out)
}

/// Writes a new line of a name with a value of a row.
fn write_made(
    alloc: Global,
    kept: Option<&Kept>,
    name: &[u8],
    kind: RowKind,
    seconds: i64,
    out: &mut Octets,
) -> Result<(), NoMemory>
    requires name { IsTrue (is_name name.now) }
    requires moment { IsCalendarMoment seconds }
    requires other { bytes_eq name.now (codes "FREEBUSY") ≡ false }
    ensures { OnOk result ((levels : ℕ) (picks : List Pick) (busy : Option RangeSpec) → IsKept (suc levels) kept.entry picks → out.new ≡ out.old ++ line_text picks busy (lines.new_line name.now kind seconds)) }
{
    write_new(alloc, name, kind, seconds, portion(kept, name), out)
}

/// Writes the end of an instance as a line in place of DURATION: DTEND, in a VTODO DUE, or no length
/// where it ends at its start.
fn write_end(
    alloc: Global,
    kept: Option<&Kept>,
    instance: Instance<'_>,
    out: &mut Octets,
) -> Result<(), NoMemory>
    requires { IsShownRow instance.row.now }
    ensures { OnOk result ((levels : ℕ) (picks : List Pick) (busy : Option RangeSpec) → IsKept (suc levels) kept.entry picks → out.new ≡ out.old ++ line_text picks busy (end_line instance.entry.component.now instance.entry.row.now)) }
{
    let row = instance.row;
    if row.end == row.start {
        return write_no_length(alloc, portion(kept, b"DURATION"), out);
    }
    match instance.component.kind {
        Kind::Todo => write_made(alloc, kept, b"DUE", row.kind, row.end, out),
        _ => write_made(alloc, kept, b"DTEND", row.kind, row.end, out),
    }
}

/// Writes what stands directly behind the DTSTART of an instance.
fn write_behind_start(
    alloc: Global,
    kept: Option<&Kept>,
    instance: Instance<'_>,
    out: &mut Octets,
) -> Result<(), NoMemory>
    requires { IsShownRow instance.row.now }
    ensures { OnOk result ((levels : ℕ) (picks : List Pick) (busy : Option RangeSpec) → IsKept (suc levels) kept.entry picks → out.new ≡ out.old ++ flat_map (line_text picks busy) (lines_after_start_by instance.entry)) }
{
    if !instance.shows_id {
        return Ok(());
    }
    let row = instance.row;
    write_made(alloc, kept, b"RECURRENCE-ID", row.id_kind, row.id, out)?;
    if instance.shows_end {
        write_end(alloc, kept, instance, out)
    } else {
        Ok(())
    }
}

/// Writes DTSTART with the start of an instance, and what stands directly behind it.
fn write_start(
    alloc: Global,
    kept: Option<&Kept>,
    instance: Instance<'_>,
    line: &Line,
    out: &mut Octets,
) -> Result<(), NoMemory>
    requires row { IsShownRow instance.row.now }
    requires line { IsReadLine line.now }
    requires named { bytes_eq line.now.name (codes "DTSTART") ≡ true }
    ensures { OnOk result ((levels : ℕ) (picks : List Pick) (busy : Option RangeSpec) → IsKept (suc levels) kept.entry picks → out.new ≡ out.old ++ flat_map (line_text picks busy) (lines.rewritten instance.entry.row.now.kind instance.entry.row.now.start line.now ∷ lines_after_start_by instance.entry)) }
{
    write_changed(
        alloc,
        kept,
        line,
        instance.row.kind,
        instance.row.start,
        out,
    )?;
    write_behind_start(alloc, kept, instance, out)
}

/// Whether a line says the end of a component by a moment.
fn is_end(line: &Line) -> bool
    ensures { result ≡ (bytes_eq line.now.name (codes "DTEND") || bytes_eq line.now.name (codes "DUE")) }
{
    is_named(&line.name, b"DTEND") || is_named(&line.name, b"DUE")
}

/// Writes a line of a component in an instance of it.
fn write_line(
    alloc: Global,
    busy: Option<Range>,
    kept: Option<&Kept>,
    instance: Instance<'_>,
    line: &Line,
    out: &mut Octets,
) -> Result<(), NoMemory>
    requires row { IsShownRow instance.row.now }
    requires line { IsReadLine line.now }
    ensures { OnOk result ((levels : ℕ) (picks : List Pick) → IsKept (suc levels) kept.entry picks → out.new ≡ out.old ++ flat_map (line_text picks busy) (instance_line_by instance.entry line.now)) }
{
    let row = instance.row;
    if is_named(&line.name, b"DTSTART") {
        write_start(alloc, kept, instance, line, out)
    } else if is_end(line) {
        write_changed(alloc, kept, line, row.kind, row.end, out)
    } else if is_named(&line.name, b"RECURRENCE-ID") {
        write_changed(alloc, kept, line, row.id_kind, row.id, out)
    } else if is_named(&line.name, b"DURATION") && instance.component.start.is_some() {
        write_end(alloc, kept, instance, out)
    } else {
        write_shown(alloc, busy, kept, line, out)
    }
}

/// Writes the lines of a component in an instance of it.
pub fn write_instance_lines(
    alloc: Global,
    busy: Option<Range>,
    kept: Option<&Kept>,
    instance: Instance<'_>,
    lines: &[Line],
    out: &mut Octets,
) -> Result<(), NoMemory>
    requires row { IsShownRow instance.row.now }
    requires lines { AllByRecursion IsOwnLine lines.now }
    ensures { OnOk result ((levels : ℕ) (picks : List Pick) → IsKept (suc levels) kept.entry picks → out.new ≡ out.old ++ flat_map (line_text picks busy) (flat_map (instance_line_by instance.entry) (plain_lines lines.now))) }
{
    let mut rest = lines;
    'lines: while let Some((line, behind)) = rest.split_first() {
        if !is_of_recurrence(line) {
            write_line(alloc, busy, kept, instance, line, out)?;
        }
        rest = behind;
    }
    Ok(())
}
