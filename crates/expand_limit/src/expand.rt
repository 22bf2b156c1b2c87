//! A recurring object as single instances (RFC 4791, 9.6.5).
ghost use Rattle.std.specs.Prelude.{◌≡◌, ℕ, ◌≤◌, suc, List, ◌∷◌, ◌++◌, [], All, length, flat_map, OnOk, true};
ghost use Rattle.std.specs.List.{position_or_len, AllByRecursion};
ghost use Rattle.cal_model.specs.declared.object.Object.{Object as Whole};
ghost use Rattle.cal_model.specs.declared.selection.CompPick.{CompPick as Pick};
ghost use Rattle.cal_model.specs.Objects.ComponentLines as component;
ghost use Rattle.cal_model.specs.Selections.Expansion as spec;
ghost use Rattle.cal_model.specs.TimeZones.TableBounds.{IsTable};
ghost use Rattle.expand_limit.specs.KeptParts.{IsKept};
ghost use Rattle.expand_limit.specs.ShownTexts.{line_text, node_text, body_text};
ghost use Rattle.expand_limit.specs.Instances.{instances_in};
ghost use Rattle.expand_limit.specs.InstanceLines.{IsShownRow};
ghost use Rattle.ical_objects.specs.Printing.{IsOwnLine, IsPrintable, ArePrintable};
ghost use Rattle.override_merge.specs.Conversions.{tables_of, HasConvertibleRow};

use crate::component_names::{is_named, is_of_four_kinds, is_of_recurrence};
use crate::ends::end_from;
use crate::instance::{Instance, write_instance_lines};
use crate::kept::{Kept, inner, leaves_out};
use crate::lines::{Options, write_lines};
use crate::tree::{write_child, write_children, write_mark};
use cal_base::{Line, NoMemory, Node, Octets};
use cal_model::{Component, LocalTimes, Object, Range, Row, RowKind, ZoneTable};
use overlap_rules::row_overlaps;
use std::alloc::Global;

/// What is expanded, and over which range.
#[derive(Clone, Copy)]
pub struct Expansion<'a> {
    pub object: &'a Object,
    /// The zone in which floating times are read.
    pub zone: &'a ZoneTable,
    pub range: Range,
    /// The range that the periods of FREEBUSY lines have to meet.
    pub busy: Option<Range>,
    /// Whether the object recurs.
    pub recurring: bool,
}

/// Whether a component has a rule, an RDATE or a RECURRENCE-ID.
fn shows_recurrence(component: &Component) -> bool
    ensures { result ≡ spec.shows_recurrence component.now }
{
    !component.rules.is_empty()
        || !component.dates.is_empty()
        || !component.periods.is_empty()
        || component.recurrence_id.is_some()
}

/// Whether an object recurs: some component has a rule, an RDATE or a RECURRENCE-ID.
pub fn is_recurring(object: &Object) -> bool
    ensures { result ≡ spec.is_recurring object.now }
{
    object
        .components
        .as_slice()
        .iter()
        .any(|component| shows_recurrence(component))
}

/// Whether some line, recurrence aside, has this name.
fn has(lines: &[Line], name: &[u8]) -> bool
    ensures { result ≡ component.has name.now (spec.plain_lines lines.now) }
{
    let mut rest = lines;
    'lines: while let Some((line, behind)) = rest.split_first() {
        if !is_of_recurrence(line) && is_named(&line.name, name) {
            return true;
        }
        rest = behind;
    }
    false
}

/// Whether some line says when the component ends.
fn says_its_end(lines: &[Line]) -> bool
    ensures { result ≡ spec.says_its_end (spec.plain_lines lines.now) }
{
    has(lines, b"DTEND") || has(lines, b"DUE") || has(lines, b"DURATION")
}

/// Whether an RDATE period gave a row its end.
fn is_end_of_period(
    zones: &[LocalTimes<'_>],
    component: &Component,
    lines: &[Line],
    row: &Row,
) -> bool
    requires component { HasConvertibleRow (length zones.now) component.now }
    requires row { IsShownRow row.now }
    ensures { (object : Whole) → object.zones ≡ tables_of zones.now → result ≡ spec.is_end_of_period object component.now (spec.plain_lines lines.now) row.now }
{
    !says_its_end(lines) && row.end != end_from(zones, component, row.start)
}

/// Writes the lines of a component as an instance of it that a row is.
fn write_row_lines(
    alloc: Global,
    zones: &[LocalTimes<'_>],
    expansion: &Expansion<'_>,
    kept: Option<&Kept>,
    component: &Component,
    lines: &[Line],
    row: &Row,
    out: &mut Octets,
) -> Result<(), NoMemory>
    requires zones { expansion.now.object.now.zones ≡ tables_of zones.now }
    requires recurring { expansion.now.recurring ≡ spec.is_recurring expansion.now.object.now }
    requires component { HasConvertibleRow (length zones.now) component.now }
    requires row { IsShownRow row.now }
    requires lines { AllByRecursion IsOwnLine lines.now }
    ensures { OnOk result ((levels : ℕ) (picks : List Pick) → IsKept (suc levels) kept.entry picks → out.new ≡ out.old ++ flat_map (line_text picks expansion.now.busy) (spec.instance_lines expansion.now.object.now component.now row.now (spec.plain_lines lines.now))) }
{
    if row.kind == RowKind::Undated {
        let options = Options {
            plain: true,
            busy: expansion.busy,
        };
        return write_lines(alloc, options, kept, lines, out);
    }
    let instance = Instance {
        row,
        component,
        shows_id: expansion.recurring && component.recurrence_id.is_none(),
        shows_end: is_end_of_period(zones, component, lines, row),
    };
    write_instance_lines(alloc, expansion.busy, kept, instance, lines, out)
}

/// Writes a component as the instance of it that a row is.
fn write_instance(
    alloc: Global,
    zones: &[LocalTimes<'_>],
    expansion: &Expansion<'_>,
    around: Option<&Kept>,
    component: &Component,
    node: &Node,
    row: &Row,
    out: &mut Octets,
) -> Result<(), NoMemory>
    requires zones { expansion.now.object.now.zones ≡ tables_of zones.now }
    requires recurring { expansion.now.recurring ≡ spec.is_recurring expansion.now.object.now }
    requires component { HasConvertibleRow (length zones.now) component.now }
    requires row { IsShownRow row.now }
    requires node { (levels : ℕ) × IsPrintable levels node.now }
    ensures { OnOk result ((levels : ℕ) (picks : List Pick) → IsPrintable levels node.now → IsKept (suc levels) around.entry picks → out.new ≡ out.old ++ node_text picks expansion.now.busy (spec.instance_from expansion.now.object.now row.now component.now node.now)) }
{
    if leaves_out(around, node.name.as_slice()) {
        return Ok(());
    }
    let kept = inner(around, node.name.as_slice());
    let options = Options {
        plain: true,
        busy: expansion.busy,
    };
    write_mark(alloc, b"BEGIN:", &node.name, out)?;
    write_row_lines(
        alloc,
        zones,
        expansion,
        kept,
        component,
        node.lines.as_slice(),
        row,
        out,
    )?;
    write_children(alloc, options, kept, node.children.as_slice(), out)?;
    write_mark(alloc, b"END:", &node.name, out)
}

/// Writes the instance that a row is, where it overlaps the range.
fn write_row(
    alloc: Global,
    zones: &[LocalTimes<'_>],
    expansion: &Expansion<'_>,
    around: Option<&Kept>,
    row: &Row,
    out: &mut Octets,
) -> Result<(), NoMemory>
    requires zones { expansion.now.object.now.zones ≡ tables_of zones.now }
    requires zone { IsTable expansion.now.zone.now }
    requires recurring { expansion.now.recurring ≡ spec.is_recurring expansion.now.object.now }
    requires components { All (HasConvertibleRow (length zones.now)) expansion.now.object.now.components }
    requires row { IsShownRow row.now }
    requires tree { (levels : ℕ) × ArePrintable levels (component.children_of expansion.now.object.now.tree) }
    ensures { OnOk result ((levels : ℕ) (picks : List Pick) → ArePrintable levels (component.children_of expansion.now.object.now.tree) → IsKept (suc levels) around.entry picks → out.new ≡ out.old ++ flat_map (node_text picks expansion.now.busy) (instances_in expansion.now (row.now ∷ []))) }
{
    let Some(component) = expansion.object.components.get(row.component as usize) else {
        return Ok(());
    };
    if !row_overlaps(component, row, expansion.range, expansion.zone) {
        return Ok(());
    }
    match expansion.object.tree.children.get(component.child as usize) {
        Some(node) => write_instance(alloc, zones, expansion, around, component, node, row, out),
        None => Ok(()),
    }
}

/// Writes the instances that overlap the range, in the order of their rows.
fn write_rows(
    alloc: Global,
    zones: &[LocalTimes<'_>],
    expansion: &Expansion<'_>,
    around: Option<&Kept>,
    rows: &[Row],
    out: &mut Octets,
) -> Result<(), NoMemory>
    requires zones { expansion.now.object.now.zones ≡ tables_of zones.now }
    requires zone { IsTable expansion.now.zone.now }
    requires recurring { expansion.now.recurring ≡ spec.is_recurring expansion.now.object.now }
    requires components { All (HasConvertibleRow (length zones.now)) expansion.now.object.now.components }
    requires rows { All IsShownRow rows.now }
    requires tree { (levels : ℕ) × ArePrintable levels (component.children_of expansion.now.object.now.tree) }
    ensures { OnOk result ((levels : ℕ) (picks : List Pick) → ArePrintable levels (component.children_of expansion.now.object.now.tree) → IsKept (suc levels) around.entry picks → out.new ≡ out.old ++ flat_map (node_text picks expansion.now.busy) (instances_in expansion.now rows.now)) }
{
    let mut rest = rows;
    'rows: while let Some((row, behind)) = rest.split_first() {
        write_row(alloc, zones, expansion, around, row, out)?;
        rest = behind;
    }
    Ok(())
}

/// Writes the components that are of none of the four kinds.
fn write_others(
    alloc: Global,
    options: Options,
    around: Option<&Kept>,
    nodes: &[Node],
    out: &mut Octets,
) -> Result<(), NoMemory>
    requires plain { options.plain ≡ true }
    requires nodes { (levels : ℕ) × ArePrintable levels nodes.now }
    ensures { OnOk result ((levels : ℕ) (picks : List Pick) → ArePrintable levels nodes.now → IsKept (suc levels) around.entry picks → out.new ≡ out.old ++ flat_map (node_text picks options.busy) (spec.other_components nodes.now)) }
{
    let mut rest = nodes;
    'others: while let Some((node, behind)) = rest.split_first() {
        if !is_of_four_kinds(node) {
            write_child(alloc, options, around, node, out)?;
        }
        rest = behind;
    }
    Ok(())
}

/// The place of the first component of the four kinds; how many components there are where there is
/// none.
fn first_place(nodes: &[Node]) -> usize
    ensures value { result ≡ position_or_len spec.is_of_four_kinds nodes.now }
    ensures within { result ≤ length nodes.now }
{
    let mut place = 0;
    let mut rest = nodes;
    'nodes: while let Some((node, behind)) = rest.split_first() {
        if is_of_four_kinds(node) {
            return place;
        }
        place += 1;
        rest = behind;
    }
    place
}

/// Writes an object as its instances that overlap a range.
pub fn write_expanded(
    alloc: Global,
    zones: &[LocalTimes<'_>],
    expansion: &Expansion<'_>,
    kept: Option<&Kept>,
    rows: &[Row],
    out: &mut Octets,
) -> Result<(), NoMemory>
    requires zones { expansion.now.object.now.zones ≡ tables_of zones.now }
    requires zone { IsTable expansion.now.zone.now }
    requires recurring { expansion.now.recurring ≡ spec.is_recurring expansion.now.object.now }
    requires components { All (HasConvertibleRow (length zones.now)) expansion.now.object.now.components }
    requires rows { All IsShownRow rows.now }
    requires tree { (levels : ℕ) × IsPrintable levels expansion.now.object.now.tree }
    ensures { OnOk result ((levels : ℕ) (picks : List Pick) → IsPrintable (suc levels) expansion.now.object.now.tree → IsKept (suc levels) kept.entry picks → out.new ≡ out.old ++ body_text picks expansion.now.busy (component.name_of expansion.now.object.now.tree) (spec.plain_lines (component.lines_of expansion.now.object.now.tree)) (spec.expanded_children (instances_in expansion.now rows.now) (component.children_of expansion.now.object.now.tree))) }
{
    let tree = &expansion.object.tree;
    let options = Options {
        plain: true,
        busy: expansion.busy,
    };
    let nodes = tree.children.as_slice();
    let place = first_place(nodes);
    write_mark(alloc, b"BEGIN:", &tree.name, out)?;
    write_lines(alloc, options, kept, tree.lines.as_slice(), out)?;
    write_others(alloc, options, kept, &nodes[..place], out)?;
    write_rows(alloc, zones, expansion, kept, rows, out)?;
    write_others(alloc, options, kept, &nodes[place..], out)?;
    write_mark(alloc, b"END:", &tree.name, out)
}
