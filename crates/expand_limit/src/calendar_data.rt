//! The calendar data that is shown of an object (RFC 4791, 9.6).
ghost use Rattle.std.specs.Prelude.{◌≡◌, ℕ, ◌<◌, ◌^◌, suc, List, ◌∷◌, ◌++◌, [], All, Bool, filter, length, OnOk, IfOk, Ok};
ghost use Rattle.cal_base.specs.Lines.ComponentTrees.{printed};
ghost use Rattle.cal_model.specs.declared.row.Row.{Row as RowSpec};
ghost use Rattle.cal_model.specs.declared.selection.CompPick.{CompPick as Pick};
ghost use Rattle.cal_model.specs.Instances.Rows.{rows as rows_of};
ghost use Rattle.cal_model.specs.Objects.ComponentLines as component;
ghost use Rattle.cal_model.specs.Objects.ObjectFacts.{IsRead};
ghost use Rattle.cal_model.specs.Objects.ObjectReading.{read_object};
ghost use Rattle.cal_model.specs.Selections.EnoughRows.{AreEnoughToShow};
ghost use Rattle.cal_model.specs.Selections.Expansion as expansion;
ghost use Rattle.cal_model.specs.Selections.LimitedSets as limits;
ghost use Rattle.cal_model.specs.Selections.Picks.{picked, picked_text, text_by};
ghost use Rattle.cal_model.specs.Selections.ShownData as spec;
ghost use Rattle.cal_model.specs.TimeZones.TableBounds.{IsTable};
ghost use Rattle.expand_limit.specs.InstanceLines.{IsShownRow};
ghost use Rattle.expand_limit.specs.KeptParts.{IsKept};
ghost use Rattle.expand_limit.specs.ShownTexts.{body_text};
ghost use Rattle.ical_objects.specs.Printing.{IsPrintable};

use crate::expand::{Expansion, is_recurring, write_expanded};
use crate::kept::Kept;
use crate::left::write_limited;
use crate::limit::Limit;
use crate::lines::{Options, write_lines};
use crate::picks::kept_by;
use crate::tree::{write_children, write_mark};
use cal_base::{List, NoMemory, Node, Octets};
use cal_model::{CompPick, Object, Range, Recur, Row, Selection, ZoneTable, local_times_of};
use std::alloc::Global;

/// Whether a selection shows the stored octets as they are: it has no `comp`, no range of periods and
/// no range of instances. A caller may then lend the octets and copy nothing.
pub fn takes_all(select: &Selection) -> bool
    ensures { result ≡ spec.takes_all select.now }
{
    select.comp.is_none() && select.busy.is_none() && matches!(select.recur, Recur::Whole)
}

/// Writes an object with all its components.
fn write_whole(
    alloc: Global,
    busy: Option<Range>,
    kept: Option<&Kept>,
    tree: &Node,
    out: &mut Octets,
) -> Result<(), NoMemory>
    requires { (levels : ℕ) × IsPrintable levels tree.now }
    ensures { OnOk result ((levels : ℕ) (picks : List Pick) → IsPrintable (suc levels) tree.now → IsKept (suc levels) kept.entry picks → out.new ≡ out.old ++ body_text picks busy (component.name_of tree.now) (component.lines_of tree.now) (component.children_of tree.now)) }
{
    let options = Options { plain: false, busy };
    write_mark(alloc, b"BEGIN:", &tree.name, out)?;
    write_lines(alloc, options, kept, tree.lines.as_slice(), out)?;
    write_children(alloc, options, kept, tree.children.as_slice(), out)?;
    write_mark(alloc, b"END:", &tree.name, out)
}

/// Writes an object as its instances that overlap a range.
fn write_instances(
    alloc: Global,
    object: &Object,
    rows: &[Row],
    zone: &ZoneTable,
    range: Range,
    busy: Option<Range>,
    kept: Option<&Kept>,
    out: &mut Octets,
) -> Result<(), NoMemory>
    requires read { IsRead object.now }
    requires few { length object.now.components < 2 ^ 32 }
    requires zone { IsTable zone.now }
    requires rows { All IsShownRow rows.now }
    requires tree { IsPrintable 4 object.now.tree }
    ensures { OnOk result ((levels : ℕ) (picks : List Pick) → IsPrintable (suc levels) object.now.tree → IsKept (suc levels) kept.entry picks → out.new ≡ out.old ++ printed ((picked (spec.busy_shown busy (expansion.expanded object.now rows.now zone.now range))).kept picks)) }
{
    let zones = local_times_of(alloc, object.zones.as_slice())?;
    let expansion = Expansion {
        object,
        zone,
        range,
        busy,
        recurring: is_recurring(object),
    };
    write_expanded(alloc, zones.as_slice(), &expansion, kept, rows, out)
}

/// Writes an object with those overrides alone that bear on a range.
fn write_limit(
    alloc: Global,
    object: &Object,
    rows: &[Row],
    zone: &ZoneTable,
    range: Range,
    busy: Option<Range>,
    kept: Option<&Kept>,
    out: &mut Octets,
) -> Result<(), NoMemory>
    requires read { IsRead object.now }
    requires few { length object.now.components < 2 ^ 32 }
    requires zone { IsTable zone.now }
    requires rows { All IsShownRow rows.now }
    requires tree { IsPrintable 4 object.now.tree }
    ensures { OnOk result ((levels : ℕ) (picks : List Pick) → IsPrintable (suc levels) object.now.tree → IsKept (suc levels) kept.entry picks → out.new ≡ out.old ++ printed ((picked (spec.busy_shown busy (limits.limited object.now rows.now zone.now range))).kept picks)) }
{
    let zones = local_times_of(alloc, object.zones.as_slice())?;
    let limit = Limit {
        object,
        zone,
        range,
    };
    write_limited(alloc, zones.as_slice(), &limit, busy, kept, rows, out)
}

/// Writes what the options and picks leave of an object.
fn write_tree(
    alloc: Global,
    object: &Object,
    rows: &[Row],
    select: &Selection,
    zone: &ZoneTable,
    kept: Option<&Kept>,
    out: &mut Octets,
) -> Result<(), NoMemory>
    requires read { IsRead object.now }
    requires few { length object.now.components < 2 ^ 32 }
    requires zone { IsTable zone.now }
    requires rows { All IsShownRow rows.now }
    requires tree { IsPrintable 4 object.now.tree }
    ensures { OnOk result ((levels : ℕ) (picks : List Pick) → IsPrintable (suc levels) object.now.tree → IsKept (suc levels) kept.entry picks → out.new ≡ out.old ++ printed ((picked (spec.shown_tree object.now rows.now select.now zone.now)).kept picks)) }
{
    match select.recur {
        Recur::Whole => write_whole(alloc, select.busy, kept, &object.tree, out),
        Recur::Expand(range) => {
            write_instances(alloc, object, rows, zone, range, select.busy, kept, out)
        }
        Recur::Limit(range) => {
            write_limit(alloc, object, rows, zone, range, select.busy, kept, out)
        }
    }
}

/// The text of what the options and picks leave of an object, in room for so many octets at first.
fn tree_text(
    alloc: Global,
    size: usize,
    object: &Object,
    rows: &[Row],
    select: &Selection,
    zone: &ZoneTable,
    kept: Option<&Kept>,
) -> Result<Octets, NoMemory>
    requires read { IsRead object.now }
    requires few { length object.now.components < 2 ^ 32 }
    requires zone { IsTable zone.now }
    requires rows { All IsShownRow rows.now }
    requires tree { IsPrintable 4 object.now.tree }
    ensures { IfOk result (λ text. (levels : ℕ) (picks : List Pick) → IsPrintable (suc levels) object.now.tree → IsKept (suc levels) kept.entry picks → text ≡ printed ((picked (spec.shown_tree object.now rows.now select.now zone.now)).kept picks)) }
{
    let mut out = Octets::new(alloc);
    out.reserve(size)?;
    write_tree(alloc, object, rows, select, zone, kept, &mut out)?;
    Ok(out)
}

/// The text of what one pick keeps of what the options leave of an object.
fn picked_tree(
    alloc: Global,
    size: usize,
    object: &Object,
    rows: &[Row],
    select: &Selection,
    zone: &ZoneTable,
    pick: &CompPick,
) -> Result<Octets, NoMemory>
    requires read { IsRead object.now }
    requires few { length object.now.components < 2 ^ 32 }
    requires zone { IsTable zone.now }
    requires rows { All IsShownRow rows.now }
    requires tree { IsPrintable 4 object.now.tree }
    ensures { IfOk result (λ text. text ≡ text_by pick.now (spec.shown_tree object.now rows.now select.now zone.now)) }
{
    if pick.name.as_slice() != object.tree.name.as_slice() {
        return Ok(Octets::new(alloc));
    }
    let kept = kept_by(alloc, 4, &[pick])?;
    tree_text(alloc, size, object, rows, select, zone, Some(&kept))
}

/// The octets that are shown of an object over some rows.
fn shown_over(
    alloc: Global,
    octets: &[u8],
    object: &Object,
    rows: &[Row],
    select: &Selection,
    zone: &ZoneTable,
) -> Result<Octets, NoMemory>
    requires read { read_object octets.now ≡ Ok object.now }
    requires few { length object.now.components < 2 ^ 32 }
    requires zone { IsTable zone.now }
    requires rows { All IsShownRow rows.now }
    ensures { IfOk result (λ text. text ≡ spec.shown octets.now object.now rows.now select.now zone.now) }
{
    if takes_all(select) {
        return Octets::of(alloc, octets);
    }
    let size = octets.len();
    match &select.comp {
        None => tree_text(alloc, size, object, rows, select, zone, None),
        Some(pick) => picked_tree(alloc, size, object, rows, select, zone, pick),
    }
}

/// The octets that are shown of an object (RFC 4791, 9.6): the stored ones where nothing is selected,
/// else the text of what the options, and then the picks, leave of its tree.
///
/// The rows are of this object, in their order. They are enough where all that overlap the range of
/// `expand` or `limit-recurrence-set` are among them, and for the latter each dated row of an override;
/// dates and floating times are read in the zone.
pub fn shown(
    alloc: Global,
    octets: &[u8],
    object: &Object,
    rows: &List<Row>,
    select: &Selection,
    zone: &ZoneTable,
) -> Result<Octets, NoMemory>
    requires read { read_object octets.now ≡ Ok object.now }
    requires few { length object.now.components < 2 ^ 32 }
    requires zone { IsTable zone.now }
    requires rows { All IsShownRow rows.now }
    ensures given { IfOk result (λ text. text ≡ spec.shown octets.now object.now rows.now select.now zone.now) }
    ensures whole { IfOk result (λ text. (keep : RowSpec → Bool) → rows.now ≡ filter keep (rows_of object.now) → AreEnoughToShow object.now zone.now keep (rows_of object.now) select.now.recur → text ≡ spec.shown_of_object octets.now object.now select.now zone.now) }
{
    shown_over(alloc, octets, object, rows.as_slice(), select, zone)
}
