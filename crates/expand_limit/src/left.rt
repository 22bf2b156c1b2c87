//! Which overrides go, and the object without them (RFC 4791, 9.6.6).
ghost use Rattle.std.specs.Prelude.{◌≡◌, ℕ, ◌<◌, ◌≤◌, ◌^◌, ◌||◌, ◌==◌, suc, List, ◌∷◌, ◌++◌, [], All, length, flat_map, option_to_list, get_or, MatchOption, Some, OnOk, IfOk, false, if◌then◌else◌};
ghost use Rattle.std.specs.List.{list_any};
ghost use Rattle.cal_moment.specs.Calendar.{IsCalendarMoment};
ghost use Rattle.cal_model.specs.declared.selection.CompPick.{CompPick as Pick};
ghost use Rattle.cal_model.specs.Instances.Rows as rows;
ghost use Rattle.cal_model.specs.Objects.ComponentLines as component;
ghost use Rattle.cal_model.specs.Objects.ObjectFacts.{IsRead, IsReadComponent, IsServed};
ghost use Rattle.cal_base.specs.Lines.ComponentTrees.{printed};
ghost use Rattle.cal_model.specs.Selections.LimitedSets as spec;
ghost use Rattle.cal_model.specs.Selections.Picks.{picked};
ghost use Rattle.cal_model.specs.Selections.ShownData.{busy_shown};
ghost use Rattle.cal_model.specs.TimeZones.TableBounds.{IsTable};
ghost use Rattle.expand_limit.specs.InstanceLines.{IsShownRow};
ghost use Rattle.expand_limit.specs.KeptParts.{IsKept};
ghost use Rattle.expand_limit.specs.SeenRows as seen_rows;
ghost use Rattle.expand_limit.specs.ShownTexts.{body_text, node_text};
ghost use Rattle.ical_objects.specs.Printing.{IsPrintable, ArePrintable};
ghost use Rattle.override_merge.specs.Conversions.{tables_of, HasConvertibleRow, IsConvertible};

use crate::kept::Kept;
use crate::limit::{Limit, Seen, id_of, instance_meets, nothing_seen, seen_of_rows};
use crate::lines::{Options, write_lines};
use crate::tree::{write_child, write_mark};
use cal_base::{List, NoMemory, Node, Octets};
use cal_model::{Component, LocalTimes, Object, Range, Row};
use cal_moment::Stamp;
use override_merge::starts::ids_start;
use std::alloc::Global;

/// The component that is no override, and its number, if there is one.
fn master_of(components: &[Component]) -> Option<(&Component, u32)>
    requires { length components.now < 2 ^ 32 }
    ensures { MatchOption result (seen_rows.masters_from 0 components.now ≡ []) (λ found. (rest : List rows.Numbered) × (seen_rows.masters_from 0 components.now ≡ record { number = found.1; component = found.0.now } ∷ rest)) }
{
    let mut rest = components;
    let mut number = 0u32;
    'masters: while let Some((component, behind)) = rest.split_first() {
        if component.recurrence_id.is_none() {
            return Some((component, number));
        }
        if !behind.is_empty() {
            number += 1;
        }
        rest = behind;
    }
    None
}

/// The number of the component that is no override, if there is one.
fn master_number(object: &Object) -> Option<u32>
    requires { length object.now.components < 2 ^ 32 }
    ensures { seen_rows.IsMaster object.now result }
{
    match master_of(object.components.as_slice()) {
        None => None,
        Some(found) => Some(found.1),
    }
}

/// Whether the instance of the master that an override stands for overlaps the range.
fn master_meets(
    zones: &[LocalTimes<'_>],
    limit: &Limit<'_>,
    ids: Stamp,
    number: u32,
    name: Stamp,
    seen: Option<i64>,
) -> bool
    requires zones { limit.now.object.now.zones ≡ tables_of zones.now }
    requires zone { IsTable limit.now.zone.now }
    requires read { IsRead limit.now.object.now }
    requires few { length limit.now.object.now.components < 2 ^ 32 }
    requires ids { IsConvertible (length zones.now) ids }
    requires master { seen_rows.IsMaster limit.now.object.now (Some number) }
    requires name { IsConvertible (length zones.now) name }
    requires served { IsServed name }
    requires seen { All IsCalendarMoment (option_to_list seen) }
    ensures { result ≡ list_any (seen_rows.meets limit.now) (seen_rows.originals limit.now (Some ids) name seen) }
{
    match limit.object.components.get(number as usize) {
        None => false,
        Some(master) => {
            let id = id_of(zones, ids, name, seen);
            instance_meets(zones, limit, ids, id, master, number)
        }
    }
}

/// Whether the original instance of an override overlaps the range: the master's at the id of the
/// override. Without a master there is none.
fn original_meets(
    zones: &[LocalTimes<'_>],
    limit: &Limit<'_>,
    ids: Option<Stamp>,
    master: Option<u32>,
    name: Stamp,
    seen: Option<i64>,
) -> bool
    requires zones { limit.now.object.now.zones ≡ tables_of zones.now }
    requires zone { IsTable limit.now.zone.now }
    requires read { IsRead limit.now.object.now }
    requires few { length limit.now.object.now.components < 2 ^ 32 }
    requires ids { All (IsConvertible (length zones.now)) (option_to_list ids) }
    requires master { seen_rows.IsMaster limit.now.object.now master }
    requires name { IsConvertible (length zones.now) name }
    requires served { IsServed name }
    requires seen { All IsCalendarMoment (option_to_list seen) }
    ensures { result ≡ list_any (seen_rows.meets limit.now) (seen_rows.originals limit.now ids name seen) }
{
    let Some(ids) = ids else {
        return false;
    };
    match master {
        None => false,
        Some(number) => master_meets(zones, limit, ids, number, name, seen),
    }
}

/// Whether an override goes: neither its rows nor its original instance overlap the range.
fn goes(
    zones: &[LocalTimes<'_>],
    limit: &Limit<'_>,
    ids: Option<Stamp>,
    master: Option<u32>,
    name: Stamp,
    seen: Seen,
) -> bool
    requires zones { limit.now.object.now.zones ≡ tables_of zones.now }
    requires zone { IsTable limit.now.zone.now }
    requires read { IsRead limit.now.object.now }
    requires few { length limit.now.object.now.components < 2 ^ 32 }
    requires ids { All (IsConvertible (length zones.now)) (option_to_list ids) }
    requires master { seen_rows.IsMaster limit.now.object.now master }
    requires name { IsConvertible (length zones.now) name }
    requires served { IsServed name }
    requires seen { All IsCalendarMoment (option_to_list seen.id) }
    ensures { result ≡ seen_rows.goes limit.now ids name seen }
{
    !(seen.meets || original_meets(zones, limit, ids, master, name, seen.id))
}

/// Marks a place.
fn mark(gone: &mut [bool], place: usize)
    ensures size { length gone.new ≡ length gone.old }
    ensures marked { (k : ℕ) → k < length gone.old → get_or gone.new k false ≡ (get_or gone.old k false || (place == k)) }
{
    if place < gone.len() {
        gone[place] = true;
    }
}

/// Marks the place of a component, if it is an override that goes.
fn mark_left(
    zones: &[LocalTimes<'_>],
    limit: &Limit<'_>,
    ids: Option<Stamp>,
    master: Option<u32>,
    component: &Component,
    seen: Seen,
    gone: &mut [bool],
)
    requires zones { limit.now.object.now.zones ≡ tables_of zones.now }
    requires zone { IsTable limit.now.zone.now }
    requires read { IsRead limit.now.object.now }
    requires few { length limit.now.object.now.components < 2 ^ 32 }
    requires ids { All (IsConvertible (length zones.now)) (option_to_list ids) }
    requires master { seen_rows.IsMaster limit.now.object.now master }
    requires component { IsReadComponent limit.now.object.now component.now }
    requires row { HasConvertibleRow (length zones.now) component.now }
    requires seen { All IsCalendarMoment (option_to_list seen.id) }
    ensures size { length gone.new ≡ length gone.old }
    ensures marked { (k : ℕ) → k < length gone.old → get_or gone.new k false ≡ (get_or gone.old k false || seen_rows.is_place k (seen_rows.left_at limit.now ids seen component.now)) }
{
    let Some(name) = component.recurrence_id else {
        return;
    };
    if goes(zones, limit, ids, master, name, seen) {
        mark(gone, component.child as usize);
    }
}

/// Marks the places of the overrides that go.
fn mark_all_left(
    zones: &[LocalTimes<'_>],
    limit: &Limit<'_>,
    ids: Option<Stamp>,
    master: Option<u32>,
    seen: &[Seen],
    gone: &mut [bool],
)
    requires zones { limit.now.object.now.zones ≡ tables_of zones.now }
    requires zone { IsTable limit.now.zone.now }
    requires read { IsRead limit.now.object.now }
    requires few { length limit.now.object.now.components < 2 ^ 32 }
    requires ids { All (IsConvertible (length zones.now)) (option_to_list ids) }
    requires master { seen_rows.IsMaster limit.now.object.now master }
    requires rows { All (HasConvertibleRow (length zones.now)) limit.now.object.now.components }
    requires size { length seen.now ≡ length limit.now.object.now.components }
    requires seen { (k : ℕ) → k < length seen.now → All IsCalendarMoment (option_to_list (get_or seen.now k seen_rows.nothing_seen).id) }
    ensures size { length gone.new ≡ length gone.old }
    ensures marked { (k : ℕ) → k < length gone.old → get_or gone.new k false ≡ (get_or gone.old k false || seen_rows.is_place k (seen_rows.left_from limit.now ids seen.now 0 limit.now.object.now.components)) }
{
    let mut rest = limit.object.components.as_slice();
    let mut number = 0usize;
    'components: while let Some((component, behind)) = rest.split_first() {
        mark_left(zones, limit, ids, master, component, seen[number], gone);
        number += 1;
        rest = behind;
    }
}

/// Whether a place is marked.
fn is_gone(gone: &[bool], place: usize) -> bool
    ensures { result ≡ get_or gone.now place false }
{
    if place < gone.len() {
        gone[place]
    } else {
        false
    }
}

/// Writes a component, if its place is not marked.
fn write_stay(
    alloc: Global,
    options: Options,
    around: Option<&Kept>,
    goes: bool,
    node: &Node,
    out: &mut Octets,
) -> Result<(), NoMemory>
    requires whole { options.plain ≡ false }
    requires node { (levels : ℕ) × IsPrintable levels node.now }
    ensures { OnOk result ((levels : ℕ) (picks : List Pick) → IsPrintable levels node.now → IsKept (suc levels) around.entry picks → out.new ≡ out.old ++ flat_map (node_text picks options.busy) (if goes then [] else node.now ∷ [])) }
{
    if goes {
        return Ok(());
    }
    write_child(alloc, options, around, node, out)
}

/// Writes the components whose places are not marked.
fn write_left(
    alloc: Global,
    options: Options,
    around: Option<&Kept>,
    gone: &[bool],
    nodes: &[Node],
    out: &mut Octets,
) -> Result<(), NoMemory>
    requires whole { options.plain ≡ false }
    requires nodes { (levels : ℕ) × ArePrintable levels nodes.now }
    ensures { OnOk result ((levels : ℕ) (picks : List Pick) → ArePrintable levels nodes.now → IsKept (suc levels) around.entry picks → out.new ≡ out.old ++ flat_map (node_text picks options.busy) (seen_rows.left_nodes gone.now 0 nodes.now)) }
{
    let mut rest = nodes;
    let mut place = 0usize;
    'nodes: while let Some((node, behind)) = rest.split_first() {
        write_stay(alloc, options, around, is_gone(gone, place), node, out)?;
        place += 1;
        rest = behind;
    }
    Ok(())
}

/// Writes an object without the components at the places that are marked.
fn write_without(
    alloc: Global,
    busy: Option<Range>,
    kept: Option<&Kept>,
    gone: &[bool],
    tree: &Node,
    out: &mut Octets,
) -> Result<(), NoMemory>
    requires { (levels : ℕ) × IsPrintable levels tree.now }
    ensures { OnOk result ((levels : ℕ) (picks : List Pick) → IsPrintable (suc levels) tree.now → IsKept (suc levels) kept.entry picks → out.new ≡ out.old ++ body_text picks busy (component.name_of tree.now) (component.lines_of tree.now) (seen_rows.left_nodes gone.now 0 (component.children_of tree.now))) }
{
    let options = Options { plain: false, busy };
    write_mark(alloc, b"BEGIN:", &tree.name, out)?;
    write_lines(alloc, options, kept, tree.lines.as_slice(), out)?;
    write_left(alloc, options, kept, gone, tree.children.as_slice(), out)?;
    write_mark(alloc, b"END:", &tree.name, out)
}

/// No place marked yet of so many.
fn nothing_gone(alloc: Global, size: usize) -> Result<Vec<bool>, NoMemory>
    ensures size { IfOk result (λ gone. length gone.items ≡ size) }
    ensures gone { IfOk result (λ gone. (k : ℕ) → get_or gone.items k false ≡ false) }
{
    match vec![in alloc; false; size] {
        Ok(gone) => Ok(gone),
        Err(_) => Err(NoMemory),
    }
}

/// What the rows say of each component, in one pass over them.
fn seen_in(alloc: Global, limit: &Limit<'_>, rows: &[Row]) -> Result<Vec<Seen>, NoMemory>
    requires zone { IsTable limit.now.zone.now }
    requires rows { All IsShownRow rows.now }
    ensures size { IfOk result (λ seen. length seen.items ≡ length limit.now.object.now.components) }
    ensures seen { IfOk result (λ seen. (number : ℕ) → number < length limit.now.object.now.components → get_or seen.items number seen_rows.nothing_seen ≡ seen_rows.seen_by limit.now rows.now number) }
{
    let mut seen = nothing_seen(alloc, limit.object.components.len())?;
    seen_of_rows(limit, rows, seen.as_mut_slice());
    Ok(seen)
}

/// The places of the overrides that go, marked among those of all components.
fn places_left(
    alloc: Global,
    zones: &[LocalTimes<'_>],
    limit: &Limit<'_>,
    rows: &[Row],
) -> Result<Vec<bool>, NoMemory>
    requires zones { limit.now.object.now.zones ≡ tables_of zones.now }
    requires zone { IsTable limit.now.zone.now }
    requires read { IsRead limit.now.object.now }
    requires few { length limit.now.object.now.components < 2 ^ 32 }
    requires rows { All IsShownRow rows.now }
    ensures { IfOk result (λ gone. (k : ℕ) → k < length (component.children_of limit.now.object.now.tree) → get_or gone.items k false ≡ seen_rows.is_place k (spec.left_out limit.now.object.now rows.now limit.now.zone.now limit.now.range)) }
{
    let seen = seen_in(alloc, limit, rows)?;
    let mut gone = nothing_gone(alloc, limit.object.tree.children.len())?;
    mark_all_left(
        zones,
        limit,
        ids_start(limit.object),
        master_number(limit.object),
        seen.as_slice(),
        gone.as_mut_slice(),
    );
    Ok(gone)
}

/// Writes an object with those overrides alone that bear on the range.
pub fn write_limited(
    alloc: Global,
    zones: &[LocalTimes<'_>],
    limit: &Limit<'_>,
    busy: Option<Range>,
    kept: Option<&Kept>,
    rows: &[Row],
    out: &mut Octets,
) -> Result<(), NoMemory>
    requires zones { limit.now.object.now.zones ≡ tables_of zones.now }
    requires zone { IsTable limit.now.zone.now }
    requires read { IsRead limit.now.object.now }
    requires few { length limit.now.object.now.components < 2 ^ 32 }
    requires rows { All IsShownRow rows.now }
    requires tree { (levels : ℕ) × IsPrintable levels limit.now.object.now.tree }
    ensures { OnOk result ((levels : ℕ) (picks : List Pick) → IsPrintable (suc levels) limit.now.object.now.tree → IsKept (suc levels) kept.entry picks → out.new ≡ out.old ++ printed ((picked (busy_shown busy (spec.limited limit.now.object.now rows.now limit.now.zone.now limit.now.range))).kept picks)) }
{
    let gone = places_left(alloc, zones, limit, rows)?;
    write_without(alloc, busy, kept, gone.as_slice(), &limit.object.tree, out)
}
