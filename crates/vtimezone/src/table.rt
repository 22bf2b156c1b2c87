//! The table of a zone from its parts.
ghost use Rattle.std.specs.Prelude.{◌≡◌, ◌+◌, ◌<◌, ◌≤◌, ◌++◌, ◌∷◌, [], if◌then◌else◌, All, flat_map, fold, map, OnOk, IfOk, IsErrOf, false};
ghost use Rattle.std.specs.List.Sorted.{IsSortedByKey};
ghost use Rattle.std.specs.Ordering.{int_cmp};
ghost use Rattle.cal_model.specs.Words.Integers.{same_int};
ghost use Rattle.cal_model.specs.Words.Lists.{is_empty};
ghost use Rattle.cal_model.specs.Recurrence.RecurrenceSet.{every_moment};
ghost use Rattle.cal_model.specs.TimeZones.TableBounds.{IsPart, IsTable};
ghost use Rattle.cal_model.specs.TimeZones.ZoneOnsets as zone;
ghost use Rattle.vtimezone.specs.Gathered as spec;

use crate::change::Change;
use crate::fault::TableFault;
use crate::gather::add_parts;
use cal_base::{List, NoMemory, Octets, SharedList, Steps};
use cal_model::{Onset, Rules, ZonePart, ZoneTable};
use cal_moment::Utc;
use std::alloc::Global;
use std::marker::Brand;
use std::sync::ledger::{Blank, Ledger};

/// Puts changes in rising order; those of one moment stay as they stood.
fn in_order(changes: List<Change>) -> Result<List<Change>, NoMemory>
    ensures sorted { IfOk result (λ sorted. IsSortedByKey (λ (c : Change). c.at) int_cmp sorted) }
    ensures same { IfOk result (λ sorted. fold zone.put_change [] (spec.changes_of sorted) ≡ fold zone.put_change [] (spec.changes_of changes)) }
{
    let mut items = changes.into_vec();
    match items.sort_by_key(|change| change.at) {
        Ok(()) => Ok(List::from_vec(items)),
        Err(_) => Err(NoMemory),
    }
}

/// Keeps a change, unless the next one stands at its moment.
fn keep(change: Change, next: &Change, kept: &mut List<Change>) -> Result<(), NoMemory>
    ensures { OnOk result (spec.changes_of kept.new ≡ (if same_int next.now.at change.at then spec.changes_of kept.old else spec.changes_of kept.old ++ spec.as_change change ∷ [])) }
{
    if next.at != change.at {
        kept.push(change)?;
    }
    Ok(())
}

/// Of changes in rising order the last at each moment.
fn keep_last(sorted: &[Change], kept: &mut List<Change>) -> Result<(), NoMemory>
    requires sorted { IsSortedByKey (λ (c : Change). c.at) int_cmp sorted.now }
    requires none { kept.old ≡ [] }
    ensures { OnOk result (spec.changes_of kept.new ≡ fold zone.put_change [] (spec.changes_of sorted.now)) }
{
    let Some((first, others)) = sorted.split_first() else {
        return Ok(());
    };
    let mut last = *first;
    let mut rest = others;
    while let Some((next, behind)) = rest.split_first() {
        keep(last, next, kept)?;
        last = *next;
        rest = behind;
    }
    kept.push(last)
}

/// The onset of a change.
fn onset_of(change: &Change) -> Onset
    ensures { result ≡ zone.as_onset (spec.as_change change.now) }
{
    Onset {
        at: Utc(change.at),
        offset: change.to,
    }
}

/// Adds the onsets of changes.
fn add_onsets(changes: &[Change], onsets: &mut List<Onset>) -> Result<(), NoMemory>
    ensures { OnOk result (onsets.new ≡ onsets.old ++ map zone.as_onset (spec.changes_of changes.now)) }
{
    let mut rest = changes;
    while let Some((one, behind)) = rest.split_first() {
        onsets.push(onset_of(one))?;
        rest = behind;
    }
    Ok(())
}

/// The offset before changes in rising order: from which the first goes, or where there is none the
/// first part.
fn offset_before(changes: &[Change], parts: &[ZonePart]) -> i32
    requires parts { is_empty parts.now ≡ false }
    ensures { result ≡ zone.offset_before (spec.changes_of changes.now) parts.now }
{
    match changes.split_first() {
        Some((change, _)) => change.from,
        None => parts[0].from,
    }
}

/// The table of changes that are sorted.
fn table_of(
    alloc: Global,
    name: &[u8],
    parts: &[ZonePart],
    sorted: &[Change],
) -> Result<ZoneTable, NoMemory>
    requires parts { is_empty parts.now ≡ false }
    requires sorted { IsSortedByKey (λ (c : Change). c.at) int_cmp sorted.now }
    requires whole { fold zone.put_change [] (spec.changes_of sorted.now) ≡ zone.changes every_moment parts.now }
    ensures { IfOk result (λ table. table ≡ zone.table_of name.now parts.now) }
{
    let mut kept = List::new(alloc);
    keep_last(sorted, &mut kept)?;
    let mut onsets = List::new(alloc);
    add_onsets(kept.as_slice(), &mut onsets)?;
    let onsets = SharedList::of(alloc, onsets)?;
    let before = offset_before(kept.as_slice(), parts);
    let name = Octets::of(alloc, name)?;
    Ok(ZoneTable {
        name,
        before,
        onsets,
    })
}

/// The changes of all parts, and how much of the limit they leave.
fn gathered<R: Rules, L: Ledger>(
    alloc: Global,
    parts: &[ZonePart],
    limit: u32,
    rules: &R,
    blank: Blank,
) -> Result<(List<Change>, u32), TableFault>
    requires name { L.name ≡ blank.name }
    requires parts_of_blank { L.parts ≡ blank.parts }
    requires some { 0 < blank.parts }
    requires parts { All IsPart parts.now }
    ensures changes { IfOk result (λ made. spec.changes_of made.0 ≡ flat_map (zone.part_changes every_moment) parts.now) }
    ensures room { IfOk result (λ made. made.1 + zone.table_count parts.now ≡ limit) }
    ensures many { IsErrOf result TableFault.TooMany → limit < zone.table_count parts.now }
{
    let mut steps = Steps::<L>::open(blank);
    let mut room = limit;
    let mut changes = List::new(alloc);
    add_parts(alloc, rules, parts, &mut room, &mut changes, &mut steps)?;
    Ok((changes, room))
}

/// The table of a zone from its parts, and their count: each part one, each of its dates one, and
/// each moment of each rule's set, in which the part's start stands once more. `TooMany` comes
/// exactly where the count is above `limit`, and the rest is then not made. Each rule's moments are
/// taken once, as far as its UNTIL, and all changes are sorted once.
pub fn make_table<R: Rules>(
    alloc: Global,
    name: &[u8],
    parts: &List<ZonePart>,
    limit: u32,
    rules: &R,
) -> Result<(ZoneTable, u32), TableFault>
    requires some { is_empty parts.now ≡ false }
    requires parts { All IsPart parts.now }
    ensures table { IfOk result (λ made. made.0 ≡ zone.table_of name.now parts.now) }
    ensures convertible { IfOk result (λ made. IsTable made.0) }
    ensures count { IfOk result (λ made. made.1 ≡ zone.table_count parts.now) }
    ensures few { IfOk result (λ made. made.1 ≤ limit) }
    ensures many { IsErrOf result TableFault.TooMany → limit < zone.table_count parts.now }
{
    let parts = parts.as_slice();
    let (changes, room) = gathered::<R, Brand>(alloc, parts, limit, rules, Blank::new(1))?;
    let sorted = in_order(changes)?;
    let table = table_of(alloc, name, parts, sorted.as_slice())?;
    Ok((table, limit - room))
}
