//! The rows of a window.
ghost use Rattle.std.specs.Prelude.{◌≡◌, ℕ, ◌+◌, ◌≤◌, ◌<◌, ◌^◌, ◌∷◌, List, [], length, false, Some, All, IfOk, MatchOption, flat_map};
ghost use Rattle.cal_model.specs.Instances.Rows as spec;
ghost use Rattle.cal_model.specs.Objects.ObjectFacts.{IsRead};
ghost use Rattle.cal_model.specs.Ranges.Cost.{cost};
ghost use Rattle.override_merge.specs.Conversions.{tables_of};
ghost use Rattle.override_merge.specs.ExpandableComponents.{IsExpandable};
ghost use Rattle.rrule_sets.specs.ExpandableObjects.{HasRowsToFind};
ghost use Rattle.rrule_sets.specs.MasterRows.{governed_rows, masters_cost, masters_from, rows_of_master};
ghost use Rattle.rrule_sets.specs.NeededDigits.{EndsBy};

use crate::governors::moved_rows;
use crate::instances::instances;
use crate::needed::needed;
use crate::once::{only_row, row_in_windows};
use crate::range::{Digits, window_digits};
use cal_base::{List, NoMemory, Steps};
use cal_model::{Component, LocalTimes, Object, Row, Rules, local_times_of};
use cal_moment::Stamp;
use override_merge::rows::Part;
use override_merge::starts::{ids_start, own_start};
use override_merge::{has_overrides, merged_rows};
use rrule_step::PeriodStep;
use std::alloc::Global;
use std::sync::ledger::Ledger;

/// The first component that is no override, and its number, if there is one.
pub fn master_of(components: &[Component]) -> Option<(&Component, u32)>
    requires { length components.now < 2 ^ 32 }
    ensures { MatchOption result (masters_from 0 components.now ≡ []) (λ found. (rest : List spec.Numbered) × (masters_from 0 components.now ≡ record { number = found.1; component = found.0.now } ∷ rest)) }
{
    let mut rest = components;
    let mut number = 0u32;
    'masters: while let Some((component, behind)) = rest.split_first() {
        if component.recurrence_id.is_none() {
            return Some((component, number));
        }
        if !behind.is_empty() {
            number += 1;
        }
        rest = behind;
    }
    None
}

/// The rows of the master that start in a range.
pub fn master_rows<R: Rules, L: Ledger>(
    alloc: Global,
    body: &R,
    zones: &[LocalTimes<'_>],
    components: &[Component],
    range: Digits,
    steps: &mut Steps<L>,
) -> Result<List<Row>, NoMemory>
    requires components { All (IsExpandable (length zones.now)) components.now }
    requires few { length components.now < 2 ^ 32 }
    requires one { length (masters_from 0 components.now) ≤ 1 }
    ensures steps { (day : ℕ) → EndsBy range day → steps.new ≤ steps.old + masters_cost day (masters_from 0 components.now) }
    ensures rows { IfOk result (λ rows. rows ≡ flat_map (rows_of_master (tables_of zones.now) range) (masters_from 0 components.now)) }
{
    let Some((component, number)) = master_of(components) else {
        return Ok(List::new(alloc));
    };
    let Some(stamp) = own_start(component) else {
        return Ok(List::new(alloc));
    };
    instances(alloc, body, zones, stamp, component, number, range, steps)
}

/// The rows of the master that start in a range, with those moved that overrides govern. The range has to
/// hold each local day that an override names which moves later instances.
pub fn governed_rows<L: Ledger>(
    alloc: Global,
    zones: &[LocalTimes<'_>],
    ids: Stamp,
    object: &Object,
    range: Digits,
    steps: &mut Steps<L>,
) -> Result<List<Row>, NoMemory>
    requires object { HasRowsToFind object.now }
    requires zones { tables_of zones.now ≡ object.now.zones }
    requires ids { Some ids ≡ spec.ids_start object.now }
    ensures steps { (day : ℕ) → EndsBy range day → steps.new ≤ steps.old + masters_cost day (masters_from 0 object.now.components) }
    ensures rows { IfOk result (λ rows. rows ≡ governed_rows object.now ids range) }
{
    let components = object.components.as_slice();
    let rows = master_rows(alloc, &PeriodStep, zones, components, range, steps)?;
    moved_rows(alloc, zones, ids, object, rows)
}

/// The rows of a window of an object that may have overrides.
fn rows_with_overrides<L: Ledger>(
    alloc: Global,
    zones: &[LocalTimes<'_>],
    ids: Stamp,
    object: &Object,
    window: i32,
    steps: &mut Steps<L>,
) -> Result<List<Row>, NoMemory>
    requires object { HasRowsToFind object.now }
    requires zones { tables_of zones.now ≡ object.now.zones }
    requires ids { Some ids ≡ spec.ids_start object.now }
    ensures steps { steps.new + 1 ≤ steps.old + cost object.now window }
    ensures rows { IfOk result (λ rows. rows ≡ spec.rows_in object.now window) }
{
    let components = object.components.as_slice();
    let range = needed(zones, ids, components, window, steps);
    let rows = governed_rows(alloc, zones, ids, object, range, steps)?;
    merged_rows(
        alloc,
        zones,
        ids,
        object,
        rows.as_slice(),
        Part::Window(window),
    )
}

/// The rows of a window, where the zones are at hand and the stamp is that beside which the ids of the
/// object are aligned. Without overrides they are the rows of the master in the digits of the window.
pub fn rows_beside<L: Ledger>(
    alloc: Global,
    zones: &[LocalTimes<'_>],
    ids: Stamp,
    object: &Object,
    window: i32,
    steps: &mut Steps<L>,
) -> Result<List<Row>, NoMemory>
    requires object { HasRowsToFind object.now }
    requires zones { tables_of zones.now ≡ object.now.zones }
    requires ids { Some ids ≡ spec.ids_start object.now }
    ensures steps { steps.new + 1 ≤ steps.old + cost object.now window }
    ensures rows { IfOk result (λ rows. rows ≡ spec.rows_in object.now window) }
{
    let components = object.components.as_slice();
    if has_overrides(components) {
        rows_with_overrides(alloc, zones, ids, object, window, steps)
    } else {
        let range = window_digits(window);
        master_rows(alloc, &PeriodStep, zones, components, range, steps)
    }
}

/// The dated rows whose nominal start lies in a window of 64 days, counted from 1970, by id, then
/// component. Takes one step for the call, one for each moment that is taken from a rule, and one for
/// each RDATE and each override: never more than finding the rows of this window may cost.
pub fn window_rows<L: Ledger>(
    alloc: Global,
    object: &Object,
    window: i32,
    steps: &mut Steps<L>,
) -> Result<List<Row>, NoMemory>
    requires read { IsRead object.now }
    requires few { length object.now.components < 2 ^ 32 }
    requires coarse { spec.has_fine_rule object.now ≡ false }
    ensures steps { steps.new ≤ steps.old + cost object.now window }
    ensures rows { IfOk result (λ rows. rows ≡ spec.rows_in object.now window) }
{
    steps.tick();
    if let Some((row, its)) = only_row(object) {
        return row_in_windows(alloc, row, its, &[window]);
    }
    let Some(ids) = ids_start(object) else {
        return Ok(List::new(alloc));
    };
    let zones = local_times_of(alloc, object.zones.as_slice())?;
    rows_beside(alloc, zones.as_slice(), ids, object, window, steps)
}
