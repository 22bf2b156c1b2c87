//! The rows of an object among which are all that overlap a range.
ghost use Rattle.std.specs.Prelude.{◌≡◌, ◌+◌, ◌≤◌, IfOk};
ghost use Rattle.ics_tool.specs.NearRows as spec;
ghost use Rattle.ics_tool.specs.NearRows.{IsListable};

use cal_base::{List, NoMemory, Steps};
use cal_model::{Object, Range, Row, local_times_of};
use needed_windows::windows_needed;
use override_merge::order::put_in_order;
use rrule_sets::{undated_rows, windows_rows};
use std::alloc::Global;
use std::sync::ledger::Ledger;

/// The windows of an object that a range may need.
fn windows_near(alloc: Global, object: &Object, range: Range) -> Result<List<i32>, NoMemory>
    requires { IsListable object.now }
    ensures { IfOk result (λ windows. windows ≡ spec.windows_near object.now range) }
{
    let zones = local_times_of(alloc, object.zones.as_slice())?;
    windows_needed(alloc, zones.as_slice(), object, &[range])
}

/// The rows of an object in the windows that a range may need, in order.
fn dated_near<L: Ledger>(
    alloc: Global,
    object: &Object,
    range: Range,
    steps: &mut Steps<L>,
) -> Result<List<Row>, NoMemory>
    requires { IsListable object.now }
    ensures steps { steps.new ≤ steps.old + spec.windows_cost object.now range }
    ensures rows { IfOk result (λ rows. rows ≡ spec.dated_near object.now range) }
{
    let windows = windows_near(alloc, object, range)?;
    let rows = windows_rows(alloc, object, windows.as_slice(), steps)?;
    put_in_order(rows)
}

/// The rows of an object without a date, and then those in the windows that a range may need, in order.
/// Rules are walked over for these windows alone.
pub(crate) fn rows_near<L: Ledger>(
    alloc: Global,
    object: &Object,
    range: Range,
    steps: &mut Steps<L>,
) -> Result<List<Row>, NoMemory>
    requires { IsListable object.now }
    ensures steps { steps.new ≤ steps.old + spec.windows_cost object.now range }
    ensures rows { IfOk result (λ rows. rows ≡ spec.rows_near object.now range) }
{
    let dated = dated_near(alloc, object, range, steps)?;
    let mut rows = undated_rows(alloc, object)?;
    rows.extend_from_slice(dated.as_slice())?;
    Ok(rows)
}
