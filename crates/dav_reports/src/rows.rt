//! The rows of one object that a report looks at.
ghost use Rattle.std.specs.Prelude.{◌≡◌, ℕ, ◌+◌, ◌≤◌, ◌++◌, All, IfOk, IfSome, OnOk, filter, flat_map, is_some, length, map, sum, take};
ghost use Rattle.cal_model.specs.declared.object.Object.{Object as ObjectSpec};
ghost use Rattle.cal_model.specs.Instances.HappensOnce.{happens_once};
ghost use Rattle.cal_model.specs.Instances.Rows.{in_order, rows_in, undated_rows};
ghost use Rattle.cal_model.specs.Ranges.Cost.{cost};
ghost use Rattle.cal_model.specs.Reports.NeededWindows.{counts, stated_windows};
ghost use Rattle.dav_reports.specs.NeededRows.{rows_needed, rows_of};
ghost use Rattle.dav_reports.specs.PieceRows.{AreRowsOf, IsKept, IsMissing, needed_cost, windows_cost};

use cal_base::{List, NoMemory, Steps};
use cal_model::view::Pieces;
use cal_model::{Object, Range, Row, local_times_of};
use needed_windows::{is_needed, windows_needed};
use override_merge::order::put_in_order;
use rrule_sets::{only_row, undated_rows, windows_rows};
use std::alloc::Global;
use std::sync::ledger::Ledger;

/// The rows of an object that a report looks at.
#[derive(Drop)]
pub(crate) enum Looked<'a> {
    /// Those of a piece.
    Lent(&'a List<Row>),
    /// Those that were found.
    Found(List<Row>),
}

impl Looked<'_> {
    /// The rows.
    pub(crate) fn rows(&self) -> &List<Row>
        ensures { result.now ≡ rows_of self.now }
    {
        match self {
            Looked::Lent(rows) => rows,
            Looked::Found(rows) => rows,
        }
    }
}

/// The windows of an object that a report of some ranges may need.
pub(crate) fn windows_for(
    alloc: Global,
    object: &Object,
    ranges: &[Range],
) -> Result<List<i32>, NoMemory>
    requires { IsKept object.now }
    ensures { IfOk result (λ windows. windows ≡ filter (counts object.now ranges.now) stated_windows) }
{
    let zones = local_times_of(alloc, object.zones.as_slice())?;
    windows_needed(alloc, zones.as_slice(), object, ranges)
}

/// The rows that a report of some ranges looks at, of an object that happens once: its row, where they
/// may need the row's window, and else none. None for every other object.
fn only_rows(
    alloc: Global,
    object: &Object,
    ranges: &[Range],
) -> Result<Option<List<Row>>, NoMemory>
    requires { IsKept object.now }
    ensures rows { IfOk result (λ found. IfSome found (λ rows. rows ≡ rows_needed object.now ranges.now)) }
    ensures once { IfOk result (λ found. is_some found ≡ happens_once object.now) }
{
    let Some((row, window)) = only_row(object) else {
        return Ok(None);
    };
    let mut rows = List::new(alloc);
    if is_needed(object, &row, ranges, window) {
        rows.push(row)?;
    }
    Ok(Some(rows))
}

/// The rows of an object that has one window to be looked at, lent from the piece of that window; none
/// where there is no such piece, or where rows without a date stand before them.
pub(crate) fn lent_rows<'a, P: Pieces>(
    pieces: &'a P,
    origin: u64,
    undated: &[Row],
    windows: &[i32],
) -> Option<&'a List<Row>>
    ensures { (object : ObjectSpec) → IsKept object → AreRowsOf (P.held pieces.now) origin object → IfSome result (λ rows. rows.now ≡ undated.now ++ in_order (flat_map (rows_in object) windows.now)) }
{
    let (window, more) = windows.split_first()?;
    if undated.is_empty() && more.is_empty() {
        pieces.rows(origin, *window)
    } else {
        None
    }
}

/// How many of some windows, from the first on, have no piece.
pub(crate) fn missing_first<P: Pieces>(pieces: &P, origin: u64, windows: &[i32]) -> usize
    ensures bound { result ≤ length windows.now }
    ensures missing { All (IsMissing (P.held pieces.now) origin) (take result windows.now) }
{
    let mut count = 0;
    let mut rest = windows;
    'missing: while let Some((window, behind)) = rest.split_first() {
        if pieces.rows(origin, *window).is_some() {
            return count;
        }
        count += 1;
        rest = behind;
    }
    count
}

/// Puts the rows of an object in several windows behind others: those of pieces, where there are some,
/// and else they are found anew, those of windows that follow one another in one walk.
fn put_windows<P: Pieces, L: Ledger>(
    alloc: Global,
    pieces: &P,
    origin: u64,
    object: &Object,
    windows: &[i32],
    out: &mut List<Row>,
    steps: &mut Steps<L>,
) -> Result<(), NoMemory>
    requires object { IsKept object.now }
    requires right { AreRowsOf (P.held pieces.now) origin object.now }
    ensures steps { steps.new ≤ steps.old + windows_cost (P.held pieces.now) origin object.now windows.now }
    ensures rows { OnOk result (out.new ≡ out.old ++ flat_map (rows_in object.now) windows.now) }
{
    let mut rest = windows;
    'windows: while let Some((window, behind)) = rest.split_first() {
        if let Some(rows) = pieces.rows(origin, *window) {
            out.extend_from_slice(rows.as_slice())?;
            rest = behind;
            continue 'windows;
        }
        let (missing, left) = rest.split_at(1 + missing_first(pieces, origin, behind));
        put_missing(alloc, object, missing, out, steps)?;
        rest = left;
    }
    Ok(())
}

/// Puts the rows of an object in windows without a piece behind others.
fn put_missing<L: Ledger>(
    alloc: Global,
    object: &Object,
    windows: &[i32],
    out: &mut List<Row>,
    steps: &mut Steps<L>,
) -> Result<(), NoMemory>
    requires { IsKept object.now }
    ensures steps { steps.new ≤ steps.old + sum (map (cost object.now) windows.now) }
    ensures rows { OnOk result (out.new ≡ out.old ++ flat_map (rows_in object.now) windows.now) }
{
    let rows = windows_rows(alloc, object, windows, steps)?;
    out.extend_from_slice(rows.as_slice())
}

/// The rows of an object that a report looks at: those without a date, then those of some windows, put
/// in order.
pub(crate) fn joined_rows<P: Pieces, L: Ledger>(
    alloc: Global,
    pieces: &P,
    origin: u64,
    object: &Object,
    undated: &[Row],
    windows: &[i32],
    steps: &mut Steps<L>,
) -> Result<List<Row>, NoMemory>
    requires object { IsKept object.now }
    requires right { AreRowsOf (P.held pieces.now) origin object.now }
    ensures steps { steps.new ≤ steps.old + windows_cost (P.held pieces.now) origin object.now windows.now }
    ensures rows { IfOk result (λ rows. rows ≡ undated.now ++ in_order (flat_map (rows_in object.now) windows.now)) }
{
    let mut dated = List::new(alloc);
    put_windows(alloc, pieces, origin, object, windows, &mut dated, steps)?;
    let dated = put_in_order(dated)?;
    if undated.is_empty() {
        return Ok(dated);
    }
    let mut rows = List::of(alloc, undated)?;
    rows.extend_from_slice(dated.as_slice())?;
    Ok(rows)
}

/// The rows of an object that a report looks at in some windows: lent where there is one window, it has
/// a piece and no row is without a date.
fn rows_in_windows<'a, P: Pieces, L: Ledger>(
    alloc: Global,
    pieces: &'a P,
    origin: u64,
    object: &Object,
    windows: &[i32],
    steps: &mut Steps<L>,
) -> Result<Looked<'a>, NoMemory>
    requires object { IsKept object.now }
    requires right { AreRowsOf (P.held pieces.now) origin object.now }
    ensures steps { steps.new ≤ steps.old + windows_cost (P.held pieces.now) origin object.now windows.now }
    ensures rows { IfOk result (λ looked. rows_of looked ≡ undated_rows object.now ++ in_order (flat_map (rows_in object.now) windows.now)) }
{
    let undated = undated_rows(alloc, object)?;
    if let Some(rows) = lent_rows(pieces, origin, undated.as_slice(), windows) {
        return Ok(Looked::Lent(rows));
    }
    let rows = joined_rows(
        alloc,
        pieces,
        origin,
        object,
        undated.as_slice(),
        windows,
        steps,
    )?;
    Ok(Looked::Found(rows))
}

/// The rows of an object that a report of some ranges looks at. Rows come from pieces wherever there is
/// one; of an object that happens once its row is found without.
pub(crate) fn rows_for<'a, P: Pieces, L: Ledger>(
    alloc: Global,
    pieces: &'a P,
    origin: u64,
    object: &Object,
    ranges: &[Range],
    steps: &mut Steps<L>,
) -> Result<Looked<'a>, NoMemory>
    requires object { IsKept object.now }
    requires right { AreRowsOf (P.held pieces.now) origin object.now }
    ensures steps { steps.new ≤ steps.old + needed_cost (P.held pieces.now) origin object.now (filter (counts object.now ranges.now) stated_windows) }
    ensures rows { IfOk result (λ looked. rows_of looked ≡ rows_needed object.now ranges.now) }
{
    if let Some(rows) = only_rows(alloc, object, ranges)? {
        return Ok(Looked::Found(rows));
    }
    let windows = windows_for(alloc, object, ranges)?;
    rows_in_windows(alloc, pieces, origin, object, windows.as_slice(), steps)
}
