//! When a calendar is busy (RFC 4791, 7.10).
ghost use Rattle.std.specs.Prelude.{◌≡◌, ◌+◌, ◌≤◌, IfOk, Some, map};
ghost use Rattle.cal_model.specs.declared.report.ReportRequest.TheVariants.{FreeBusy};
ghost use Rattle.cal_model.specs.Busy.BusyRuns as spec;
ghost use Rattle.cal_model.specs.Reports.FloatingZone.{floating_zone};
ghost use Rattle.cal_model.specs.State.ServerState.{Calendar, calendar_at, objects_of, own_zone};
ghost use Rattle.cal_model.specs.State.SoundStates.{IsSound};
ghost use Rattle.cal_model.specs.TimeZones.TableBounds.{IsTable};
ghost use Rattle.freebusy.specs.Times.{time_of_run};
ghost use Rattle.object_walk.specs.WalkedObjects.{objects_at};
ghost use Rattle.dav_reports.specs.CalendarObjects.{AreHeldRight, entries_cost, times_of_entries};

use crate::busy::put_object;
use crate::report_zones::{utc, zone_or};
use cal_base::{List, NoMemory, Steps};
use cal_model::view::Pieces;
use cal_model::{Range, Seen, ZoneTable};
use freebusy::{Gathered, Run};
use object_walk::Walks;
use std::alloc::Global;
use std::sync::ledger::Ledger;

/// The longest runs of one class of the times at which the objects of a calendar make busy in a range,
/// in order. Floating times are read in the zone.
fn runs_of_objects<V: Walks, P: Pieces, L: Ledger>(
    alloc: Global,
    view: &V,
    home: u32,
    name: &[u8],
    pieces: &P,
    range: Range,
    zone: &ZoneTable,
    steps: &mut Steps<L>,
) -> Result<List<Run>, NoMemory>
    requires sound { IsSound (V.directory view.now) (V.state view.now) }
    requires right { AreHeldRight (P.held pieces.now) (V.origins view.now) (V.state view.now) home name.now }
    requires zone { IsTable zone.now }
    ensures steps { steps.new ≤ steps.old + entries_cost (P.held pieces.now) (FreeBusy range) (V.origins view.now home name.now) (objects_at (V.state view.now) home name.now) }
    ensures runs { IfOk result (λ found. map time_of_run found ≡ spec.runs (times_of_entries zone.now range (objects_at (V.state view.now) home name.now)) range) }
{
    let mut times = Gathered::new(alloc, range);
    'walk: for (stored, origin) in view.objects(home, name) {
        put_object(
            alloc,
            pieces,
            origin,
            &stored.object,
            range,
            zone,
            &mut times,
            steps,
        )?;
    }
    times.runs()
}

/// The longest runs of one class of a calendar in a range, in order (RFC 4791, 7.10). Floating times are
/// read in the calendar's own zone, or in UTC where it has none. Rows come from pieces wherever there is
/// one. Whether the user may see them is not looked at here.
pub fn calendar_runs<V: Walks, P: Pieces, L: Ledger>(
    alloc: Global,
    seen: &Seen<'_, V>,
    calendar: (u32, &[u8]),
    pieces: &P,
    range: Range,
    steps: &mut Steps<L>,
) -> Result<List<Run>, NoMemory>
    requires right { AreHeldRight (P.held pieces.now) (V.origins seen.now.view.now) (V.state seen.now.view.now) calendar.0 calendar.1.now }
    ensures steps { steps.new ≤ steps.old + entries_cost (P.held pieces.now) (FreeBusy range) (V.origins seen.now.view.now calendar.entry.0 calendar.entry.1.now) (objects_at (V.state seen.now.view.now) calendar.entry.0 calendar.entry.1.now) }
    ensures runs { IfOk result (λ found. (c : Calendar) → calendar_at (V.state seen.now.view.now) calendar.entry.0 calendar.entry.1.now ≡ Some c → map time_of_run found ≡ spec.calendar_runs (floating_zone None (own_zone c.texts)) (objects_of c.objects) range) }
{
    let (home, name) = calendar;
    let Some(data) = seen.view.calendar(home, name) else {
        return Ok(List::new(alloc));
    };
    let own = utc(alloc);
    let zone = zone_or(data, &own);
    runs_of_objects(alloc, seen.view, home, name, pieces, range, zone, steps)
}
