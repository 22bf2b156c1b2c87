//! The answer to a query for busy times (RFC 4791, 7.10).
ghost use Rattle.std.specs.Prelude.{◌≡◌, ◌+◌, ◌≤◌, pos, ◌≤ℤ◌, IfOk, IsSome};
ghost use Rattle.cal_model.specs.declared.report.ReportRequest.TheVariants.{FreeBusy};
ghost use Rattle.cal_model.specs.State.ServerState.{Calendar, calendar_at};
ghost use Rattle.object_walk.specs.WalkedObjects.{objects_at};
ghost use Rattle.dav_reports.specs.CalendarObjects.{AreHeldRight, entries_cost};
ghost use Rattle.dav_reports.specs.ReportOutcomes.{IsServedRange, busy_text};
ghost use Rattle.dav_reports.specs.SeenCalendars.{IsBody};

use crate::runs::calendar_runs;
use crate::text::free_busy_text;
use cal_base::{NoMemory, Octets, Steps};
use cal_model::view::Pieces;
use cal_model::{Range, Seen};
use object_walk::Walks;
use std::alloc::Global;
use std::sync::ledger::Ledger;

/// The answer to a query for busy times, or none where it is too long.
pub(crate) fn busy_body<V: Walks, P: Pieces, L: Ledger>(
    alloc: Global,
    seen: &Seen<'_, V>,
    calendar: (u32, &[u8]),
    pieces: &P,
    range: Range,
    moment: i64,
    steps: &mut Steps<L>,
) -> Result<Option<Octets>, NoMemory>
    requires right { AreHeldRight (P.held pieces.now) (V.origins seen.now.view.now) (V.state seen.now.view.now) calendar.0 calendar.1.now }
    requires there { IsSome (calendar_at (V.state seen.now.view.now) calendar.0 calendar.1.now) }
    requires range { IsServedRange range }
    requires from_1970 { pos 0 ≤ℤ moment }
    requires to_9999 { moment ≤ℤ pos 253_402_300_799 }
    ensures steps { steps.new ≤ steps.old + entries_cost (P.held pieces.now) (FreeBusy range) (V.origins seen.now.view.now calendar.entry.0 calendar.entry.1.now) (objects_at (V.state seen.now.view.now) calendar.entry.0 calendar.entry.1.now) }
    ensures body { IfOk result (λ body. (c : Calendar) → calendar_at (V.state seen.now.view.now) calendar.entry.0 calendar.entry.1.now ≡ Some c → IsBody body (busy_text moment range c)) }
{
    let found = calendar_runs(alloc, seen, calendar, pieces, range, steps)?;
    free_busy_text(alloc, moment, range, found.as_slice())
}
