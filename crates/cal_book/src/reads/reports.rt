//! The answer to a REPORT (RFC 3253, 3.6; RFC 4791, 7).
ghost use Rattle.std.specs.Prelude.{◌≡◌, ◌+◌, ◌≤◌, ◌<◌, ◌≤ℤ◌, ℕ, List, length, pos, IfOk, IfSome, IsTrue};
ghost use Rattle.cal_model.specs.declared.request.Method.{Method as How};
ghost use Rattle.cal_model.specs.Requests.MethodContents.{Suits};
ghost use Rattle.cal_model.specs.Requests.ContentBounds.{ZoneIsShort};
ghost use Rattle.cal_model.specs.Requests.Methods.{has_method};
ghost use Rattle.cal_model.specs.Serving.SeenResources.{scene_seen};
ghost use Rattle.cal_model.specs.Sight.Scenes.{calendar_in};
ghost use Rattle.dav_reports.specs.CalendarObjects.{AreHeldRight};
ghost use Rattle.cal_book.specs.Answering.OwnReplies.{IsUnrefused, own_reply};
ghost use Rattle.cal_book.specs.Answering.ReadingCost.{cost_of, report_in};
ghost use Rattle.request_checks.specs.Scenes.{IsScene};
ghost use Rattle.request_checks.specs.Sightings.{IsDataAt, user_seen};

use crate::reads::given_zone::zone_given;
use cal_base::{NoMemory, Steps};
use cal_model::view::Pieces;
use cal_model::{Content, Path, Reply, Request, Seen};
use dav_props::DavAnswers;
use dav_reports::run_report;
use object_walk::Walks;
use request_checks::Scene;
use std::alloc::Global;
use std::sync::ledger::Ledger;

/// The answer to a REPORT that no row of the shared table refuses: so the calendar of its path is there,
/// and its caller holds on it what the report needs.
pub(crate) fn answer_report<V: Walks, P: Pieces, L: Ledger>(
    alloc: Global,
    seen: &Seen<'_, V>,
    pieces: &P,
    scene: &Scene<'_>,
    request: &Request,
    moment: i64,
    steps: &mut Steps<L>,
) -> Result<Reply, NoMemory>
    requires user { seen.now.who < length (V.directory seen.now.view.now).names }
    requires right { (home : ℕ) (calendar : List ℕ) → AreHeldRight (P.held pieces.now) (V.origins seen.now.view.now) (V.state seen.now.view.now) home calendar }
    requires scene { IsScene scene.now (scene_seen (V.directory seen.now.view.now) (V.state seen.now.view.now) seen.now.who request.now.path) }
    requires there { IfSome scene.now.calendar (λ p. IsDataAt (V.state seen.now.view.now) scene.now.user (calendar_in request.now.path) p.1.now) }
    requires unrefused { IsUnrefused (scene_seen (V.directory seen.now.view.now) (V.state seen.now.view.now) seen.now.who request.now.path) request.now }
    requires method { request.now.method ≡ How.Report }
    requires short { ZoneIsShort request.now.content }
    requires suits { Suits request.now.method request.now.content }
    requires allowed { IsTrue (has_method request.now.path request.now.method) }
    requires from_1970 { pos 0 ≤ℤ moment }
    requires to_9999 { moment ≤ℤ pos 253_402_300_799 }
    ensures steps { steps.new ≤ steps.old + cost_of (P.held pieces.now) (V.origins seen.now.view.now) (V.directory seen.now.view.now) (V.state seen.now.view.now) (user_seen (V.directory seen.now.view.now) request.now.path) (calendar_in request.now.path) (report_in request.now.content) }
    ensures reply { IfOk result (λ reply. reply ≡ own_reply (scene_seen (V.directory seen.now.view.now) (V.state seen.now.view.now) seen.now.who request.now.path) moment request.now) }
{
    let Path::Calendar(_, name) = &request.path else {
        unreachable!();
    };
    let Content::Report(report) = &request.content else {
        unreachable!();
    };
    let Some(home) = scene.user else {
        unreachable!();
    };
    let calendar = (home, name.as_slice());
    let zone = zone_given(alloc, report)?;
    run_report(
        alloc,
        seen,
        calendar,
        pieces,
        &DavAnswers,
        zone,
        report,
        moment,
        steps,
    )
}
