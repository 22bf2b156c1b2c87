//! The reply to a request that only reads (RFC 9110, 9.2.1).
ghost use Rattle.std.specs.Prelude.{◌≡◌, ◌+◌, ◌≤◌, ◌<◌, ◌≤ℤ◌, ℕ, true, List, [], length, pos, None, IfOk, IfSome, IsTrue, OnErr};
ghost use Rattle.cal_model.specs.Paths.TargetPaths.{is_path};
ghost use Rattle.cal_model.specs.Requests.MethodContents.{Suits};
ghost use Rattle.cal_model.specs.Requests.ContentBounds.{ZoneIsShort};
ghost use Rattle.cal_model.specs.Requests.Methods.{has_method};
ghost use Rattle.cal_model.specs.Serving.Outcomes.{is_reading, scene_by};
ghost use Rattle.cal_model.specs.Serving.ReadingReplies.{reading_reply};
ghost use Rattle.cal_model.specs.Serving.SeenResources.{scene_seen};
ghost use Rattle.cal_model.specs.Sight.Scenes.{calendar_in};
ghost use Rattle.cal_model.specs.Sight.Views.{sight_of};
ghost use Rattle.dav_reports.specs.CalendarObjects.{AreHeldRight};
ghost use Rattle.cal_book.specs.Answering.OwnReplies.{IsUnrefused, own_reply};
ghost use Rattle.cal_book.specs.Answering.ReadingCost.{cost_of, reading_cost, report_in, report_run};
ghost use Rattle.request_checks.specs.Scenes.{IsScene};
ghost use Rattle.request_checks.specs.Sightings.{AreShort, IsDataAt, user_seen};

use crate::reads::finding::answer_find;
use crate::reads::reports::answer_report;
use cal_base::{NoMemory, ReservedList, Steps};
use cal_model::view::Pieces;
use cal_model::{Event, Method, Reply, Request, Seen};
use object_walk::Walks;
use request_checks::{Look, Scene, get_reply, options_reply, refuse, scene_at, shared_refusal};
use std::alloc::Global;
use std::sync::ledger::Ledger;

/// The reply to a request that only reads. It goes by what its caller sees of the state, and by nothing
/// else. The table of refusals that all methods share is looked at first; a report may then be refused
/// for itself, and a PROPFIND or a report for an answer of more than 67,108,864 octets, which is not
/// written to its end. The body that tells which privilege is lacking stands in the room, which it uses
/// up; without memory the room stays as it was. Rows that no piece has are found anew, which counts as
/// steps; nothing else does.
pub fn answer_reading<V: Walks, P: Pieces, L: Ledger>(
    alloc: Global,
    seen: &Seen<'_, V>,
    pieces: &P,
    event: &Event,
    room: &mut ReservedList<u8>,
    steps: &mut Steps<L>,
) -> Result<Reply, NoMemory>
    requires reading { is_reading event.now.request.method ≡ true }
    requires who { seen.now.who ≡ event.now.who }
    requires user { event.now.who < length (V.directory seen.now.view.now).names }
    requires names { AreShort (V.directory seen.now.view.now) }
    requires zone { ZoneIsShort event.now.request.content }
    requires suits { Suits event.now.request.method event.now.request.content }
    requires allowed { IsTrue (has_method event.now.request.path event.now.request.method) }
    requires path { IsTrue (is_path event.now.request.path) }
    requires from_1970 { pos 0 ≤ℤ event.now.moment }
    requires to_9999 { event.now.moment ≤ℤ pos 253_402_300_799 }
    requires right { (home : ℕ) (calendar : List ℕ) → AreHeldRight (P.held pieces.now) (V.origins seen.now.view.now) (V.state seen.now.view.now) home calendar }
    requires room { room.old.items ≡ [] }
    ensures reply { IfOk result (λ reply. reply ≡ reading_reply (scene_by sight_of (V.directory seen.now.view.now) (V.state seen.now.view.now) event.now) event.now.moment event.now.request) }
    ensures steps { steps.new ≤ steps.old + reading_cost (P.held pieces.now) (V.origins seen.now.view.now) (V.directory seen.now.view.now) (V.state seen.now.view.now) event.now }
    ensures no_steps { report_run (scene_by sight_of (V.directory seen.now.view.now) (V.state seen.now.view.now) event.now) event.now.request ≡ None → steps.new ≡ steps.old }
    ensures room { room.new.items ≡ [] }
    ensures err { OnErr result (room.new ≡ room.old) }
{
    let path = &event.request.path;
    let scene = scene_at(seen, path, Look::Own);
    match shared_refusal(&scene, &event.request) {
        Some(refusal) => refuse(alloc, path, &refusal, room),
        None => answer_unrefused(
            alloc,
            seen,
            pieces,
            &scene,
            &event.request,
            event.moment,
            steps,
        ),
    }
}

/// The answer to a request that only reads and that no row of the shared table refuses, by its method.
fn answer_unrefused<V: Walks, P: Pieces, L: Ledger>(
    alloc: Global,
    seen: &Seen<'_, V>,
    pieces: &P,
    scene: &Scene<'_>,
    request: &Request,
    moment: i64,
    steps: &mut Steps<L>,
) -> Result<Reply, NoMemory>
    requires reading { is_reading request.now.method ≡ true }
    requires user { seen.now.who < length (V.directory seen.now.view.now).names }
    requires right { (home : ℕ) (calendar : List ℕ) → AreHeldRight (P.held pieces.now) (V.origins seen.now.view.now) (V.state seen.now.view.now) home calendar }
    requires scene { IsScene scene.now (scene_seen (V.directory seen.now.view.now) (V.state seen.now.view.now) seen.now.who request.now.path) }
    requires there { IfSome scene.now.calendar (λ p. IsDataAt (V.state seen.now.view.now) scene.now.user (calendar_in request.now.path) p.1.now) }
    requires unrefused { IsUnrefused (scene_seen (V.directory seen.now.view.now) (V.state seen.now.view.now) seen.now.who request.now.path) request.now }
    requires zone { ZoneIsShort request.now.content }
    requires suits { Suits request.now.method request.now.content }
    requires allowed { IsTrue (has_method request.now.path request.now.method) }
    requires from_1970 { pos 0 ≤ℤ moment }
    requires to_9999 { moment ≤ℤ pos 253_402_300_799 }
    ensures reply { IfOk result (λ reply. reply ≡ own_reply (scene_seen (V.directory seen.now.view.now) (V.state seen.now.view.now) seen.now.who request.now.path) moment request.now) }
    ensures steps { steps.new ≤ steps.old + cost_of (P.held pieces.now) (V.origins seen.now.view.now) (V.directory seen.now.view.now) (V.state seen.now.view.now) (user_seen (V.directory seen.now.view.now) request.now.path) (calendar_in request.now.path) (report_in request.now.content) }
    ensures no_steps { report_in request.now.content ≡ None → steps.new ≡ steps.old }
{
    match request.method {
        Method::Options => options_reply(alloc, &request.path),
        Method::Get | Method::Head => get_reply(alloc, scene),
        Method::Propfind => answer_find(alloc, seen, request),
        Method::Report => answer_report(alloc, seen, pieces, scene, request, moment, steps),
        _ => unreachable!(),
    }
}
