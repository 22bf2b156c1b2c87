//! What becomes of a request that changes something: a table by methods.
ghost use Rattle.std.specs.Prelude.{◌≡◌, ◌≤◌, [], false};
ghost use Rattle.cal_model.specs.Serving.Outcomes.{is_reading};
ghost use Rattle.request_checks.specs.Sightings.{AreShort};
ghost use Rattle.request_checks.specs.SharedReplies.{shared_reply, takes_room, FitsRoom, NeedsNoMemory};
ghost use Rattle.cal_book.specs.Showing.ShownStates.{shown_directory, shown_state};
ghost use Rattle.cal_book.specs.Checking.Checks.{IsAskedOf, IsChecked, IsDecided, IfUndecided, KeepsRoom};
ghost use Rattle.cal_book.specs.Checking.Passed.{IsPassed, sighted};
ghost use Rattle.cal_book.specs.Checking.OwnChecks.{IsOwnChecked, IsRefusal};

use crate::changes::acl::acl;
use crate::changes::delete::delete;
use crate::changes::make::make;
use crate::changes::patch::patch;
use crate::changes::put::put;
use crate::view::BookView;
use cal_base::{NoMemory, ReservedList};
use cal_model::{Change, Event, Method, Path, Reply, Request, Seen};
use preconditions::PutReading;
use request_checks::{Look, Scene, SharedRefusal, refuse, scene_at, shared_refusal};
use std::alloc::Global;

/// What becomes of a request that changes something.
#[derive(Drop)]
pub enum ChangeCheck {
    /// It is accepted: the change, which is still to be made, and the reply once it is.
    Made(Change, Reply),
    /// It is accepted and deletes what its path names, in the home of that number. The reply is 204.
    Deletes(u32),
    /// It is refused, or no request, with this reply.
    Refused(Reply),
    /// There was no memory to look at it, or for the change.
    NoMemory,
}

/// Decides a request that changes something, as the definition of outcomes has it. A request that is
/// refused for want of a privilege uses up the room, and takes no memory where that is 4,096 octets.
/// A DELETE takes no other memory. The octets of a PUT are not read again where they are those of a
/// reading, which is used up.
pub fn check_change(
    alloc: Global,
    seen: &Seen<'_, BookView<'_>>,
    event: &Event,
    reading: &mut Option<PutReading>,
    room: &mut ReservedList<u8>,
) -> ChangeCheck
    requires changing { is_reading event.now.request.method ≡ false }
    requires who { seen.now.who ≡ event.now.who }
    requires names { AreShort (shown_directory seen.now.view.now) }
    requires bookable { IsAskedOf (shown_directory seen.now.view.now) event.now.who event.now.request }
    requires room { room.old.items ≡ [] }
    ensures checked { IsChecked (shown_directory seen.now.view.now) (shown_state seen.now.view.now) event.now result }
    ensures no_want { event.now.request.method ≡ Method.Delete → 4096 ≤ room.old.room → IsDecided result }
    ensures empty { room.new.items ≡ [] }
    ensures kept { KeepsRoom result → room.new ≡ room.old }
    ensures err { IfUndecided result (room.new ≡ room.old) }
{
    let request = &event.request;
    let scene = scene_at(seen, &request.path, Look::Whole);
    match shared_refusal(&scene, request) {
        Some(refusal) => refused(alloc, &request.path, &refusal, room),
        None => check_own(alloc, seen.view, &scene, request, reading),
    }
}

/// The answer for a reason that all methods share.
fn refused(
    alloc: Global,
    path: &Path,
    refusal: &SharedRefusal<'_>,
    room: &mut ReservedList<u8>,
) -> ChangeCheck
    requires fits { FitsRoom path.now refusal.now room.old }
    ensures reply { IsRefusal (shared_reply path.now refusal.now) result }
    ensures succeeds { NeedsNoMemory refusal.now room.old.room → IsDecided result }
    ensures empty { room.old.items ≡ [] → room.new.items ≡ [] }
    ensures kept { KeepsRoom result → room.new ≡ room.old }
    ensures err { IfUndecided result (room.new ≡ room.old) }
{
    match refuse(alloc, path, refusal, room) {
        Ok(reply) => ChangeCheck::Refused(reply),
        Err(NoMemory) => ChangeCheck::NoMemory,
    }
}

/// What the rows of the request's method make of it.
fn check_own(
    alloc: Global,
    view: &BookView<'_>,
    scene: &Scene<'_>,
    request: &Request,
    reading: &mut Option<PutReading>,
) -> ChangeCheck
    requires changing { is_reading request.now.method ≡ false }
    requires passed { IsPassed (shown_directory view.now) (shown_state view.now) scene.now request.now }
    ensures checked { IsOwnChecked (shown_directory view.now) (shown_state view.now) (sighted (shown_directory view.now) (shown_state view.now) scene.now) request.now result }
    ensures no_want { request.now.method ≡ Method.Delete → IsDecided result }
{
    match request.method {
        Method::Put => put(alloc, view, scene, request, reading),
        Method::Delete => delete(scene),
        Method::Mkcalendar => make(alloc, view, scene, request),
        Method::Proppatch => patch(alloc, view, scene, request),
        Method::Acl => acl(alloc, view, scene, request),
        _ => unreachable!(),
    }
}
