//! ACL (RFC 3744, 8.1).
ghost use Rattle.std.specs.Prelude.{◌≡◌, [], IfOk};
ghost use Rattle.cal_model.specs.Replies.BareReplies.{bare_reply as status_alone};
ghost use Rattle.cal_model.specs.State.Changes.{acl as acl_at};
ghost use Rattle.cal_book.specs.Showing.ShownStates.{shown_directory, shown_state};
ghost use Rattle.cal_book.specs.Checking.OwnChecks.{IsOwnChecked, IsTold};
ghost use Rattle.cal_book.specs.Checking.Passed.{IsPassed, sighted};

use crate::changes::answers::{no_request, no_room};
use crate::changes::check::ChangeCheck;
use crate::changes::copies::copy_name;
use crate::changes::places::{Place, place_of};
use crate::changes::room::is_full;
use crate::view::BookView;
use cal_base::{Arc, List, NoMemory, Octets};
use cal_model::{Change, Content, Grant, Method, Request, bare_reply};
use request_checks::Scene;
use std::alloc::Global;

/// What becomes of an ACL that no shared row refuses: there has to be room.
pub(crate) fn acl(
    alloc: Global,
    view: &BookView<'_>,
    scene: &Scene<'_>,
    request: &Request,
) -> ChangeCheck
    requires method { request.now.method ≡ Method.Acl }
    requires passed { IsPassed (shown_directory view.now) (shown_state view.now) scene.now request.now }
    ensures { IsOwnChecked (shown_directory view.now) (shown_state view.now) (sighted (shown_directory view.now) (shown_state view.now) scene.now) request.now result }
{
    let Content::Acl(grants) = &request.content else {
        return no_request(alloc);
    };
    let place = place_of(scene);
    if is_full(view, place.home, request.size) {
        return no_room(alloc);
    }
    grant(alloc, &place, grants, request.size)
}

/// The change that replaces the grants.
fn grant(alloc: Global, place: &Place<'_>, grants: &List<Grant>, size: u32) -> ChangeCheck
    ensures { IsTold [] (acl_at place.now.home place.now.calendar.now grants.now size) (status_alone 200) result }
{
    match copies(alloc, place.calendar, grants) {
        Ok((name, grants)) => {
            let reply = bare_reply(alloc, 200);
            ChangeCheck::Made(Change::Acl(place.home, name, grants, size), reply)
        }
        Err(NoMemory) => ChangeCheck::NoMemory,
    }
}

/// The name of a calendar and grants, to be kept.
fn copies(
    alloc: Global,
    name: &Octets,
    grants: &List<Grant>,
) -> Result<(Arc<Octets>, List<Grant>), NoMemory>
    ensures name { IfOk result (λ parts. parts.0 ≡ name.now) }
    ensures grants { IfOk result (λ parts. parts.1 ≡ grants.now) }
{
    let name = copy_name(alloc, name.as_slice())?;
    let grants = List::of(alloc, grants.as_slice())?;
    Ok((name, grants))
}
