//! PROPPATCH (RFC 4918, 9.2).
ghost use Rattle.std.specs.Prelude.{◌≡◌, ◌∷◌, [], IsSome};
ghost use Rattle.cal_model.specs.Refusals.ChangeRefusals.{no_room as full_row};
ghost use Rattle.cal_model.specs.State.Changes.{patch as patch_at};
ghost use Rattle.cal_model.specs.State.ServerState.{home_at};
ghost use Rattle.cal_book.specs.Showing.ShownStates.{shown_directory, shown_state};
ghost use Rattle.cal_book.specs.Checking.OwnChecks.{IsOwnChecked, IsTold};
ghost use Rattle.cal_book.specs.Checking.Passed.{IsPassed, sighted};
ghost use Rattle.cal_book.specs.Checking.Rows.{is_full_at};

use crate::changes::answers::{no_request, no_room};
use crate::changes::check::ChangeCheck;
use crate::changes::copies::copy_settings_of;
use crate::changes::places::{Place, place_of};
use crate::changes::room::is_full;
use crate::view::BookView;
use cal_base::{List, NoMemory};
use cal_model::{Change, Content, Method, PropSet, Reply, Request};
use dav_props::{PatchCheck, check_patch};
use request_checks::Scene;
use std::alloc::Global;

/// What becomes of a PROPPATCH that no shared row refuses: all its settings have to be fine, and there
/// has to be room.
pub(crate) fn patch(
    alloc: Global,
    view: &BookView<'_>,
    scene: &Scene<'_>,
    request: &Request,
) -> ChangeCheck
    requires method { request.now.method ≡ Method.Proppatch }
    requires passed { IsPassed (shown_directory view.now) (shown_state view.now) scene.now request.now }
    ensures { IsOwnChecked (shown_directory view.now) (shown_state view.now) (sighted (shown_directory view.now) (shown_state view.now) scene.now) request.now result }
{
    let Content::Patch(sets) = &request.content else {
        return no_request(alloc);
    };
    let place = place_of(scene);
    match check_patch(alloc, &request.path, sets.as_slice(), place.data) {
        PatchCheck::Fine(reply) => patch_fine(alloc, view, &place, sets, request.size, reply),
        PatchCheck::Refused(reply) => ChangeCheck::Refused(reply),
        PatchCheck::NoMemory => ChangeCheck::NoMemory,
    }
}

/// What becomes of settings that are fine.
fn patch_fine(
    alloc: Global,
    view: &BookView<'_>,
    place: &Place<'_>,
    sets: &List<PropSet>,
    size: u32,
    reply: Reply,
) -> ChangeCheck
    requires home { IsSome (home_at (shown_state view.now) place.now.home) }
    ensures { IsTold (full_row (is_full_at (shown_state view.now) place.now.home size) ∷ []) (patch_at place.now.home place.now.calendar.now sets.now size) reply result }
{
    if is_full(view, place.home, size) {
        drop(reply);
        return no_room(alloc);
    }
    match copy_settings_of(alloc, place.calendar, sets) {
        Ok((name, sets)) => ChangeCheck::Made(Change::Patch(place.home, name, sets, size), reply),
        Err(NoMemory) => {
            drop(reply);
            ChangeCheck::NoMemory
        }
    }
}
