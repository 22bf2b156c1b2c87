//! MKCALENDAR (RFC 4791, 5.3.1).
ghost use Rattle.std.specs.Prelude.{◌≡◌, ◌∷◌, ◌||◌, [], codes, IfOk, IsSome};
ghost use Rattle.cal_model.specs.Bodies.Refusals.{dav_refusal};
ghost use Rattle.cal_model.specs.Refusals.ChangeRefusals.{no_room as full_row};
ghost use Rattle.cal_model.specs.Refusals.RefusalReplies.{refusal_reply};
ghost use Rattle.cal_model.specs.State.Changes.{make as make_at};
ghost use Rattle.cal_model.specs.State.ServerState.{home_at};
ghost use Rattle.cal_book.specs.Showing.ShownStates.{shown_directory, shown_state};
ghost use Rattle.cal_book.specs.Checking.OwnChecks.{IsOwnChecked, IsRefusal, IsTold};
ghost use Rattle.cal_book.specs.Checking.Passed.{IsPassed, sighted};
ghost use Rattle.cal_book.specs.Checking.Rows.{is_full_at, has_all_calendars_at};

use crate::changes::answers::{no_request, no_room, refused_by};
use crate::changes::check::ChangeCheck;
use crate::changes::copies::copy_settings_of;
use crate::changes::room::{has_all_calendars, is_full};
use crate::view::BookView;
use cal_base::{List, NoMemory, Octets};
use cal_model::{Change, Cond, Content, Method, Path, PropSet, Refusal, Reply, Request};
use dav_props::{PatchCheck, check_make};
use request_checks::Scene;
use std::alloc::Global;

/// What becomes of a MKCALENDAR that no shared row refuses: there has to be no calendar of that name,
/// then its settings are looked at, then the room.
pub(crate) fn make(
    alloc: Global,
    view: &BookView<'_>,
    scene: &Scene<'_>,
    request: &Request,
) -> ChangeCheck
    requires method { request.now.method ≡ Method.Mkcalendar }
    requires passed { IsPassed (shown_directory view.now) (shown_state view.now) scene.now request.now }
    ensures { IsOwnChecked (shown_directory view.now) (shown_state view.now) (sighted (shown_directory view.now) (shown_state view.now) scene.now) request.now result }
{
    let Content::Make(sets) = &request.content else {
        return no_request(alloc);
    };
    if scene.calendar.is_some() {
        return must_be_null(alloc);
    }
    let Some(home) = scene.user else {
        unreachable!();
    };
    let Path::Calendar(_, name) = scene.path else {
        unreachable!();
    };
    match check_make(alloc, sets.as_slice()) {
        PatchCheck::Fine(reply) => make_fine(alloc, view, home, name, sets, request.size, reply),
        PatchCheck::Refused(reply) => ChangeCheck::Refused(reply),
        PatchCheck::NoMemory => ChangeCheck::NoMemory,
    }
}

/// The answer where there is a calendar of that name (RFC 4791, 5.3.1.1).
fn must_be_null(alloc: Global) -> ChangeCheck
    ensures { IsRefusal (refusal_reply (dav_refusal (codes "resource-must-be-null"))) result }
{
    match null_refusal(alloc) {
        Ok(refusal) => refused_by(alloc, &refusal),
        Err(NoMemory) => ChangeCheck::NoMemory,
    }
}

fn null_refusal(alloc: Global) -> Result<Refusal, NoMemory>
    ensures { IfOk result (λ refusal. refusal ≡ dav_refusal (codes "resource-must-be-null")) }
{
    let condition = Octets::of(alloc, b"<D:resource-must-be-null/>")?;
    Ok(Refusal {
        status: 403,
        cond: Cond::Dav(condition),
    })
}

/// What becomes of a calendar whose settings are fine.
fn make_fine(
    alloc: Global,
    view: &BookView<'_>,
    home: u32,
    name: &Octets,
    sets: &List<PropSet>,
    size: u32,
    reply: Reply,
) -> ChangeCheck
    requires home { IsSome (home_at (shown_state view.now) home) }
    ensures { IsTold (full_row (has_all_calendars_at (shown_state view.now) home || is_full_at (shown_state view.now) home size) ∷ []) (make_at home name.now sets.now size) reply result }
{
    if has_all_calendars(view, home) || is_full(view, home, size) {
        drop(reply);
        return no_room(alloc);
    }
    match copy_settings_of(alloc, name, sets) {
        Ok((name, sets)) => ChangeCheck::Made(Change::Make(home, name, sets, size), reply),
        Err(NoMemory) => {
            drop(reply);
            ChangeCheck::NoMemory
        }
    }
}
