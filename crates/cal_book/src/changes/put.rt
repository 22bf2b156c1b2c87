//! PUT (RFC 4791, 5.3.2).
ghost use Rattle.std.specs.Prelude.{◌≡◌, ◌∷◌, [], IfOk, IsSome, Ok};
ghost use Rattle.cal_model.specs.History.KeptChanges.{IsAtPlace};
ghost use Rattle.cal_model.specs.Objects.ObjectReading.{read_object};
ghost use Rattle.cal_model.specs.Replies.ReplyForms.{tagged_reply as reply_with_tag};
ghost use Rattle.cal_model.specs.State.Changes.{put as put_at};
ghost use Rattle.cal_model.specs.State.ServerState.{Calendar, home_at};
ghost use Rattle.cal_model.specs.Refusals.ChangeRefusals.{no_room as full_row};
ghost use Rattle.cal_book.specs.Showing.ShownStates.{shown_directory, shown_state};
ghost use Rattle.cal_book.specs.Checking.OwnChecks.{IsOwnChecked, IsTold};
ghost use Rattle.cal_book.specs.Checking.Passed.{IsPassed, sighted};
ghost use Rattle.cal_book.specs.Checking.Places.{IsInto};
ghost use Rattle.cal_book.specs.Checking.Rows.{conflict_row, is_full_at};

use crate::changes::answers::{no_request, no_room, refused_by};
use crate::changes::check::ChangeCheck;
use crate::changes::conflicts::{conflict, holder_of};
use crate::changes::places::{Target, target_of};
use crate::changes::room::is_full;
use crate::view::BookView;
use cal_base::{Arc, NoMemory, Octets};
use cal_model::{Change, Content, Method, Object, ObjectPath, Request, Stored};
use preconditions::{PutCheck, PutReading, check_put};
use request_checks::{Scene, tagged_reply};
use std::alloc::Global;

/// What becomes of a PUT that no shared row refuses: its own preconditions come first, then the
/// conflict of UIDs, then the room.
pub(crate) fn put(
    alloc: Global,
    view: &BookView<'_>,
    scene: &Scene<'_>,
    request: &Request,
    reading: &mut Option<PutReading>,
) -> ChangeCheck
    requires method { request.now.method ≡ Method.Put }
    requires passed { IsPassed (shown_directory view.now) (shown_state view.now) scene.now request.now }
    ensures { IsOwnChecked (shown_directory view.now) (shown_state view.now) (sighted (shown_directory view.now) (shown_state view.now) scene.now) request.now result }
{
    let Content::Put { media_ok, octets } = &request.content else {
        return no_request(alloc);
    };
    let target = target_of(scene);
    match check_put(
        alloc,
        *media_ok,
        octets.as_slice(),
        target.place.data.kinds,
        reading,
    ) {
        PutCheck::Fine(object) => put_fine(alloc, view, &target, request.size, octets, object),
        PutCheck::Refused(refusal) => refused_by(alloc, &refusal),
        PutCheck::NoMemory => ChangeCheck::NoMemory,
    }
}

/// What becomes of an object that meets its own preconditions.
fn put_fine(
    alloc: Global,
    view: &BookView<'_>,
    target: &Target<'_>,
    size: u32,
    octets: &Octets,
    object: Object,
) -> ChangeCheck
    requires home { IsSome (home_at (shown_state view.now) target.now.place.home) }
    requires reading { read_object octets.now ≡ Ok object }
    ensures { (within : Calendar) → IsInto (shown_state view.now) target.now within → IsTold (conflict_row target.now within octets.now ∷ full_row (is_full_at (shown_state view.now) target.now.place.home size) ∷ []) (put_at target.now.place.home target.now.place.calendar.now target.now.object.now octets.now) (reply_with_tag target.now.status octets.now) result }
{
    match holder_of(view, target, object.uid.as_slice()) {
        Some(name) => conflict(alloc, target, name),
        None => put_free(alloc, view, target, size, octets, object),
    }
}

/// What becomes of an object whose UID is free.
fn put_free(
    alloc: Global,
    view: &BookView<'_>,
    target: &Target<'_>,
    size: u32,
    octets: &Octets,
    object: Object,
) -> ChangeCheck
    requires home { IsSome (home_at (shown_state view.now) target.now.place.home) }
    requires reading { read_object octets.now ≡ Ok object }
    ensures { IsTold (full_row (is_full_at (shown_state view.now) target.now.place.home size) ∷ []) (put_at target.now.place.home target.now.place.calendar.now target.now.object.now octets.now) (reply_with_tag target.now.status octets.now) result }
{
    if is_full(view, target.place.home, size) {
        no_room(alloc)
    } else {
        put_object(alloc, target, octets, view.shared(object))
    }
}

/// The change that puts an object at its place.
fn put_object(alloc: Global, target: &Target<'_>, octets: &Octets, object: Object) -> ChangeCheck
    requires reading { read_object octets.now ≡ Ok object }
    ensures { IsTold [] (put_at target.now.place.home target.now.place.calendar.now target.now.object.now octets.now) (reply_with_tag target.now.status octets.now) result }
{
    match copies(alloc, target, octets) {
        Ok((path, octets)) => put_stored(alloc, target.status, Stored::of(path, octets, object)),
        Err(NoMemory) => ChangeCheck::NoMemory,
    }
}

/// The place and the octets of an object, to be kept.
fn copies(
    alloc: Global,
    target: &Target<'_>,
    octets: &Octets,
) -> Result<(ObjectPath, Octets), NoMemory>
    ensures place { IfOk result (λ parts. IsAtPlace target.now.place.home target.now.place.calendar.now target.now.object.now parts.0) }
    ensures octets { IfOk result (λ parts. parts.1 ≡ octets.now) }
{
    let path = ObjectPath {
        home: target.place.home,
        calendar: Octets::of(alloc, target.place.calendar.as_slice())?,
        object: Octets::of(alloc, target.object.as_slice())?,
    };
    let octets = Octets::of(alloc, octets.as_slice())?;
    Ok((path, octets))
}

fn put_stored(alloc: Global, status: u16, stored: Stored) -> ChangeCheck
    ensures { IsTold [] (put_at stored.path.home stored.path.calendar stored.path.object stored.octets) (reply_with_tag status stored.octets) result }
{
    match Arc::new(alloc, stored) {
        Ok(stored) => {
            let reply = tagged_reply(alloc, status, &stored);
            ChangeCheck::Made(Change::Put(stored), reply)
        }
        Err(NoMemory) => ChangeCheck::NoMemory,
    }
}
