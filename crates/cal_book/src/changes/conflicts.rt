//! Conflicts of UIDs (RFC 4791, 5.3.2.1).
ghost use Rattle.std.specs.Prelude.{◌≡◌, ◌++◌, bytes_eq, codes, if◌then◌else◌, List, ℕ, IfOk, OnOk, Some, None};
ghost use Rattle.std.specs.Option.{option_copied};
ghost use Rattle.cal_model.specs.Refusals.Preconditions.{uid_conflict, uid_of};
ghost use Rattle.cal_model.specs.Refusals.RefusalReplies.{refusal_reply};
ghost use Rattle.cal_model.specs.Replies.Hrefs.{href};
ghost use Rattle.cal_model.specs.Replies.ReplyElements.{href_element};
ghost use Rattle.cal_model.specs.Replies.XmlText.{element};
ghost use Rattle.cal_model.specs.State.ServerState.{Calendar};
ghost use Rattle.cal_book.specs.Showing.ShownStates.{shown_state};
ghost use Rattle.cal_book.specs.Checking.OwnChecks.{IsRefusal};
ghost use Rattle.cal_book.specs.Checking.Places.{IsInto, may_read, path_beside};
ghost use Rattle.cal_book.specs.Checking.Rows.{holder_name};

use crate::changes::answers::refused_by;
use crate::changes::check::ChangeCheck;
use crate::changes::places::Target;
use crate::view::BookView;
use cal_base::{NoMemory, Octets};
use cal_model::privilege::READ;
use cal_model::{Cond, Path, Refusal};
use dav_write::append_path;
use std::alloc::Global;

/// The name of the other object of the calendar that has the UID of one that is put; or its own name,
/// where the object that is there has another UID.
pub(crate) fn holder_of<'a>(
    view: &'a BookView<'_>,
    target: &Target<'a>,
    uid: &[u8],
) -> Option<&'a [u8]>
    ensures { (within : Calendar) (octets : List ℕ) → IsInto (shown_state view.now) target.now within → uid_of octets ≡ Some uid.now → option_copied result ≡ holder_name within.objects target.now.object.now octets }
{
    let place = &target.place;
    let own = target.object.as_slice();
    match view.uid_holder(place.home, place.calendar.as_slice(), uid) {
        Some(stored) => unless_own(stored.path.object.as_slice(), own),
        None => own_if(target.is_there, own),
    }
}

/// A name, unless it is that of the object itself.
fn unless_own<'a>(name: &'a [u8], own: &[u8]) -> Option<&'a [u8]>
    ensures { option_copied result ≡ (if bytes_eq name.now own.now then None else Some name.now) }
{
    if name == own { None } else { Some(name) }
}

fn own_if(is_there: bool, own: &[u8]) -> Option<&[u8]>
    ensures { option_copied result ≡ (if is_there then Some own.now else None) }
{
    if is_there { Some(own) } else { None }
}

/// The answer for a conflict with the object of a name, whose path is told to those who may read it.
pub(crate) fn conflict(alloc: Global, target: &Target<'_>, name: &[u8]) -> ChangeCheck
    ensures { IsRefusal (refusal_reply (uid_conflict (may_read target.now) (path_beside target.now name.now))) result }
{
    match conflict_refusal(alloc, target, name) {
        Ok(refusal) => refused_by(alloc, &refusal),
        Err(NoMemory) => ChangeCheck::NoMemory,
    }
}

fn conflict_refusal(alloc: Global, target: &Target<'_>, name: &[u8]) -> Result<Refusal, NoMemory>
    ensures { IfOk result (λ refusal. refusal ≡ uid_conflict (may_read target.now) (path_beside target.now name.now)) }
{
    let condition = if target.place.held & READ == READ {
        conflict_with(alloc, target, name)?
    } else {
        Octets::of(alloc, b"<C:no-uid-conflict/>")?
    };
    Ok(Refusal {
        status: 403,
        cond: Cond::Cal(condition),
    })
}

/// The condition with the path of the other object.
fn conflict_with(alloc: Global, target: &Target<'_>, name: &[u8]) -> Result<Octets, NoMemory>
    ensures { IfOk result (λ text. text ≡ element (codes "C:no-uid-conflict") (href_element (path_beside target.now name.now))) }
{
    let mut text = Octets::of(alloc, b"<C:no-uid-conflict><D:href>")?;
    append_beside(alloc, target, name, &mut text)?;
    text.extend_from_slice(b"</D:href></C:no-uid-conflict>")?;
    Ok(text)
}

/// Appends the path of an object in the same calendar.
fn append_beside(
    alloc: Global,
    target: &Target<'_>,
    name: &[u8],
    text: &mut Octets,
) -> Result<(), NoMemory>
    ensures { OnOk result (text.new ≡ text.old ++ href (path_beside target.now name.now)) }
{
    let path = path_of(alloc, target, name)?;
    append_path(&path, text)
}

/// The path of an object in the same calendar.
fn path_of(alloc: Global, target: &Target<'_>, name: &[u8]) -> Result<Path, NoMemory>
    ensures { IfOk result (λ path. path ≡ path_beside target.now name.now) }
{
    let user = Octets::of(alloc, target.user.as_slice())?;
    let calendar = Octets::of(alloc, target.place.calendar.as_slice())?;
    let object = Octets::of(alloc, name)?;
    Ok(Path::Object(user, calendar, object))
}
