//! Replies to what is refused, and to GET, HEAD and OPTIONS.
ghost use Rattle.std.specs.Prelude.{◌≡◌, ◌≤◌, [], false, IfOk, IsOk, OnErr};
ghost use Rattle.cal_model.specs.Refusals.RefusalReplies as refused;
ghost use Rattle.cal_model.specs.Replies.BareReplies as bare;
ghost use Rattle.cal_model.specs.Replies.ReplyForms as forms;
ghost use Rattle.cal_model.specs.Serving.ReadingReplies as reading;
ghost use Rattle.cal_model.specs.Sight.Scenes.{Scene as Sighted};
ghost use Rattle.request_checks.specs.Scenes.{IsScene, least_of};
ghost use Rattle.request_checks.specs.SharedReplies.{object_shown, shared_reply, takes_room, FitsRoom, IsRoomFor, NeedsNoMemory};

use crate::conditions::tag_of;
use crate::refusals::SharedRefusal;
use crate::scenes::Scene;
use cal_base::{NoMemory, Octets, ReservedList};
use cal_model::{Cond, Etag, Media, Path, PrivilegeSet, Refusal, Reply, Stored, bare_reply};
use dav_write::{error_body, need_privileges};
use std::alloc::Global;
use std::mem::replace;

/// Room enough for the body that says which privilege is needed.
const ERROR_ROOM: usize = 4096;

/// A status with the entity tag of an object (RFC 9110, 8.8.3). Takes no memory.
pub fn tagged_reply(alloc: Global, status: u16, stored: &Stored) -> Reply
    ensures { result ≡ forms.tagged_reply status stored.now.octets }
{
    Reply {
        status,
        etag: Some(tag_of(stored)),
        allow: None,
        media: Media::None,
        body: Octets::new(alloc),
    }
}

fn media_of(refusal: &Refusal) -> Media
    ensures { result ≡ (refused.refusal_reply refusal.now).media }
{
    match &refusal.cond {
        Cond::None => Media::None,
        Cond::Dav(_) | Cond::Cal(_) => Media::Xml,
    }
}

/// The reply of a refusal (RFC 4918, 16). One without a condition is a status alone, and takes no
/// memory.
pub fn refusal_reply(alloc: Global, refusal: &Refusal) -> Result<Reply, NoMemory>
    ensures reply { IfOk result (λ reply. reply ≡ refused.refusal_reply refusal.now) }
    ensures succeeds { refusal.now.cond ≡ Cond.None → IsOk result }
{
    if matches!(refusal.cond, Cond::None) {
        return Ok(bare_reply(alloc, refusal.status));
    }
    let body = error_body(alloc, refusal)?;
    Ok(Reply {
        status: refusal.status,
        etag: None,
        allow: None,
        media: media_of(refusal),
        body,
    })
}

/// The reply for want of a privilege, in room that is taken where it is not there.
fn need_privileges_reply(
    alloc: Global,
    path: &Path,
    set: PrivilegeSet,
    room: &mut ReservedList<u8>,
) -> Result<Reply, NoMemory>
    requires { IsRoomFor path.now room.old }
    ensures reply { IfOk result (λ reply. reply ≡ refused.refusal_reply (refused.need_privileges path.now set.0)) }
    ensures succeeds { 4096 ≤ room.old.room → IsOk result }
    ensures empty { room.new.items ≡ [] }
    ensures err { OnErr result (room.new ≡ room.old) }
{
    room.reserve(ERROR_ROOM)?;
    need_privileges(path, set, room);
    let body = replace(room, ReservedList::new(alloc)).into_list();
    Ok(Reply {
        status: 403,
        etag: None,
        allow: None,
        media: Media::Xml,
        body,
    })
}

fn not_modified(alloc: Global, etag: Option<Etag>) -> Reply
    ensures { result ≡ record (bare.bare_reply 304) { etag = etag } }
{
    Reply {
        status: 304,
        etag,
        allow: None,
        media: Media::None,
        body: Octets::new(alloc),
    }
}

/// The reply to a request for a path that is refused. Only what names a condition of a body or a field
/// takes memory, and the want of a privilege where there is no room of 4096 octets; the latter uses up
/// the room, and all else keeps it. Without memory the room stays as it was.
pub fn refuse(
    alloc: Global,
    path: &Path,
    refusal: &SharedRefusal<'_>,
    room: &mut ReservedList<u8>,
) -> Result<Reply, NoMemory>
    requires { FitsRoom path.now refusal.now room.old }
    ensures reply { IfOk result (λ reply. reply ≡ shared_reply path.now refusal.now) }
    ensures succeeds { NeedsNoMemory refusal.now room.old.room → IsOk result }
    ensures kept { takes_room refusal.now ≡ false → room.new ≡ room.old }
    ensures empty { room.old.items ≡ [] → room.new.items ≡ [] }
    ensures err { OnErr result (room.new ≡ room.old) }
{
    match refusal {
        SharedRefusal::NotFound => Ok(bare_reply(alloc, 404)),
        SharedRefusal::NeedPrivileges(set) => need_privileges_reply(alloc, path, *set, room),
        SharedRefusal::Refused(refusal) => refusal_reply(alloc, refusal),
        SharedRefusal::PreconditionFailed => Ok(bare_reply(alloc, 412)),
        SharedRefusal::NotModified(etag) => Ok(not_modified(alloc, *etag)),
    }
}

/// The reply of GET and HEAD (RFC 9110, 9.3.1): the octets of the object, copied once, and their tag.
pub fn get_reply(alloc: Global, scene: &Scene<'_>) -> Result<Reply, NoMemory>
    ensures { IfOk result (λ reply. (sighted : Sighted) → IsScene scene.now sighted → reply ≡ reading.get_reply sighted) }
{
    match scene.object {
        Some((stored, _)) => object_reply(alloc, stored),
        None => Ok(bare_reply(alloc, 404)),
    }
}

fn object_reply(alloc: Global, stored: &Stored) -> Result<Reply, NoMemory>
    ensures { IfOk result (λ reply. reply ≡ object_shown stored.now.octets) }
{
    let body = Octets::of(alloc, stored.octets.as_slice())?;
    Ok(Reply {
        status: 200,
        etag: Some(tag_of(stored)),
        allow: None,
        media: Media::Calendar,
        body,
    })
}

/// The reply of OPTIONS (RFC 9110, 9.3.7): the methods of a path.
pub fn options_reply(alloc: Global, path: &Path) -> Result<Reply, NoMemory>
    ensures { IfOk result (λ reply. reply ≡ forms.options_reply path.now) }
{
    let allow = copy_of(alloc, path)?;
    Ok(Reply {
        status: 200,
        etag: None,
        allow: Some(allow),
        media: Media::None,
        body: Octets::new(alloc),
    })
}

fn copy_of(alloc: Global, path: &Path) -> Result<Path, NoMemory>
    ensures { IfOk result (λ copy. copy ≡ path.now) }
{
    match path {
        Path::Root => Ok(Path::Root),
        Path::Principal(user) => Ok(Path::Principal(Octets::of(alloc, user.as_slice())?)),
        Path::Home(user) => Ok(Path::Home(Octets::of(alloc, user.as_slice())?)),
        Path::Calendar(user, calendar) => copy_of_calendar(alloc, user, calendar),
        Path::Object(user, calendar, object) => copy_of_object(alloc, user, calendar, object),
    }
}

fn copy_of_calendar(alloc: Global, user: &Octets, calendar: &Octets) -> Result<Path, NoMemory>
    ensures { IfOk result (λ copy. copy ≡ Path.Calendar user.now calendar.now) }
{
    let user = Octets::of(alloc, user.as_slice())?;
    let calendar = Octets::of(alloc, calendar.as_slice())?;
    Ok(Path::Calendar(user, calendar))
}

fn copy_of_object(
    alloc: Global,
    user: &Octets,
    calendar: &Octets,
    object: &Octets,
) -> Result<Path, NoMemory>
    ensures { IfOk result (λ copy. copy ≡ Path.Object user.now calendar.now object.now) }
{
    let user = Octets::of(alloc, user.as_slice())?;
    let calendar = Octets::of(alloc, calendar.as_slice())?;
    let object = Octets::of(alloc, object.as_slice())?;
    Ok(Path::Object(user, calendar, object))
}
