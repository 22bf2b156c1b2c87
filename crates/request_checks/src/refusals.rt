//! What refuses a request of any method.
ghost use Rattle.std.specs.Prelude.{◌≡◌, true, option_map, IfSome};
ghost use Rattle.cal_model.specs.Objects.ObjectReading.{first_there};
ghost use Rattle.cal_model.specs.Refusals.SharedRefusals as spec;
ghost use Rattle.cal_model.specs.Sight.Scenes.{Scene as Sighted};
ghost use Rattle.request_checks.specs.Scenes.{IsFoundAt, IsScene, least_of};
ghost use Rattle.request_checks.specs.SharedReplies.{shared_reply, takes_room, IsFaultOf};

use crate::conditions::failed_condition;
use crate::needs::{is_missing, is_object_missing, need_at, unmet};
use crate::scenes::Scene;
use cal_model::{Content, Etag, PrivilegeSet, Refusal, Request};

/// Why a request is refused, for a reason that all methods share.
#[derive(Clone, Copy)]
pub enum SharedRefusal<'a> {
    /// 404: something that the path names is not there, or is hidden (RFC 9110, 15.5.5).
    NotFound,
    /// 403: these privileges are not held on the resource (RFC 3744, 7.1.1).
    NeedPrivileges(PrivilegeSet),
    /// What was found wrong with the body or the fields.
    Refused(&'a Refusal),
    /// 412: If-Match, or If-None-Match of a method that is neither GET nor HEAD (RFC 9110, 15.5.13).
    PreconditionFailed,
    /// 304, with the tag of what is there (RFC 9110, 15.4.5).
    NotModified(Option<Etag>),
}

/// The first row of the table of shared refusals that applies to a request, as its caller sees what it
/// is about. Where privileges are lacking, the path's user is known. Takes no memory.
pub fn shared_refusal<'a>(scene: &Scene<'_>, request: &'a Request) -> Option<SharedRefusal<'a>>
    ensures row { (sighted : Sighted) → IsScene scene.now sighted → option_map (shared_reply sighted.path) result ≡ first_there (spec.shared_rows sighted request.now) }
    ensures found { IfSome result (λ refusal. takes_room refusal ≡ true → IsFoundAt scene.now scene.now.path.now) }
    ensures fault { IfSome result (IsFaultOf request.now.content) }
{
    first_refusal(scene, request)
}

fn first_refusal<'a>(scene: &Scene<'_>, request: &'a Request) -> Option<SharedRefusal<'a>>
    ensures row { option_map (shared_reply scene.now.path.now) result ≡ first_there (spec.shared_rows (least_of scene.now) request.now) }
    ensures found { IfSome result (λ refusal. takes_room refusal ≡ true → IsFoundAt scene.now scene.now.path.now) }
    ensures fault { IfSome result (IsFaultOf request.now.content) }
{
    if is_missing(scene, request.method) {
        return Some(SharedRefusal::NotFound);
    }
    let needed = need_at(scene, request.method, &request.content);
    if let Some(set) = unmet(scene, needed) {
        return Some(SharedRefusal::NeedPrivileges(PrivilegeSet(set)));
    }
    if is_object_missing(scene, request.method) {
        return Some(SharedRefusal::NotFound);
    }
    if let Content::Bad(refusal) = &request.content {
        return Some(SharedRefusal::Refused(refusal));
    }
    failed_condition(scene, request)
}
