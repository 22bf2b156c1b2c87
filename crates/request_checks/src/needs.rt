//! What a request needs: privileges, and an object that is there.
ghost use Rattle.std.specs.Prelude.{◌≡◌, Some, None, if◌then◌else◌};
ghost use Rattle.cal_model.specs.Sight.Scenes.{held_in as held_seen};
ghost use Rattle.cal_model.specs.Refusals.SharedRefusals as spec;
ghost use Rattle.request_checks.specs.Scenes.{least_of};
ghost use Rattle.request_checks.specs.SharedReplies.{needed, unmet_set};

use crate::looks::has_all;
use crate::scenes::Scene;
use crate::sightings::held_on;
use cal_model::privilege::{
    BIND, READ, READ_FREE_BUSY, UNBIND, WRITE_ACL, WRITE_CONTENT, WRITE_PROPERTIES,
};
use cal_model::{Content, Method, Path, ReportRequest};

/// What a request needs.
#[derive(Clone, Copy)]
pub(crate) enum Need {
    Nothing,
    /// These privileges on the calendar.
    Held(u16),
    /// To be the owner, who alone holds these privileges on a home.
    Owned(u16),
}

/// Whether a request is for what is not there or is hidden: an unknown user, a home, a calendar.
pub(crate) fn is_missing(scene: &Scene<'_>, method: Method) -> bool
    ensures { result ≡ spec.is_missing method (least_of scene.now) scene.now.path.now }
{
    match scene.path {
        Path::Root => false,
        Path::Principal(_) => scene.user.is_none() && !scene.group,
        Path::Home(_) => !scene.home,
        Path::Calendar(_, _) | Path::Object(_, _, _) => is_calendar_missing(scene, method),
    }
}

fn is_calendar_missing(scene: &Scene<'_>, method: Method) -> bool
    ensures { result ≡ spec.is_calendar_missing method (least_of scene.now) }
{
    !scene.home || (scene.calendar.is_none() && !makes_or_asks(method))
}

fn makes_or_asks(method: Method) -> bool
    ensures { result ≡ spec.makes_or_asks method }
{
    matches!(method, Method::Mkcalendar | Method::Options)
}

/// The privileges held on the calendar of a scene.
pub(crate) fn held_in(scene: &Scene<'_>) -> u16
    ensures { result ≡ held_seen (least_of scene.now) }
{
    held_on(&scene.calendar)
}

/// Whether a scene is that of an object.
pub(crate) fn is_of_object(scene: &Scene<'_>) -> bool
    ensures { result ≡ spec.is_of_object (least_of scene.now) }
{
    matches!(scene.path, Path::Object(_, _, _))
}

fn need_of_report(content: &Content) -> Need
    ensures { needed result ≡ spec.need_of_report content.now }
{
    match content {
        Content::Report(ReportRequest::FreeBusy { .. }) => Need::Held(READ_FREE_BUSY),
        Content::Report(_) => Need::Held(READ),
        _ => Need::Nothing,
    }
}

fn need_of_put(scene: &Scene<'_>) -> Need
    ensures { needed result ≡ spec.need_of_put (least_of scene.now) }
{
    let held = held_in(scene);
    let is_new = scene.object.is_none();
    if !has_all(held, BIND) && !has_all(held, WRITE_CONTENT) {
        return Need::Held(BIND);
    }
    Need::Held(if is_new { BIND } else { WRITE_CONTENT })
}

fn need_of_delete(scene: &Scene<'_>) -> Need
    ensures { needed result ≡ spec.need (least_of scene.now) Method.Delete Content.None }
{
    if is_of_object(scene) {
        Need::Held(UNBIND)
    } else {
        Need::Owned(UNBIND)
    }
}

fn need_of_propfind(scene: &Scene<'_>) -> Need
    ensures { needed result ≡ spec.need (least_of scene.now) Method.Propfind Content.None }
{
    if is_of_object(scene) {
        Need::Held(READ)
    } else {
        Need::Nothing
    }
}

/// What a method needs at a scene.
pub(crate) fn need_at(scene: &Scene<'_>, method: Method, content: &Content) -> Need
    ensures { needed result ≡ spec.need (least_of scene.now) method content.now }
{
    match method {
        Method::Options => Need::Nothing,
        Method::Get | Method::Head => Need::Held(READ),
        Method::Put => need_of_put(scene),
        Method::Delete => need_of_delete(scene),
        Method::Propfind => need_of_propfind(scene),
        Method::Proppatch => Need::Held(WRITE_PROPERTIES),
        Method::Report => need_of_report(content),
        Method::Mkcalendar => Need::Owned(BIND),
        Method::Acl => Need::Held(WRITE_ACL),
    }
}

fn is_owner(scene: &Scene<'_>) -> bool
    ensures { result ≡ spec.is_owner (least_of scene.now) }
{
    match scene.user {
        Some(user) => user == scene.who,
        None => false,
    }
}

/// The privileges that a request needs and its caller lacks.
pub(crate) fn unmet(scene: &Scene<'_>, need: Need) -> Option<u16>
    ensures { result ≡ unmet_set (least_of scene.now) (needed need) }
{
    match need {
        Need::Nothing => None,
        Need::Held(set) => set_unless(has_all(held_in(scene), set), set),
        Need::Owned(set) => set_unless(is_owner(scene), set),
    }
}

fn set_unless(is_met: bool, set: u16) -> Option<u16>
    ensures { result ≡ if is_met then None else Some set }
{
    if is_met { None } else { Some(set) }
}

fn needs_object(method: Method) -> bool
    ensures { result ≡ spec.needs_object method }
{
    matches!(
        method,
        Method::Get | Method::Head | Method::Delete | Method::Propfind
    )
}

/// Whether a request needs an object that is not there.
pub(crate) fn is_object_missing(scene: &Scene<'_>, method: Method) -> bool
    ensures { result ≡ spec.is_object_missing method (least_of scene.now) }
{
    needs_object(method) && is_of_object(scene) && scene.object.is_none()
}
