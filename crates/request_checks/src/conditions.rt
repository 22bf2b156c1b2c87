//! Conditional requests (RFC 9110, 13.1.1, 13.1.2 and 13.2.2).
ghost use Rattle.std.specs.Prelude.{◌≡◌, false, option_map, IfSome, if◌then◌else◌};
ghost use Rattle.std.specs.List.{list_any};
ghost use Rattle.cal_model.specs.Objects.ObjectReading.{first_there};
ghost use Rattle.cal_model.specs.Refusals.SharedRefusals as spec;
ghost use Rattle.cal_model.specs.Replies.Etags.{etag_of};
ghost use Rattle.cal_model.specs.Replies.BareReplies.{bare_reply};
ghost use Rattle.request_checks.specs.Scenes.{least_of};
ghost use Rattle.request_checks.specs.Sightings.{octets_lent};
ghost use Rattle.request_checks.specs.SharedReplies.{condition_rows, fits_etag, shared_reply, takes_room, IsFaultless};

use crate::needs::is_of_object;
use crate::refusals::SharedRefusal;
use crate::scenes::Scene;
use cal_base::{Arc, Octets};
use cal_model::{Etag, Method, Request, Stored, Tags};

/// The tag of an object.
pub(crate) fn tag_of(stored: &Stored) -> Etag
    ensures { result ≡ etag_of stored.now.octets }
{
    stored.etag
}

/// Whether a tag is this one; a weak tag counts only where weak tags do.
fn tag_fits(weakly: bool, etag: &Etag, tag: &(bool, Octets)) -> bool
    ensures { result ≡ fits_etag weakly etag.now tag.now }
{
    (weakly || !tag.0) && tag.1.as_slice() == etag.0.as_slice()
}

fn any_fits(weakly: bool, etag: &Etag, tags: &[(bool, Octets)]) -> bool
    ensures { result ≡ list_any (fits_etag weakly etag.now) tags.now }
{
    tags.iter().any(|tag| tag_fits(weakly, etag, tag))
}

fn tags_fit(weakly: bool, tags: &Tags, stored: &Stored) -> bool
    ensures { result ≡ spec.tags_fit weakly tags.now stored.now.octets }
{
    match tags {
        Tags::Any => true,
        Tags::Listed(tags) => any_fits(weakly, &tag_of(stored), tags.as_slice()),
    }
}

fn is_fitted(weakly: bool, tags: &Tags, object: Option<(&Arc<Stored>, u64)>) -> bool
    ensures { result ≡ spec.is_fitted weakly tags.now (octets_lent object.entry) }
{
    match object {
        Some((stored, _)) => tags_fit(weakly, tags, stored),
        None => false,
    }
}

fn if_match_fails(tags: &Option<Tags>, object: Option<(&Arc<Stored>, u64)>) -> bool
    ensures { result ≡ spec.if_match_fails tags.now (octets_lent object.entry) }
{
    match tags {
        Some(tags) => !is_fitted(false, tags, object),
        None => false,
    }
}

fn if_none_match_fails(tags: &Option<Tags>, object: Option<(&Arc<Stored>, u64)>) -> bool
    ensures { result ≡ spec.if_none_match_fails tags.now (octets_lent object.entry) }
{
    match tags {
        Some(tags) => is_fitted(true, tags, object),
        None => false,
    }
}

/// What refuses a GET or a HEAD of what its caller has, and another method by If-None-Match.
fn unchanged<'a>(scene: &Scene<'_>, method: Method) -> SharedRefusal<'a>
    ensures roomless { takes_room result ≡ false }
    ensures faultless { IsFaultless result }
    ensures reply { shared_reply scene.now.path.now result ≡ if spec.is_get method then spec.not_modified (octets_lent scene.now.object) else bare_reply 412 }
{
    if !matches!(method, Method::Get | Method::Head) {
        return SharedRefusal::PreconditionFailed;
    }
    match scene.object {
        Some((stored, _)) => SharedRefusal::NotModified(Some(tag_of(stored))),
        None => SharedRefusal::NotModified(None),
    }
}

fn is_conditional(scene: &Scene<'_>, method: Method) -> bool
    ensures { result ≡ spec.is_conditional method (least_of scene.now) }
{
    is_of_object(scene) && !matches!(method, Method::Options)
}

/// The condition of a request that fails.
pub(crate) fn failed_condition<'a>(
    scene: &Scene<'_>,
    request: &Request,
) -> Option<SharedRefusal<'a>>
    ensures roomless { IfSome result (λ refusal. takes_room refusal ≡ false) }
    ensures faultless { IfSome result IsFaultless }
    ensures rows { option_map (shared_reply scene.now.path.now) result ≡ first_there (condition_rows (least_of scene.now) request.now) }
{
    if !is_conditional(scene, request.method) {
        return None;
    }
    if if_match_fails(&request.if_match, scene.object) {
        return Some(SharedRefusal::PreconditionFailed);
    }
    if if_none_match_fails(&request.if_none, scene.object) {
        return Some(unchanged(scene, request.method));
    }
    None
}
