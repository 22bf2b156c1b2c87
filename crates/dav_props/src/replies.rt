//! The reply to a PROPFIND (RFC 4918, 9.1).
ghost use Rattle.std.specs.Prelude.{◌≡◌, ◌<◌, ◌++◌, ℕ, List, IfOk, OnOk, length, flat_map, if◌then◌else◌, [], codes, unwrap_or};
ghost use Rattle.cal_model.specs.declared.request.Method.TheVariants.{Propfind};
ghost use Rattle.cal_model.specs.Bodies.Refusals.{dav_refusal};
ghost use Rattle.cal_model.specs.Properties.PropertyReplies.{resource_response, multistatus_reply};
ghost use Rattle.cal_model.specs.Refusals.RefusalReplies.{refusal_reply};
ghost use Rattle.cal_model.specs.Refusals.RequestLimits.{answer_limit};
ghost use Rattle.cal_model.specs.Serving.ReadingReplies.{members_at, too_long};
ghost use Rattle.cal_model.specs.Serving.SeenResources.{resources_seen, scene_seen};
ghost use Rattle.multistatus.specs.ReplyPieces.{begun};
ghost use Rattle.dav_props.specs.Finding.{IsUpTo, asking, found_reply, names_asked};

use crate::members::{push_members, write_href};
use crate::subjects::subject_at;
use crate::telling::push_resource;
use cal_base::{List, NoMemory, Octets};
use cal_model::view::View;
use cal_model::{ANSWER_LIMIT, Media, Path, PropName, Props, Reply, Seen};
use multistatus::{begin_multistatus, end_multistatus, once};
use object_walk::Walks;
use std::alloc::Global;

/// The body of the refusal of an answer that is too long (RFC 4791, 7.8).
const TOO_LONG: &[u8] =
    b"<?xml version=\"1.0\" encoding=\"utf-8\"?>\n<D:error xmlns:D=\"DAV:\" xmlns:C=\"urn:ietf:params:xml:ns:caldav\"><D:number-of-matches-within-limits/></D:error>";

/// The reply to a PROPFIND of what a user sees at a path: the resource, and where `deep` is set its
/// members behind it, each with what is asked of it (RFC 4918, 9.1). A name that is asked for twice is
/// shown once. An answer of more than 67,108,864 octets is refused, and is not written to its end. What is
/// not there gives a reply without responses.
pub fn find<V: Walks>(
    alloc: Global,
    seen: &Seen<'_, V>,
    path: &Path,
    props: &Props,
    deep: bool,
) -> Result<Reply, NoMemory>
    requires user { seen.now.who < length (V.directory seen.now.view.now).names }
    ensures reply { IfOk result (λ reply. reply ≡ found_reply (V.directory seen.now.view.now) (V.state seen.now.view.now) seen.now.who path.now props.now deep) }
{
    let named = names_once(alloc, props)?;
    let mut out = begin_multistatus(alloc)?;
    push_all(alloc, seen, path, props, named.as_slice(), deep, &mut out)?;
    finish(alloc, out)
}

/// The names that are asked for, each once.
fn names_once(alloc: Global, props: &Props) -> Result<List<PropName>, NoMemory>
    ensures { IfOk result (λ names. names ≡ names_asked props.now) }
{
    match props {
        Props::Some(names) => once(alloc, names.as_slice()),
        _ => Ok(List::new(alloc)),
    }
}

/// Appends the responses of what is seen at a path, until the reply is too long.
fn push_all<V: Walks>(
    alloc: Global,
    seen: &Seen<'_, V>,
    path: &Path,
    props: &Props,
    named: &[PropName],
    deep: bool,
    out: &mut Octets,
) -> Result<(), NoMemory>
    requires user { seen.now.who < length (V.directory seen.now.view.now).names }
    requires named { named.now ≡ names_asked props.now }
    ensures { OnOk result (IsUpTo answer_limit out.new (out.old ++ flat_map (resource_response (asking (V.directory seen.now.view.now) seen.now.who) props.now) (resources_seen (V.directory seen.now.view.now) (V.state seen.now.view.now) seen.now.who path.now ++ (if deep then members_at (scene_seen (V.directory seen.now.view.now) (V.state seen.now.view.now) seen.now.who path.now) path.now else [])))) }
{
    let mut href = Octets::new(alloc);
    push_itself(alloc, seen, path, props, named, &mut href, out)?;
    if deep {
        push_members(alloc, seen, path, props, named, &mut href, out)
    } else {
        Ok(())
    }
}

/// Appends the response of the resource at a path, where one is seen.
fn push_itself<V: View>(
    alloc: Global,
    seen: &Seen<'_, V>,
    path: &Path,
    props: &Props,
    named: &[PropName],
    href: &mut Octets,
    out: &mut Octets,
) -> Result<(), NoMemory>
    requires user { seen.now.who < length (V.directory seen.now.view.now).names }
    requires named { named.now ≡ names_asked props.now }
    ensures { OnOk result (out.new ≡ out.old ++ flat_map (resource_response (asking (V.directory seen.now.view.now) seen.now.who) props.now) (resources_seen (V.directory seen.now.view.now) (V.state seen.now.view.now) seen.now.who path.now)) }
{
    match subject_at(seen, path) {
        Some(subject) => {
            write_href(path, href)?;
            push_resource(alloc, seen, props, named, href.as_slice(), &subject, out)
        }
        None => Ok(()),
    }
}

/// The reply with the responses of a buffer, or the refusal where it is too long.
fn finish(alloc: Global, out: Octets) -> Result<Reply, NoMemory>
    ensures { IfOk result (λ reply. (responses : List ℕ) → IsUpTo answer_limit out (begun ++ responses) → reply ≡ unwrap_or (too_long Propfind (multistatus_reply responses)) (multistatus_reply responses)) }
{
    if out.len() > ANSWER_LIMIT {
        return refused(alloc);
    }
    let body = end_multistatus(out)?;
    if body.len() > ANSWER_LIMIT {
        return refused(alloc);
    }
    Ok(Reply {
        status: 207,
        etag: None,
        allow: None,
        media: Media::Xml,
        body,
    })
}

/// The refusal of an answer that is too long.
#[tactic(auto, unfolding(cal_model::specs::Replies::XmlText::document, cal_base::specs::Xml::CanonicalXml::attribute_text))]
fn refused(alloc: Global) -> Result<Reply, NoMemory>
    ensures { IfOk result (λ reply. reply ≡ refusal_reply (dav_refusal (codes "number-of-matches-within-limits"))) }
{
    Ok(Reply {
        status: 403,
        etag: None,
        allow: None,
        media: Media::Xml,
        body: Octets::of(alloc, TOO_LONG)?,
    })
}
