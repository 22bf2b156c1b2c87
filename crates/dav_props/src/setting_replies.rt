//! The replies to settings (RFC 4918, 9.2.1 and 16).
ghost use Rattle.std.specs.Prelude.{◌≡◌, ◌++◌, ◌∷◌, [], ℕ, List, Option, IfOk, OnOk, map};
ghost use Rattle.cal_model.specs.declared.property.PropName.{PropName as Name};
ghost use Rattle.cal_model.specs.declared.property.PropSet.{PropSet as Setting};
ghost use Rattle.cal_model.specs.declared.reply.Refusal.{Refusal as Refused};
ghost use Rattle.cal_model.specs.Properties.PropertyReplies.{propstats, setting_answers, settings_reply as reply_to_settings};
ghost use Rattle.cal_model.specs.Properties.PropertyTable.{Answer};
ghost use Rattle.cal_model.specs.Refusals.RefusalReplies.{refusal_reply as reply_to_fault};
ghost use Rattle.cal_model.specs.Replies.ReplyForms.{xml_reply as reply_of_xml};
ghost use Rattle.cal_model.specs.Replies.XmlText.{multistatus, response as response_text};
ghost use Rattle.cal_model.specs.Replies.Hrefs.{href as href_of};
ghost use Rattle.multistatus.specs.Answered.{IsAnswered};
ghost use Rattle.dav_props.specs.SettingFaults.{refusal_of};
ghost use Rattle.dav_props.specs.KeptTexts.{status_in, answer_in, TellsRefused};

use crate::setting_faults::Fault;
use crate::setting_names::key_of;
use cal_base::{List, NameMap, NoMemory, Octets};
use cal_model::{Cond, Media, Path, PropName, PropSet, Refusal, Reply, copy_name};
use dav_write::{error_body, write_path};
use multistatus::{Response, begin_multistatus, end_multistatus, once, push_empty_property};
use std::alloc::Global;

/// A reply with a body of XML.
fn xml_reply(status: u16, body: Octets) -> Reply
    ensures { result ≡ reply_of_xml status body }
{
    Reply {
        status,
        etag: None,
        allow: None,
        media: Media::Xml,
        body,
    }
}

/// The reply to a fault.
pub(crate) fn fault_reply(alloc: Global, fault: Fault) -> Result<Reply, NoMemory>
    ensures { IfOk result (λ reply. reply ≡ reply_to_fault (refusal_of fault)) }
{
    let refusal = refusal_for(alloc, fault)?;
    let body = error_body(alloc, &refusal)?;
    Ok(xml_reply(403, body))
}

fn refusal_for(alloc: Global, fault: Fault) -> Result<Refusal, NoMemory>
    ensures { IfOk result (λ refusal. refusal ≡ refusal_of fault) }
{
    let cond = match fault {
        Fault::Protected => Cond::Dav(Octets::of(alloc, b"<D:cannot-modify-protected-property/>")?),
        Fault::BadZone => Cond::Cal(Octets::of(alloc, b"<C:valid-calendar-data/>")?),
    };
    Ok(Refusal { status: 403, cond })
}

/// The reply to settings: the status of each property, 403 for those that are refused and another
/// one for all others.
pub(crate) fn settings_reply(
    alloc: Global,
    path: &Path,
    sets: &[PropSet],
    refused: &NameMap<bool>,
    otherwise: u16,
) -> Result<Reply, NoMemory>
    ensures { IfOk result (λ reply. (faults : List (Name × Option Refused)) → map (λ (entry : Name × Option Refused). entry.0) faults ≡ map (λ (set : Setting). set.name) sets.now → TellsRefused refused.now faults → reply ≡ reply_to_settings path.now (setting_answers faults otherwise)) }
{
    let names = names_of(alloc, sets)?;
    let names = once(alloc, names.as_slice())?;
    let body = answered_body(alloc, path, names.as_slice(), refused, otherwise)?;
    Ok(xml_reply(207, body))
}

/// The names of settings, in their order.
fn names_of(alloc: Global, sets: &[PropSet]) -> Result<List<PropName>, NoMemory>
    ensures { IfOk result (λ names. names ≡ map (λ (set : Setting). set.name) sets.now) }
{
    let mut names = List::new(alloc);
    for set in sets {
        names.push(copy_name(alloc, &set.name)?)?;
    }
    Ok(names)
}

/// The body of the reply to settings.
fn answered_body(
    alloc: Global,
    path: &Path,
    names: &[PropName],
    refused: &NameMap<bool>,
    otherwise: u16,
) -> Result<Octets, NoMemory>
    ensures { IfOk result (λ body. body ≡ multistatus (response_text (href_of path.now) (propstats (map (answer_in refused.now otherwise) names.now)))) }
{
    let mut out = begin_multistatus(alloc)?;
    push_response(alloc, path, names, refused, otherwise, &mut out)?;
    end_multistatus(out)
}

/// Appends the response of the resource whose properties are set.
fn push_response(
    alloc: Global,
    path: &Path,
    names: &[PropName],
    refused: &NameMap<bool>,
    otherwise: u16,
    out: &mut Octets,
) -> Result<(), NoMemory>
    ensures { OnOk result (out.new ≡ out.old ++ response_text (href_of path.now) (propstats (map (answer_in refused.now otherwise) names.now))) }
{
    let href = write_path(alloc, path)?;
    let mut response = Response::begin(alloc, href.as_slice(), out)?;
    push_answers(alloc, names, refused, otherwise, &mut response, out)?;
    response.end(out)
}

/// Takes in the answers to some names, one after another.
fn push_answers(
    alloc: Global,
    names: &[PropName],
    refused: &NameMap<bool>,
    otherwise: u16,
    response: &mut Response,
    out: &mut Octets,
) -> Result<(), NoMemory>
    ensures { (front href : List ℕ) → IsAnswered front href [] response.old out.old → OnOk result (IsAnswered front href (map (answer_in refused.now otherwise) names.now) response.new out.new) }
{
    for name in names {
        push_one(alloc, name, refused, otherwise, response, out)?;
    }
    Ok(())
}

/// Takes in the answer to a name. Its element has no content.
fn push_one(
    alloc: Global,
    name: &PropName,
    refused: &NameMap<bool>,
    otherwise: u16,
    response: &mut Response,
    out: &mut Octets,
) -> Result<(), NoMemory>
    ensures { (front href : List ℕ) (answers : List Answer) → IsAnswered front href answers response.old out.old → OnOk result (IsAnswered front href (answers ++ answer_in refused.now otherwise name.now ∷ []) response.new out.new) }
{
    let status = status_of(alloc, name, refused, otherwise)?;
    let place = out.len();
    push_empty_property(name, out)?;
    response.take_in(place, status, out)
}

/// The status of a property: 403 where it is refused.
fn status_of(
    alloc: Global,
    name: &PropName,
    refused: &NameMap<bool>,
    otherwise: u16,
) -> Result<u16, NoMemory>
    ensures { IfOk result (λ status. status ≡ status_in refused.now otherwise name.now) }
{
    let key = key_of(alloc, name)?;
    match refused.get(key.as_slice()) {
        Some(_) => Ok(403),
        None => Ok(otherwise),
    }
}
