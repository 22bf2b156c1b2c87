//! The response of one resource (RFC 4918, 14.24).
ghost use Rattle.std.specs.Prelude.{◌≡◌, ◌≤◌, ◌∷◌, [], ◌++◌, ◌==◌, ℕ, List, IfOk, OnOk, length, take, drop, if◌then◌else◌};
ghost use Rattle.cal_model.specs.Replies.XmlText.{response, element, xml_text};
ghost use Rattle.std.specs.Prelude.{codes};
ghost use Rattle.cal_model.specs.Properties.PropertyReplies.{property_element, propstats, status_response};
ghost use Rattle.cal_model.specs.Properties.PropertyTable.{Answer};
ghost use Rattle.multistatus.specs.ReplyPieces.{number_of, response_front};
ghost use Rattle.multistatus.specs.Answered.{IsAnswered, others};

use crate::propstats::{PROPSTAT_FRONT, end_found, push_propstat};
use crate::statuses::{PropStatus, push_status};
use cal_base::{NoMemory, Octets};
use dav_write::push_text;
use std::alloc::Global;

/// The response of a resource while its properties are answered one after another. The elements of
/// those of status 200 stand in the buffer of the reply at once. Those of the others, which have no
/// content, stand aside until the response ends.
#[derive(Drop)]
pub struct Response {
    /// Where the properties of status 200 begin in the buffer, with their tags and without.
    begin: usize,
    found: usize,
    not_found: Octets,
    forbidden: Octets,
    failed: Octets,
}

impl Response {
    /// Begins the response of a resource at an href behind what a buffer has.
    pub fn begin(alloc: Global, href: &[u8], out: &mut Octets) -> Result<Response, NoMemory>
        ensures begun { IfOk result (λ response. IsAnswered out.old href.now [] response out.new) }
        ensures front { take (length out.old) out.new ≡ out.old }
    {
        push_response_front(href, out)?;
        let begin = out.len();
        out.extend_from_slice(PROPSTAT_FRONT)?;
        Ok(Response {
            begin,
            found: out.len(),
            not_found: Octets::new(alloc),
            forbidden: Octets::new(alloc),
            failed: Octets::new(alloc),
        })
    }

    /// Takes in one more answer, whose element was appended to the buffer at a place: at status 200 it
    /// stays there. At another status than 200, 404, 403 and 424 it stands nowhere.
    pub fn take_in(&mut self, place: usize, status: u16, out: &mut Octets) -> Result<(), NoMemory>
        requires place { place ≤ length out.old }
        ensures answered { (front href : List ℕ) (answers : List Answer) (answer : Answer) → IsAnswered front href answers self.old (take place out.old) → drop place out.old ≡ property_element answer → status ≡ answer.status → OnOk result (IsAnswered front href (answers ++ answer ∷ []) self.new out.new) }
        ensures front { take place out.new ≡ take place out.old }
    {
        if status == 200 {
            return Ok(());
        }
        self.set_aside(status, &out.as_slice()[place..])?;
        out.truncate(place);
        Ok(())
    }

    /// Puts the element of an answer to those of its status.
    fn set_aside(&mut self, status: u16, element: &[u8]) -> Result<(), NoMemory>
        ensures begin { self.new.begin ≡ self.old.begin }
        ensures found { self.new.found ≡ self.old.found }
        ensures not_found { OnOk result (self.new.not_found ≡ self.old.not_found ++ (if status == 404 then element.now else [])) }
        ensures forbidden { OnOk result (self.new.forbidden ≡ self.old.forbidden ++ (if status == 403 then element.now else [])) }
        ensures failed { OnOk result (self.new.failed ≡ self.old.failed ++ (if status == 424 then element.now else [])) }
    {
        match status {
            404 => self.not_found.extend_from_slice(element),
            403 => self.forbidden.extend_from_slice(element),
            424 => self.failed.extend_from_slice(element),
            _ => Ok(()),
        }
    }

    /// Ends the response: behind the properties of status 200 stand those of 404, 403 and 424. A
    /// status that no property has is left out.
    pub fn end(self, out: &mut Octets) -> Result<(), NoMemory>
        ensures text { (front href : List ℕ) (answers : List Answer) → IsAnswered front href answers self out.old → OnOk result (out.new ≡ front ++ response href (propstats answers)) }
        ensures front { (front href : List ℕ) (answers : List Answer) → IsAnswered front href answers self out.old → take (length front) out.new ≡ front }
    {
        end_found(self.begin, self.found, out)?;
        self.push_others(out)?;
        out.extend_from_slice(b"</D:response>")
    }

    /// Appends the properties of the other statuses.
    fn push_others(&self, out: &mut Octets) -> Result<(), NoMemory>
        ensures text { (front href written : List ℕ) (answers : List Answer) → IsAnswered front href answers self.now written → OnOk result (out.new ≡ out.old ++ others answers) }
        ensures front { take (length out.old) out.new ≡ out.old }
    {
        push_propstat(PropStatus::NotFound, self.not_found.as_slice(), out)?;
        push_propstat(PropStatus::Forbidden, self.forbidden.as_slice(), out)?;
        push_propstat(PropStatus::FailedDependency, self.failed.as_slice(), out)
    }
}

/// Appends the response of a resource without properties, which has a status of its own.
pub fn push_status_response(
    href: &[u8],
    status: PropStatus,
    out: &mut Octets,
) -> Result<(), NoMemory>
    ensures text { OnOk result (out.new ≡ out.old ++ status_response href.now (number_of status)) }
    ensures front { take (length out.old) out.new ≡ out.old }
{
    push_response_front(href, out)?;
    push_status(status, out)?;
    out.extend_from_slice(b"</D:response>")
}

/// Appends the tag that opens a response, and the href of its resource.
fn push_response_front(href: &[u8], out: &mut Octets) -> Result<(), NoMemory>
    ensures text { OnOk result (out.new ≡ out.old ++ response_front href.now) }
    ensures front { take (length out.old) out.new ≡ out.old }
{
    out.extend_from_slice(b"<D:response>")?;
    push_href_text(href, out)
}

/// Appends the element of an href as it was sent, which may be no path.
fn push_href_text(href: &[u8], out: &mut Octets) -> Result<(), NoMemory>
    ensures text { OnOk result (out.new ≡ out.old ++ element (codes "D:href") (xml_text href.now)) }
    ensures front { take (length out.old) out.new ≡ out.old }
{
    if href.is_empty() {
        return out.extend_from_slice(b"<D:href/>");
    }
    out.extend_from_slice(b"<D:href>")?;
    push_text(href, out)?;
    out.extend_from_slice(b"</D:href>")
}
