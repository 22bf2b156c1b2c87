//! Properties with their status (RFC 4918, 14.18 and 14.22).
ghost use Rattle.std.specs.Prelude.{◌≡◌, ◌≤◌, ◌++◌, ℕ, List, OnOk, length, take, flat_map};
ghost use Rattle.cal_model.specs.Replies.XmlText.{xml_text};
ghost use Rattle.cal_model.specs.Properties.PropertyReplies.{property_element, propstat_of};
ghost use Rattle.cal_model.specs.Properties.PropertyTable.{Answer, without_value};
ghost use Rattle.multistatus.specs.ReplyPieces.{number_of, propstat_front, propstat_end, with_text};

use crate::statuses::{PropStatus, push_status};
use crate::tags::{push_close, push_open};
use cal_base::{NoMemory, Octets};
use cal_model::PropName;
use dav_write::push_text;

/// What stands before the elements of properties that have one status.
pub(crate) const PROPSTAT_FRONT: &[u8] = b"<D:propstat><D:prop>";

/// Appends the element of a property without content.
pub fn push_empty_property(name: &PropName, out: &mut Octets) -> Result<(), NoMemory>
    ensures element { OnOk result ((status : ℕ) → out.new ≡ out.old ++ property_element (without_value name.now status)) }
    ensures front { take (length out.old) out.new ≡ out.old }
{
    push_open(name.space.as_slice(), name.name.as_slice(), out)?;
    out.extend_from_slice(b"/>")
}

/// Appends the element of a property whose content is a text.
pub fn push_text_property(name: &PropName, text: &[u8], out: &mut Octets) -> Result<(), NoMemory>
    ensures element { OnOk result (out.new ≡ out.old ++ property_element (with_text name.now text.now)) }
    ensures front { take (length out.old) out.new ≡ out.old }
{
    push_open(name.space.as_slice(), name.name.as_slice(), out)?;
    let place = out.len();
    out.push(b'>')?;
    push_text(text, out)?;
    push_close(place, name.space.as_slice(), name.name.as_slice(), out)
}

/// Appends the elements of properties with their status; nothing where there is none.
pub(crate) fn push_propstat(
    status: PropStatus,
    elements: &[u8],
    out: &mut Octets,
) -> Result<(), NoMemory>
    ensures text { (answers : List Answer) → elements.now ≡ flat_map property_element answers → OnOk result (out.new ≡ out.old ++ propstat_of (number_of status) answers) }
    ensures front { take (length out.old) out.new ≡ out.old }
{
    if elements.is_empty() {
        return Ok(());
    }
    out.extend_from_slice(PROPSTAT_FRONT)?;
    out.extend_from_slice(elements)?;
    push_propstat_end(status, out)
}

/// Ends properties of status 200 that stand behind a place, where their front begins; where there is
/// none the front is cut off.
pub(crate) fn end_found(begin: usize, found: usize, out: &mut Octets) -> Result<(), NoMemory>
    ensures text { (before : List ℕ) (answers : List Answer) → begin ≡ length before → found ≡ length (before ++ propstat_front) → out.old ≡ (before ++ propstat_front) ++ flat_map property_element answers → OnOk result (out.new ≡ before ++ propstat_of 200 answers) }
    ensures front { begin ≤ length out.old → take begin out.new ≡ take begin out.old }
{
    if out.len() == found {
        out.truncate(begin);
        return Ok(());
    }
    push_propstat_end(PropStatus::Found, out)
}

/// Appends what stands behind the elements of properties that have one status.
fn push_propstat_end(status: PropStatus, out: &mut Octets) -> Result<(), NoMemory>
    ensures text { OnOk result (out.new ≡ out.old ++ propstat_end (number_of status)) }
    ensures front { take (length out.old) out.new ≡ out.old }
{
    out.extend_from_slice(b"</D:prop>")?;
    push_status(status, out)?;
    out.extend_from_slice(b"</D:propstat>")
}
