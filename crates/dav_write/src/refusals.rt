//! The bodies of refusals.
ghost use Rattle.std.specs.Prelude.{◌≡◌, ◌≤◌, ◌-◌, ◌∷◌, [], ◌++◌, IfOk, OnOk, length};
ghost use Rattle.cal_model.specs.Refusals.RefusalReplies.{refusal_reply, privileges_of, need_privileges as refused_for_want_of, error_body as error_text};
ghost use Rattle.dav_write.specs.ErrorTexts.{error_front, need_privileges_front, need_privileges_end};
ghost use Rattle.dav_write.specs.ShortPaths.{HasShortNames};

use crate::reserved_paths::put_path;
use cal_base::{NoMemory, Octets, ReservedList};
use cal_model::{Cond, Path, PrivilegeSet, Refusal};
use std::alloc::Global;

/// The XML declaration, and the tag of an error without its end.
const ERROR_FRONT: &[u8] =
    b"<?xml version=\"1.0\" encoding=\"utf-8\"?>\n<D:error xmlns:D=\"DAV:\" xmlns:C=\"urn:ietf:params:xml:ns:caldav\"";

/// Room enough for the body of a refusal beside its condition.
const ERROR_ROOM: usize = 128;

/// The body of a refusal (RFC 4918, 16): an error that holds its condition, or no octet where it has
/// none.
pub fn error_body(alloc: Global, refusal: &Refusal) -> Result<Octets, NoMemory>
    ensures { IfOk result (λ octets. octets ≡ (refusal_reply refusal.now).body) }
{
    match &refusal.cond {
        Cond::None => Ok(Octets::new(alloc)),
        Cond::Dav(condition) => error_with(alloc, condition.as_slice()),
        Cond::Cal(condition) => error_with(alloc, condition.as_slice()),
    }
}

/// The body that names a condition. It is built once, in room that is taken before.
fn error_with(alloc: Global, condition: &[u8]) -> Result<Octets, NoMemory>
    ensures { IfOk result (λ octets. octets ≡ error_text condition.now) }
{
    let mut out = Octets::new(alloc);
    out.reserve(condition.len().saturating_add(ERROR_ROOM))?;
    push_front(&mut out)?;
    if condition.is_empty() {
        out.extend_from_slice(b"/>")?;
    } else {
        out.push(b'>')?;
        out.extend_from_slice(condition)?;
        out.extend_from_slice(b"</D:error>")?;
    }
    Ok(out)
}

#[tactic(auto, unfolding(crate::specs::ErrorTexts::error_front, cal_base::specs::Xml::CanonicalXml::attribute_text))]
fn push_front(out: &mut Octets) -> Result<(), NoMemory>
    ensures { OnOk result (out.new ≡ out.old ++ error_front) }
{
    out.extend_from_slice(ERROR_FRONT)
}

/// Appends the body of the refusal for want of a privilege on a resource (RFC 3744, 7.1.1), without
/// taking memory. A set that is no single privilege is named by no element.
pub fn need_privileges(path: &Path, privilege: PrivilegeSet, out: &mut ReservedList<u8>)
    requires names { HasShortNames path.now }
    requires room { 4096 ≤ out.old.room }
    ensures items { out.new.items ≡ out.old.items ++ (refusal_reply (refused_for_want_of path.now privilege.0)).body }
    ensures room { out.old.room - 4096 ≤ out.new.room }
{
    put_need_privileges_front(out);
    put_path(path, out);
    out.extend_from_slice(b"</D:href>");
    out.extend_from_slice(privilege_element(privilege.0));
    out.extend_from_slice(b"</D:resource></D:need-privileges></D:error>");
}

#[tactic(auto, unfolding(crate::specs::ErrorTexts::error_front, crate::specs::ErrorTexts::need_privileges_front, cal_base::specs::Xml::CanonicalXml::attribute_text))]
fn put_need_privileges_front(out: &mut ReservedList<u8>)
    requires { 256 ≤ out.old.room }
    ensures items { out.new.items ≡ out.old.items ++ need_privileges_front }
    ensures room { out.old.room - 256 ≤ out.new.room }
{
    out.extend_from_slice(ERROR_FRONT);
    out.extend_from_slice(b"><D:need-privileges><D:resource><D:href>");
}

/// The element of the privilege that has this bit (RFC 3744, 3.1 to 3.10; RFC 4791, 6.1.1).
fn privilege_element(bits: u16) -> &'static [u8]
    ensures text { result.now ≡ privileges_of bits }
    ensures short { length result.now ≤ 80 }
{
    match bits {
        1 => b"<D:privilege><C:read-free-busy/></D:privilege>",
        2 => b"<D:privilege><D:read/></D:privilege>",
        4 => b"<D:privilege><D:write-content/></D:privilege>",
        8 => b"<D:privilege><D:write-properties/></D:privilege>",
        16 => b"<D:privilege><D:bind/></D:privilege>",
        32 => b"<D:privilege><D:unbind/></D:privilege>",
        64 => b"<D:privilege><D:read-acl/></D:privilege>",
        128 => b"<D:privilege><D:write-acl/></D:privilege>",
        256 => b"<D:privilege><D:read-current-user-privilege-set/></D:privilege>",
        _ => b"",
    }
}
