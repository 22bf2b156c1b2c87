//! The paths of users' resources as elements.
ghost use Rattle.std.specs.Prelude.{◌≡◌, ◌++◌, OnOk, length, take};
ghost use Rattle.cal_model.specs.declared.path.Path.TheVariants.{Principal, Home};
ghost use Rattle.cal_model.specs.Replies.ReplyElements.{href_element};

use cal_base::{NoMemory, Octets};
use cal_model::Path;
use dav_write::append_path;
use std::alloc::Global;

/// Appends the element of a path (RFC 4918, 14.7). No octet of a written path is escaped in XML.
pub fn push_href(path: &Path, out: &mut Octets) -> Result<(), NoMemory>
    ensures text { OnOk result (out.new ≡ out.old ++ href_element path.now) }
    ensures front { take (length out.old) out.new ≡ out.old }
{
    out.extend_from_slice(b"<D:href>")?;
    append_path(path, out)?;
    out.extend_from_slice(b"</D:href>")
}

/// Appends the element of the path of a user's principal.
pub fn push_principal(alloc: Global, user: &[u8], out: &mut Octets) -> Result<(), NoMemory>
    ensures text { OnOk result (out.new ≡ out.old ++ href_element (Principal user.now)) }
    ensures front { take (length out.old) out.new ≡ out.old }
{
    let path = Path::Principal(Octets::of(alloc, user)?);
    push_href(&path, out)
}

/// Appends the element of the path of a user's home.
pub fn push_home(alloc: Global, user: &[u8], out: &mut Octets) -> Result<(), NoMemory>
    ensures text { OnOk result (out.new ≡ out.old ++ href_element (Home user.now)) }
    ensures front { take (length out.old) out.new ≡ out.old }
{
    let path = Path::Home(Octets::of(alloc, user)?);
    push_href(&path, out)
}
