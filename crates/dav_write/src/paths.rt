//! Paths as they are written.
ghost use Rattle.std.specs.Prelude.{◌≡◌, ◌++◌, IfOk, OnOk, OnErr, Some, IsTrue, ◌∷◌, [], if◌then◌else◌, length, take, codes, ℕ, ◌<◌, slice_index};
ghost use Rattle.percent_encoding.specs.Percent.{percent_encode_byte as escaped_octet};
ghost use Rattle.cal_model.specs.Replies.Hrefs.{is_kept, segment, href};
ghost use Rattle.cal_model.specs.Paths.TargetPaths.{target_path, is_path};
ghost use Rattle.cal_model.specs.Paths.TargetPathLaws.{HasOctets};

use cal_base::{NoMemory, Octets};
use cal_model::Path;
use percent_encoding::percent_encode_byte;
use std::alloc::Global;

/// The octets of a path: each name percent-encoded, and a slash behind a collection (RFC 3986, 2.1
/// and 3.3; RFC 4918, 5.2). `read_path` reads them back as that path.
pub fn write_path(alloc: Global, path: &Path) -> Result<Octets, NoMemory>
    ensures text { IfOk result (λ octets. octets ≡ href path.now) }
    ensures read_back { IfOk result (λ octets. IsTrue (is_path path.now) → target_path octets ≡ Some path.now) }
{
    let mut out = Octets::new(alloc);
    push_path(path, &mut out)?;
    Ok(out)
}

/// Appends the octets of a path. Without memory nothing is appended.
pub fn append_path(path: &Path, out: &mut Octets) -> Result<(), NoMemory>
    ensures ok { OnOk result (out.new ≡ out.old ++ href path.now) }
    ensures err { OnErr result (out.new ≡ out.old) }
{
    let before = out.len();
    match push_path(path, out) {
        Ok(()) => Ok(()),
        Err(NoMemory) => {
            out.truncate(before);
            Err(NoMemory)
        }
    }
}

/// Appends the octets of a path; without memory perhaps a part of them.
fn push_path(path: &Path, out: &mut Octets) -> Result<(), NoMemory>
    ensures text { OnOk result (out.new ≡ out.old ++ href path.now) }
    ensures octets { OnOk result (HasOctets path.now) }
    ensures front { take (length out.old) out.new ≡ out.old }
{
    match path {
        Path::Root => out.push(b'/'),
        Path::Principal(user) => push_collection(b"/principals/", user.as_slice(), out),
        Path::Home(user) => push_collection(b"/calendars/", user.as_slice(), out),
        Path::Calendar(user, calendar) => {
            push_collection(b"/calendars/", user.as_slice(), out)?;
            push_collection(b"", calendar.as_slice(), out)
        }
        Path::Object(user, calendar, object) => {
            push_collection(b"/calendars/", user.as_slice(), out)?;
            push_collection(b"", calendar.as_slice(), out)?;
            push_segment(object.as_slice(), out)
        }
    }
}

/// Appends what stands before a name, the name, and a slash.
fn push_collection(front: &[u8], name: &[u8], out: &mut Octets) -> Result<(), NoMemory>
    ensures text { OnOk result (out.new ≡ out.old ++ (front.now ++ (segment name.now ++ codes "/"))) }
    ensures octets { (i : ℕ) → slice_index name.now i < 256 }
    ensures front { take (length out.old) out.new ≡ out.old }
{
    out.extend_from_slice(front)?;
    push_segment(name, out)?;
    out.push(b'/')
}

/// Appends a name as a segment (RFC 3986, 2.1).
#[tactic(auto, unfolding(cal_model::specs::Replies::Hrefs::segment))]
fn push_segment(name: &[u8], out: &mut Octets) -> Result<(), NoMemory>
    ensures text { OnOk result (out.new ≡ out.old ++ segment name.now) }
    ensures octets { (i : ℕ) → slice_index name.now i < 256 }
    ensures front { take (length out.old) out.new ≡ out.old }
{
    'octets: for octet in name {
        push_octet(*octet, out)?;
    }
    Ok(())
}

/// Appends an octet of a name.
fn push_octet(octet: u8, out: &mut Octets) -> Result<(), NoMemory>
    ensures text { OnOk result (out.new ≡ out.old ++ (if is_kept octet then octet ∷ [] else escaped_octet octet)) }
    ensures front { take (length out.old) out.new ≡ out.old }
{
    if is_kept(octet) {
        out.push(octet)
    } else {
        out.extend_from_slice(percent_encode_byte(octet).as_bytes())
    }
}

/// Whether an octet stands for itself in a path: `A-Z a-z 0-9 - . _ ~ @`.
pub(crate) fn is_kept(octet: u8) -> bool
    ensures { result ≡ is_kept octet }
{
    (b'A' <= octet && octet <= b'Z')
        || (b'a' <= octet && octet <= b'z')
        || (b'0' <= octet && octet <= b'9')
        || octet == b'-'
        || octet == b'.'
        || octet == b'_'
        || octet == b'~'
        || octet == b'@'
}
