//! Paths written into room that is there, without taking memory.
ghost use Rattle.std.specs.Prelude.{◌≡◌, ◌≤◌, ◌-◌, ◌*◌, ◌∷◌, [], ◌++◌, length, if◌then◌else◌, codes};
ghost use Rattle.percent_encoding.specs.Percent.{percent_encode_byte as escaped_octet};
ghost use Rattle.cal_model.specs.Replies.Hrefs.{is_kept, segment, href};
ghost use Rattle.dav_write.specs.ShortPaths.{HasShortNames};

use crate::paths::is_kept;
use cal_base::ReservedList;
use cal_model::Path;
use percent_encoding::percent_encode_byte;

/// Appends the octets of a path whose names have at most 200 octets.
pub(crate) fn put_path(path: &Path, out: &mut ReservedList<u8>)
    requires names { HasShortNames path.now }
    requires room { 2048 ≤ out.old.room }
    ensures items { out.new.items ≡ out.old.items ++ href path.now }
    ensures room { out.old.room - 2048 ≤ out.new.room }
{
    match path {
        Path::Root => out.push(b'/'),
        Path::Principal(user) => put_collection(b"/principals/", user.as_slice(), out),
        Path::Home(user) => put_collection(b"/calendars/", user.as_slice(), out),
        Path::Calendar(user, calendar) => {
            put_collection(b"/calendars/", user.as_slice(), out);
            put_collection(b"", calendar.as_slice(), out)
        }
        Path::Object(user, calendar, object) => {
            put_collection(b"/calendars/", user.as_slice(), out);
            put_collection(b"", calendar.as_slice(), out);
            put_segment(object.as_slice(), out)
        }
    }
}

/// Appends what stands before a name, the name, and a slash.
fn put_collection(front: &[u8], name: &[u8], out: &mut ReservedList<u8>)
    requires front { length front.now ≤ 12 }
    requires name { length name.now ≤ 200 }
    requires room { 613 ≤ out.old.room }
    ensures items { out.new.items ≡ out.old.items ++ (front.now ++ (segment name.now ++ codes "/")) }
    ensures room { out.old.room - 613 ≤ out.new.room }
{
    out.extend_from_slice(front);
    put_segment(name, out);
    out.push(b'/')
}

/// Appends a name as a segment (RFC 3986, 2.1).
#[tactic(auto, unfolding(cal_model::specs::Replies::Hrefs::segment))]
fn put_segment(name: &[u8], out: &mut ReservedList<u8>)
    requires { 3 * length name.now ≤ out.old.room }
    ensures items { out.new.items ≡ out.old.items ++ segment name.now }
    ensures room { out.old.room - 3 * length name.now ≤ out.new.room }
{
    'octets: for octet in name {
        put_octet(*octet, out);
    }
}

/// Appends an octet of a name.
fn put_octet(octet: u8, out: &mut ReservedList<u8>)
    requires { 3 ≤ out.old.room }
    ensures items { out.new.items ≡ out.old.items ++ (if is_kept octet then octet ∷ [] else escaped_octet octet) }
    ensures room { out.old.room - 3 ≤ out.new.room }
{
    if is_kept(octet) {
        out.push(octet);
    } else {
        out.extend_from_slice(percent_encode_byte(octet).as_bytes());
    }
}
