//! The names that a calendar or an object may have.
ghost use Rattle.std.specs.Prelude.{◌≡◌, ◌==◌, not, ◌&&◌, nat_le, length};
ghost use Rattle.std.specs.List.{list_all};
ghost use Rattle.std.specs.Str.{is_utf8};
ghost use Rattle.cal_model.specs.Paths.TargetPaths.{is_resource_name};

use std::str;

/// The most octets of a name.
const NAME_OCTETS: usize = 200;

/// Whether a calendar or an object may have this name: 1 to 200 octets of UTF-8 without slash and
/// controls, and neither `.` nor `..` (RFC 3986, 3.3).
pub fn is_resource_name(name: &[u8]) -> bool
    ensures { result ≡ is_resource_name name.now }
{
    is_short_text(name)
        && has_name_octets(name)
        && name != b".".as_slice()
        && name != b"..".as_slice()
}

fn is_short_text(name: &[u8]) -> bool
    ensures { result ≡ (nat_le 1 (length name.now) && nat_le (length name.now) 200 && is_utf8 name.now) }
{
    1 <= name.len() && name.len() <= NAME_OCTETS && is_utf8(name)
}

fn has_name_octets(name: &[u8]) -> bool
    ensures { result ≡ list_all (λ octet. nat_le 32 octet && not (octet == 47)) name.now }
{
    name.iter().all(|octet| is_name_octet(*octet))
}

fn is_name_octet(octet: u8) -> bool
    ensures { result ≡ (nat_le 32 octet && not (octet == 47)) }
{
    32 <= octet && octet != b'/'
}

fn is_utf8(text: &[u8]) -> bool
    ensures { result ≡ is_utf8 text.now }
{
    match str::from_utf8(text) {
        Ok(_) => true,
        Err(_) => false,
    }
}
