//! The fields that say what a body is (RFC 9110, 8.3.1 and 8.4).
ghost use Rattle.std.specs.Prelude.{◌≡◌, bytes_eq};
ghost use Rattle.std.specs.Str.{str_to_ascii_lowercase};
ghost use Rattle.cal_model.specs.Requests.FieldValues.{media_type, can_be_xml, can_be_calendar, is_plain_coding};

use cal_base::Octets;
use cal_model::{text_before, trimmed};

/// Whether a body with this Content-Type, if it has one, can be XML.
pub(crate) fn can_be_xml(media: &Option<Octets>) -> bool
    ensures { result ≡ can_be_xml media.now }
{
    match media {
        Some(value) => {
            is_media(value.as_slice(), b"text/xml")
                || is_media(value.as_slice(), b"application/xml")
        }
        None => true,
    }
}

/// Whether a body with this Content-Type, if it has one, can be a calendar object.
pub(crate) fn can_be_calendar(media: &Option<Octets>) -> bool
    ensures { result ≡ can_be_calendar media.now }
{
    match media {
        Some(value) => is_media(value.as_slice(), b"text/calendar"),
        None => true,
    }
}

/// Whether a Content-Type is of a media type, which is written in lower case: its parameters do not
/// count, nor does its case.
fn is_media(value: &[u8], wanted: &[u8]) -> bool
    requires { str_to_ascii_lowercase wanted.now ≡ wanted.now }
    ensures { result ≡ bytes_eq (media_type value.now) wanted.now }
{
    trimmed(text_before(value, b';')).eq_ignore_ascii_case(wanted)
}

/// Whether a body with this Content-Encoding, if it has one, is not coded.
pub(crate) fn is_plain_coding(coding: &Option<Octets>) -> bool
    ensures { result ≡ is_plain_coding coding.now }
{
    match coding {
        Some(value) => value.as_slice() == b"identity".as_slice(),
        None => true,
    }
}
