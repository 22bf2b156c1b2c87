//! How the body behind a head is framed (RFC 9112, 6).
ghost use Rattle.std.specs.Prelude.{◌≡◌, option_map};
ghost use Rattle.std.specs.List.{list_any};
ghost use Rattle.httparse.specs.Grammar.{RequestHead};
ghost use Rattle.cal_model.specs.Streams.HeadFields.{single_fields};
ghost use Rattle.http_wire.specs.FieldTexts.{AreFieldsOf, is_several};
ghost use Rattle.http_wire.specs.HeadReading.{FramingReads, framed, sized_part};
ghost use Rattle.http_wire.specs.Parts.{text_there};

use crate::digits::number;
use crate::fields::Fields;
use crate::limits::BODY_LIMIT;
use crate::part::Part;
use cal_model::WireFault;

/// What stands first in the body, or why the fields of the head are refused.
pub(crate) fn framing(fields: &Fields) -> Result<Part, WireFault>
    ensures { (head : RequestHead) → AreFieldsOf fields.now head → FramingReads result head }
{
    if repeats_single(fields) {
        return Err(WireFault::BadHead);
    }
    framed(
        fields.first(b"transfer-encoding"),
        fields.first(b"content-length"),
    )
}

/// Whether a field stands several times that stands once at most.
fn repeats_single(fields: &Fields) -> bool
    ensures { result ≡ list_any (is_several fields.now) single_fields }
{
    fields.repeats(b"authorization")
        || fields.repeats(b"content-length")
        || fields.repeats(b"content-type")
        || fields.repeats(b"depth")
        || fields.repeats(b"transfer-encoding")
}

/// What a Transfer-Encoding and a Content-Length say, each of which stands once at most.
fn framed(coding: Option<&[u8]>, length: Option<&[u8]>) -> Result<Part, WireFault>
    ensures { result ≡ framed (option_map text_there coding.entry) (option_map text_there length.entry) }
{
    match (coding, length) {
        (None, None) => Ok(Part::Sized { left: 0 }),
        (None, Some(length)) => sized_part(length),
        (Some(coding), None) if coding == b"chunked".as_slice() => Ok(Part::Line),
        (Some(_), _) => Err(WireFault::BadHead),
    }
}

/// A body of the length that a Content-Length states: 1 to 19 digits (RFC 9110, 8.6).
fn sized_part(length: &[u8]) -> Result<Part, WireFault>
    ensures { result ≡ sized_part length.now }
{
    let Some(left) = number(10, length, 19) else {
        return Err(WireFault::BadHead);
    };
    if left > BODY_LIMIT {
        return Err(WireFault::BodyTooLong);
    }
    Ok(Part::Sized { left })
}
