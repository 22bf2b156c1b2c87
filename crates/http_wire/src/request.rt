//! The request that a head is.
ghost use Rattle.std.specs.Prelude.{◌≡◌, ◌==◌, ◌||◌, codes, slice_get, IfOk};
ghost use Rattle.std.specs.List.{list_any};
ghost use Rattle.cal_model.specs.Streams.HeadFields.{joined, names_close};
ghost use Rattle.http_wire.specs.FieldTexts.{coding_among, values_of};
ghost use Rattle.http_wire.specs.HeadReading.{RequestReads};

use crate::fields::{Fields, copy};
use cal_base::{NoMemory, Octets};
use cal_model::WireRequest;
use std::alloc::Global;

/// The parts of a request line.
#[derive(Clone, Copy)]
pub(crate) struct Line<'b> {
    pub method: &'b [u8],
    pub target: &'b [u8],
    pub minor: u8,
}

/// The request of a head, with no body.
pub(crate) fn request_of(
    alloc: Global,
    line: Line<'_>,
    fields: &Fields,
) -> Result<WireRequest, NoMemory>
    ensures { IfOk result (RequestReads line.entry fields.now) }
{
    let (method, target) = line_texts(alloc, line)?;
    let (authorization, media, coding) = content_texts(alloc, fields)?;
    let (depth, if_match, if_none) = condition_texts(alloc, fields)?;
    Ok(WireRequest {
        method,
        target,
        close: closes(line, fields),
        authorization,
        media,
        coding,
        depth,
        if_match,
        if_none,
        body: Octets::new(alloc),
    })
}

/// Whether the connection closes after the reply: version 1.0, or a field that asks for it (RFC 9112,
/// 9.3).
fn closes(line: Line<'_>, fields: &Fields) -> bool
    ensures { result ≡ ((line.entry.minor == 0) || list_any names_close (values_of (codes "connection") fields.now)) }
{
    line.minor == 0 || fields.asks_close()
}

fn line_texts(alloc: Global, line: Line<'_>) -> Result<(Octets, Octets), NoMemory>
    ensures { IfOk result (λ texts. (texts.0 ≡ line.entry.method.now) × (texts.1 ≡ line.entry.target.now)) }
{
    let method = Octets::of(alloc, line.method)?;
    let target = Octets::of(alloc, line.target)?;
    Ok((method, target))
}

type Texts = (Option<Octets>, Option<Octets>, Option<Octets>);

fn content_texts(alloc: Global, fields: &Fields) -> Result<Texts, NoMemory>
    ensures { IfOk result (λ texts. (texts.0 ≡ slice_get (values_of (codes "authorization") fields.now) 0) × (texts.1 ≡ slice_get (values_of (codes "content-type") fields.now) 0) × (texts.2 ≡ coding_among (values_of (codes "content-encoding") fields.now))) }
{
    let authorization = fields.copied(alloc, b"authorization")?;
    let media = fields.copied(alloc, b"content-type")?;
    let coding = copy(alloc, fields.coding())?;
    Ok((authorization, media, coding))
}

fn condition_texts(alloc: Global, fields: &Fields) -> Result<Texts, NoMemory>
    ensures { IfOk result (λ texts. (texts.0 ≡ slice_get (values_of (codes "depth") fields.now) 0) × (texts.1 ≡ joined (values_of (codes "if-match") fields.now)) × (texts.2 ≡ joined (values_of (codes "if-none-match") fields.now))) }
{
    let depth = fields.copied(alloc, b"depth")?;
    let if_match = fields.joined(alloc, b"if-match")?;
    let if_none = fields.joined(alloc, b"if-none-match")?;
    Ok((depth, if_match, if_none))
}
