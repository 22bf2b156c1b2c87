//! The fields of a head by their names (RFC 9110, 5).
ghost use Rattle.std.specs.Prelude.{◌≡◌, ◌≤◌, ◌++◌, length, map, nat_lt, slice_get, bytes_eq, codes, flat_map, option_map, All, IfOk, OnOk};
ghost use Rattle.std.specs.List.{list_any};
ghost use Rattle.httparse.specs.Grammar.{trim_ows};
ghost use Rattle.httparse.specs.Spans.{IsHeaderWithin, header_bytes};
ghost use Rattle.cal_model.specs.Streams.HeadFields.{joined, names_close};
ghost use Rattle.http_wire.specs.FieldMaps.{IsRawField, fields_map};
ghost use Rattle.http_wire.specs.Parts.{text_there};

use cal_base::{NoMemory, Octets};
use cal_model::{cut, trimmed};
use http_header::{
    HeaderMap, HeaderMapError, HeaderName, HeaderNameError, HeaderValue, HeaderValueError,
    ValueIter,
};
use httparse::spans::HeaderSpan;
use std::alloc::Global;

/// The fields of a head: under each name its values, in order. A name compares without ASCII case.
#[derive(Drop)]
pub(crate) struct Fields {
    by_name: HeaderMap,
}

/// The fields of a head whose names and values stand there in a block.
pub(crate) fn collect(
    alloc: Global,
    block: &[u8],
    headers: &[HeaderSpan],
) -> Result<Fields, NoMemory>
    requires within { All (IsHeaderWithin (length block.now)) headers.now }
    requires valid { All IsRawField (map (header_bytes block.now) headers.now) }
    requires few { length headers.now ≤ 100 }
    ensures { IfOk result (λ fields. fields.by_name ≡ fields_map (map (header_bytes block.now) headers.now)) }
{
    let mut by_name = HeaderMap::new(alloc);
    for header in headers {
        let name = match HeaderName::from_bytes(alloc, header.name.of(block)) {
            Ok(name) => name,
            Err(HeaderNameError::OutOfMemory) => return Err(NoMemory),
            Err(HeaderNameError::Invalid) => unreachable!(),
        };
        let value = match HeaderValue::from_bytes(alloc, header.value.of(block)) {
            Ok(value) => value,
            Err(HeaderValueError::OutOfMemory) => return Err(NoMemory),
            Err(HeaderValueError::Invalid) => unreachable!(),
        };
        match by_name.append(name, value) {
            Ok(_) => {}
            Err(HeaderMapError::OutOfMemory) => return Err(NoMemory),
            Err(HeaderMapError::MaxSizeReached) => unreachable!(),
        }
    }
    Ok(Fields { by_name })
}

impl Fields {
    ghost use Rattle.http_wire.specs.FieldTexts.{coding_among, values_of};

    /// The values of the fields with a name.
    fn values(&self, name: &[u8]) -> ValueIter<'_, HeaderValue>
        ensures { map (λ value. value.bytes) result ≡ values_of name.now self.now }
    {
        self.by_name.get_all(name).iter()
    }

    /// The value of the first field with a name.
    pub fn first(&self, name: &[u8]) -> Option<&[u8]>
        ensures { option_map text_there result ≡ slice_get (values_of name.now self.now) 0 }
    {
        match self.values(name).next() {
            Some(value) => Some(value.as_bytes()),
            None => None,
        }
    }

    /// Whether several fields have a name.
    pub fn repeats(&self, name: &[u8]) -> bool
        ensures { result ≡ nat_lt 1 (length (values_of name.now self.now)) }
    {
        self.values(name).count() > 1
    }

    /// A copy of the value of the first field with a name.
    pub fn copied(&self, alloc: Global, name: &[u8]) -> Result<Option<Octets>, NoMemory>
        ensures { IfOk result (λ text. text ≡ slice_get (values_of name.now self.now) 0) }
    {
        copy(alloc, self.first(name))
    }

    /// The values of all fields with a name as one (RFC 9110, 5.3).
    pub fn joined(&self, alloc: Global, name: &[u8]) -> Result<Option<Octets>, NoMemory>
        ensures { IfOk result (λ text. text ≡ joined (values_of name.now self.now)) }
    {
        let mut values = self.values(name);
        let Some(value) = values.next() else {
            return Ok(None);
        };
        let mut all = Octets::of(alloc, value.as_bytes())?;
        push_all(&mut all, values)?;
        Ok(Some(all))
    }

    /// The content coding: of several the first other than `identity`, else the first (RFC 9110,
    /// 8.4).
    pub fn coding(&self) -> Option<&[u8]>
        ensures { option_map text_there result ≡ coding_among (values_of (codes "content-encoding") self.now) }
    {
        let mut rest = self.values(b"content-encoding");
        'codings: while let Some(value) = rest.next() {
            let coding = value.as_bytes();
            if coding != b"identity".as_slice() {
                return Some(coding);
            }
        }
        self.first(b"content-encoding")
    }

    /// Whether some field Connection has the option `close` (RFC 9112, 9.6).
    pub fn asks_close(&self) -> bool
        ensures { result ≡ list_any names_close (values_of (codes "connection") self.now) }
    {
        let mut rest = self.values(b"connection");
        'connections: while let Some(value) = rest.next() {
            if names_close(value.as_bytes()) {
                return true;
            }
        }
        false
    }
}

/// Puts values at the end, each behind a comma and a space.
fn push_all(all: &mut Octets, values: ValueIter<'_, HeaderValue>) -> Result<(), NoMemory>
    ensures { OnOk result (all.new ≡ all.old ++ flat_map (λ other. codes ", " ++ other) (map (λ value. value.bytes) values.entry)) }
{
    let mut rest = values;
    'values: while let Some(value) = rest.next() {
        all.extend_from_slice(b", ")?;
        all.extend_from_slice(value.as_bytes())?;
    }
    Ok(())
}

/// A copy of a text, if it is there.
pub(crate) fn copy(alloc: Global, text: Option<&[u8]>) -> Result<Option<Octets>, NoMemory>
    ensures { IfOk result (λ octets. octets ≡ option_map text_there text.entry) }
{
    match text {
        Some(text) => Ok(Some(Octets::of(alloc, text)?)),
        None => Ok(None),
    }
}

/// Whether some option of a Connection field is `close`, with this very case.
fn names_close(value: &[u8]) -> bool
    ensures { result ≡ names_close value.now }
{
    let mut rest = value;
    'options: while let Some((option, behind)) = cut(rest, b',') {
        if is_close(option) {
            return true;
        }
        rest = behind;
    }
    is_close(rest)
}

/// Whether an option is `close`, without the spaces and tabs around it.
fn is_close(option: &[u8]) -> bool
    ensures { result ≡ bytes_eq (trim_ows option.now) (codes "close") }
{
    trimmed(option) == b"close".as_slice()
}
