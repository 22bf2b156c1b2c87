//! Where a markup ends (XML 1.0, 2.4 to 2.7, 3.1 and 4.1).
ghost use Rattle.std.specs.Prelude.{◌≡◌, ◌≤◌, ◌<◌, ◌+◌, suc, Option, None, length, take, ◌∷◌, ◌++◌};
ghost use Rattle.std.specs.Str.{continuation_len};
ghost use Rattle.cal_base.specs.Xml.XmlMarkup.{is_quote, quote_after, tag_size, character_size, markup_size, markups};

use crate::ends::{begins, size_through};

/// A single or a double quote.
pub fn is_quote(octet: u8) -> bool
    ensures { result ≡ is_quote octet }
{
    octet == b'"' || octet == b'\''
}

/// The quote that is open behind an octet, given the one that is open before it.
fn quote_after(quote: Option<u8>, octet: u8) -> Option<u8>
    ensures { result ≡ quote_after quote octet }
{
    match quote {
        None => { if is_quote(octet) { Some(octet) } else { None } }
        Some(open) => { if octet == open { None } else { Some(open) } }
    }
}

/// How many octets a text has through the first `>` outside quotes; all, where there is none.
#[tactic(auto, using(crate::proofs::TextSteps::tag_size_step, crate::proofs::TextSteps::tag_size_here, crate::proofs::TextSteps::tag_size_nil))]
fn tag_size(text: &[u8]) -> usize
    ensures size { result ≡ tag_size None text.now }
    ensures within { result ≤ length text.now }
{
    let mut quote = None;
    let mut rest = text;
    'octets: while let Some((octet, behind)) = rest.split_first() {
        if *octet == b'>' && quote.is_none() {
            return text.len() - behind.len();
        }
        quote = quote_after(quote, *octet);
        rest = behind;
    }
    text.len()
}

/// How many octets follow the first of a character.
fn continuation_len(first: u8) -> usize
    ensures size { result ≡ continuation_len first }
    ensures within { result ≤ 3 }
{
    if first < 128 {
        0
    } else if first < 224 {
        1
    } else if first < 240 {
        2
    } else {
        3
    }
}

/// The octets of the first character, by the first of them.
fn character_size(text: &[u8]) -> usize
    ensures size { result ≡ character_size text.now }
    ensures within { result ≤ 4 }
{
    match text {
        [] => 0,
        [first, ..] => continuation_len(*first) + 1,
    }
}

/// How many octets the first markup of a text has, or would have.
///
/// Text is cut into characters, with CR LF as one.
pub fn markup_size(text: &[u8]) -> usize
    requires { 0 < length text.now }
    ensures size { result ≡ markup_size text.now }
    ensures within { result ≤ length text.now + 4 }
{
    if begins(text, b"<!--") {
        4 + size_through(b"-->", &text[4..])
    } else if begins(text, b"<![CDATA[") {
        9 + size_through(b"]]>", &text[9..])
    } else if begins(text, b"<?") {
        2 + size_through(b"?>", &text[2..])
    } else if begins(text, b"<") {
        1 + tag_size(&text[1..])
    } else if begins(text, b"&") {
        size_through(b";", text)
    } else if begins(text, b"]]>") {
        3
    } else if begins(text, b"\r\n") {
        2
    } else {
        character_size(text)
    }
}

/// The first markup of a text, and what stands behind it.
#[tactic(auto, using(crate::proofs::TextSteps::markups_first, crate::proofs::TextSteps::markup_size_positive))]
pub fn first_markup(text: &[u8]) -> (&[u8], &[u8])
    requires { 0 < length text.now }
    ensures first { result.0.now ≡ take (markup_size text.now) text.now }
    ensures cut { markups text.now ≡ result.0.now ∷ markups result.1.now }
    ensures whole { result.0.now ++ result.1.now ≡ text.now }
    ensures shorter { length result.0.now + length result.1.now ≡ length text.now }
    ensures some { 0 < length result.0.now }
{
    let size = markup_size(text);
    if size < text.len() {
        text.split_at(size)
    } else {
        (text, &text[text.len()..])
    }
}
