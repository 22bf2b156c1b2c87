//! Texts without their escapes (RFC 5545, 3.3.11).
ghost use Rattle.std.specs.Prelude.{◌≡◌, ◌<◌, ◌∷◌, length, IfOk};
ghost use Rattle.cal_model.specs.Values.ValueTexts.{escaped, unescaped};

use cal_base::{List, NoMemory, Octets};
use std::alloc::Global;

/// The text that a TEXT stands for: `\n` and `\N` are a line feed, and `\,`, `\;` and `\\` are
/// their second octet. Any other backslash stays.
pub fn unescape(alloc: Global, text: &[u8]) -> Result<Octets, NoMemory>
    ensures { IfOk result (λ plain. plain ≡ unescaped text.now) }
{
    let mut plain = List::new(alloc);
    plain.reserve(text.len())?;
    let mut rest = text;
    'octets: while !rest.is_empty() {
        let (octet, behind) = first_meant(rest);
        plain.push(octet)?;
        rest = behind;
    }
    Ok(plain)
}

/// The first octet that a text stands for, and what is behind its octet or its escape.
fn first_meant(text: &[u8]) -> (u8, &[u8])
    requires { 0 < length text.now }
    ensures meant { unescaped text.now ≡ result.0 ∷ unescaped result.1.now }
    ensures shorter { length result.1.now < length text.now }
{
    if let [b'\\', second, rest @ ..] = text {
        if let Some(meant) = escaped(*second) {
            return (meant, rest);
        }
    }
    (text[0], &text[1..])
}

/// What a backslash and this octet stand for.
fn escaped(octet: u8) -> Option<u8>
    ensures { result ≡ escaped octet }
{
    match octet {
        b'n' | b'N' => Some(b'\n'),
        b',' | b';' | b'\\' => Some(octet),
        _ => None,
    }
}
