//! Texts cut at an octet.
ghost use Rattle.std.specs.Prelude.{◌≡◌, ◌<◌, ◌≤◌, length, option_map, IfSome};
ghost use Rattle.cal_base.specs.Xml.XmlMarkup.{is_quote};
ghost use Rattle.dav_body.specs.Splits.{first_split, is_octet, both_texts, around_quote};

use crate::cut::is_quote;

/// The text before the first of an octet, and the text from it on.
pub fn split_at_octet(text: &[u8], separator: u8) -> Option<(&[u8], &[u8])>
    ensures parts { option_map both_texts result ≡ first_split (is_octet separator) text.now }
    ensures some { IfSome result (λ parts. 0 < length parts.1.now) }
    ensures within { IfSome result (λ parts. length parts.1.now ≤ length text.now) }
{
    'octets: for (place, octet) in text.iter().enumerate() {
        if *octet == separator {
            return Some((&text[..place], &text[place..]));
        }
    }
    None
}

/// The text before the first quote, the quote, and the text behind it.
pub fn split_at_quote(text: &[u8]) -> Option<(&[u8], u8, &[u8])>
    ensures parts { option_map around_quote result ≡ first_split is_quote text.now }
    ensures within { IfSome result (λ parts. length parts.2.now < length text.now) }
{
    'octets: for (place, octet) in text.iter().enumerate() {
        if is_quote(*octet) {
            return Some((&text[..place], *octet, &text[place + 1..]));
        }
    }
    None
}
