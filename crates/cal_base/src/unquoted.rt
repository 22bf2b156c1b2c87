//! Cutting a text at separators that stand outside double quotes, and what stands in such quotes.
ghost use Rattle.std.specs.Prelude.{◌≡◌, ◌<◌, ◌==◌, Bool, false, ◌∷◌, length, option_map, IfSome};
ghost use Rattle.std.specs.List.{list_any};
ghost use Rattle.cal_base.specs.Lines.ContentLines.{first_unquoted, quoted_after, quoted_value, unquoted_pieces};
ghost use Rattle.cal_base.specs.Lines.UnquotedParts.{later_pieces};
ghost use Rattle.cal_base.specs.Texts.LentTexts.{both_texts, text_there};
ghost use Rattle.cal_base.specs.Texts.Octets.{double_quote};

/// The text before the first separator outside double quotes, and the text behind it.
pub fn split_unquoted(text: &[u8], separator: u8) -> Option<(&[u8], &[u8])>
    ensures parts { option_map both_texts result ≡ first_unquoted separator false text.now }
    ensures shorter { IfSome result (λ parts. length parts.1.now < length text.now) }
{
    let mut quoted = false;
    'octets: for (place, octet) in text.iter().enumerate() {
        if *octet == separator && !quoted {
            return Some((&text[..place], &text[place + 1..]));
        }
        quoted = is_quoted_after(quoted, *octet);
    }
    None
}

/// Whether what follows an octet stands in double quotes.
fn is_quoted_after(quoted: bool, octet: u8) -> bool
    ensures { result ≡ quoted_after quoted octet }
{
    if octet == b'"' { !quoted } else { quoted }
}

/// The first of a text's pieces between separators outside double quotes, and what stands behind
/// its separator, if it has one.
pub fn first_unquoted_piece(text: &[u8], separator: u8) -> (&[u8], Option<&[u8]>)
    ensures pieces { unquoted_pieces separator false text.now ≡ result.0.now ∷ later_pieces separator (text_there result.1) }
    ensures shorter { IfSome result.1 (λ behind. length behind.now < length text.now) }
{
    match split_unquoted(text, separator) {
        Some((piece, behind)) => (piece, Some(behind)),
        None => (text, None),
    }
}

/// What stands behind an opening quote, without the closing quote, if that is its one quote.
pub fn without_end_quote(text: &[u8]) -> Option<&[u8]>
    ensures { text_there result ≡ quoted_value text.now }
{
    if text.is_empty() {
        return None;
    }
    let end = text.len() - 1;
    let inside = &text[..end];
    if text[end] == b'"' && !has_quote(inside) {
        Some(inside)
    } else {
        None
    }
}

fn has_quote(text: &[u8]) -> bool
    ensures { result ≡ list_any (λ octet. octet == double_quote) text.now }
{
    text.iter().any(|octet| *octet == b'"')
}
