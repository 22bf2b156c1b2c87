//! Texts cut at an octet, and texts without the blanks around them.
ghost use Rattle.std.specs.Prelude.{◌≡◌, ◌<◌, ◌≤◌, ◌==◌, ◌∷◌, [], length, option_map, reverse, IfSome, MatchOption};
ghost use Rattle.std.specs.List.{before_first, position_or_len};
ghost use Rattle.httparse.specs.Grammar.{is_ows, skip_ows, trim_ows};
ghost use Rattle.cal_base.specs.Lines.ContentLines.{pieces};
ghost use Rattle.cal_base.specs.Texts.LentTexts.{both_texts};
ghost use Rattle.cal_model.specs.Words.Cuts.{cut_at};

/// What stands before the first octet of a kind, and what stands behind it.
pub fn cut(text: &[u8], octet: u8) -> Option<(&[u8], &[u8])>
    ensures parts { option_map both_texts result ≡ cut_at octet text.now }
    ensures pieces { MatchOption result (pieces octet text.now ≡ text.now ∷ []) (λ parts. pieces octet text.now ≡ parts.0.now ∷ pieces octet parts.1.now) }
    ensures shorter { IfSome result (λ parts. length parts.1.now < length text.now) }
{
    let place = octets_before(text, octet);
    if place < text.len() {
        Some((&text[..place], &text[place + 1..]))
    } else {
        None
    }
}

/// What stands before the first octet of a kind: all of a text without one.
pub fn text_before(text: &[u8], octet: u8) -> &[u8]
    ensures { result.now ≡ before_first (λ other. other == octet) text.now }
{
    let place = octets_before(text, octet);
    &text[..place]
}

/// How many octets stand before the first of a kind.
pub fn octets_before(text: &[u8], octet: u8) -> usize
    ensures first { result ≡ position_or_len (λ other. other == octet) text.now }
    ensures within { result ≤ length text.now }
{
    'octets: for (place, other) in text.iter().enumerate() {
        if *other == octet {
            return place;
        }
    }
    text.len()
}

/// A text without the spaces and tabs around it (RFC 9110, 5.6.3).
pub fn trimmed(text: &[u8]) -> &[u8]
    ensures { result.now ≡ trim_ows text.now }
{
    without_blanks_behind(without_blanks_before(text))
}

/// The text from its first octet on that is no blank.
fn without_blanks_before(text: &[u8]) -> &[u8]
    ensures { result.now ≡ skip_ows text.now }
{
    let mut rest = text;
    'blanks: while let Some((octet, behind)) = rest.split_first() {
        if !is_blank(*octet) {
            return rest;
        }
        rest = behind;
    }
    rest
}

/// The text up to its last octet that is no blank.
fn without_blanks_behind(text: &[u8]) -> &[u8]
    ensures { result.now ≡ reverse (skip_ows (reverse text.now)) }
{
    let mut rest = text;
    'blanks: while let Some((octet, before)) = rest.split_last() {
        if !is_blank(*octet) {
            return rest;
        }
        rest = before;
    }
    rest
}

/// A space or a tab.
fn is_blank(octet: u8) -> bool
    ensures { result ≡ is_ows octet }
{
    octet == b' ' || octet == b'\t'
}
