//! White space (XML 1.0, 2.3).
ghost use Rattle.std.specs.Prelude.{◌≡◌, ◌≤◌, length};
ghost use Rattle.cal_base.specs.Xml.XmlNames.{is_blank, are_blanks, begins_with_blank};
ghost use Rattle.cal_base.specs.Xml.XmlMarkup.{without_first_blanks, without_last_blanks};

/// White space: SPACE, TAB, LF or CR (XML 1.0, 2.3).
pub fn is_blank(octet: u8) -> bool
    ensures { result ≡ is_blank octet }
{
    octet == b' ' || octet == b'\t' || octet == b'\n' || octet == b'\r'
}

/// Whether a text is of blanks alone.
pub fn are_blanks(text: &[u8]) -> bool
    ensures { result ≡ are_blanks text.now }
{
    text.iter().all(|octet| is_blank(*octet))
}

/// Whether a text begins with a blank.
pub fn begins_with_blank(text: &[u8]) -> bool
    ensures { result ≡ begins_with_blank text.now }
{
    match text.first() {
        Some(octet) => is_blank(*octet),
        None => false,
    }
}

/// A text without the blanks at its start.
#[tactic(auto, using(crate::proofs::TextSteps::first_blanks_step, crate::proofs::TextSteps::first_blanks_end, crate::proofs::TextSteps::some_blank))]
pub fn without_first_blanks(text: &[u8]) -> &[u8]
    ensures { result.now ≡ without_first_blanks text.now }
{
    let mut rest = text;
    'blanks: while begins_with_blank(rest) {
        rest = &rest[1..];
    }
    rest
}

/// A text without the blanks at its end.
#[tactic(auto, using(crate::proofs::LastBlanks::last_blank, crate::proofs::LastBlanks::no_last_blank, crate::proofs::LastBlanks::no_blank_at_all))]
pub fn without_last_blanks(text: &[u8]) -> &[u8]
    ensures value { result.now ≡ without_last_blanks text.now }
    ensures within { length result.now ≤ length text.now }
{
    let mut rest = text;
    'blanks: while let Some((last, front)) = rest.split_last() {
        if !is_blank(*last) {
            return rest;
        }
        rest = front;
    }
    rest
}
