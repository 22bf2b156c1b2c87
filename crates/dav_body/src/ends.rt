//! Texts within texts.
ghost use Rattle.std.specs.Prelude.{◌≡◌, ◌≤◌, ◌<◌, ◌+◌, length, Option, IsTrue, IsSome};
ghost use Rattle.cal_base.specs.Xml.XmlMarkup.{begins, ends, holds, inside, size_through};
ghost use Rattle.dav_body.specs.Texts.{text_there};

/// Whether a text begins with another.
pub fn begins(text: &[u8], front: &[u8]) -> bool
    ensures value { result ≡ begins text.now front.now }
    ensures within { IsTrue result → length front.now ≤ length text.now }
{
    text.starts_with(front)
}

/// Whether a text ends with another.
pub fn ends(text: &[u8], end: &[u8]) -> bool
    ensures value { result ≡ ends text.now end.now }
    ensures within { IsTrue result → length end.now ≤ length text.now }
{
    text.ends_with(end)
}

/// How many octets a text has through the first place of another in it; all, where it has none.
#[tactic(auto, using(crate::proofs::TextSteps::size_through_step, crate::proofs::TextSteps::size_through_here, crate::proofs::TextSteps::size_through_nil))]
pub fn size_through(end: &[u8], text: &[u8]) -> usize
    ensures size { result ≡ size_through end.now text.now }
    ensures within { result ≤ length text.now }
{
    let mut rest = text;
    'places: while !rest.is_empty() {
        if begins(rest, end) {
            return text.len() - rest.len() + end.len();
        }
        rest = &rest[1..];
    }
    text.len()
}

/// Whether a text, which is not empty, stands somewhere in another.
#[tactic(auto, using(crate::proofs::TextSteps::holds_step, crate::proofs::TextSteps::holds_here, crate::proofs::TextSteps::holds_nil))]
pub fn holds(part: &[u8], text: &[u8]) -> bool
    requires { 0 < length part.now }
    ensures { result ≡ holds part.now text.now }
{
    let mut rest = text;
    'places: while !rest.is_empty() {
        if begins(rest, part) {
            return true;
        }
        rest = &rest[1..];
    }
    false
}

/// What stands between the first so many octets of a text and its end, if it has that end.
pub fn inside<'a>(start: usize, end: &[u8], text: &'a [u8]) -> Option<&'a [u8]>
    requires { start + length end.now < 100 }
    ensures value { text_there result ≡ inside start end.now text.now }
    ensures fits { IsSome result → start + length end.now ≤ length text.now }
{
    if text.len() >= start + end.len() && text.ends_with(end) {
        Some(&text[start..text.len() - end.len()])
    } else {
        None
    }
}
