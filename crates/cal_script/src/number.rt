//! Decimal numbers as frames spell them: digits without a sign and without leading zeros.
ghost use Rattle.std.specs.Prelude.{◌≡◌, ◌↔◌, IsTrue, MatchOption, decimal};
ghost use Rattle.cal_script.specs.FrameHeads.{SpellsNoNumber, IsNumberFront};

use std::str;

/// The number of which a text is the decimal spelling, if it is one below 2^64.
pub(crate) fn read_number(text: &[u8]) -> Option<u64>
    ensures { MatchOption result (SpellsNoNumber text.now) (λ n. text.now ≡ decimal n) }
{
    if !begins_number(text) {
        return None;
    }
    let Ok(digits) = str::from_utf8(text) else {
        return None;
    };
    match digits.parse::<u64>() {
        Ok(number) => Some(number),
        Err(_) => None,
    }
}

/// Whether a text begins with a digit other than 0, or is 0 alone.
fn begins_number(text: &[u8]) -> bool
    ensures { IsTrue result ↔ IsNumberFront text.now }
{
    match text {
        [] => false,
        [first] => b'0' <= *first && *first <= b'9',
        [first, ..] => b'1' <= *first && *first <= b'9',
    }
}
