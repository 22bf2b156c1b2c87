//! The pieces of a text, read from its front: each reader gives the value and what is left, or, as
//! an error, what is left from the first octet at which no such piece goes on.

ghost use Rattle.std.specs.Prelude.{◌≡◌, ◌+◌, ◌-◌, ◌^◌, ◌<◌, ◌≤◌, ◌∷◌, ◌++◌, IfOk, IfErr, IfSome, IfNone, [], length, codes};
ghost use Rattle.cal_moment.specs.Texts.{digits, sign_text};
ghost use Rattle.cal_moment.specs.Stops.{BeginsWithNo, BeginsWithNoDigit, BeginsWithNoSign, IsNumber, Opens, Stops};

use crate::stamp::Bad;

/// Reads one digit.
pub fn digit(text: &[u8]) -> Option<(u8, &[u8])>
    ensures some { IfSome result (λ found. (found.0 ≤ 9) × (text.now ≡ (48 + found.0) ∷ found.1.now)) }
    ensures none { IfNone result (BeginsWithNoDigit text.now) }
{
    match text {
        [first, rest @ ..] if first.is_ascii_digit() => Some((*first - b'0', rest)),
        _ => None,
    }
}

/// Reads so many digits of a number from `low` to `high`.
pub fn number(text: &[u8], width: u32, low: u32, high: u32) -> Result<(u32, &[u8]), &[u8]>
    requires width { width ≤ 4 }
    requires some { low ≤ high }
    requires fits { low < 10 ^ width }
    ensures ok { IfOk result (λ found. (low ≤ found.0) × (found.0 ≤ high) × (found.0 < 10 ^ width) × (text.now ≡ digits width found.0 ++ found.1.now)) }
    ensures err { IfErr result (λ left. Stops (Opens (IsNumber width low high)) text.now left.now) }
{
    if width == 0 {
        return Ok((0, text));
    }
    let Some((first, rest)) = digit(text) else {
        return Err(text);
    };
    let unit = 10u32.pow(width - 1);
    let begun = u32::from(first) * unit;
    if high < begun || begun + unit <= low {
        return Err(text);
    }
    let (tail, rest) = number(rest, width - 1, low.saturating_sub(begun), high - begun)?;
    Ok((begun + tail, rest))
}

/// Reads one given octet, and gives what is left.
pub fn letter(text: &[u8], wanted: u8) -> Option<&[u8]>
    ensures some { IfSome result (λ rest. text.now ≡ wanted ∷ rest.now) }
    ensures none { IfNone result (BeginsWithNo wanted text.now) }
{
    match text {
        [first, rest @ ..] if *first == wanted => Some(rest),
        _ => None,
    }
}

/// Reads a sign, and whether it is a minus.
pub fn sign(text: &[u8]) -> Option<(bool, &[u8])>
    ensures some { IfSome result (λ found. text.now ≡ sign_text found.0 ++ found.1.now) }
    ensures none { IfNone result (BeginsWithNoSign text.now) }
{
    match text {
        [b'+', rest @ ..] => Some((false, rest)),
        [b'-', rest @ ..] => Some((true, rest)),
        _ => None,
    }
}

/// The fault of a text whose octets from `left` on continue no text of the grammar.
pub fn bad(text: &[u8], left: &[u8]) -> Bad
    requires { length left.now ≤ length text.now }
    ensures { result.place ≡ length text.now - length left.now }
{
    Bad {
        place: (text.len() - left.len()) as u64,
    }
}

/// The octet of a digit.
pub fn decimal(digit: u32) -> u8
    requires { digit ≤ 9 }
    ensures { result ≡ 48 + digit }
{
    b'0' + digit as u8
}
