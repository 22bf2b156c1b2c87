//! Numbers (RFC 5545, 3.3.8).
ghost use Rattle.std.specs.Prelude.{◌≡◌, ◌<◌, ◌≤◌, ◌+◌, drop, pos, neg_ℤ, IfSome, IfNone};
ghost use Rattle.cal_moment.specs.Calendar.{IsBetween};
ghost use Rattle.ical_values.specs.LineTexts.{IsDigitOctet};
ghost use Rattle.cal_moment.specs.Texts.{signed};
ghost use Rattle.cal_model.specs.Values.ValueTexts.{count_of, integer_of, is_negative, sign_length};
ghost use Rattle.cal_model.specs.Values.StampTexts.{repeat_of};

/// Reads an INTEGER: perhaps a sign, and one to nine digits.
pub fn read_integer(text: &[u8]) -> Option<i32>
    ensures value { result ≡ integer_of text.now }
    ensures range { IfSome result (IsBetween (neg_ℤ (pos 999_999_999)) (pos 999_999_999)) }
{
    let (negative, digits) = cut_sign(text);
    match read_count(digits) {
        Some(number) => Some(signed_number(negative, number)),
        None => None,
    }
}

/// Reads the number of a REPEAT: an INTEGER that is not negative (RFC 5545, 3.8.6.2).
pub fn read_repeat(text: &[u8]) -> Option<u32>
    ensures { result ≡ repeat_of text.now }
{
    match read_integer(text) {
        Some(number) if number >= 0 => Some(number as u32),
        _ => None,
    }
}

/// Cuts a sign off a text, and says whether it is a minus; none is plus.
pub fn cut_sign(text: &[u8]) -> (bool, &[u8])
    ensures negative { result.0 ≡ is_negative text.now }
    ensures rest { result.1.now ≡ drop (sign_length text.now) text.now }
{
    match text {
        [b'-', rest @ ..] => (true, rest),
        [b'+', rest @ ..] => (false, rest),
        _ => (false, text),
    }
}

/// A number with its sign.
pub fn signed_number(negative: bool, number: u32) -> i32
    requires { number < 1_000_000_000 }
    ensures value { result ≡ signed negative number }
    ensures range { IsBetween (neg_ℤ (pos number)) (pos number) result }
{
    if negative {
        -(number as i32)
    } else {
        number as i32
    }
}

/// Reads a number of one to nine digits.
fn read_count(text: &[u8]) -> Option<u32>
    ensures value { result ≡ count_of text.now }
    ensures bound { IfSome result (λ number. number < 1_000_000_000) }
{
    if text.is_empty() || text.len() > 9 {
        return None;
    }
    let mut number = 0;
    'digits: for (place, octet) in text.iter().enumerate() {
        let Some(digit) = digit_value(*octet) else {
            return None;
        };
        number = 10 * number + digit;
    }
    Some(number)
}

/// The value of a digit.
pub fn digit_value(octet: u8) -> Option<u32>
    ensures some { IfSome result (λ digit. (digit ≤ 9) × (octet ≡ 48 + digit)) }
    ensures none { IfNone result (IsDigitOctet octet → ⊥) }
{
    if octet.is_ascii_digit() {
        Some(u32::from(octet) - 48)
    } else {
        None
    }
}
