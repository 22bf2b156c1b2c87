//! Numbers in digits.
ghost use Rattle.std.specs.Prelude.{◌≡◌, ◌≤◌, ◌<◌, ◌^◌, length, nat_le, if◌then◌else◌, IfSome, None};
ghost use Rattle.cal_base.specs.Xml.XmlMarkup.{digit_value, number_of_digits};

/// The number of one digit or more, up to so many, of the base 10 or 16.
pub(crate) fn number(base: usize, digits: &[u8], most: usize) -> Option<usize>
    requires base { 10 ≤ base }
    requires room { base ^ most ≤ 2 ^ 64 }
    ensures { result ≡ (if nat_le (length digits.now) most then number_of_digits base digits.now else None) }
{
    if digits.is_empty() || digits.len() > most {
        return None;
    }
    let mut number = 0;
    'digits: for (place, octet) in digits.iter().enumerate() {
        let Some(digit) = digit_of(base, *octet) else {
            return None;
        };
        number = number * base + digit;
    }
    Some(number)
}

/// The value of a digit of the base 10 or 16, in either case.
fn digit_of(base: usize, octet: u8) -> Option<usize>
    requires { 10 ≤ base }
    ensures value { result ≡ digit_value base octet }
    ensures below { IfSome result (λ digit. digit < base) }
{
    match octet {
        b'0'..=b'9' => Some(usize::from(octet - 48)),
        b'a'..=b'f' if base == 16 => Some(usize::from(octet - 87)),
        b'A'..=b'F' if base == 16 => Some(usize::from(octet - 55)),
        _ => None,
    }
}
