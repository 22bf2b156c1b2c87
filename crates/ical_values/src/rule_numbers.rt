//! Numbers in the parts of rules, each within the bounds of its part (RFC 5545, 3.3.10).
ghost use Rattle.std.specs.Prelude.{◌≡◌, ◌<◌, ◌≤◌, ◌+◌, ◌*◌, IfOk, IfErr, IfSome, IfNone, ◌&&◌, ◌||◌, nat_le, nat_lt, true, drop, pos, neg_ℤ};
ghost use Rattle.cal_moment.specs.BadPlace.{IsBadAt};
ghost use Rattle.cal_moment.specs.Calendar.{IsBetween};
ghost use Rattle.cal_model.specs.Values.BadValues.{Reads};
ghost use Rattle.cal_model.specs.Values.RuleTexts.{number_of, place_number};
ghost use Rattle.cal_model.specs.Values.ValueTexts.{is_negative, sign_length};
ghost use Rattle.ical_values.specs.RuleNumbers.{count_within};

use crate::numbers::{cut_sign, digit_value, signed_number};
use cal_moment::Bad;

/// Reads one to nine digits that are a number from a least, 0 or 1, to a greatest. A number below
/// the least goes on with a further digit, one above the greatest does not.
fn read_within(text: &[u8], low: u32, high: u32) -> Result<u32, Bad>
    requires least { low ≤ 1 }
    requires some { low ≤ high }
    requires most { high < 1_000_000_000 }
    ensures ok { IfOk result (λ number. count_within low high text.now ≡ Some number) }
    ensures most { IfOk result (λ number. number ≤ high) }
    ensures bad { IfErr result (λ fault. IsBadAt (Reads (count_within low high)) text.now fault.place) }
{
    let mut number = 0;
    'digits: for (place, octet) in text.iter().enumerate() {
        let Some(digit) = digit_value(*octet) else {
            return Err(Bad {
                place: place as u64,
            });
        };
        if place == 9 {
            return Err(Bad {
                place: place as u64,
            });
        }
        number = 10 * number + digit;
        if !takes(number, place, low, high) {
            return Err(Bad {
                place: place as u64,
            });
        }
    }
    if text.is_empty() || number < low {
        return Err(Bad {
            place: text.len() as u64,
        });
    }
    Ok(number)
}

/// Whether digits up to a place, with this number, go on to a number within bounds.
fn takes(number: u32, place: usize, low: u32, high: u32) -> bool
    ensures { result ≡ (nat_le number high && (nat_lt place 8 || nat_le low number)) }
{
    number <= high && (place < 8 || low <= number)
}

/// Reads an INTEGER from a least, 0 or 1, to a greatest.
pub fn read_number(text: &[u8], low: u32, high: u32) -> Result<u32, Bad>
    requires least { low ≤ 1 }
    requires some { 1 ≤ high }
    requires most { high < 1_000_000_000 }
    ensures ok { IfOk result (λ number. number_of low high text.now ≡ Some number) }
    ensures most { IfOk result (λ number. number ≤ high) }
    ensures bad { IfErr result (λ fault. IsBadAt (Reads (number_of low high)) text.now fault.place) }
{
    let (negative, digits) = cut_sign(text);
    if negative {
        return read_minus(text, digits, low, high);
    }
    match read_within(digits, low, high) {
        Ok(number) => Ok(number),
        Err(fault) => Err(Bad {
            place: (text.len() - digits.len()) as u64 + fault.place,
        }),
    }
}

/// Reads an INTEGER that has a minus before these digits: only 0 is not negative.
fn read_minus(text: &[u8], digits: &[u8], low: u32, high: u32) -> Result<u32, Bad>
    requires least { low ≤ 1 }
    requires some { 1 ≤ high }
    requires minus { is_negative text.now ≡ true }
    requires digits { digits.now ≡ drop (sign_length text.now) text.now }
    ensures ok { IfOk result (λ number. number_of low high text.now ≡ Some number) }
    ensures most { IfOk result (λ number. number ≤ high) }
    ensures bad { IfErr result (λ fault. IsBadAt (Reads (number_of low high)) text.now fault.place) }
{
    if low == 1 {
        return Err(Bad { place: 0 });
    }
    match read_within(digits, 0, 0) {
        Ok(number) => Ok(number),
        Err(fault) => Err(Bad {
            place: (text.len() - digits.len()) as u64 + fault.place,
        }),
    }
}

/// Reads an INTEGER other than 0 of at most a size.
pub fn read_place(text: &[u8], most: u32) -> Result<i16, Bad>
    requires some { 1 ≤ most }
    requires most { most ≤ 366 }
    ensures ok { IfOk result (λ number. place_number most text.now ≡ Some number) }
    ensures range { IfOk result (IsBetween (neg_ℤ (pos 366)) (pos 366)) }
    ensures bad { IfErr result (λ fault. IsBadAt (Reads (place_number most)) text.now fault.place) }
{
    let (negative, digits) = cut_sign(text);
    match read_within(digits, 1, most) {
        Ok(number) => Ok(signed_number(negative, number) as i16),
        Err(fault) => Err(Bad {
            place: (text.len() - digits.len()) as u64 + fault.place,
        }),
    }
}
