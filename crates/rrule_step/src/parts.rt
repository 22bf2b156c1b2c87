//! Parts of a rule as sets.
ghost use Rattle.std.specs.Prelude.{◌≡◌, ℕ, ◌<◌, ◌==◌, true, if◌then◌else◌};
ghost use Rattle.cal_model.specs.Words.Lists as lists;
ghost use Rattle.cal_model.specs.Recurrence.Passing as spec;
ghost use Rattle.rrule_step.specs.Sets.{has};

use crate::set::Set;
use cal_base::List;
use cal_model::Freq;

/// A set with one number more, if it is one below 64.
fn with_small(set: Set, number: u8) -> Set
    ensures { (i : ℕ) → i < 64 → has result i ≡ (if i == number then true else has set i) }
{
    if number < 64 {
        set.with(number as u32)
    } else {
        set
    }
}

/// The numbers of a part.
pub fn numbers_of(part: &List<u8>) -> Set
    ensures { (i : ℕ) → i < 64 → has result i ≡ lists.has_number part.now i }
{
    let mut set = Set::none();
    for number in part.as_slice() {
        set = with_small(set, *number);
    }
    set
}

/// A part of the time; where it is absent, the start's value.
pub fn time_part(part: &List<u8>, of_start: u32) -> Set
    requires { of_start < 64 }
    ensures { (i : ℕ) → i < 64 → has result i ≡ spec.part_passes part.now of_start i }
{
    if part.is_empty() {
        Set::only(of_start)
    } else {
        numbers_of(part)
    }
}

/// BYHOUR; where it is absent, the start's hour, and under HOURLY each.
pub fn hour_part(freq: Freq, part: &List<u8>, of_start: u32) -> Set
    requires { of_start < 64 }
    ensures { (i : ℕ) → i < 64 → has result i ≡ spec.hour_passes freq part.now of_start i }
{
    match freq {
        Freq::Hourly => {
            if part.is_empty() {
                Set::all()
            } else {
                numbers_of(part)
            }
        }
        _ => time_part(part, of_start),
    }
}
