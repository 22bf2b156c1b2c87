//! How many times of day a rule with BYSETPOS may pick from (RFC 5545, 3.3.10).
ghost use Rattle.std.specs.Prelude.{◌≡◌, ◌<◌, ◌≤◌, ◌==◌, ◌||◌, ℕ, Bool, false, min, max, nat_le, if◌then◌else◌, length, slice_index_or};
ghost use Rattle.cal_model.specs.Values.RuleTexts.{distinct, is_within_bound, times_of_day};

use cal_model::Rule;

/// The most times of day.
const MOST: u64 = 24;

/// Whether a rule without BYSETPOS is given, or one whose BYHOUR, BYMINUTE and BYSECOND name at most
/// 24 times of day.
pub fn is_within_bound(rule: &Rule) -> bool
    ensures { result ≡ is_within_bound rule.now }
{
    rule.by_set_pos.is_empty() || are_few(rule)
}

/// Whether the three parts name at most 24 times of day.
fn are_few(rule: &Rule) -> bool
    ensures { result ≡ nat_le (times_of_day rule.now) 24 }
{
    let hours = times(rule.by_hour.as_slice());
    let minutes = times(rule.by_minute.as_slice());
    let seconds = times(rule.by_second.as_slice());
    hours * minutes * seconds <= MOST
}

/// How many different numbers a part has, as if it had one where it is not there: the number one
/// above the bound stands for all above it.
fn times(numbers: &[u8]) -> u64
    ensures { result ≡ min 25 (max 1 (distinct numbers.now)) }
{
    distinct(numbers).max(1).min(MOST + 1)
}

/// How many numbers there are in a list, each counted once.
fn distinct(numbers: &[u8]) -> u64
    ensures { result ≡ distinct numbers.now }
{
    let mut seen = [false; 256];
    let mut count = 0;
    'numbers: for number in numbers {
        count += mark(&mut seen, *number);
    }
    count
}

/// Marks a number as seen; 1 where it was not, else 0.
fn mark(seen: &mut [bool; 256], number: u8) -> u64
    ensures new { result ≡ (if slice_index_or seen.old number false then 0 else 1) }
    ensures seen { (other : ℕ) → slice_index_or seen.new other false ≡ ((number == other) || slice_index_or seen.old other false) }
{
    let place = number as usize;
    if seen[place] {
        0
    } else {
        seen[place] = true;
        1
    }
}
