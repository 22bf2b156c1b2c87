//! BYDAY as sets that are made once: the ordinals that a rule asks of each weekday (RFC 5545, 3.3.10).
ghost use Rattle.std.specs.Prelude.{◌≡◌, ℕ, ◌+◌, ◌<◌, ◌≤◌, ◌==◌, true, false, if◌then◌else◌, MatchOption};
ghost use Rattle.rrule_step.specs.Ordinals.{AreOrdinals, asks_for, at_back, at_front, is_back, is_front, marks};
ghost use Rattle.rrule_step.specs.Sets.{has};

use crate::set::Set;
use cal_base::List;
use cal_model::DayPart;

/// For each weekday, Monday first, the ordinals that values of BYDAY give it, as the bits of a word.
#[derive(Drop)]
pub struct Ordinals {
    /// From the front, where 0 stands for each occurrence.
    pub front: [u64; 7],
    /// From the end, where 0 stands for the last.
    pub back: [u64; 7],
}

/// The bit of an ordinal that counts from the front.
fn from_front(ordinal: i16) -> Option<u32>
    ensures { MatchOption result ((i : ℕ) → is_front i ordinal ≡ false) (λ n. (i : ℕ) → is_front i ordinal ≡ (n == i)) }
{
    if ordinal >= 0 {
        Some(ordinal as u32)
    } else {
        None
    }
}

/// The bit of an ordinal that counts from the end.
fn from_end(ordinal: i16) -> Option<u32>
    ensures { MatchOption result ((i : ℕ) → is_back i ordinal ≡ false) (λ n. (i : ℕ) → is_back i ordinal ≡ (n == i)) }
{
    if ordinal < 0 {
        Some((-(ordinal as i32 + 1)) as u32)
    } else {
        None
    }
}

/// Marks a number in the word of a weekday, if it is one below 64.
fn mark(words: &mut [u64; 7], weekday: u8, number: u32)
    requires { weekday < 7 }
    ensures { (k i : ℕ) → i < 64 → marks words.new k i ≡ (if (if weekday == k then number == i else false) then true else marks words.old k i) }
{
    if number < 64 {
        words[weekday as usize] |= 1 << number;
    }
}

/// Marks a value of BYDAY whose ordinal counts from the front.
fn mark_front(words: &mut [u64; 7], part: DayPart)
    ensures { (k i : ℕ) → k < 7 → i < 64 → marks words.new k i ≡ (if at_front k i part then true else marks words.old k i) }
{
    if part.weekday < 7 {
        if let Some(number) = from_front(part.ordinal) {
            mark(words, part.weekday, number);
        }
    }
}

/// Marks a value of BYDAY whose ordinal counts from the end.
fn mark_back(words: &mut [u64; 7], part: DayPart)
    ensures { (k i : ℕ) → k < 7 → i < 64 → marks words.new k i ≡ (if at_back k i part then true else marks words.old k i) }
{
    if part.weekday < 7 {
        if let Some(number) = from_end(part.ordinal) {
            mark(words, part.weekday, number);
        }
    }
}

/// The ordinals of the values of BYDAY.
pub fn ordinals_of(parts: &List<DayPart>) -> Ordinals
    ensures { AreOrdinals parts.now result }
{
    let mut front = [0u64; 7];
    let mut back = [0u64; 7];
    for part in parts.as_slice() {
        mark_front(&mut front, *part);
        mark_back(&mut back, *part);
    }
    Ordinals { front, back }
}

impl Ordinals {
    /// Those of a weekday from the front.
    pub fn counted(&self, weekday: u32) -> Set
        requires { weekday < 7 }
        ensures { (i : ℕ) → has result i ≡ marks self.now.front weekday i }
    {
        Set::of(self.front[weekday as usize])
    }

    /// Those of a weekday from the end.
    pub fn counted_back(&self, weekday: u32) -> Set
        requires { weekday < 7 }
        ensures { (i : ℕ) → has result i ≡ marks self.now.back weekday i }
    {
        Set::of(self.back[weekday as usize])
    }
}

/// Whether ordinals of a weekday mean its occurrence at a place of so many days.
pub fn is_asked(front: Set, back: Set, place: u32, size: u32) -> bool
    requires place { place ≤ 430 }
    requires size { size ≤ 366 }
    ensures { result ≡ asks_for (has front) (has back) place size }
{
    front.contains(0)
        || front.contains((place + 6) / 7)
        || back.contains(size.saturating_sub(place) / 7)
}
