//! Numbers below 64 as the bits of a word: days of a month, months, hours, minutes and seconds.
ghost use Rattle.std.specs.Prelude.{◌≡◌, ℕ, ◌<◌, ◌≤◌, ◌==◌, true, false, if◌then◌else◌};

use cal_base::List;

/// A set of numbers below 64.
#[derive(Clone, Copy)]
pub struct Set(u64);

impl Set {
    ghost use Rattle.rrule_step.specs.Sets.{has};
    ghost use Rattle.rrule_step.specs.Firsts.{FindsFirst};
    ghost use Rattle.std.specs.Int.{bit_at};

    /// No number.
    pub fn none() -> Set
        ensures { (i : ℕ) → has result i ≡ false }
    {
        Set(0)
    }

    /// The numbers of the bits of a word.
    pub fn of(word: u64) -> Set
        ensures { (i : ℕ) → has result i ≡ (bit_at word i == 1) }
    {
        Set(word)
    }

    /// Each number.
    pub fn all() -> Set
        ensures { (i : ℕ) → i < 64 → has result i ≡ true }
    {
        Set(u64::MAX)
    }

    /// The set with one number more.
    pub fn with(self, number: u32) -> Set
        requires { number < 64 }
        ensures { (i : ℕ) → i < 64 → has result i ≡ (if i == number then true else has self i) }
    {
        Set(self.0 | (1 << number))
    }

    /// The same where that is asked for.
    pub fn with_if(self, number: u32, asked: bool) -> Set
        requires { number < 64 }
        ensures { (i : ℕ) → i < 64 → has result i ≡ (if i == number then (if asked then true else has self i) else has self i) }
    {
        if asked { self.with(number) } else { self }
    }

    /// One number alone.
    pub fn only(number: u32) -> Set
        requires { number < 64 }
        ensures { (i : ℕ) → i < 64 → has result i ≡ (i == number) }
    {
        Set::none().with(number)
    }

    /// What both sets have.
    pub fn both(self, other: Set) -> Set
        ensures { (i : ℕ) → has result i ≡ (if has self i then has other i else false) }
    {
        Set(self.0 & other.0)
    }

    /// Whether it has no number.
    pub fn is_none(self) -> bool
        ensures { result ≡ true → (i : ℕ) → has self i ≡ false }
    {
        self.0 == 0
    }

    /// Whether the set has a number.
    pub fn contains(self, number: u32) -> bool
        requires { number < 64 }
        ensures { result ≡ has self number }
    {
        (self.0 >> number) & 1 == 1
    }

    /// The first number of the set from one on and below an end.
    pub fn next(self, from: u32, end: u32) -> Option<u32>
        requires { end ≤ 64 }
        ensures { FindsFirst (has self) from end result }
    {
        if end <= from {
            return None;
        }
        let rest = self.0 >> from;
        if rest == 0 {
            return None;
        }
        let number = from + rest.trailing_zeros();
        if number < end { Some(number) } else { None }
    }
}
