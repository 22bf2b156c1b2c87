//! The places of BYSETPOS as tables that are made once for a walk (RFC 5545, 3.3.10).
ghost use Rattle.std.specs.Prelude.{◌≡◌, ℕ, ℤ, List, ◌+◌, ◌<◌, ◌≤◌, ◌==◌, ◌||◌, false, All, slice_index_or};
ghost use Rattle.cal_model.specs.Recurrence.RuleBounds.{IsPlace};
ghost use Rattle.cal_model.specs.Walks.Places.{is_place_within};
ghost use Rattle.cal_model.specs.Walks.SetPlaces.{AreSetPlaces, NeedsPlaces, is_back, is_front};
ghost use Rattle.cal_model.specs.Words.Integers.{some_names_place};

use cal_base::List;

/// Which numbers BYSETPOS has, so that to ask for a place costs the same however many they are.
#[derive(Drop)]
pub struct SetPlaces {
    /// At `n` whether `n` is there.
    pub front: [bool; 367],
    /// At `n` whether `-n - 1` is there: 0 is the last place.
    pub back: [bool; 367],
    /// A period needs so many moments at least to have one of the places.
    pub least: u64,
}

/// Whether a table marks a number.
fn is_marked(table: &[bool; 367], number: u64) -> bool
    ensures { result ≡ slice_index_or table.now number false }
{
    number < 367 && table[number as usize]
}

/// Marks a number.
fn mark(table: &mut [bool; 367], number: u16)
    requires { number < 367 }
    ensures { (n : ℕ) → slice_index_or table.new n false ≡ ((number == n) || slice_index_or table.old n false) }
{
    table[number as usize] = true;
}

/// Marks a number of BYSETPOS.
fn mark_place(front: &mut [bool; 367], back: &mut [bool; 367], number: i16)
    requires { IsPlace 366 number }
    ensures front { (n : ℕ) → slice_index_or front.new n false ≡ (is_front n number || slice_index_or front.old n false) }
    ensures back { (n : ℕ) → slice_index_or back.new n false ≡ (is_back n number || slice_index_or back.old n false) }
{
    if number >= 0 {
        mark(front, number as u16);
    } else {
        mark(back, (-(number as i32 + 1)) as u16);
    }
}

/// How many moments a period needs to have the place that a number names.
fn needed(number: i16) -> u64
    ensures { (most : ℕ) → most < result → is_place_within most number ≡ false }
{
    if number >= 0 {
        number as u64
    } else {
        (-(number as i32)) as u64
    }
}

/// How many moments a period needs at least to have a place that one of the numbers names; where there
/// is no number, more than any names.
fn least_needed(numbers: &List<i16>) -> u64
    ensures { NeedsPlaces numbers.now result }
{
    let size = numbers.len();
    let mut least = 367u64;
    for k in 0..size {
        let number = numbers[k];
        least = least.min(needed(number));
    }
    least
}

/// The places that the numbers of BYSETPOS name.
pub fn set_places_of(numbers: &List<i16>) -> SetPlaces
    requires { All (IsPlace 366) numbers.now }
    ensures { AreSetPlaces numbers.now result }
{
    let mut front = [false; 367];
    let mut back = [false; 367];
    for number in numbers.as_slice() {
        mark_place(&mut front, &mut back, *number);
    }
    let least = least_needed(numbers);
    SetPlaces { front, back, least }
}

impl SetPlaces {
    /// Whether a place of so many is named, from the front or from the end.
    pub fn names(&self, place: u64, size: u64) -> bool
        requires { place ≤ size }
        ensures { (numbers : List ℤ) → AreSetPlaces numbers self.now → result ≡ some_names_place numbers place size }
    {
        let from_front = is_marked(&self.front, place);
        let from_end = is_marked(&self.back, size - place);
        from_front || from_end
    }
}
