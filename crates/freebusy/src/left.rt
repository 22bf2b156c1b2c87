//! How many starts and ends of each class lie before a moment that goes from the end of a range to its
//! start.

ghost use Rattle.std.specs.Prelude.{◌≡◌, ◌≤◌, ◌<◌, ◌≤ℤ◌, ◌<ℤ◌, ℤ, pos, false, length, slice_index_or, int_lt, nat_lt};
ghost use Rattle.std.specs.List.{AllWithin};
ghost use Rattle.std.specs.List.Sorted.{IsSorted};
ghost use Rattle.std.specs.Ordering.{int_cmp};
ghost use Rattle.freebusy.specs.Ends.{AreAllRising, AreRising};
ghost use Rattle.freebusy.specs.Left as spec;

use crate::ends::{Classes, Ends};
use cal_model::Class;

/// How many of the starts and of the ends of a class lie before a moment.
#[derive(Clone, Copy)]
pub(crate) struct Counts {
    pub(crate) starts: usize,
    pub(crate) ends: usize,
}

/// A moment, and how many of the starts and of the ends of each class lie before it.
#[derive(Clone, Copy)]
pub(crate) struct Left {
    pub(crate) upper: i64,
    pub(crate) busy: Counts,
    pub(crate) unavailable: Counts,
    pub(crate) tentative: Counts,
}

/// How many of some moments in rising order lie before a moment.
fn count_before(moments: &[i64], upper: i64) -> usize
    requires { IsSorted int_cmp moments.now }
    ensures { spec.AreBefore moments.now upper result }
{
    moments.partition_point(|x| *x < upper)
}

/// The same of a class.
fn counts_before(ends: &Ends, upper: i64) -> Counts
    requires { AreRising ends.now }
    ensures { spec.HaveCounts ends.now upper result }
{
    Counts {
        starts: count_before(ends.starts.as_slice(), upper),
        ends: count_before(ends.ends.as_slice(), upper),
    }
}

/// The same of each class.
pub(crate) fn left_before(classes: &Classes, upper: i64) -> Left
    requires { AreAllRising classes.now }
    ensures upper { result.upper ≡ upper }
    ensures left { spec.AreLeft classes.now result }
{
    Left {
        upper,
        busy: counts_before(&classes.busy, upper),
        unavailable: counts_before(&classes.unavailable, upper),
        tentative: counts_before(&classes.tentative, upper),
    }
}

/// The moment at a place.
fn moment_at(moments: &[i64], place: usize) -> i64
    requires { place < length moments.now }
    ensures { result ≡ slice_index_or moments.now place (pos 0) }
{
    moments[place]
}

/// Whether the moment at a place lies before another.
fn lies_before(moments: &[i64], place: usize, upper: i64) -> bool
    requires { place < length moments.now }
    ensures { result ≡ int_lt (slice_index_or moments.now place (pos 0)) upper }
{
    moments[place] < upper
}

/// The last of the first so many of some moments in rising order, or a moment where that comes later.
fn last_of(moments: &[i64], count: usize, least: i64) -> i64
    requires rising { IsSorted int_cmp moments.now }
    requires bound { count ≤ length moments.now }
    ensures { spec.IsLast moments.now count least result }
{
    if count == 0 {
        return least;
    }
    moment_at(moments, count - 1).max(least)
}

/// The last start or end of a class of those that are left, or a moment where that comes later.
fn last_of_class(ends: &Ends, counts: Counts, least: i64) -> i64
    requires rising { AreRising ends.now }
    requires starts { counts.starts ≤ length ends.now.starts }
    requires ends { counts.ends ≤ length ends.now.ends }
    ensures { spec.IsLastOf ends.now counts least result }
{
    let last = last_of(ends.ends.as_slice(), counts.ends, least);
    last_of(ends.starts.as_slice(), counts.starts, last)
}

/// The last moment before that of `left` at which a class opens or closes, or a moment where that
/// comes later.
pub(crate) fn border(classes: &Classes, left: Left, least: i64) -> i64
    requires rising { AreAllRising classes.now }
    requires left { spec.AreLeft classes.now left }
    requires least { least <ℤ left.upper }
    ensures least { least ≤ℤ result }
    ensures before { result <ℤ left.upper }
    ensures last { spec.AreUpTo classes.now left result }
{
    let busy = last_of_class(&classes.busy, left.busy, least);
    let unavailable = last_of_class(&classes.unavailable, left.unavailable, busy);
    last_of_class(&classes.tentative, left.tentative, unavailable)
}

/// How many of some moments in rising order lie before a moment, where no more than so many do.
fn count_back(moments: &[i64], count: usize, upper: i64) -> usize
    requires rising { IsSorted int_cmp moments.now }
    requires bound { count ≤ length moments.now }
    requires after { AllWithin (λ (x : ℤ). int_lt x upper ≡ false) moments.now count (length moments.now) }
    ensures { spec.AreBefore moments.now upper result }
{
    let mut count = count;
    'back: while count > 0 {
        if lies_before(moments, count - 1, upper) {
            return count;
        }
        count -= 1;
    }
    count
}

/// The same of a class.
fn counts_back(ends: &Ends, counts: Counts, upper: i64) -> Counts
    requires rising { AreRising ends.now }
    requires later { (later : ℤ) × (upper ≤ℤ later) × spec.HaveCounts ends.now later counts }
    ensures { spec.HaveCounts ends.now upper result }
{
    Counts {
        starts: count_back(ends.starts.as_slice(), counts.starts, upper),
        ends: count_back(ends.ends.as_slice(), counts.ends, upper),
    }
}

/// How many lie before a moment that comes no later than that of `left`.
pub(crate) fn left_back(classes: &Classes, left: Left, upper: i64) -> Left
    requires rising { AreAllRising classes.now }
    requires left { spec.AreLeft classes.now left }
    requires back { upper ≤ℤ left.upper }
    ensures upper { result.upper ≡ upper }
    ensures left { spec.AreLeft classes.now result }
{
    Left {
        upper,
        busy: counts_back(&classes.busy, left.busy, upper),
        unavailable: counts_back(&classes.unavailable, left.unavailable, upper),
        tentative: counts_back(&classes.tentative, left.tentative, upper),
    }
}

/// Whether a class has opened more often than closed.
fn is_open(counts: Counts) -> bool
    ensures { result ≡ nat_lt counts.ends counts.starts }
{
    counts.ends < counts.starts
}

/// The greatest class that has opened more often than closed.
pub(crate) fn open_class(left: Left) -> Option<Class>
    ensures { result ≡ spec.class_left left }
{
    if is_open(left.busy) {
        Some(Class::Busy)
    } else if is_open(left.unavailable) {
        Some(Class::Unavailable)
    } else if is_open(left.tentative) {
        Some(Class::Tentative)
    } else {
        None
    }
}
