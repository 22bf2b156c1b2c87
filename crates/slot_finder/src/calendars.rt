//! The same of several calendars, gone through one after another.

ghost use Rattle.std.specs.Prelude.{All};
ghost use Rattle.slot_finder.specs.FreeTimes.{AreInOrder};
ghost use Rattle.slot_finder.specs.Fits as spec;

use crate::fits::{first_fit, open_until};
use cal_base::List;
use freebusy::Run;

/// In how many calendars the places are noted that a search comes to.
pub(crate) const GUESSES: usize = 32;

/// A moment that is no later than the first one, from one on, behind which so many seconds are free of
/// the runs of all calendars. Each calendar in turn moves it on; where none does, it is that first one.
/// The places that are come to in the first calendars are noted, so that a further round need not look
/// for them.
pub(crate) fn moved_on(
    calendars: &[List<Run>],
    at: i64,
    seconds: u32,
    guesses: &mut [usize; GUESSES],
) -> i64
    requires { All AreInOrder calendars.now }
    ensures { spec.IsMovedOn calendars.now seconds at result }
{
    let mut found = at;
    let mut rest = calendars;
    let mut number = 0;
    'calendars: while let Some((runs, behind)) = rest.split_first() {
        let guess = &mut guesses[number];
        found = first_fit(runs.as_slice(), found, seconds, guess);
        number = (number + 1) % GUESSES;
        rest = behind;
    }
    found
}

/// The last moment, up to a limit, before which the seconds from one on are free of the runs of all
/// calendars.
pub(crate) fn free_until(calendars: &[List<Run>], at: i64, limit: i64) -> i64
    requires { All AreInOrder calendars.now }
    ensures { spec.AreOpenUntil calendars.now at limit result }
{
    let mut found = limit;
    let mut rest = calendars;
    'calendars: while let Some((runs, behind)) = rest.split_first() {
        found = open_until(runs.as_slice(), at, found);
        rest = behind;
    }
    found
}
